//! Why a play ends early.
ghost use Rattle.std.specs.Prelude.{◌≡◌};
ghost use Rattle.play_state.specs.Faults.{fault_of_world, fault_of_put};
ghost use Rattle.play_state.specs.declared.play_fault.PutFault.TheVariants as put_fault;
ghost use Rattle.play_state.specs.declared.play_fault.PlayFault.TheVariants as play_fault;

use crate::world_fault::WorldFault;
use rsct_packet::NoMemory;
use thiserror::Error;

/// Why a play ended early: the packets sent passed its limit, with this many bytes; the sink failed; or memory has
/// run out.
#[derive(Clone, Copy, Debug, PartialEq, Eq, Error)]
pub enum PlayFault {
    #[error("too much kept: {0} bytes")]
    Kept(u64),
    #[error("write fault")]
    WriteFault,
    #[error("no memory")]
    NoMemory,
}

/// Why records were not written: the sink failed, or memory has run out.
#[derive(Clone, Copy, Debug, PartialEq, Eq)]
pub enum PutFault {
    WriteFault,
    NoMemory,
}

impl From<NoMemory> for PutFault {
    ghost from_gives = { λ _ e. e ≡ put_fault.NoMemory };

    fn from(_e: NoMemory) -> PutFault {
        PutFault::NoMemory
    }
}

impl From<NoMemory> for PlayFault {
    ghost from_gives = { λ _ e. e ≡ play_fault.NoMemory };

    fn from(_e: NoMemory) -> PlayFault {
        PlayFault::NoMemory
    }
}

impl From<WorldFault> for PlayFault {
    ghost from_gives = { λ f e. e ≡ fault_of_world f };

    fn from(fault: WorldFault) -> PlayFault {
        match fault {
            WorldFault::NoMemory => PlayFault::NoMemory,
            WorldFault::TooMuchKept(n) => PlayFault::Kept(n),
        }
    }
}

impl From<PutFault> for PlayFault {
    ghost from_gives = { λ f e. e ≡ fault_of_put f };

    fn from(fault: PutFault) -> PlayFault {
        match fault {
            PutFault::WriteFault => PlayFault::WriteFault,
            PutFault::NoMemory => PlayFault::NoMemory,
        }
    }
}
