//! Why a play ends early.
ghost use Rattle.std.specs.Prelude.{◌≡◌};
ghost use Rattle.play_state.specs.declared.world_fault.WorldFault.TheVariants as fault;

use rsct_packet::NoMemory;

/// Why what happens was not played: memory has run out, or the packets of the play have passed its limit, with this
/// many bytes.
#[derive(Clone, Copy, Debug, PartialEq, Eq)]
pub enum WorldFault {
    NoMemory,
    TooMuchKept(u64),
}

impl From<NoMemory> for WorldFault {
    ghost from_gives = { λ _ e. e ≡ fault.NoMemory };

    fn from(_e: NoMemory) -> WorldFault {
        WorldFault::NoMemory
    }
}
