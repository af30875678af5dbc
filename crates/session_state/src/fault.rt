//! Why a session call is refused.
use group_attr::AttrFault;
use rsct_packet::NoMemory;

/// The first bad parameter of a call.
#[derive(Clone, Copy, Debug, PartialEq, Eq)]
pub enum Field {
    Name,
    Value,
    Message,
    Targets,
    Subscription,
}

/// Why a session call is refused: the first check that fails. `Collide` carries the number of the outstanding
/// request, `SessionsFull` carries 64.
#[derive(Clone, Copy, Debug, PartialEq, Eq)]
pub enum GsFault {
    NoInit,
    Exists,
    NameTooLong,
    BadParameter(Field),
    BadClientToken,
    BadMemberToken,
    UnknownGroup,
    BadGroupAttributes(AttrFault),
    VoteNotExpected,
    Collide(u32),
    SessionsFull(u32),
    Spent,
    NoMemory,
}

impl From<NoMemory> for GsFault {
    ghost use Rattle.std.specs.Prelude.{◌≡◌};
    ghost use Rattle.session_state.specs.declared.fault.GsFault.TheVariants.{NoMemory};

    ghost from_gives = { λ _ f. f ≡ NoMemory };

    fn from(_e: NoMemory) -> GsFault {
        GsFault::NoMemory
    }
}
