//! Why work over an outside stops.
ghost use Rattle.std.specs.Prelude.{◌≡◌};
ghost use Rattle.link_use.specs.declared.stop.Stop.TheVariants as stop;

use rsct_packet::NoMemory;

/// Why who works over an outside stops: memory has run out; a write failed; the link could not be opened, or 16 receives
/// in a row failed; who asked, or called, had no reply to it by its last turn; the session of a client is over, since its
/// daemon was started anew, or keeps no more keys; or a daemon was paused for longer than it bears. A daemon stops by one
/// of the first three or by a pause, which stops nobody else, and a question by no failed write and no session.
#[derive(Clone, Copy, Debug, PartialEq, Eq)]
pub enum Stop {
    NoMemory,
    WriteFault,
    LinkFault,
    NoReply,
    SessionLost,
    DaemonFull,
    Paused,
}

impl From<NoMemory> for Stop {
    ghost from_gives = { λ _ e. e ≡ stop.NoMemory };

    fn from(_e: NoMemory) -> Stop {
        Stop::NoMemory
    }
}
