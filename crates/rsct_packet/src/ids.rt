//! The ids of providers, views, rings and protocols, and want of memory.
ghost use Rattle.std.specs.Prelude.{◌≡◌};
ghost use Rattle.rsct_packet.specs.Ids.{risen};

use std::alloc::{AllocError, AllocFailed};

/// Memory has run out. It is the one answer that no clause ties to a cause.
#[derive(Clone, Copy, Debug, PartialEq, Eq)]
pub struct NoMemory;

impl From<AllocError> for NoMemory {
    fn from(_e: AllocError) -> NoMemory {
        NoMemory
    }
}

impl<T: Drop> From<AllocFailed<T>> for NoMemory {
    fn from(_e: AllocFailed<T>) -> NoMemory {
        NoMemory
    }
}

/// A provider: its node (1 to 32) and that node's incarnation, the instance number that its client chose,
/// and the number of the request that joined it. Written `1.1.7.1`.
#[derive(Clone, Copy, Debug, Default, PartialEq, Eq, PartialOrd, Ord)]
pub struct ProviderId {
    pub node: u8,
    pub inc: u32,
    pub instance: u16,
    pub join: u32,
}

/// A view: its number, its coordinator (1 to 32) and the coordinator's incarnation, ordered in that
/// sequence. Written `2.1.1`.
#[derive(Clone, Copy, Debug, PartialEq, Eq, PartialOrd, Ord)]
pub struct ViewId {
    pub number: u32,
    pub coord: u8,
    pub inc: u32,
}

/// A heartbeat ring: its leader (1 to 32), the leader's incarnation, and the number that the leader gave
/// it. Written `3.1.2`.
#[derive(Clone, Copy, Debug, PartialEq, Eq)]
pub struct RingId {
    pub leader: u8,
    pub inc: u32,
    pub number: u32,
}

/// A protocol: the view and the place of the entry that began it, ordered in that sequence. Written
/// `2.1.1/3`.
#[derive(Clone, Copy, Debug, PartialEq, Eq, PartialOrd, Ord)]
pub struct ProtoId {
    pub view: ViewId,
    pub place: u32,
}

/// A node (1 to 32) with its incarnation.
#[derive(Clone, Copy, Debug, PartialEq, Eq)]
pub struct Member {
    pub node: u8,
    pub inc: u32,
}

/// A count that has risen by one, or stands still at its last value.
#[tactic(auto, unfolding(crate::specs::Ids::risen))]
pub fn risen(count: u32) -> u32
    ensures { result ≡ risen count }
{
    if count == u32::MAX { count } else { count + 1 }
}
