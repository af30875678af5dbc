//! What rings tell one another.
use rsct_packet::{Mask, RingId};

/// A packet of a ring.
#[derive(Clone, Copy, Debug, PartialEq, Eq)]
pub enum RingPacket {
    /// The sender is alive, in this ring.
    Heartbeat { ring: RingId },
    /// The sender leads this ring, and the receiver is not in it.
    Proclaim { ring: RingId },
    /// These want to join the receiver's ring.
    Join { mask: Mask },
    /// Prepare to commit: the ring that is to be, and the nodes asked for it.
    Ptc { ring: RingId, mask: Mask },
    /// The sender has promised that ring.
    PtcAck { ring: RingId },
    /// The ring is set, with these members.
    Commit { ring: RingId, mask: Mask },
    /// The node of this ring is silent.
    Death { ring: RingId, node: u8 },
}

/// A packet of a ring on its way to a node.
#[derive(Clone, Copy, Debug, PartialEq, Eq)]
pub struct RingSend {
    pub network: u8,
    pub to: u8,
    pub packet: RingPacket,
}

/// What a ring takes: a tick, or a packet with its sender and the sender's incarnation.
#[derive(Clone, Copy, Debug, PartialEq, Eq)]
pub enum RingEvent {
    Tick,
    Packet {
        from: u8,
        inc: u32,
        packet: RingPacket,
    },
}
