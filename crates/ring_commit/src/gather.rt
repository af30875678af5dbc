//! A gathering for a ring that is to be.
ghost use Rattle.std.specs.Prelude.{◌≡◌, ℕ, IsTrue};
ghost use Rattle.rsct_packet.specs.Mask.{has_node};
ghost use Rattle.ring_commit.specs.Gather.{gather_opened, is_awaited, gather_acked, all_acked};

use rsct_packet::{Mask, RingId};

/// The ring that is to be, the nodes that are asked for it, and those of them that have acknowledged.
#[derive(Clone, Copy, Debug, PartialEq, Eq)]
pub struct Gather {
    pub id: RingId,
    pub asked: Mask,
    pub acked: Mask,
}

impl Gather {
    /// A gathering of these nodes, of which `me`, who gathers them, has acknowledged.
    #[tactic(auto, unfolding(crate::specs::Gather::gather_opened))]
    pub fn open(id: RingId, asked: Mask, me: u8) -> Gather
        ensures { result ≡ gather_opened id asked me }
    {
        Gather {
            id,
            asked,
            acked: Mask::empty().with(me),
        }
    }

    /// Notes the acknowledgement. True exactly where the node was asked and had not acknowledged.
    #[tactic(auto, unfolding(crate::specs::Gather::gather_acked, crate::specs::Gather::is_awaited))]
    pub fn ack(&mut self, node: u8) -> bool
        ensures first { result ≡ is_awaited self.old node }
        ensures gather { self.new ≡ gather_acked self.old node }
    {
        if !self.asked.has(node) || self.acked.has(node) {
            return false;
        }
        self.acked = self.acked.with(node);
        true
    }

    /// Have all that were asked acknowledged?
    #[tactic(auto, unfolding(crate::specs::Gather::all_acked))]
    pub fn all(&self) -> bool
        ensures value { result ≡ all_acked self.now }
        ensures each { IsTrue result → (n : ℕ) → IsTrue (has_node self.now.asked n)
            → IsTrue (has_node self.now.acked n) }
    {
        self.asked.common(self.acked) == self.asked
    }

    /// Those that have acknowledged: the members of the ring.
    pub fn close(self) -> Mask
        ensures { result ≡ self.acked }
    {
        self.acked
    }
}
