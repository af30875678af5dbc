//! The way to a node that may be several steps away.
ghost use Rattle.std.specs.Prelude.{◌≡◌, ◌⊎◌, ◌↔◌, IfSome, None, find};
ghost use Rattle.rsct_packet.specs.Mask.{no_nodes, node_numbers, has_node, with_node};
ghost use Rattle.node_reach.specs.Walks.{Reached};
ghost use Rattle.node_reach.specs.Hops.{is_linked, touches, is_further, further, is_hop, hop_in, hop_from, next_hop, IsNextHop};

use crate::reach::Reach;
use rsct_packet::{Mask, NODES};

impl Reach {
    /// Does each of the two stand in the kept row of the other?
    #[tactic(auto, unfolding(crate::specs::Hops::is_linked))]
    fn is_linked(&self, node: u8, other: u8) -> bool
        ensures { result ≡ is_linked self.now node other }
    {
        self.names(node, other) && self.names(other, node)
    }

    /// Is it linked with one of these nodes?
    #[tactic(auto, unfolding(crate::specs::Hops::touches))]
    fn touches(&self, near: Mask, node: u8) -> bool
        ensures { result ≡ touches self.now near node }
    {
        NODES
            .iter()
            .any(|a| near.has(*a) && self.is_linked(node, *a))
    }

    /// Is it linked with one of these nodes, and none of them?
    #[tactic(auto, unfolding(crate::specs::Hops::is_further))]
    fn is_further(&self, near: Mask, node: u8) -> bool
        ensures { result ≡ is_further self.now near node }
    {
        !near.has(node) && self.touches(near, node)
    }

    /// The nodes that are a step further away than these.
    #[tactic(auto, unfolding(crate::specs::Hops::further))]
    fn further(&self, near: Mask) -> Mask
        ensures { result ≡ further self.now near }
    {
        NODES
            .iter()
            .copied()
            .filter(|b| self.is_further(near, *b))
            .fold(Mask::empty(), |new, b| new.with(b))
    }

    /// Is it one of these nodes, and the own one is linked with it?
    #[tactic(auto, unfolding(crate::specs::Hops::is_hop))]
    fn is_hop(&self, near: Mask, node: u8) -> bool
        ensures { result ≡ is_hop self.now near node }
    {
        near.has(node) && self.is_linked(self.me, node)
    }

    #[tactic(auto, unfolding(crate::specs::Hops::hop_in))]
    fn hop_in(&self, near: Mask) -> Option<u8>
        ensures { result ≡ hop_in self.now near }
    {
        NODES.iter().copied().find(|n| self.is_hop(near, *n))
    }

    /// The search goes outward from the target until it comes beside the own node: each time there are more nodes,
    /// so 32 times are enough.
    #[tactic(auto, using(crate::proofs::HopLaws::hop_found, crate::proofs::HopLaws::hop_on, crate::proofs::HopLaws::hop_closed, crate::proofs::HopLaws::hop_end, std::proofs::lemmas::Grind::common_steps))]
    fn hop_from(&self, target: Mask) -> Option<u8>
        ensures { result ≡ hop_from 32 self.now target }
    {
        let mut near = target;
        for i in 0..32u8 {
            if let Some(hop) = self.hop_in(near) {
                return Some(hop);
            }
            let new = self.further(near);
            if new.first().is_none() {
                return None;
            }
            near = near.union(new);
        }
        None
    }

    /// Where a packet goes first that is for this node: the least node that is second on a shortest walk from the own
    /// node to it. None exactly where it is the own node, or is not reached.
    #[tactic(auto, unfolding(crate::specs::Hops::next_hop), using(crate::proofs::HopLaws::hops_are_exact))]
    pub fn next_hop(&self, to: u8) -> Option<u8>
        ensures value { result ≡ next_hop self.now to }
        ensures none { result ≡ None ↔ (to ≡ self.now.me) ⊎ (Reached self.now to → ⊥) }
        ensures some { IfSome result (λ n. IsNextHop self.now to n) }
    {
        if to == self.me {
            return None;
        }
        self.hop_from(Mask::empty().with(to))
    }
}
