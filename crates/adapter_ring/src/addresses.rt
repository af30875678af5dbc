//! The order of adapters by address.
ghost use Rattle.std.specs.Prelude.{◌≡◌, IfOk};
ghost use Rattle.adapter_ring.specs.Addresses.{addr_of, has_addr, is_higher, higher_of, lower_of, highest_of, lowest_of, next_lower, next_higher, neighbour_in, upstream_in, crown_prince_in, is_highest, outside, all_have_addr};

use crate::ring::RingSettings;
use rsct_packet::{Mask, NODES, NoMemory, is_node_number};
use std::alloc::Global;

impl RingSettings {
    /// The address of the node's adapter; 0 where it has none.
    #[tactic(auto, unfolding(crate::specs::Addresses::addr_of))]
    pub fn addr_of(&self, node: u8) -> u32
        ensures { result ≡ addr_of self.now node }
    {
        if is_node_number(node) {
            self.addr[(node - 1) as usize]
        } else {
            0
        }
    }

    /// Has the node an adapter?
    #[tactic(auto, unfolding(crate::specs::Addresses::has_addr))]
    pub fn has_addr(&self, node: u8) -> bool
        ensures { result ≡ has_addr self.now node }
    {
        self.addr_of(node) > 0
    }

    /// Is the first one's address higher than the second's?
    #[tactic(auto, unfolding(crate::specs::Addresses::is_higher))]
    pub fn is_higher(&self, first: u8, second: u8) -> bool
        ensures { result ≡ is_higher self.now first second }
    {
        self.addr_of(first) > self.addr_of(second)
    }

    #[tactic(auto, unfolding(crate::specs::Addresses::higher_of))]
    fn higher_of(&self, best: Option<u8>, node: u8) -> Option<u8>
        ensures { result ≡ higher_of self.now best node }
    {
        match best {
            None => Some(node),
            Some(b) => if self.is_higher(node, b) {
                Some(node)
            } else {
                Some(b)
            },
        }
    }

    #[tactic(auto, unfolding(crate::specs::Addresses::lower_of))]
    fn lower_of(&self, best: Option<u8>, node: u8) -> Option<u8>
        ensures { result ≡ lower_of self.now best node }
    {
        match best {
            None => Some(node),
            Some(b) => if self.is_higher(b, node) {
                Some(node)
            } else {
                Some(b)
            },
        }
    }

    /// The node of the highest address among these.
    #[tactic(auto, unfolding(crate::specs::Addresses::highest_of, crate::specs::Addresses::highest, rsct_packet::specs::Mask::nodes_of))]
    pub fn highest_of(&self, members: Mask) -> Option<u8>
        ensures { result ≡ highest_of self.now members }
    {
        NODES
            .iter()
            .copied()
            .filter(|n| members.has(*n))
            .fold(None, |best, n| self.higher_of(best, n))
    }

    /// The node of the lowest address among these.
    #[tactic(auto, unfolding(crate::specs::Addresses::lowest_of, crate::specs::Addresses::lowest, rsct_packet::specs::Mask::nodes_of))]
    pub fn lowest_of(&self, members: Mask) -> Option<u8>
        ensures { result ≡ lowest_of self.now members }
    {
        NODES
            .iter()
            .copied()
            .filter(|n| members.has(*n))
            .fold(None, |best, n| self.lower_of(best, n))
    }

    /// The highest of those that are lower than the node.
    #[tactic(auto, unfolding(crate::specs::Addresses::next_lower, crate::specs::Addresses::highest, rsct_packet::specs::Mask::nodes_of))]
    pub fn next_lower(&self, node: u8, members: Mask) -> Option<u8>
        ensures { result ≡ next_lower self.now node members }
    {
        NODES
            .iter()
            .copied()
            .filter(|n| members.has(*n))
            .filter(|n| self.is_higher(node, *n))
            .fold(None, |best, n| self.higher_of(best, n))
    }

    /// The lowest of those that are higher than the node.
    #[tactic(auto, unfolding(crate::specs::Addresses::next_higher, crate::specs::Addresses::lowest, rsct_packet::specs::Mask::nodes_of))]
    pub fn next_higher(&self, node: u8, members: Mask) -> Option<u8>
        ensures { result ≡ next_higher self.now node members }
    {
        NODES
            .iter()
            .copied()
            .filter(|n| members.has(*n))
            .filter(|n| self.is_higher(*n, node))
            .fold(None, |best, n| self.lower_of(best, n))
    }

    /// The next lower of these, and of the lowest the highest.
    #[tactic(auto, unfolding(crate::specs::Addresses::neighbour_in, crate::specs::Addresses::some_of))]
    pub fn neighbour_in(&self, me: u8, members: Mask) -> u8
        ensures { result ≡ neighbour_in self.now me members }
    {
        self.next_lower(me, members)
            .or(self.highest_of(members))
            .unwrap_or(me)
    }

    /// The next higher of these, and of the highest the lowest.
    #[tactic(auto, unfolding(crate::specs::Addresses::upstream_in, crate::specs::Addresses::some_of))]
    pub fn upstream_in(&self, me: u8, members: Mask) -> u8
        ensures { result ≡ upstream_in self.now me members }
    {
        self.next_higher(me, members)
            .or(self.lowest_of(members))
            .unwrap_or(me)
    }

    /// The node of the second highest address among these; 0 where there is none.
    #[tactic(auto, unfolding(crate::specs::Addresses::crown_prince_in, crate::specs::Addresses::node_or_none))]
    pub fn crown_prince_in(&self, members: Mask) -> u8
        ensures { result ≡ crown_prince_in self.now members }
    {
        let leader = self.highest_of(members).unwrap_or(0);
        self.highest_of(members.without(leader)).unwrap_or(0)
    }

    /// Has the node the highest address of these?
    #[tactic(auto, unfolding(crate::specs::Addresses::is_highest, crate::specs::Addresses::node_or_none))]
    pub fn is_highest(&self, node: u8, members: Mask) -> bool
        ensures { result ≡ is_highest self.now node members }
    {
        self.highest_of(members).unwrap_or(0) == node
    }

    /// Has each of these an adapter?
    #[tactic(auto, unfolding(crate::specs::Addresses::all_have_addr, rsct_packet::specs::Mask::nodes_of))]
    pub fn all_have_addr(&self, members: Mask) -> bool
        ensures { result ≡ all_have_addr self.now members }
    {
        NODES
            .iter()
            .copied()
            .filter(|n| members.has(*n))
            .all(|n| self.has_addr(n))
    }

    /// The nodes with an adapter that are none of these, ascending.
    #[tactic(auto, unfolding(crate::specs::Addresses::outside))]
    pub fn outside(&self, alloc: Global, members: Mask) -> Result<Vec<u8>, NoMemory>
        ensures { IfOk result (λ v. v.items ≡ outside self.now members) }
    {
        Ok(
            NODES
                .iter()
                .copied()
                .filter(|n| self.has_addr(*n) && !members.has(*n))
                .collect(alloc)?,
        )
    }
}
