//! Sets of nodes.
ghost use Rattle.std.specs.Prelude.{◌≡◌, ◌≤◌, ◌<◌, ◌==◌, IfOk, count_by, find, option_copied};
ghost use Rattle.std.specs.Int.{bit_at};
ghost use Rattle.rsct_packet.specs.Mask.{no_nodes, is_node, node_numbers, has_node, with_node, without_node, union_of, common_of, nodes_of};

use crate::ids::NoMemory;
use std::alloc::Global;

/// How many nodes a domain has at most: their numbers are from 1 to this.
pub const MAX_NODES: u8 = 32;

/// The numbers that nodes have, ascending.
pub const NODES: [u8; 32] = [
    1, 2, 3, 4, 5, 6, 7, 8, 9, 10, 11, 12, 13, 14, 15, 16, 17, 18, 19, 20, 21, 22, 23, 24, 25, 26,
    27, 28, 29, 30, 31, 32,
];

/// The numbers that networks have, ascending.
pub const NETWORKS: [u8; 4] = [1, 2, 3, 4];

/// A set of nodes from 1 to 32: bit `n - 1` stands for node `n`.
#[derive(Clone, Copy, Debug, PartialEq, Eq)]
pub struct Mask {
    pub bits: u32,
}

/// Is this bit one?
#[tactic(auto, using(std::proofs::lemmas::Nat::Bits::shr_and_one, std::proofs::lemmas::Grind::common_steps))]
fn is_set(bits: u32, place: u8) -> bool
    requires { place < 32 }
    ensures { result ≡ (bit_at bits place == 1) }
{
    (bits >> place) & 1 == 1
}

/// Is this the number of a node, from 1 to 32?
pub fn is_node_number(node: u8) -> bool
    ensures { result ≡ is_node node }
{
    node >= 1 && node <= MAX_NODES
}

impl Mask {
    /// The set of no node.
    pub fn empty() -> Mask
        ensures { result ≡ no_nodes }
    {
        Mask { bits: 0 }
    }

    /// Is the node one of them? No node outside 1 to 32 is.
    #[tactic(auto, unfolding(crate::specs::Mask::has_node))]
    pub fn has(self, node: u8) -> bool
        ensures { result ≡ has_node self node }
    {
        is_node_number(node) && is_set(self.bits, node - 1)
    }

    /// The set with this node. A number that is none from 1 to 32 changes nothing.
    #[tactic(auto, unfolding(crate::specs::Mask::with_node))]
    pub fn with(self, node: u8) -> Mask
        ensures { result ≡ with_node self node }
    {
        if !is_node_number(node) {
            return self;
        }
        Mask {
            bits: self.bits | 1 << (node - 1),
        }
    }

    /// The set without this node.
    #[tactic(auto, unfolding(crate::specs::Mask::without_node))]
    pub fn without(self, node: u8) -> Mask
        ensures { result ≡ without_node self node }
    {
        if !is_node_number(node) {
            return self;
        }
        Mask {
            bits: self.bits & !(1 << (node - 1)),
        }
    }

    /// The nodes of either.
    #[tactic(auto, unfolding(crate::specs::Mask::union_of))]
    pub fn union(self, other: Mask) -> Mask
        ensures { result ≡ union_of self other }
    {
        Mask {
            bits: self.bits | other.bits,
        }
    }

    /// The nodes of both.
    #[tactic(auto, unfolding(crate::specs::Mask::common_of))]
    pub fn common(self, other: Mask) -> Mask
        ensures { result ≡ common_of self other }
    {
        Mask {
            bits: self.bits & other.bits,
        }
    }

    /// How many they are.
    pub fn len(self) -> usize
        ensures { result ≡ count_by (has_node self) node_numbers }
    {
        NODES.iter().filter(|n| self.has(**n)).count()
    }

    /// The least of them.
    pub fn first(self) -> Option<u8>
        ensures { result ≡ find (has_node self) node_numbers }
    {
        NODES.iter().copied().find(|n| self.has(*n))
    }

    /// They, ascending.
    #[tactic(auto, unfolding(crate::specs::Mask::nodes_of))]
    pub fn nodes(self, alloc: Global) -> Result<Vec<u8>, NoMemory>
        ensures { IfOk result (λ v. v.items ≡ nodes_of self) }
    {
        Ok(
            NODES
                .iter()
                .copied()
                .filter(|n| self.has(*n))
                .collect(alloc)?,
        )
    }
}
