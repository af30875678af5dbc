//! The first line of each ring.
ghost use Rattle.std.specs.Prelude.{◌≡◌, ◌+◌, ◌∷◌, [], List, ℕ, length, option_copied, OnOk};
ghost use Rattle.std.specs.Map.{lookup};
ghost use Rattle.run_audit.specs.declared.broken.Rule.TheVariants as rule;
ghost use Rattle.record_lines.specs.declared.line.Line.{Line};
ghost use Rattle.record_lines.specs.declared.line.Line.TheVariants as line;
ghost use Rattle.run_audit.specs.Kept.{fault_of};
ghost use Rattle.run_audit.specs.Rings.{AreRings, key_of, same_key, like_first, line_of, ring_keeps};
ghost use Rattle.run_audit.specs.Table.{has_node};

use crate::broken::{Fault, Rule};
use indexmap::IndexMap;
use rsct_packet::{List, NoMemory, RingId};
use std::alloc::Global;
use std::marker::Model;
use value_words::is_word;

/// A ring on a network.
#[derive(Clone, Copy, Debug, PartialEq, Eq, Hash)]
pub struct RingKey {
    pub network: u8,
    pub leader: u8,
    pub inc: u32,
    pub number: u32,
}

/// The members in the ring's first line, and the number of the line.
#[derive(Drop)]
pub struct FirstRing {
    pub members: List<u8>,
    pub number: u32,
}

fn key_of(network: u8, ring: RingId) -> RingKey
    ensures { result ≡ key_of network ring }
{
    RingKey {
        network,
        leader: ring.leader,
        inc: ring.inc,
        number: ring.number,
    }
}

/// Is the node among these?
#[tactic(auto, unfolding(crate::specs::Table::has_node))]
fn has_node(nodes: &[u8], node: u8) -> bool
    ensures { result ≡ has_node nodes.now node }
{
    nodes.iter().any(|n| *n == node)
}

/// The number of its line.
#[tactic(auto, unfolding(crate::specs::Rings::line_of))]
fn line_of(first: Option<&FirstRing>) -> Option<u32>
    ensures { result ≡ line_of (option_copied first.entry) }
{
    match first {
        None => None,
        Some(first) => Some(first.number),
    }
}

/// Has the ring no line yet, or these members in its first?
#[tactic(auto, unfolding(crate::specs::Rings::like_first))]
fn is_like_first(first: Option<&FirstRing>, members: &[u8]) -> bool
    ensures { result ≡ like_first (option_copied first.entry) members.now }
{
    match first {
        None => true,
        Some(first) => is_word(members, first.members.as_slice()),
    }
}

/// Does a line keep the rule on rings?
#[tactic(auto, unfolding(crate::specs::Rings::ring_keeps))]
fn is_kept(first: Option<&FirstRing>, node: u8, ring: RingId, members: &[u8], neighbour: u8) -> bool
    ensures { result ≡ ring_keeps (option_copied first.entry) node ring members.now neighbour }
{
    has_node(members, node)
        && has_node(members, ring.leader)
        && has_node(members, neighbour)
        && (ring.number == u32::MAX || is_like_first(first, members))
}

/// The first line of each ring.
#[derive(Drop)]
pub struct Rings {
    by_key: IndexMap<RingKey, FirstRing>,
}

impl Model for Rings {
    ghost use Rattle.std.specs.Prelude.{List};
    ghost use Rattle.run_audit.specs.declared.rings.FirstRing.{FirstRing};
    ghost use Rattle.run_audit.specs.declared.rings.RingKey.{RingKey};

    ghost Value = { List (RingKey × FirstRing) };

    ghost view = { λ s. s.by_key.entries };
}

impl Rings {
    /// Of no lines.
    pub fn new(alloc: Global) -> Rings
        ensures { AreRings [] result }
    {
        Rings {
            by_key: IndexMap::new(alloc),
        }
    }

    /// The first line of a ring.
    fn first(&self, key: RingKey) -> Option<&FirstRing>
        ensures { option_copied result ≡ lookup (same_key key) self.now }
    {
        self.by_key.get(&key)
    }

    /// What the table says of a ring's line: nothing where it keeps the rule.
    pub fn fault(
        &self,
        node: u8,
        network: u8,
        ring: RingId,
        members: &[u8],
        neighbour: u8,
    ) -> Option<Fault>
        ensures { (ls : List Line) → AreRings ls self.now
            → result ≡ fault_of rule.Ring
            (line.Ring node network ring members.now neighbour) ls }
    {
        let first = self.first(key_of(network, ring));
        if is_kept(first, node, ring, members, neighbour) {
            None
        } else {
            Some(Fault {
                rule: Rule::Ring,
                with_line: line_of(first),
            })
        }
    }

    /// The line of this number sets the ring with these members.
    #[tactic(auto, using(crate::proofs::RingLaws::noted_again))]
    pub fn note(
        &mut self,
        network: u8,
        ring: RingId,
        members: List<u8>,
        number: u32,
    ) -> Result<(), NoMemory>
        ensures { OnOk result ((ls : List Line) (n m : ℕ) → AreRings ls self.old
            → number ≡ length ls + 1
            → AreRings (line.Ring n network ring members m ∷ ls) self.new) }
    {
        let key = key_of(network, ring);
        match self.first(key) {
            Some(_) => Ok(()),
            None => {
                self.by_key.insert(key, FirstRing { members, number })?;
                Ok(())
            }
        }
    }
}
