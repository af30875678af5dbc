//! The last starts of nodes.
ghost use Rattle.std.specs.Prelude.{◌≡◌, ◌+◌, ◌∷◌, [], List, length, nat_eq, OnOk};
ghost use Rattle.std.specs.Map.{lookup};
ghost use Rattle.run_audit.specs.declared.broken.Rule.TheVariants as rule;
ghost use Rattle.record_lines.specs.declared.line.Line.{Line};
ghost use Rattle.record_lines.specs.declared.line.Line.TheVariants as line;
ghost use Rattle.run_audit.specs.Kept.{Keep, fault_of};
ghost use Rattle.run_audit.specs.Past.{inc_of};
ghost use Rattle.run_audit.specs.Starts.{AreStarts};

use crate::broken::{Fault, Rule};
use indexmap::IndexMap;
use rsct_packet::NoMemory;
use std::alloc::Global;
use std::marker::Model;

/// The incarnation of a node's last start, and the number of its line.
#[derive(Clone, Copy, Debug, PartialEq, Eq)]
pub struct Start {
    pub inc: u32,
    pub number: u32,
}

/// The last start of each node.
#[derive(Drop)]
pub struct Starts {
    by_node: IndexMap<u8, Start>,
}

impl Model for Starts {
    ghost use Rattle.std.specs.Prelude.{ℕ, List};
    ghost use Rattle.run_audit.specs.declared.starts.Start.{Start};

    ghost Value = { List (ℕ × Start) };

    ghost view = { λ s. s.by_node.entries };
}

impl Starts {
    /// Of no lines.
    pub fn new(alloc: Global) -> Starts
        ensures { AreStarts [] result }
    {
        Starts {
            by_node: IndexMap::new(alloc),
        }
    }

    /// The last start of a node.
    fn last(&self, node: u8) -> Option<Start>
        ensures { result ≡ lookup (nat_eq node) self.now }
    {
        self.by_node.get(&node).copied()
    }

    /// The incarnation of the node's last start.
    pub fn inc(&self, node: u8) -> Option<u32>
        ensures { (ls : List Line) → AreStarts ls self.now → result ≡ inc_of node ls }
    {
        match self.last(node) {
            None => None,
            Some(start) => Some(start.inc),
        }
    }

    /// What the table says of a start: nothing where it keeps the rule.
    #[tactic(auto, using(crate::proofs::StartLaws::kept_start, crate::proofs::StartLaws::broken_start, crate::proofs::StartLaws::first_start))]
    pub fn fault(&self, node: u8, inc: u32) -> Option<Fault>
        ensures { (ls : List Line) → AreStarts ls self.now → Keep rule.Life ls
            → result ≡ fault_of rule.Life (line.Up node inc) ls }
    {
        match self.last(node) {
            None => None,
            Some(start) => {
                if start.inc < inc {
                    None
                } else {
                    Some(Fault {
                        rule: Rule::Life,
                        with_line: Some(start.number),
                    })
                }
            }
        }
    }

    /// A node starts, in the line of this number.
    #[tactic(auto, using(crate::proofs::StartLaws::noted))]
    pub fn note(&mut self, node: u8, inc: u32, number: u32) -> Result<(), NoMemory>
        ensures ok { OnOk result ((ls : List Line) → AreStarts ls self.old
            → number ≡ length ls + 1 → AreStarts (line.Up node inc ∷ ls) self.new) }
    {
        self.by_node.insert(node, Start { inc, number })?;
        Ok(())
    }
}
