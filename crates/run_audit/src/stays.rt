//! The view that each node is in.
ghost use Rattle.std.specs.Prelude.{◌≡◌, ◌∷◌, [], List, ℕ, nat_eq, OnOk};
ghost use Rattle.std.specs.Map.{lookup};
ghost use Rattle.rsct_packet.specs.declared.ids.Member.{Member};
ghost use Rattle.record_lines.specs.declared.line.Line.{Line};
ghost use Rattle.record_lines.specs.declared.line.Line.TheVariants as line;
ghost use Rattle.run_audit.specs.Past.{view_of};
ghost use Rattle.run_audit.specs.Views.{AreStays, view_in};

use indexmap::IndexMap;
use rsct_packet::{NoMemory, ViewId};
use std::alloc::Global;
use std::marker::Model;

/// The view of a node of which this is kept.
#[tactic(auto, unfolding(crate::specs::Views::view_in))]
fn view_in(kept: Option<Option<ViewId>>) -> Option<ViewId>
    ensures { result ≡ view_in kept }
{
    match kept {
        None => None,
        Some(view) => view,
    }
}

/// The view that each node is in, none from its start to the first view that it enters.
#[derive(Drop)]
pub struct Stays {
    by_node: IndexMap<u8, Option<ViewId>>,
}

impl Model for Stays {
    ghost use Rattle.std.specs.Prelude.{ℕ, List, Option};
    ghost use Rattle.rsct_packet.specs.declared.ids.ViewId.{ViewId};

    ghost Value = { List (ℕ × Option ViewId) };

    ghost view = { λ s. s.by_node.entries };
}

impl Stays {
    /// Of no lines.
    pub fn new(alloc: Global) -> Stays
        ensures { AreStays [] result }
    {
        Stays {
            by_node: IndexMap::new(alloc),
        }
    }

    /// What is kept of the node.
    fn last(&self, node: u8) -> Option<Option<ViewId>>
        ensures { result ≡ lookup (nat_eq node) self.now }
    {
        self.by_node.get(&node).copied()
    }

    /// The view that the node is in.
    pub fn view(&self, node: u8) -> Option<ViewId>
        ensures { (ls : List Line) → AreStays ls self.now → result ≡ view_of node ls }
    {
        view_in(self.last(node))
    }

    /// The node starts.
    pub fn note_up(&mut self, node: u8) -> Result<(), NoMemory>
        ensures { OnOk result ((ls : List Line) (inc : ℕ) → AreStays ls self.old
            → AreStays (line.Up node inc ∷ ls) self.new) }
    {
        self.by_node.insert(node, None)?;
        Ok(())
    }

    /// The node enters the view.
    pub fn note_in(&mut self, node: u8, view: ViewId) -> Result<(), NoMemory>
        ensures { OnOk result ((ls : List Line) (ms : List Member) → AreStays ls self.old
            → AreStays (line.In node view ms ∷ ls) self.new) }
    {
        self.by_node.insert(node, Some(view))?;
        Ok(())
    }
}
