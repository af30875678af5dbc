//! The first line of each view.
ghost use Rattle.std.specs.Prelude.{◌≡◌, ◌+◌, ◌∷◌, [], List, ℕ, length, option_copied, OnOk};
ghost use Rattle.std.specs.Map.{lookup};
ghost use Rattle.std.specs.Option.{option_map};
ghost use Rattle.record_lines.specs.declared.line.Line.{Line};
ghost use Rattle.record_lines.specs.declared.line.Line.TheVariants as line;
ghost use Rattle.run_audit.specs.Past.{first_no, members_of};
ghost use Rattle.run_audit.specs.Table.{first_node, is_in_of};
ghost use Rattle.run_audit.specs.Keys.{same_view_key};
ghost use Rattle.run_audit.specs.Views.{AreViews};

use crate::keys::{ViewKey, view_key};
use indexmap::IndexMap;
use rsct_packet::{Member, Members, NoMemory, ViewId};
use std::alloc::Global;
use std::marker::Model;

/// The node that entered the view first, the number of that line, and the members in it.
#[derive(Drop)]
pub struct FirstIn {
    pub node: u8,
    pub number: u32,
    pub members: Members,
}

/// The first line of each view.
#[derive(Drop)]
pub struct Views {
    by_key: IndexMap<ViewKey, FirstIn>,
}

impl Model for Views {
    ghost use Rattle.std.specs.Prelude.{List};
    ghost use Rattle.run_audit.specs.declared.views.FirstIn.{FirstIn};
    ghost use Rattle.run_audit.specs.declared.keys.ViewKey.{ViewKey};

    ghost Value = { List (ViewKey × FirstIn) };

    ghost view = { λ s. s.by_key.entries };
}

impl Views {
    /// Of no lines.
    pub fn new(alloc: Global) -> Views
        ensures { AreViews [] result }
    {
        Views {
            by_key: IndexMap::new(alloc),
        }
    }

    fn first(&self, key: ViewKey) -> Option<&FirstIn>
        ensures { option_copied result ≡ lookup (same_view_key key) self.now }
    {
        self.by_key.get(&key)
    }

    /// The members of a view: those in its first line.
    pub fn members(&self, view: ViewId) -> Option<&[Member]>
        ensures { (ls : List Line) → AreViews ls self.now
            → option_map (λ x. x.now) result ≡ members_of view ls }
    {
        match self.first(view_key(view)) {
            None => None,
            Some(first) => Some(first.members.as_slice()),
        }
    }

    /// The number of the view's first line.
    pub fn first_line(&self, view: ViewId) -> Option<u32>
        ensures { (ls : List Line) → AreViews ls self.now
            → result ≡ first_no (is_in_of view) ls }
    {
        match self.first(view_key(view)) {
            None => None,
            Some(first) => Some(first.number),
        }
    }

    /// The node that entered the view first.
    pub fn first_node(&self, view: ViewId) -> Option<u8>
        ensures { (ls : List Line) → AreViews ls self.now → result ≡ first_node view ls }
    {
        match self.first(view_key(view)) {
            None => None,
            Some(first) => Some(first.node),
        }
    }

    /// In the line of this number the node enters the view with these members.
    #[tactic(auto, using(crate::proofs::ViewLaws::noted_again))]
    pub fn note(
        &mut self,
        node: u8,
        view: ViewId,
        members: Members,
        number: u32,
    ) -> Result<(), NoMemory>
        ensures { OnOk result ((ls : List Line) → AreViews ls self.old
            → number ≡ length ls + 1 → AreViews (line.In node view members ∷ ls) self.new) }
    {
        let key = view_key(view);
        match self.first(key) {
            Some(_) => Ok(()),
            None => {
                let first = FirstIn {
                    node,
                    number,
                    members,
                };
                self.by_key.insert(key, first)?;
                Ok(())
            }
        }
    }
}
