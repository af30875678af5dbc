//! What lists begin with.
ghost use Rattle.std.specs.Prelude.{◌≡◌, ◌∷◌, [], List, ℕ, None, Some, is_some, option_copied, IfOk, OnOk};
ghost use Rattle.std.specs.Map.{lookup};
ghost use Rattle.proposal_core.specs.Fold.{empty_state};
ghost use Rattle.word_laws.specs.Values.{spaced};
ghost use Rattle.record_lines.specs.declared.line.BaseLine.{BaseLine};
ghost use Rattle.record_lines.specs.declared.line.Line.{Line};
ghost use Rattle.record_lines.specs.declared.line.Line.TheVariants as line;
ghost use Rattle.record_lines.specs.Writing.{base_words};
ghost use Rattle.run_audit.specs.Keys.{view_key};
ghost use Rattle.run_audit.specs.Lists.{is_list_key, same_list_key};
ghost use Rattle.run_audit.specs.Past.{base_state};
ghost use Rattle.audit_states.specs.States.{AreListBases, begun_state};

use indexmap::IndexMap;
use rsct_packet::{List, NoMemory, ViewId};
use run_audit::{ListKey, State, list_key};
use std::alloc::Global;
use std::marker::Model;

/// The words of a base line, and the state that the list begins with.
#[derive(Drop)]
pub struct ListBase {
    pub text: List<u8>,
    pub state: State,
}

/// What the first base line of each list says.
#[derive(Drop)]
pub struct ListBases {
    by_key: IndexMap<ListKey, ListBase>,
}

impl Model for ListBases {
    ghost use Rattle.std.specs.Prelude.{List};
    ghost use Rattle.audit_states.specs.declared.list_bases.ListBase.{ListBase};
    ghost use Rattle.run_audit.specs.declared.lists.ListKey.{ListKey};

    ghost Value = { List (ListKey × ListBase) };

    ghost view = { λ s. s.by_key.entries };
}

impl ListBases {
    /// Of no lines.
    pub fn new(alloc: Global) -> ListBases
        ensures { AreListBases [] result }
    {
        ListBases {
            by_key: IndexMap::new(alloc),
        }
    }

    /// What the first base line of the list says.
    pub fn first(
        &self,
        alloc: Global,
        view: ViewId,
        group: &[u8],
    ) -> Result<Option<&ListBase>, NoMemory>
        ensures { IfOk result (λ x. option_copied x
            ≡ lookup (is_list_key view group.now) self.now) }
    {
        let key = list_key(alloc, view, group)?;
        Ok(self.by_key.get(&key))
    }

    /// Has the list a base line?
    pub fn has(&self, key: &ListKey) -> bool
        ensures { result ≡ is_some (lookup (same_list_key key.now) self.now) }
    {
        self.by_key.contains_key(key)
    }

    /// The state that the list begins with: that of a group that nobody has joined, where there is no base line.
    #[tactic(auto, unfolding(crate::specs::States::begun_state))]
    pub fn state<'a>(
        &'a self,
        alloc: Global,
        view: ViewId,
        group: &[u8],
        empty: &'a State,
    ) -> Result<&'a State, NoMemory>
        ensures { IfOk result (λ s. empty.now ≡ empty_state
            → s.now ≡ begun_state (lookup (is_list_key view group.now) self.now)) }
    {
        match self.first(alloc, view, group)? {
            None => Ok(empty),
            Some(base) => Ok(&base.state),
        }
    }

    /// The first base line of the list says this.
    pub fn note(&mut self, key: ListKey, base: ListBase) -> Result<(), NoMemory>
        ensures { OnOk result ((ls : List Line) (n : ℕ) (v : ViewId) (g : List ℕ) (b : BaseLine)
            → AreListBases ls self.old → key.view ≡ view_key v → key.group.items ≡ g
            → lookup (same_list_key key) self.old ≡ None → base.text ≡ spaced (base_words b)
            → base.state ≡ base_state v g (line.Base n v g b ∷ ls)
            → AreListBases (line.Base n v g b ∷ ls) self.new) }
    {
        self.by_key.insert(key, base)?;
        Ok(())
    }
}
