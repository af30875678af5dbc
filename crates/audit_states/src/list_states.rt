//! The states of lists.
ghost use Rattle.std.specs.Prelude.{◌≡◌, ◌∷◌, [], List, ℕ, option_copied, true, IfOk, OnOk};
ghost use Rattle.word_laws.specs.Values.{spaced};
ghost use Rattle.record_lines.specs.declared.line.Line.{Line};
ghost use Rattle.record_lines.specs.declared.line.Line.TheVariants as line;
ghost use Rattle.record_lines.specs.Writing.{base_words};
ghost use Rattle.run_audit.specs.declared.broken.Rule.TheVariants as rule;
ghost use Rattle.run_audit.specs.Kept.{Keep};
ghost use Rattle.run_audit.specs.Past.{base_of, base_state, list_of, puts_of, state_of};
ghost use Rattle.audit_states.specs.States.{AllFit, AreListStates, cut_of, kept_base, kept_row};
ghost use Rattle.run_audit.specs.Table.{holds};

use crate::folding::{fold, front};
use crate::list_bases::{ListBase, ListBases};
use crate::row_states::{RowState, RowStates};
use crate::whole_lists::WholeLists;
use proposal_core::Entry;
use record_lines::BaseLine;
use rsct_packet::{List, NoMemory, ViewId};
use run_audit::{State, list_key, row_key};
use std::alloc::Global;

/// The entries of each list, the state that it begins with, the state of each node's, and that of a group that nobody has
/// joined.
#[derive(Drop)]
pub struct ListStates {
    lists: WholeLists,
    bases: ListBases,
    rows: RowStates,
    empty: State,
}

impl ListStates {
    /// Of no lines.
    pub fn new(alloc: Global) -> ListStates
        ensures { AreListStates [] result }
    {
        ListStates {
            lists: WholeLists::new(alloc),
            bases: ListBases::new(alloc),
            rows: RowStates::new(alloc),
            empty: State::empty(alloc),
        }
    }

    /// The entries of the list, in order.
    pub fn entries(&self, alloc: Global, view: ViewId, group: &[u8]) -> Result<&[Entry], NoMemory>
        ensures { IfOk result (λ es. (ls : List Line) → AreListStates ls self.now
            → es.now ≡ list_of view group.now ls) }
    {
        let entries = self.lists.entries(alloc, view, group)?;
        Ok(entries)
    }

    /// What the first base line of the list says.
    pub fn first_base(
        &self,
        alloc: Global,
        view: ViewId,
        group: &[u8],
    ) -> Result<Option<&ListBase>, NoMemory>
        ensures { IfOk result (λ x. (ls : List Line) → AreListStates ls self.now
            → option_copied x
            ≡ kept_base (base_of view group.now ls) (base_state view group.now ls)) }
    {
        let first = self.bases.first(alloc, view, group)?;
        Ok(first)
    }

    /// The state that the list begins with.
    pub fn base(&self, alloc: Global, view: ViewId, group: &[u8]) -> Result<&State, NoMemory>
        ensures { IfOk result (λ s. (ls : List Line) → AreListStates ls self.now
            → s.now ≡ base_state view group.now ls) }
    {
        let state = self.bases.state(alloc, view, group, &self.empty)?;
        Ok(state)
    }

    /// The last place of the node's list, what is told of the entry there, and the state: of a list that it put into.
    pub fn row(
        &self,
        alloc: Global,
        node: u8,
        view: ViewId,
        group: &[u8],
    ) -> Result<Option<&RowState>, NoMemory>
        ensures { IfOk result (λ x. (ls : List Line) → AreListStates ls self.now
            → option_copied x ≡ kept_row (puts_of node view group.now ls)
            (state_of node view group.now ls)) }
    {
        let row = self.rows.row(alloc, node, view, group)?;
        Ok(row)
    }

    /// The state of the node's list.
    pub fn state(
        &self,
        alloc: Global,
        node: u8,
        view: ViewId,
        group: &[u8],
    ) -> Result<&State, NoMemory>
        ensures { IfOk result (λ s. (ls : List Line) → AreListStates ls self.now
            → s.now ≡ state_of node view group.now ls) }
    {
        match self.rows.row(alloc, node, view, group)? {
            None => {
                let state = self.base(alloc, view, group)?;
                Ok(state)
            }
            Some(row) => Ok(&row.state),
        }
    }

    /// What the base's old list comes to, up to its length.
    pub fn cut(&self, alloc: Global, group: &[u8], base: &BaseLine) -> Result<State, NoMemory>
        ensures { IfOk result (λ s. (ls : List Line) → AreListStates ls self.now
            → s ≡ cut_of base.now group.now ls) }
    {
        let begun = self.base(alloc, base.old, group)?;
        let mut state = begun.copy(alloc)?;
        let entries = self.lists.entries(alloc, base.old, group)?;
        fold(
            alloc,
            base.old,
            &mut state,
            front(entries, base.len as usize),
        )?;
        Ok(state)
    }

    /// The node puts the entry at the place.
    pub fn note_put(
        &mut self,
        alloc: Global,
        node: u8,
        view: ViewId,
        group: &[u8],
        place: u32,
        entry: &Entry,
    ) -> Result<(), NoMemory>
        ensures { OnOk result ((ls : List Line) → AreListStates ls self.old
            → holds rule.Place (line.Put node view group.now place entry.now) ls ≡ true
            → AreListStates (line.Put node view group.now place entry.now ∷ ls) self.new) }
    {
        self.lists.note(alloc, view, group, place, entry)?;
        let key = row_key(alloc, node, view, group)?;
        let base = self.bases.state(alloc, view, group, &self.empty)?;
        self.rows.note(alloc, key, base, view, place, entry)?;
        Ok(())
    }

    /// The base line of these words says what the list begins with, where it is the first. One that comes behind puts
    /// changes what they come to.
    pub fn note_base(
        &mut self,
        alloc: Global,
        view: ViewId,
        group: &[u8],
        base: &BaseLine,
        text: List<u8>,
    ) -> Result<(), NoMemory>
        ensures { OnOk result ((ls : List Line) (n : ℕ) → AreListStates ls self.old
            → AllFit ls → Keep rule.Place ls → Keep rule.Entry ls
            → text ≡ spaced (base_words base.now)
            → AreListStates (line.Base n view group.now base.now ∷ ls) self.new) }
    {
        let key = list_key(alloc, view, group)?;
        if self.bases.has(&key) {
            return Ok(());
        }
        let mut state = self.cut(alloc, group, base)?;
        let failed = base.failed.copy(alloc)?;
        state.set_failed(failed);
        let entries = self.lists.entries(alloc, view, group)?;
        self.rows.refold_all(alloc, view, group, entries, &state)?;
        self.bases.note(key, ListBase { text, state })?;
        Ok(())
    }
}
