//! The state of each node's list.
ghost use Rattle.std.specs.Prelude.{◌≡◌, ◌&&◌, ◌∷◌, [], List, ℕ, Some, cond, nat_le, nat_lt, option_copied, true, IfNone, IfOk, OnOk};
ghost use Rattle.std.specs.Map.{KeepsOthers, lookup};
ghost use Rattle.word_laws.specs.Entries.{kind_of};
ghost use Rattle.record_lines.specs.declared.line.Line.{Line};
ghost use Rattle.record_lines.specs.declared.line.Line.TheVariants as line;
ghost use Rattle.run_audit.specs.declared.broken.Rule.TheVariants as rule;
ghost use Rattle.run_audit.specs.Keys.{view_key};
ghost use Rattle.run_audit.specs.Lists.{RowAt, is_row_key, same_row_key};
ghost use Rattle.run_audit.specs.Past.{base_state, is_list};
ghost use Rattle.audit_states.specs.States.{AreRowStates, refolded, row_state};
ghost use Rattle.run_audit.specs.Table.{holds, what_of};

use crate::folding::{fold, front};
use indexmap::IndexMap;
use proposal_core::{Entry, Proposal};
use record_lines::What;
use rsct_packet::{MAX_NODES, NoMemory, ViewId};
use run_audit::{RowKey, State, row_key};
use std::alloc::Global;
use std::marker::Model;
use word_laws::Kind;

/// The last place of a node's list, what is told of the entry there, and the state behind it.
#[derive(Drop)]
pub struct RowState {
    pub place: u32,
    pub what: What,
    pub state: State,
}

#[tactic(auto, unfolding(word_laws::specs::Entries::kind_of))]
fn kind_of(proposal: &Proposal) -> Kind
    ensures { result ≡ kind_of proposal.now }
{
    match proposal {
        Proposal::Join { .. } => Kind::Join,
        Proposal::Leave { .. } => Kind::Leave,
        Proposal::Fail { .. } => Kind::Fail,
        Proposal::Expel { .. } => Kind::Expel,
        Proposal::State { .. } => Kind::State,
        Proposal::Message { .. } => Kind::Message,
        Proposal::Attributes { .. } => Kind::Attributes,
        Proposal::Reflect { .. } => Kind::Reflect,
    }
}

/// What is told of an entry.
#[tactic(auto, unfolding(run_audit::specs::Table::what_of))]
fn what_of(entry: &Entry) -> What
    ensures { result ≡ what_of entry.now }
{
    match entry {
        Entry::Once(proposal) => What::Once(kind_of(proposal)),
        Entry::Begin(proposal) => What::Begin(kind_of(proposal)),
        Entry::Phase(_) => What::Phase,
        Entry::Approve(_) => What::Approve,
        Entry::Reject(_) => What::Reject,
        Entry::Late { .. } => What::Late,
    }
}

/// The state of a row that was kept, or a copy of that which its list begins with.
#[tactic(auto, unfolding(crate::specs::States::row_state))]
fn state_in(alloc: Global, row: Option<RowState>, base: &State) -> Result<State, NoMemory>
    ensures { IfOk result (λ s. s ≡ row_state row base.now) }
{
    match row {
        None => base.copy(alloc),
        Some(row) => {
            let RowState {
                place: _,
                what: _,
                state,
            } = row;
            Ok(state)
        }
    }
}

/// The row over another state: folded anew from these entries of its list.
fn refold_row(
    alloc: Global,
    row: RowState,
    view: ViewId,
    entries: &[Entry],
    base: &State,
) -> Result<RowState, NoMemory>
    ensures { IfOk result (λ x. Some x ≡ refolded view base.now entries.now (Some row)) }
{
    let RowState {
        place,
        what,
        state: _old,
    } = row;
    let mut state = base.copy(alloc)?;
    fold(alloc, view, &mut state, front(entries, place as usize + 1))?;
    Ok(RowState { place, what, state })
}

/// The state of each node's list, where it has put anything.
#[derive(Drop)]
pub struct RowStates {
    by_key: IndexMap<RowKey, RowState>,
}

impl Model for RowStates {
    ghost use Rattle.std.specs.Prelude.{List};
    ghost use Rattle.run_audit.specs.declared.lists.RowKey.{RowKey};
    ghost use Rattle.audit_states.specs.declared.row_states.RowState.{RowState};

    ghost Value = { List (RowKey × RowState) };

    ghost view = { λ s. s.by_key.entries };
}

impl RowStates {
    /// Of no lines.
    pub fn new(alloc: Global) -> RowStates
        ensures { AreRowStates [] result }
    {
        RowStates {
            by_key: IndexMap::new(alloc),
        }
    }

    /// What is kept of the node's list.
    pub fn row(
        &self,
        alloc: Global,
        node: u8,
        view: ViewId,
        group: &[u8],
    ) -> Result<Option<&RowState>, NoMemory>
        ensures { IfOk result (λ x. option_copied x ≡ lookup
            (is_row_key (record { node = node; view = view; group = group.now })) self.now) }
    {
        let key = row_key(alloc, node, view, group)?;
        Ok(self.by_key.get(&key))
    }

    /// Takes out what is kept under the key.
    fn take(&mut self, key: &RowKey) -> Option<RowState>
        ensures row { result ≡ lookup (same_row_key key.now) self.old }
        ensures others { KeepsOthers same_row_key (same_row_key key.now) self.old self.new }
        ensures nothing { IfNone result (self.new ≡ self.old) }
    {
        self.by_key.swap_remove(key)
    }

    /// The node puts the entry at the place of its list, which began with this state.
    pub fn note(
        &mut self,
        alloc: Global,
        key: RowKey,
        base: &State,
        view: ViewId,
        place: u32,
        entry: &Entry,
    ) -> Result<(), NoMemory>
        ensures { OnOk result ((ls : List Line) (g : List ℕ) → AreRowStates ls self.old
            → key.list.view ≡ view_key view → key.list.group.items ≡ g
            → base.now ≡ base_state view g ls
            → holds rule.Place (line.Put key.node view g place entry.now) ls ≡ true
            → AreRowStates (line.Put key.node view g place entry.now ∷ ls) self.new) }
    {
        let row = self.take(&key);
        let mut state = state_in(alloc, row, base)?;
        state.take(alloc, view, place, entry)?;
        let what = what_of(entry);
        self.by_key.insert(key, RowState { place, what, state })?;
        Ok(())
    }

    /// Folds the list of this key anew, where there is one.
    fn refold(
        &mut self,
        alloc: Global,
        key: RowKey,
        view: ViewId,
        entries: &[Entry],
        base: &State,
    ) -> Result<(), NoMemory>
        ensures { OnOk result ((q : RowAt) → lookup (is_row_key q) self.new
            ≡ cond (is_row_key q key)
            (refolded view base.now entries.now (lookup (is_row_key q) self.old))
            (lookup (is_row_key q) self.old)) }
    {
        match self.take(&key) {
            None => Ok(()),
            Some(row) => {
                let row = refold_row(alloc, row, view, entries, base)?;
                self.by_key.insert(key, row)?;
                Ok(())
            }
        }
    }

    /// Folds each node's list anew: what the list begins with is this state now.
    pub fn refold_all(
        &mut self,
        alloc: Global,
        view: ViewId,
        group: &[u8],
        entries: &[Entry],
        base: &State,
    ) -> Result<(), NoMemory>
        ensures { OnOk result ((q : RowAt) → lookup (is_row_key q) self.new
            ≡ cond (is_list view group.now q.view q.group
            && (nat_le 1 q.node && nat_lt q.node 33))
            (refolded view base.now entries.now (lookup (is_row_key q) self.old))
            (lookup (is_row_key q) self.old)) }
    {
        for node in 1..MAX_NODES + 1 {
            let key = row_key(alloc, node, view, group)?;
            self.refold(alloc, key, view, entries, base)?;
        }
        Ok(())
    }
}
