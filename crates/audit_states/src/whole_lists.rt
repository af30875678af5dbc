//! The list of each group in each view: the first put of each place.
ghost use Rattle.std.specs.Prelude.{◌≡◌, ◌==◌, ◌++◌, ◌∷◌, [], List, ℕ, cond, length, IfOk, OnOk};
ghost use Rattle.std.specs.Map.{KeepsOthers, lookup};
ghost use Rattle.record_lines.specs.declared.line.Line.{Line};
ghost use Rattle.record_lines.specs.declared.line.Line.TheVariants as line;
ghost use Rattle.run_audit.specs.Lists.{same_list_key};
ghost use Rattle.run_audit.specs.Past.{list_of};
ghost use Rattle.audit_states.specs.States.{AreWholeLists, entries_in};

use indexmap::IndexMap;
use proposal_core::Entry;
use rsct_packet::{List, NoMemory, ViewId};
use run_audit::{ListKey, list_key};
use std::alloc::Global;
use std::marker::Model;

/// The entries that are kept, or none.
#[tactic(auto, unfolding(crate::specs::States::entries_in))]
fn entries_in(alloc: Global, kept: Option<List<Entry>>) -> List<Entry>
    ensures { result ≡ entries_in kept }
{
    match kept {
        None => List::new(alloc),
        Some(entries) => entries,
    }
}

/// Takes a copy of the entry to the end, where this is its place.
fn grow(alloc: Global, entries: &mut List<Entry>, place: u32, entry: &Entry) -> Result<(), NoMemory>
    ensures { OnOk result (entries.new ≡ cond (place == length entries.old)
        (entries.old ++ entry.now ∷ []) entries.old) }
{
    if place as usize == entries.len() {
        let copy = entry.copy(alloc)?;
        entries.push(copy)?;
    }
    Ok(())
}

/// The entries of each list, in order.
#[derive(Drop)]
pub struct WholeLists {
    by_key: IndexMap<ListKey, List<Entry>>,
}

impl Model for WholeLists {
    ghost use Rattle.std.specs.Prelude.{List};
    ghost use Rattle.proposal_core.specs.declared.entry.Entry.{Entry};
    ghost use Rattle.run_audit.specs.declared.lists.ListKey.{ListKey};

    ghost Value = { List (ListKey × List Entry) };

    ghost view = { λ s. s.by_key.entries };
}

impl WholeLists {
    /// Of no lines.
    pub fn new(alloc: Global) -> WholeLists
        ensures { AreWholeLists [] result }
    {
        WholeLists {
            by_key: IndexMap::new(alloc),
        }
    }

    /// The entries under the key.
    #[tactic(auto, unfolding(crate::specs::States::entries_in))]
    fn at(&self, key: &ListKey) -> &[Entry]
        ensures { result.now ≡ entries_in (lookup (same_list_key key.now) self.now) }
    {
        match self.by_key.get(key) {
            None => &[],
            Some(entries) => entries.as_slice(),
        }
    }

    /// The entries of the list, in order.
    pub fn entries(&self, alloc: Global, view: ViewId, group: &[u8]) -> Result<&[Entry], NoMemory>
        ensures { IfOk result (λ es. (ls : List Line) → AreWholeLists ls self.now
            → es.now ≡ list_of view group.now ls) }
    {
        let key = list_key(alloc, view, group)?;
        Ok(self.at(&key))
    }

    /// Takes out the entries under the key.
    fn take(&mut self, alloc: Global, key: &ListKey) -> List<Entry>
        ensures entries { result ≡ entries_in (lookup (same_list_key key.now) self.old) }
        ensures others { KeepsOthers same_list_key (same_list_key key.now) self.old self.new }
    {
        let kept = self.by_key.swap_remove(key);
        entries_in(alloc, kept)
    }

    /// A node puts the entry at the place.
    pub fn note(
        &mut self,
        alloc: Global,
        view: ViewId,
        group: &[u8],
        place: u32,
        entry: &Entry,
    ) -> Result<(), NoMemory>
        ensures { OnOk result ((ls : List Line) (n : ℕ) → AreWholeLists ls self.old
            → AreWholeLists (line.Put n view group.now place entry.now ∷ ls) self.new) }
    {
        let key = list_key(alloc, view, group)?;
        let mut entries = self.take(alloc, &key);
        grow(alloc, &mut entries, place, entry)?;
        self.by_key.insert(key, entries)?;
        Ok(())
    }
}
