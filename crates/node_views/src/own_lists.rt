//! The node's own lists, as an answer carries them.
ghost use Rattle.std.specs.Prelude.{◌≡◌, ◌∷◌, ◌++◌, [], count_by, is_some, IfOk, OnOk};
ghost use Rattle.node_state.specs.declared.group.GroupRow.{GroupRow};
ghost use Rattle.node_state.specs.Applying.{part_of_list};
ghost use Rattle.node_views.specs.Carried.{parts_of_rows};

use node_state::GroupRow;
use proposal_core::{Entry, GroupList};
use rsct_packet::{List, NoMemory};
use std::alloc::Global;
use view_core::OwnLists;
use view_state::{Part, Parts};

/// The lists that stand in the rows of groups, read in place.
#[derive(Drop)]
pub(crate) struct RowLists<'a> {
    pub rows: &'a [GroupRow],
}

/// A copy of the entries that a list holds.
#[tactic(auto, unfolding(proposal_core::specs::Lists::entry_at), using(crate::proofs::ListLaws::entries_begin, crate::proofs::ListLaws::entry_more, crate::proofs::ListLaws::entries_end, std::proofs::lemmas::Grind::common_steps))]
fn entries_of(alloc: Global, list: &GroupList) -> Result<List<Entry>, NoMemory>
    ensures { IfOk result (λ l. l ≡ list.now.entries) }
{
    let len = list.len();
    let mut entries = List::new(alloc);
    let mut place = list.start();
    while let Some(entry) = list.get(place) {
        entries.push(entry.copy(alloc)?)?;
        prove!(place < len);
        place += 1;
    }
    Ok(entries)
}

/// A list of a group, as an answer carries it.
#[tactic(auto, unfolding(node_state::specs::Applying::part_of_list))]
fn part_of(alloc: Global, row: &GroupRow, list: &GroupList) -> Result<Part, NoMemory>
    ensures { IfOk result (λ p. p ≡ part_of_list row.now list.now) }
{
    Ok(Part {
        name: row.name.copy(alloc)?,
        start: list.start(),
        entries: entries_of(alloc, list)?,
        state: list.state().copy(alloc)?,
    })
}

/// Adds the list of a row, where it is held.
fn push_part(alloc: Global, parts: &mut Parts, row: &GroupRow) -> Result<(), NoMemory>
    ensures { OnOk result (parts.new ≡ parts.old ++ parts_of_rows (row.now ∷ [])) }
{
    if let Some(list) = &row.list {
        parts.push(part_of(alloc, row, list)?)?;
    }
    Ok(())
}

/// The lists of these rows that are held.
#[tactic(auto, using(crate::proofs::ListLaws::parts_more, std::proofs::lemmas::Grind::common_steps))]
fn parts_of(alloc: Global, rows: &[GroupRow]) -> Result<Parts, NoMemory>
    ensures { IfOk result (λ l. l ≡ parts_of_rows rows.now) }
{
    let mut parts = List::new(alloc);
    for row in rows {
        push_part(alloc, &mut parts, row)?;
    }
    Ok(parts)
}

/// How many lists of these rows are held.
#[tactic(auto, using(std::proofs::lemmas::List::Sums::count_by_more_yes, std::proofs::lemmas::List::Sums::count_by_more_no))]
fn count_held(rows: &[GroupRow]) -> usize
    ensures { result ≡ count_by (λ (row : GroupRow). is_some row.list) rows.now }
{
    let mut count = 0;
    for row in rows {
        if row.list.is_some() {
            count += 1;
        }
    }
    count
}

impl OwnLists for RowLists<'_> {
    ghost use Rattle.node_views.specs.Carried.{parts_of_rows};

    ghost parts_of = { λ l. parts_of_rows l.rows.now };

    #[tactic(auto, using(crate::proofs::ListLaws::count_parts))]
    fn count(&self) -> usize {
        count_held(self.rows)
    }

    fn parts(&self, alloc: Global) -> Result<Parts, NoMemory> {
        parts_of(alloc, self.rows)
    }
}
