//! Where the rows of groups stand, in the order of their names.
ghost use Rattle.std.specs.Prelude.{◌≡◌, ◌≤◌, length, IfOk, OnOk, OnErr, find, insert, slice_get, option_copied};
ghost use Rattle.std.specs.List.{position};
ghost use Rattle.std.specs.Borrow.{sem};
ghost use Rattle.rsct_packet.specs.Search.{front_len};
ghost use Rattle.node_state.specs.State.{has_name, new_row};
ghost use Rattle.node_groups.specs.Places.{stops_at, is_row_of, row_opened, row_reached};
ghost use Rattle.node_groups.specs.Lending.{LendsRow};

use crate::row::new_row;
use node_state::{GroupRow, Groups};
use rsct_packet::{Name, NoMemory};
use std::alloc::Global;

/// Has the row this name, or does it come after it? One comparison tells both.
#[tactic(auto, using(crate::proofs::OrderLaws::stops_by_order))]
fn stops_at(name: &[u8], row: &GroupRow) -> bool
    ensures { result ≡ stops_at name.now row.now }
{
    name.cmp(row.name.bytes()).is_le()
}

/// Where the first row stands that has this name or comes after it.
fn stop_of(rows: &[GroupRow], name: &[u8]) -> Option<usize>
    ensures { result ≡ position (stops_at name.now) rows.now }
{
    rows.iter().position(|row| stops_at(name, row))
}

/// How many rows stand before a name.
#[tactic(auto, using(rsct_packet::proofs::SearchLaws::front_is_position, rsct_packet::proofs::SearchLaws::front_is_in))]
fn front(rows: &[GroupRow], name: &[u8]) -> usize
    ensures value { result ≡ front_len (stops_at name.now) rows.now }
    ensures within { result ≤ length rows.now }
{
    stop_of(rows, name).unwrap_or(rows.len())
}

/// Does the row of this name stand at this place?
fn is_row_at(rows: &[GroupRow], place: usize, name: &[u8]) -> bool
    ensures { result ≡ is_row_of name.now (slice_get rows.now place) }
{
    match rows.get(place) {
        None => false,
        Some(row) => row.name.bytes() == name,
    }
}

/// The row of a group, where it has one.
pub fn row_of<'a>(groups: &'a Groups, name: &[u8]) -> Option<&'a GroupRow>
    ensures { option_copied result ≡ find (has_name name.now) groups.now }
{
    groups.rows.iter().find(|row| row.name.bytes() == name)
}

/// Puts the group's empty row at this place. It is a function of its own, since room for a row is filled with zeros as a
/// function begins, and mostly `open` finds one.
fn insert_row(groups: &mut Groups, alloc: Global, place: usize, name: &Name) -> Result<(), NoMemory>
    requires within { place ≤ length groups.old }
    ensures rows { OnOk result (groups.new ≡ insert groups.old place (new_row name.now)) }
    ensures err { OnErr result (groups.new ≡ groups.old) }
{
    let row = new_row(alloc, name)?;
    groups.rows.insert(place, row)?;
    Ok(())
}

/// The place of the group's row, which is made where there is none.
#[tactic(auto, using(crate::proofs::RowLaws::opens_found, crate::proofs::RowLaws::opens_missing))]
pub fn open(groups: &mut Groups, alloc: Global, name: &Name) -> Result<usize, NoMemory>
    ensures place { IfOk result (λ i. i ≡ front_len (stops_at name.now) groups.old) }
    ensures rows { OnOk result (groups.new ≡ row_opened name.now groups.old) }
    ensures err { OnErr result (groups.new ≡ groups.old) }
{
    let i = front(groups.rows.as_slice(), name.bytes());
    if !is_row_at(groups.rows.as_slice(), i, name.bytes()) {
        insert_row(groups, alloc, i, name)?;
    }
    Ok(i)
}

/// Lends the group's row, which is made where there is none. At `Err` the rows are as before.
#[tactic(auto, using(crate::proofs::RowLaws::row_loan, std::proofs::lemmas::Grind::common_steps))]
pub fn row_mut<'a>(
    groups: &'a mut Groups,
    alloc: Global,
    name: &Name,
) -> Result<&'a mut GroupRow, NoMemory>
    ensures* writes_back { sem 𝓛 (LendsRow groups.entry name.now result) }
    ensures row { IfOk result (λ row. row.now ≡ row_reached name.now groups.old) }
{
    let i = open(groups, alloc, name)?;
    Ok(&mut groups.rows[i])
}
