//! What is read of a node's groups.
ghost use Rattle.std.specs.Prelude.{◌≡◌, IfOk, IsTrue, is_some, length, min, option_copied};
ghost use Rattle.std.specs.List.{count_by, fold};
ghost use Rattle.rsct_packet.specs.declared.ids.Member.{Member};
ghost use Rattle.node_state.specs.declared.group.GroupRow.{GroupRow};
ghost use Rattle.proposal_core.specs.Fold.{joiners_fit};
ghost use Rattle.proposal_core.specs.Lists.{len_in};
ghost use Rattle.node_state.specs.State.{leader_by, leader_in, leader_of, row_of, leads_in, leads, led_groups, acked_by, least_acked, state_of, holds, held_rows, len_of, fits_at_end};
ghost use Rattle.node_groups.specs.Places.{names_led};

use crate::places::row_of;
use crate::row;
use crate::tables::acked_len;
use node_state::{Core, GroupRow, Mode};
use proposal_core::{Entry, GroupList, GroupState};
use rsct_packet::{Name, NoMemory};
use std::alloc::Global;

/// In mode fixed the coordinator leads, else whoever is known.
fn leader_by(mode: Mode, coord: u8, known: Option<u8>) -> Option<u8>
    ensures { result ≡ leader_by mode coord known }
{
    match mode {
        Mode::Fixed => Some(coord),
        Mode::Asked => known,
        Mode::Rings => known,
    }
}

/// The leader of the group of a row, where it is known.
#[tactic(auto, unfolding(node_state::specs::State::leader_in))]
pub fn leader_in(core: &Core, row: &GroupRow) -> Option<u8>
    ensures { result ≡ leader_in core.now row.now }
{
    leader_by(core.config.mode, core.views.view.coord, row.leader)
}

/// The leader of a group, where it is known.
#[tactic(auto, unfolding(node_state::specs::State::leader_of, node_state::specs::State::leader_in, node_state::specs::State::row_of))]
pub fn leader_of(core: &Core, group: &[u8]) -> Option<u8>
    ensures { result ≡ leader_of core.now group.now }
{
    match row_of(&core.groups, group) {
        None => leader_by(core.config.mode, core.views.view.coord, None),
        Some(row) => leader_in(core, row),
    }
}

/// Does the node lead the group of a row?
#[tactic(auto, unfolding(node_state::specs::State::leads_in))]
pub fn leads_in(core: &Core, row: &GroupRow) -> bool
    ensures { result ≡ leads_in core.now row.now }
{
    match leader_in(core, row) {
        None => false,
        Some(n) => n == core.views.me,
    }
}

/// Does the node lead the group?
#[tactic(auto, unfolding(node_state::specs::State::leads, node_state::specs::State::leads_in, node_state::specs::State::leader_of))]
pub fn leads(core: &Core, group: &[u8]) -> bool
    ensures { result ≡ leads core.now group.now }
{
    match leader_of(core, group) {
        None => false,
        Some(n) => n == core.views.me,
    }
}

/// Does the node hold a list of the group?
#[tactic(auto, unfolding(node_state::specs::State::holds, node_state::specs::State::row_of))]
pub fn holds(core: &Core, group: &[u8]) -> bool
    ensures { result ≡ holds core.now group.now }
{
    match row_of(&core.groups, group) {
        None => false,
        Some(row) => row.list.is_some(),
    }
}

/// How many entries the group's list has.
#[tactic(auto, unfolding(node_state::specs::State::len_of, node_state::specs::State::list_of, node_state::specs::State::row_of))]
pub fn len_of(core: &Core, group: &[u8]) -> u32
    ensures { result ≡ len_of core.now group.now }
{
    match row_of(&core.groups, group) {
        None => 0,
        Some(row) => row::len(row),
    }
}

/// Does the entry fit at the end of the group's list?
#[tactic(auto, unfolding(node_state::specs::State::fits_at_end, node_state::specs::State::list_of, node_state::specs::State::row_of))]
pub fn fits_at_end(core: &Core, alloc: Global, group: &[u8], entry: &Entry) -> bool
    ensures { result ≡ fits_at_end core.now group.now entry.now }
{
    match row_of(&core.groups, group) {
        None => row::fits_in_new(alloc, entry),
        Some(row) => row::fits_at_end(row, alloc, entry),
    }
}

/// The acknowledged length of a member, where the own list has this length: the leader's own one is that.
#[tactic(auto, unfolding(node_state::specs::State::acked_by))]
pub fn acked_by(core: &Core, row: &GroupRow, node: u8) -> u32
    ensures { result ≡ acked_by core.now row.now node }
{
    if node == core.views.me {
        row::len(row)
    } else {
        acked_len(&row.led.acked, node)
    }
}

/// The least length of a row's list that all members acknowledged.
#[tactic(auto, using(std::proofs::lemmas::List::Sums::fold_more))]
fn least_in(core: &Core, row: &GroupRow) -> u32
    ensures { result ≡ fold (λ least (m : Member). min least (acked_by core.now row.now m.node))
        (len_in row.now.list) core.now.views.members }
{
    let mut least = row::len(row);
    for m in core.views.members.as_slice() {
        least = least.min(acked_by(core, row, m.node));
    }
    least
}

/// The least length of the group's list that all members acknowledged.
#[tactic(auto, unfolding(node_state::specs::State::least_acked, node_state::specs::State::row_of))]
pub fn least_acked(core: &Core, group: &[u8]) -> u32
    ensures { result ≡ least_acked core.now group.now }
{
    match row_of(&core.groups, group) {
        None => 0,
        Some(row) => least_in(core, row),
    }
}

/// The state of the group.
#[tactic(auto, unfolding(node_state::specs::State::state_of, node_state::specs::State::list_of, node_state::specs::State::row_of, proposal_core::specs::Fold::joiners_fit, proposal_core::specs::Fold::joiners_fit_at))]
pub fn state_of(core: &Core, alloc: Global, group: &[u8]) -> Result<GroupState, NoMemory>
    ensures value { IfOk result (λ st. st ≡ state_of core.now group.now) }
    ensures joiners { IfOk result (λ st. IsTrue (joiners_fit st)) }
{
    match row_of(&core.groups, group) {
        None => Ok(GroupState::empty(alloc)),
        Some(row) => row::state(row, alloc),
    }
}

/// The list of a group, where the node holds one.
#[tactic(auto, unfolding(node_state::specs::State::row_of))]
pub fn list_of<'a>(core: &'a Core, group: &[u8]) -> Option<&'a GroupList>
    ensures { option_copied result ≡ (row_of core.now group.now).list }
{
    match row_of(&core.groups, group) {
        None => None,
        Some(row) => row.list.as_ref(),
    }
}

/// How many of these rows have a list.
#[tactic(auto, using(std::proofs::lemmas::List::Sums::count_by_more_yes, std::proofs::lemmas::List::Sums::count_by_more_no))]
fn count_held(rows: &[GroupRow]) -> usize
    ensures { result ≡ count_by (λ (row : GroupRow). is_some row.list) rows.now }
{
    let mut count = 0;
    for row in rows {
        if row.list.is_some() {
            count += 1;
        }
    }
    count
}

/// How many lists the node holds.
#[tactic(auto, unfolding(node_state::specs::State::held_rows), using(crate::proofs::ReadLaws::counted))]
pub fn held_count(core: &Core) -> usize
    ensures { result ≡ length (held_rows core.now) }
{
    count_held(core.groups.rows.as_slice())
}

/// The names of those groups, of these rows, that the node leads.
#[tactic(auto, using(crate::proofs::ReadLaws::led_here, crate::proofs::ReadLaws::led_not, std::proofs::lemmas::Grind::common_steps))]
fn names_led(core: &Core, alloc: Global, rows: &[GroupRow]) -> Result<Vec<Name>, NoMemory>
    ensures { IfOk result (λ names. names.items ≡ names_led core.now rows.now) }
{
    let mut names = Vec::new(alloc);
    for row in rows {
        if leads_in(core, row) {
            names.push(row.name.copy(alloc)?)?;
        }
    }
    Ok(names)
}

/// The names of the groups that the node leads, in order.
#[tactic(auto, unfolding(node_state::specs::State::led_groups))]
pub fn led_groups(core: &Core, alloc: Global) -> Result<Vec<Name>, NoMemory>
    ensures { IfOk result (λ names. names.items ≡ led_groups core.now) }
{
    names_led(core, alloc, core.groups.rows.as_slice())
}
