//! A pass over the groups that the node leads.
ghost use Rattle.std.specs.Prelude.{◌≡◌, IfOk, OnOk, fold, length};
ghost use Rattle.session_clients.specs.Clients.{KeepsScripts};
ghost use Rattle.group_leading.specs.Working.{AtWork};
ghost use Rattle.std.specs.List.{list_all};
ghost use Rattle.node_state.specs.State.{row_of, led_of};
ghost use Rattle.node_state.specs.Ending.{quiet, failures_begin, or_due, or_joins, first_begins, group_begins, one_pass};
ghost use Rattle.group_deciding.specs.Passing.{passed, PassDoes};
ghost use Rattle.group_deciding.specs.Idle.{is_idle, is_idle_or_not_led};

use crate::failures::begin_failures;
use crate::joins::begin_joins;
use crate::limits::is_at_limit;
use crate::source_dues::begin_due;
use client_callbacks::Callbacks;
use node_groups::{leads_in, led_groups, row_of, waiting_failures, waiting_joins};
use node_state::{Core, GroupRow};
use rsct_packet::{Name, NoMemory};
use std::alloc::Global;

/// Does nothing begin in the group of this row? Something runs there, or its list is at its limits, or nobody waits and it
/// has no source.
#[tactic(auto, unfolding(crate::specs::Idle::is_idle, node_state::specs::Ending::may_begin, proposal_core::specs::Lists::is_at_limit))]
fn is_idle(row: &GroupRow) -> bool
    ensures { result ≡ is_idle row.now }
{
    let nobody_waits = row.led.waiting.failures() == 0 && row.led.waiting.joins() == 0;
    match &row.list {
        None => nobody_waits,
        Some(list) => {
            list.state().running.is_some()
                || is_at_limit(list)
                || nobody_waits && list.state().attrs.source.is_none()
        }
    }
}

/// Does nothing begin in the group?
#[tactic(auto, unfolding(crate::specs::Idle::is_idle, node_state::specs::State::row_of, node_state::specs::Ending::may_begin, proposal_core::specs::Lists::is_at_limit))]
fn is_group_idle(core: &Core, group: &[u8]) -> bool
    ensures { result ≡ is_idle (row_of core.now group.now) }
{
    match row_of(&core.groups, group) {
        None => true,
        Some(row) => is_idle(row),
    }
}

/// Does nothing begin in any group that the node leads?
fn are_idle(core: &Core) -> bool
    ensures { result ≡ list_all (is_idle_or_not_led core.now) core.now.groups }
{
    core.groups
        .rows
        .iter()
        .all(|row| !leads_in(core, row) || is_idle(row))
}

/// The first begins of what is due of the group's source, and waiting joins. Has something begun?
#[tactic(auto, unfolding(node_state::specs::Ending::or_due, node_state::specs::Ending::or_joins))]
fn begin_due_or_joins<C: Callbacks>(
    core: &mut Core,
    clients: &mut Vec<C>,
    alloc: Global,
    group: &Name,
) -> Result<bool, NoMemory>
    requires work { AtWork core.old clients.old.items }
    ensures work { OnOk result (AtWork core.new clients.new.items) }
    ensures scripts { OnOk result (KeepsScripts C.script clients.old.items clients.new.items) }
    ensures does { IfOk result (λ began. PassDoes C.script C.stands_for clients.old.items
        clients.new.items core.old core.new began (λ f. or_joins f group.now
        (or_due f group.now (quiet core.old)))) }
{
    if begin_due(core, clients, alloc, group)? {
        return Ok(true);
    }
    let joins = waiting_joins(core, group.bytes());
    begin_joins(core, clients, alloc, group, joins)
}

/// The first begins of waiting failures, what is due of the group's source, and waiting joins. Has something begun?
#[tactic(auto, unfolding(node_state::specs::Ending::or_due, node_state::specs::Ending::or_joins))]
fn begin_waiting<C: Callbacks>(
    core: &mut Core,
    clients: &mut Vec<C>,
    alloc: Global,
    group: &Name,
) -> Result<bool, NoMemory>
    requires work { AtWork core.old clients.old.items }
    ensures work { OnOk result (AtWork core.new clients.new.items) }
    ensures scripts { OnOk result (KeepsScripts C.script clients.old.items clients.new.items) }
    ensures does { IfOk result (λ began. PassDoes C.script C.stands_for clients.old.items
        clients.new.items core.old core.new began (λ f. or_joins f group.now
        (or_due f group.now (failures_begin (length (led_of core.old group.now).waiting.failures) f
        core.old group.now)))) }
{
    let failures = waiting_failures(core, group.bytes());
    if begin_failures(core, clients, alloc, group, failures)? {
        return Ok(true);
    }
    begin_due_or_joins(core, clients, alloc, group)
}

/// What waits begins in a group where nothing runs and whose list is not full. Has something begun?
fn begin_first<C: Callbacks>(
    core: &mut Core,
    clients: &mut Vec<C>,
    alloc: Global,
    group: &Name,
) -> Result<bool, NoMemory>
    requires work { AtWork core.old clients.old.items }
    ensures work { OnOk result (AtWork core.new clients.new.items) }
    ensures scripts { OnOk result (KeepsScripts C.script clients.old.items clients.new.items) }
    ensures does { IfOk result (λ began. PassDoes C.script C.stands_for clients.old.items
        clients.new.items core.old core.new began (λ f. first_begins f core.old group.now
        (row_of core.old group.now))) }
{
    if is_group_idle(core, group.bytes()) {
        return Ok(false);
    }
    begin_waiting(core, clients, alloc, group)
}

/// What waits begins in a group, at most `most` times, until nothing begins. Has something begun, here or before?
#[tactic(auto, unfolding(node_state::specs::Ending::group_begins))]
fn begin_in_group<C: Callbacks>(
    core: &mut Core,
    clients: &mut Vec<C>,
    alloc: Global,
    group: &Name,
    most: u128,
    began: bool,
) -> Result<bool, NoMemory>
    requires work { AtWork core.old clients.old.items }
    ensures work { OnOk result (AtWork core.new clients.new.items) }
    ensures scripts { OnOk result (KeepsScripts C.script clients.old.items clients.new.items) }
    ensures does { IfOk result (λ b. PassDoes C.script C.stands_for clients.old.items
        clients.new.items core.old core.new b (λ f. group_begins most f group.now
        (passed core.old began))) }
{
    if most == 0 {
        return Ok(began);
    }
    if !begin_first(core, clients, alloc, group)? {
        return Ok(began);
    }
    begin_in_group(core, clients, alloc, group, most - 1, true)
}

/// What waits begins in each of these groups. Has something begun, here or before?
fn begin_in_each<C: Callbacks>(
    core: &mut Core,
    clients: &mut Vec<C>,
    alloc: Global,
    names: &[Name],
    most: u128,
    began: bool,
) -> Result<bool, NoMemory>
    requires work { AtWork core.old clients.old.items }
    ensures work { OnOk result (AtWork core.new clients.new.items) }
    ensures scripts { OnOk result (KeepsScripts C.script clients.old.items clients.new.items) }
    ensures does { IfOk result (λ b. PassDoes C.script C.stands_for clients.old.items
        clients.new.items core.old core.new b (λ f. fold
        (λ p g. group_begins most f g p) (passed core.old began) names.now)) }
{
    match names {
        [] => Ok(began),
        [g, rest @ ..] => {
            let began = begin_in_group(core, clients, alloc, g, most, began)?;
            begin_in_each(core, clients, alloc, rest, most, began)
        }
    }
}

/// Passes over the groups that the node leads, in name order, and in each, at most `most` times, what waits begins.
/// Has something begun? Where nothing begins, as at the end of most steps, no name is read.
#[tactic(auto, unfolding(node_state::specs::Ending::one_pass))]
pub fn pass<C: Callbacks>(
    core: &mut Core,
    clients: &mut Vec<C>,
    alloc: Global,
    most: u128,
) -> Result<bool, NoMemory>
    requires work { AtWork core.old clients.old.items }
    ensures work { OnOk result (AtWork core.new clients.new.items) }
    ensures scripts { OnOk result (KeepsScripts C.script clients.old.items clients.new.items) }
    ensures does { IfOk result (λ began. PassDoes C.script C.stands_for clients.old.items
        clients.new.items core.old core.new began (λ f. one_pass most f core.old)) }
{
    if are_idle(core) {
        return Ok(false);
    }
    let names = led_groups(core, alloc)?;
    begin_in_each(core, clients, alloc, names.as_slice(), most, false)
}
