//! The tally of a phase, and what closes the phase.
ghost use Rattle.std.specs.Prelude.{◌≡◌, ◌&&◌, OnOk, IfOk, IsTrue};
ghost use Rattle.session_clients.specs.Clients.{KeepsScripts};
ghost use Rattle.node_state.specs.State.{fits_at_end, led_of, state_of};
ghost use Rattle.node_state.specs.Leading.{tally_for, tally_opened, is_phase, closes_from, closes};
ghost use Rattle.entry_delivery.specs.Doing.{RuleDoes};
ghost use Rattle.node_groups.specs.Keeps.{Keeps};
ghost use Rattle.group_leading.specs.Closing.{next_closing, goes_on, closed_with, closed_if, closed_where};
ghost use Rattle.group_leading.specs.Working.{AtWork};

use crate::entries::append;
use client_callbacks::Callbacks;
use node_groups::{fits_at_end, gone_of, row_of, state_of};
use node_state::Core;
use phase_closing::{closing_entry, is_phase, tally_for};
use proposal_core::{Entry, MAX_PHASES};
use rsct_packet::{Name, NoMemory};
use std::alloc::Global;
use vote_phases::Tally;

/// A tally of the phase that runs, in which nobody has voted.
fn new_tally(core: &Core, alloc: Global, group: &Name) -> Result<Tally, NoMemory>
    ensures { IfOk result (λ t. t ≡ tally_for (state_of core.now group.now)
        (led_of core.now group.now).gone) }
{
    let gone = gone_of(core, alloc, group.bytes())?;
    let state = state_of(core, alloc, group.bytes())?;
    tally_for(alloc, &state, gone.as_slice())
}

/// Opens the tally of the phase that runs.
#[tactic(auto, unfolding(node_state::specs::Leading::tally_opened))]
pub fn open_tally(core: &mut Core, alloc: Global, group: &Name) -> Result<(), NoMemory>
    ensures rule { OnOk result (core.new ≡ tally_opened core.old group.now) }
    ensures keeps { OnOk result (Keeps core.old core.new) }
{
    let tally = new_tally(core, alloc, group)?;
    node_groups::open_tally(core, alloc, group, Some(tally))
}

/// The entry that closes the phase that runs, where its tally has an outcome.
#[tactic(auto, unfolding(node_state::specs::State::led_of, node_state::specs::State::state_of, node_state::specs::State::list_of, node_state::specs::State::row_of), using(crate::proofs::CloseLaws::nothing_closes, crate::proofs::CloseLaws::nothing_led_closes))]
fn next_closing(core: &Core, alloc: Global, group: &Name) -> Result<Option<Entry>, NoMemory>
    ensures { IfOk result (λ e. e ≡ next_closing core.now group.now) }
{
    let Some(row) = row_of(&core.groups, group.bytes()) else {
        return Ok(None);
    };
    match &row.list {
        None => Ok(None),
        Some(list) => closing_entry(alloc, &row.led, &list.state().running),
    }
}

/// Closes the phase that runs with an entry that fits, and answers whether that opens a next one.
fn close_with<C: Callbacks>(
    core: &mut Core,
    clients: &mut Vec<C>,
    alloc: Global,
    group: &Name,
    entry: &Entry,
) -> Result<bool, NoMemory>
    requires work { AtWork core.old clients.old.items }
    requires fits { IsTrue (fits_at_end core.old group.now entry.now) }
    ensures next { IfOk result (λ b. b ≡ is_phase entry.now) }
    ensures work { OnOk result (AtWork core.new clients.new.items) }
    ensures scripts { OnOk result (KeepsScripts C.script clients.old.items clients.new.items) }
    ensures does { OnOk result (RuleDoes C.script C.stands_for clients.old.items clients.new.items
        core.old core.new (λ f. closed_with f core.old group.now entry.now (is_phase entry.now))) }
{
    append(core, clients, alloc, group, entry)?;
    if is_phase(entry) {
        open_tally(core, alloc, group)?;
        Ok(true)
    } else {
        node_groups::open_tally(core, alloc, group, None)?;
        Ok(false)
    }
}

/// The same, where the entry fits.
fn close_if_fits<C: Callbacks>(
    core: &mut Core,
    clients: &mut Vec<C>,
    alloc: Global,
    group: &Name,
    entry: &Entry,
) -> Result<bool, NoMemory>
    requires { AtWork core.old clients.old.items }
    ensures next { IfOk result
        (λ b. b ≡ (fits_at_end core.old group.now entry.now && is_phase entry.now)) }
    ensures work { OnOk result (AtWork core.new clients.new.items) }
    ensures scripts { OnOk result (KeepsScripts C.script clients.old.items clients.new.items) }
    ensures does { OnOk result (RuleDoes C.script C.stands_for clients.old.items clients.new.items
        core.old core.new (λ f. closed_if f core.old group.now entry.now
        (fits_at_end core.old group.now entry.now))) }
{
    if fits_at_end(core, alloc, group.bytes(), entry) {
        return close_with(core, clients, alloc, group, entry);
    }
    Ok(false)
}

/// Closes the phase that runs, where its tally has an outcome, and answers whether a next one is opened.
fn close_one<C: Callbacks>(
    core: &mut Core,
    clients: &mut Vec<C>,
    alloc: Global,
    group: &Name,
) -> Result<bool, NoMemory>
    requires { AtWork core.old clients.old.items }
    ensures next { IfOk result
        (λ b. b ≡ goes_on core.old group.now (next_closing core.old group.now)) }
    ensures work { OnOk result (AtWork core.new clients.new.items) }
    ensures scripts { OnOk result (KeepsScripts C.script clients.old.items clients.new.items) }
    ensures does { OnOk result (RuleDoes C.script C.stands_for clients.old.items clients.new.items
        core.old core.new (λ f. closed_where f core.old group.now
        (next_closing core.old group.now))) }
{
    match next_closing(core, alloc, group)? {
        None => Ok(false),
        Some(e) => close_if_fits(core, clients, alloc, group, &e),
    }
}

/// Closes at most so many phases, one after another.
fn close_from<C: Callbacks>(
    core: &mut Core,
    clients: &mut Vec<C>,
    alloc: Global,
    group: &Name,
    most: u8,
) -> Result<(), NoMemory>
    requires { AtWork core.old clients.old.items }
    ensures work { OnOk result (AtWork core.new clients.new.items) }
    ensures scripts { OnOk result (KeepsScripts C.script clients.old.items clients.new.items) }
    ensures does { OnOk result (RuleDoes C.script C.stands_for clients.old.items clients.new.items
        core.old core.new (λ f. closes_from most f core.old group.now)) }
{
    if most == 0 {
        return Ok(());
    }
    let opened = close_one(core, clients, alloc, group)?;
    if opened {
        return close_from(core, clients, alloc, group, most - 1);
    }
    Ok(())
}

/// Closes the phase that runs where its tally has an outcome, and each next one that has an outcome at once.
#[tactic(auto, unfolding(node_state::specs::Leading::closes))]
pub fn close<C: Callbacks>(
    core: &mut Core,
    clients: &mut Vec<C>,
    alloc: Global,
    group: &Name,
) -> Result<(), NoMemory>
    requires work { AtWork core.old clients.old.items }
    ensures work { OnOk result (AtWork core.new clients.new.items) }
    ensures scripts { OnOk result (KeepsScripts C.script clients.old.items clients.new.items) }
    ensures does { OnOk result (RuleDoes C.script C.stands_for clients.old.items clients.new.items
        core.old core.new (λ f. closes f core.old group.now)) }
{
    close_from(core, clients, alloc, group, MAX_PHASES as u8)
}
