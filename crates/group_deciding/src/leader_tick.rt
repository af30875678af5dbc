//! The part of a tick on what a node leads.
ghost use Rattle.std.specs.Prelude.{◌≡◌, OnOk, false, fold, is_none};
ghost use Rattle.session_clients.specs.Clients.{KeepsScripts};
ghost use Rattle.entry_delivery.specs.Doing.{RuleDoes};
ghost use Rattle.group_leading.specs.Working.{AtWork};
ghost use Rattle.node_state.specs.State.{led_groups, led_of};
ghost use Rattle.node_state.specs.Ticks.{tally_ticks, tick_group, tick_led};

use crate::late_votes::announce;
use crate::resends::send_to_others;
use client_callbacks::Callbacks;
use group_leading::close;
use node_groups::{led_groups, tally_of, tick_tally};
use node_sending::is_frozen;
use node_state::Core;
use rsct_packet::{Name, NoMemory};
use std::alloc::Global;

/// Is no phase of the group open?
fn has_no_tally(core: &Core, group: &Name) -> bool
    ensures { result ≡ is_none (led_of core.now group.now).tally }
{
    tally_of(core, group.bytes()).is_none()
}

/// The tally of a phase that is open ticks: who passes the limit is announced before, and the phase is closed where
/// it then has an outcome.
fn tick_open<C: Callbacks>(
    core: &mut Core,
    clients: &mut Vec<C>,
    alloc: Global,
    group: &Name,
) -> Result<(), NoMemory>
    requires work { AtWork core.old clients.old.items }
    requires opened { is_none (led_of core.old group.now).tally ≡ false }
    ensures work { OnOk result (AtWork core.new clients.new.items) }
    ensures scripts { OnOk result (KeepsScripts C.script clients.old.items clients.new.items) }
    ensures does { OnOk result (RuleDoes C.script C.stands_for clients.old.items clients.new.items
        core.old core.new (λ f. tally_ticks f core.old group.now
        (led_of core.old group.now).tally)) }
{
    announce(core, clients, alloc, group)?;
    tick_tally(core, alloc, group)?;
    close(core, clients, alloc, group)
}

/// The tally of a group ticks, where one is open.
fn tick_phase<C: Callbacks>(
    core: &mut Core,
    clients: &mut Vec<C>,
    alloc: Global,
    group: &Name,
) -> Result<(), NoMemory>
    requires work { AtWork core.old clients.old.items }
    ensures work { OnOk result (AtWork core.new clients.new.items) }
    ensures scripts { OnOk result (KeepsScripts C.script clients.old.items clients.new.items) }
    ensures does { OnOk result (RuleDoes C.script C.stands_for clients.old.items clients.new.items
        core.old core.new (λ f. tally_ticks f core.old group.now
        (led_of core.old group.now).tally)) }
{
    if has_no_tally(core, group) {
        return Ok(());
    }
    tick_open(core, clients, alloc, group)
}

/// A led group ticks: its tally, and then entries are sent again.
fn tick_group<C: Callbacks>(
    core: &mut Core,
    clients: &mut Vec<C>,
    alloc: Global,
    group: &Name,
) -> Result<(), NoMemory>
    requires work { AtWork core.old clients.old.items }
    ensures work { OnOk result (AtWork core.new clients.new.items) }
    ensures scripts { OnOk result (KeepsScripts C.script clients.old.items clients.new.items) }
    ensures does { OnOk result (RuleDoes C.script C.stands_for clients.old.items clients.new.items
        core.old core.new (λ f. tick_group f core.old group.now)) }
{
    tick_phase(core, clients, alloc, group)?;
    send_to_others(core, alloc, group)?;
    Ok(())
}

/// These groups tick, one after another.
fn tick_groups<C: Callbacks>(
    core: &mut Core,
    clients: &mut Vec<C>,
    alloc: Global,
    names: &[Name],
) -> Result<(), NoMemory>
    requires work { AtWork core.old clients.old.items }
    ensures work { OnOk result (AtWork core.new clients.new.items) }
    ensures scripts { OnOk result (KeepsScripts C.script clients.old.items clients.new.items) }
    ensures does { OnOk result (RuleDoes C.script C.stands_for clients.old.items clients.new.items
        core.old core.new (λ f. fold (tick_group f) core.old names.now)) }
{
    match names {
        [] => Ok(()),
        [g, others @ ..] => {
            tick_group(core, clients, alloc, g)?;
            tick_groups(core, clients, alloc, others)
        }
    }
}

/// The led groups tick, in the order of their names.
fn tick_each_led<C: Callbacks>(
    core: &mut Core,
    clients: &mut Vec<C>,
    alloc: Global,
) -> Result<(), NoMemory>
    requires work { AtWork core.old clients.old.items }
    ensures work { OnOk result (AtWork core.new clients.new.items) }
    ensures scripts { OnOk result (KeepsScripts C.script clients.old.items clients.new.items) }
    ensures does { OnOk result (RuleDoes C.script C.stands_for clients.old.items clients.new.items
        core.old core.new (λ f. fold (tick_group f) core.old (led_groups core.old))) }
{
    let names = led_groups(core, alloc)?;
    tick_groups(core, clients, alloc, names.as_slice())
}

/// The part of a tick on what the node leads: tallies tick, and entries are sent again.
#[tactic(auto, unfolding(node_state::specs::Ticks::tick_led))]
pub fn tick_led<C: Callbacks>(
    core: &mut Core,
    clients: &mut Vec<C>,
    alloc: Global,
) -> Result<(), NoMemory>
    requires work { AtWork core.old clients.old.items }
    ensures work { OnOk result (AtWork core.new clients.new.items) }
    ensures scripts { OnOk result (KeepsScripts C.script clients.old.items clients.new.items) }
    ensures does { OnOk result (RuleDoes C.script C.stands_for clients.old.items clients.new.items
        core.old core.new (λ f. tick_led f core.old)) }
{
    if is_frozen(core) {
        return Ok(());
    }
    tick_each_led(core, clients, alloc)
}
