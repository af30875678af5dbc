//! The groups that the node leads in the view that it enters.
ghost use Rattle.std.specs.Prelude.{◌≡◌, OnOk, IfOk, filter};
ghost use Rattle.session_clients.specs.Clients.{KeepsScripts};
ghost use Rattle.std.specs.List.{fold};
ghost use Rattle.rsct_packet.specs.Providers.{among};
ghost use Rattle.entry_delivery.specs.Doing.{RuleDoes};
ghost use Rattle.group_leading.specs.Working.{AtWork};
ghost use Rattle.node_groups.specs.Keeps.{Keeps};
ghost use Rattle.node_state.specs.State.{state_of};
ghost use Rattle.node_state.specs.Applying.{wait_failed, phase_reopened, lead, lead_groups};

use client_callbacks::Callbacks;
use group_leading::{close, open_tally};
use node_groups::{led_groups, state_of, wait_failure};
use node_state::Core;
use proposal_core::{Cause, GroupState};
use rsct_packet::{Name, NoMemory, ProviderId, is_among};
use std::alloc::Global;

/// These failed members wait.
#[tactic(auto, unfolding(node_state::specs::Applying::wait_failed), using(std::proofs::lemmas::List::Sums::fold_more, node_groups::proofs::KeepLaws::keeps_itself, node_groups::proofs::KeepLaws::keeps_then))]
fn wait_failed(
    core: &mut Core,
    alloc: Global,
    group: &Name,
    providers: &[ProviderId],
) -> Result<(), NoMemory>
    ensures rule { OnOk result (core.new ≡ wait_failed core.old group.now providers.now) }
    ensures keeps { OnOk result (Keeps core.old core.new) }
{
    for p in providers {
        wait_failure(core, alloc, group, *p, Cause::Died)?;
    }
    Ok(())
}

/// Opens the phase that runs anew, if one does, and closes it where it has an outcome at once.
fn reopen<C: Callbacks>(
    core: &mut Core,
    clients: &mut Vec<C>,
    alloc: Global,
    group: &Name,
    runs: bool,
) -> Result<(), NoMemory>
    requires work { AtWork core.old clients.old.items }
    ensures work { OnOk result (AtWork core.new clients.new.items) }
    ensures scripts { OnOk result (KeepsScripts C.script clients.old.items clients.new.items) }
    ensures does { OnOk result (RuleDoes C.script C.stands_for clients.old.items clients.new.items
        core.old core.new (λ f. phase_reopened f core.old group.now runs)) }
{
    if !runs {
        return Ok(());
    }
    open_tally(core, alloc, group)?;
    close(core, clients, alloc, group)
}

/// The members that failed.
fn failed_members(alloc: Global, state: &GroupState) -> Result<Vec<ProviderId>, NoMemory>
    ensures { IfOk result (λ v. v.items ≡ filter (among state.now.members) state.now.failed) }
{
    Ok(
        state
            .failed
            .as_slice()
            .iter()
            .copied()
            .filter(|p| is_among(state.members.as_slice(), *p))
            .collect(alloc)?,
    )
}

/// The node leads the group in this state: its failed members wait, and its phase that runs is opened anew.
fn lead_from<C: Callbacks>(
    core: &mut Core,
    clients: &mut Vec<C>,
    alloc: Global,
    group: &Name,
    state: &GroupState,
) -> Result<(), NoMemory>
    requires work { AtWork core.old clients.old.items }
    requires state { state.now ≡ state_of core.old group.now }
    ensures work { OnOk result (AtWork core.new clients.new.items) }
    ensures scripts { OnOk result (KeepsScripts C.script clients.old.items clients.new.items) }
    ensures does { OnOk result (RuleDoes C.script C.stands_for clients.old.items clients.new.items
        core.old core.new (λ f. lead f core.old group.now)) }
{
    let failed = failed_members(alloc, state)?;
    wait_failed(core, alloc, group, failed.as_slice())?;
    reopen(core, clients, alloc, group, state.running.is_some())
}

/// The node leads the group, whose state is read once.
fn lead<C: Callbacks>(
    core: &mut Core,
    clients: &mut Vec<C>,
    alloc: Global,
    group: &Name,
) -> Result<(), NoMemory>
    requires work { AtWork core.old clients.old.items }
    ensures work { OnOk result (AtWork core.new clients.new.items) }
    ensures scripts { OnOk result (KeepsScripts C.script clients.old.items clients.new.items) }
    ensures does { OnOk result (RuleDoes C.script C.stands_for clients.old.items clients.new.items
        core.old core.new (λ f. lead f core.old group.now)) }
{
    let state = state_of(core, alloc, group.bytes())?;
    lead_from(core, clients, alloc, group, &state)
}

fn lead_each<C: Callbacks>(
    core: &mut Core,
    clients: &mut Vec<C>,
    alloc: Global,
    groups: &[Name],
) -> Result<(), NoMemory>
    requires work { AtWork core.old clients.old.items }
    ensures work { OnOk result (AtWork core.new clients.new.items) }
    ensures scripts { OnOk result (KeepsScripts C.script clients.old.items clients.new.items) }
    ensures does { OnOk result (RuleDoes C.script C.stands_for clients.old.items clients.new.items
        core.old core.new (λ f. fold (lead f) core.old groups.now)) }
{
    for g in groups {
        lead(core, clients, alloc, g)?;
    }
    Ok(())
}

/// The node leads its groups, in name order.
pub(crate) fn lead_groups<C: Callbacks>(
    core: &mut Core,
    clients: &mut Vec<C>,
    alloc: Global,
) -> Result<(), NoMemory>
    requires work { AtWork core.old clients.old.items }
    ensures work { OnOk result (AtWork core.new clients.new.items) }
    ensures scripts { OnOk result (KeepsScripts C.script clients.old.items clients.new.items) }
    ensures does { OnOk result (RuleDoes C.script C.stands_for clients.old.items clients.new.items
        core.old core.new (λ f. lead_groups f core.old)) }
{
    let groups = led_groups(core, alloc)?;
    lead_each(core, clients, alloc, groups.as_slice())
}
