//! Providers that are gone.
ghost use Rattle.std.specs.Prelude.{◌≡◌, OnOk, false};
ghost use Rattle.session_clients.specs.Clients.{KeepsScripts};
ghost use Rattle.rsct_packet.specs.Providers.{among};
ghost use Rattle.proposal_core.specs.Fold.{present};
ghost use Rattle.entry_delivery.specs.Doing.{RuleDoes};
ghost use Rattle.node_groups.specs.Keeps.{Keeps};
ghost use Rattle.group_leading.specs.Working.{AtWork};
ghost use Rattle.node_state.specs.State.{InNameOrder, led_of, state_of};
ghost use Rattle.node_state.specs.HandOn.{Answering};
ghost use Rattle.node_state.specs.Following.{tally_failed, wait_gone, gone_of, gone_present, take_gone};

use client_callbacks::Callbacks;
use group_leading::close;
use node_groups::{
    drop_join, fail_voter, held_state, leads, mark_gone, row_of, tally_of, wait_failure,
};
use node_state::Core;
use proposal_core::Cause;
use rsct_packet::{Name, NoMemory, ProviderId, is_among};
use std::alloc::Global;

/// Is the provider a member of the group?
fn is_member(core: &Core, group: &[u8], provider: ProviderId) -> bool
    ensures { result ≡ among (state_of core.now group.now).members provider }
{
    match held_state(core, group) {
        None => false,
        Some(state) => is_among(state.members.as_slice(), provider),
    }
}

/// Is the provider a member of the group, or a running joiner?
#[tactic(auto, using(proposal_core::proofs::FoldLaws::among_both))]
fn is_present(core: &Core, group: &[u8], provider: ProviderId) -> bool
    ensures { result ≡ among (present (state_of core.now group.now)) provider }
{
    match held_state(core, group) {
        None => false,
        Some(state) => state.is_present(provider),
    }
}

/// The default vote stands for the provider in the phase that runs, which is closed where there is an outcome.
fn fail_vote<C: Callbacks>(
    core: &mut Core,
    clients: &mut Vec<C>,
    alloc: Global,
    group: &Name,
    provider: ProviderId,
) -> Result<(), NoMemory>
    requires work { AtWork core.old clients.old.items }
    ensures work { OnOk result (AtWork core.new clients.new.items) }
    ensures scripts { OnOk result (KeepsScripts C.script clients.old.items clients.new.items) }
    ensures does { OnOk result (RuleDoes C.script C.stands_for clients.old.items clients.new.items
        core.old core.new (λ f. tally_failed f core.old group.now provider
        (led_of core.old group.now).tally)) }
{
    if tally_of(core, group.bytes()).is_none() {
        return Ok(());
    }
    fail_voter(core, alloc, group, provider)?;
    close(core, clients, alloc, group)
}

/// A member waits as a failure.
#[tactic(auto, unfolding(node_state::specs::Following::wait_gone))]
fn wait_gone(
    core: &mut Core,
    alloc: Global,
    group: &Name,
    provider: ProviderId,
) -> Result<(), NoMemory>
    ensures { OnOk result (core.new ≡ wait_gone core.old group.now provider) }
{
    if !is_member(core, group.bytes(), provider) {
        return Ok(());
    }
    wait_failure(core, alloc, group, provider, Cause::Gone)
}

/// A provider that is present is marked as gone, its vote fails, and it waits as a failure.
fn leave<C: Callbacks>(
    core: &mut Core,
    clients: &mut Vec<C>,
    alloc: Global,
    group: &Name,
    provider: ProviderId,
) -> Result<(), NoMemory>
    requires work { AtWork core.old clients.old.items }
    ensures work { OnOk result (AtWork core.new clients.new.items) }
    ensures scripts { OnOk result (KeepsScripts C.script clients.old.items clients.new.items) }
    ensures does { OnOk result (RuleDoes C.script C.stands_for clients.old.items clients.new.items
        core.old core.new (λ f. gone_present f core.old group.now provider)) }
{
    mark_gone(core, alloc, group, provider)?;
    fail_vote(core, clients, alloc, group, provider)?;
    wait_gone(core, alloc, group, provider)
}

/// A join that waits is dropped.
fn drop_waiting(
    core: &mut Core,
    alloc: Global,
    group: &Name,
    provider: ProviderId,
) -> Result<(), NoMemory>
    requires order { InNameOrder core.old.groups }
    ensures rule { OnOk result ((f : Answering) → core.new
        ≡ gone_of f core.old group.now provider false
        (among (led_of core.old group.now).waiting.joins provider)) }
    ensures keeps { OnOk result (Keeps core.old core.new) }
{
    if row_of(&core.groups, group.bytes()).is_none() {
        return Ok(());
    }
    drop_join(core, alloc, group, provider)
}

/// GONE: a provider that is gone is marked, its vote fails, and it waits as a failure; a waiting join of it is dropped.
pub fn take_gone<C: Callbacks>(
    core: &mut Core,
    clients: &mut Vec<C>,
    alloc: Global,
    group: &Name,
    provider: ProviderId,
) -> Result<(), NoMemory>
    requires work { AtWork core.old clients.old.items }
    ensures work { OnOk result (AtWork core.new clients.new.items) }
    ensures scripts { OnOk result (KeepsScripts C.script clients.old.items clients.new.items) }
    ensures does { OnOk result (RuleDoes C.script C.stands_for clients.old.items clients.new.items
        core.old core.new (λ f. take_gone f core.old group.now provider)) }
{
    if !leads(core, group.bytes()) {
        return Ok(());
    }
    if is_present(core, group.bytes(), provider) {
        return leave(core, clients, alloc, group, provider);
    }
    drop_waiting(core, alloc, group, provider)
}
