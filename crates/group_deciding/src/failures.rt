//! Waiting failures begin.
ghost use Rattle.std.specs.Prelude.{◌≡◌, IfOk, OnOk};
ghost use Rattle.session_clients.specs.Clients.{KeepsScripts};
ghost use Rattle.group_leading.specs.Working.{AtWork};
ghost use Rattle.node_state.specs.State.{InNameOrder, state_of};
ghost use Rattle.node_state.specs.Ending.{failures_begin};
ghost use Rattle.node_groups.specs.Keeps.{Keeps};
ghost use Rattle.group_deciding.specs.BeginFailures.{of_members, failures_chosen, failures_taken};
ghost use Rattle.group_deciding.specs.Passing.{PassDoes};

use crate::waiting::take_failures;
use client_callbacks::Callbacks;
use group_leading::begin;
use node_groups::state_of;
use node_state::Core;
use proposal_core::{Failure, Fallen, GroupState, Proposal};
use rsct_packet::{List, Name, NoMemory, ProviderId, is_among};
use std::alloc::Global;

/// The failures of those who are members still.
#[tactic(auto, unfolding(crate::specs::BeginFailures::of_members), using(std::proofs::lemmas::List::Elements::filter_more, std::proofs::lemmas::Grind::common_steps))]
fn of_members(
    alloc: Global,
    members: &[ProviderId],
    failures: &[Failure],
) -> Result<Fallen, NoMemory>
    ensures { IfOk result (λ out. out ≡ of_members members.now failures.now) }
{
    let mut out = List::new(alloc);
    for x in failures {
        if is_among(members, x.provider) {
            out.push(*x)?;
        }
    }
    Ok(out)
}

/// Takes the failures that begin next out of the queue, and leaves out those who are no members any more.
#[tactic(auto, unfolding(crate::specs::BeginFailures::failures_chosen, crate::specs::BeginFailures::failures_taken), using(crate::proofs::TakingLaws::waiting_keeps))]
fn next_fallen(
    core: &mut Core,
    alloc: Global,
    group: &Name,
    state: &GroupState,
) -> Result<Fallen, NoMemory>
    requires order { InNameOrder core.old.groups }
    requires state { state.now ≡ state_of core.old group.now }
    ensures out { IfOk result (λ out. out ≡ failures_chosen core.old group.now) }
    ensures rule { OnOk result (core.new ≡ failures_taken core.old group.now) }
    ensures keeps { OnOk result (Keeps core.old core.new) }
{
    let waiting = take_failures(core, alloc, group, state.attrs.batch)?;
    of_members(alloc, state.members.as_slice(), waiting.as_slice())
}

/// Waiting failures begin, in at most `most` choices: one that is no member any more is left out, and after a choice
/// that is left out whole the next one is taken. Has something begun?
pub fn begin_failures<C: Callbacks>(
    core: &mut Core,
    clients: &mut Vec<C>,
    alloc: Global,
    group: &Name,
    most: usize,
) -> Result<bool, NoMemory>
    requires work { AtWork core.old clients.old.items }
    ensures work { OnOk result (AtWork core.new clients.new.items) }
    ensures scripts { OnOk result (KeepsScripts C.script clients.old.items clients.new.items) }
    ensures does { IfOk result (λ began. PassDoes C.script C.stands_for clients.old.items
        clients.new.items core.old core.new began
        (λ f. failures_begin most f core.old group.now)) }
{
    if most == 0 {
        return Ok(false);
    }
    let state = state_of(core, alloc, group.bytes())?;
    let out = next_fallen(core, alloc, group, &state)?;
    if out.is_empty() {
        return begin_failures(core, clients, alloc, group, most - 1);
    }
    begin(
        core,
        clients,
        alloc,
        group,
        &Proposal::Fail { out },
        state.attrs.phases,
    )?;
    Ok(true)
}
