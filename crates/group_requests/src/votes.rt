//! Ballots that come to the leader of a group.
ghost use Rattle.std.specs.Prelude.{◌≡◌, ◌&&◌, OnOk};
ghost use Rattle.session_clients.specs.Clients.{KeepsScripts};
ghost use Rattle.proposal_core.specs.Fold.{runs};
ghost use Rattle.entry_delivery.specs.Doing.{Does, RuleDoes};
ghost use Rattle.group_leading.specs.Working.{AtWork};
ghost use Rattle.node_state.specs.State.{leads, state_of};
ghost use Rattle.node_state.specs.Following.{take_vote};

use client_callbacks::Callbacks;
use group_leading::close;
use node_groups::{cast_vote, is_running, leads};
use node_sending::FilledBallot;
use node_state::Core;
use rsct_packet::{NoMemory, ProtoId};
use std::alloc::Global;

/// Does the node lead the group, in which this phase runs?
fn takes_votes(core: &Core, group: &[u8], proto: ProtoId, phase: u16) -> bool
    ensures { result ≡ (leads core.now group.now
        && runs proto phase (state_of core.now group.now).running) }
{
    leads(core, group) && is_running(core, group, proto, phase)
}

/// VOTE: a ballot of the phase that runs is recorded; the phase is closed where there is an outcome.
pub fn take_vote<C: Callbacks>(
    core: &mut Core,
    clients: &mut Vec<C>,
    alloc: Global,
    ballot: &FilledBallot<'_>,
) -> Result<(), NoMemory>
    requires work { AtWork core.old clients.old.items }
    ensures work { OnOk result (AtWork core.new clients.new.items) }
    ensures scripts { OnOk result (KeepsScripts C.script clients.old.items clients.new.items) }
    ensures does { OnOk result (RuleDoes C.script C.stands_for clients.old.items clients.new.items
        core.old core.new (λ f. take_vote f core.old ballot.now.group.now ballot.now.proto
        ballot.now.phase ballot.now.provider ballot.now.filled.now.vote
        ballot.now.filled.now.value ballot.now.filled.now.message)) }
{
    if !takes_votes(core, ballot.group.bytes(), ballot.proto, ballot.phase) {
        return Ok(());
    }
    let filled = ballot.filled.copy(alloc)?;
    cast_vote(
        core,
        alloc,
        ballot.group,
        ballot.provider,
        filled.vote,
        filled.value,
        filled.message,
    )?;
    close(core, clients, alloc, ballot.group)
}
