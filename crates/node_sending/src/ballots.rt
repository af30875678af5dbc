//! What a node sends for its clients: their requests and their ballots.
ghost use Rattle.std.specs.Prelude.{◌≡◌, OnOk, IfOk};
ghost use Rattle.node_state.specs.Sending.{send_if_known, vote_of, send_request_to, send_kept_to};
ghost use Rattle.node_state.specs.declared.packet.Body.TheVariants as body;

use crate::packets::{send, send_if_known};
use client_callbacks::Filled;
use node_state::{Body, Core};
use rsct_packet::{Name, NoMemory, ProtoId, ProviderId, ViewId};
use session_state::{KeptBallot, Request};
use std::alloc::Global;

/// What a provider casts in a phase of a protocol that runs in a group.
#[derive(Clone, Copy)]
pub struct FilledBallot<'a> {
    pub group: &'a Name,
    pub proto: ProtoId,
    pub phase: u16,
    pub provider: ProviderId,
    pub filled: &'a Filled,
}

/// The packet of a ballot that is filled.
#[tactic(auto, unfolding(node_state::specs::Sending::vote_of))]
fn vote_of(core: &Core, alloc: Global, ballot: &FilledBallot<'_>) -> Result<Body, NoMemory>
    ensures { IfOk result (λ b. b ≡ vote_of core.now ballot.now.group.now ballot.now.proto
        ballot.now.phase ballot.now.provider ballot.now.filled.now) }
{
    let filled = ballot.filled.copy(alloc)?;
    Ok(Body::Vote {
        view: core.views.view,
        name: ballot.group.copy(alloc)?,
        proto: ballot.proto,
        phase: ballot.phase,
        provider: ballot.provider,
        vote: filled.vote,
        value: filled.value,
        message: filled.message,
    })
}

/// Sends a ballot that is filled to a node that may be unknown.
pub fn send_vote(
    core: &mut Core,
    alloc: Global,
    to: Option<u8>,
    ballot: &FilledBallot<'_>,
) -> Result<(), NoMemory>
    ensures { OnOk result (core.new ≡ send_if_known core.old to
        (vote_of core.old ballot.now.group.now ballot.now.proto ballot.now.phase
        ballot.now.provider ballot.now.filled.now)) }
{
    let body = vote_of(core, alloc, ballot)?;
    send_if_known(core, to, body)
}

/// Sends a kept ballot to a leader that may be unknown.
#[tactic(auto, unfolding(node_state::specs::Sending::send_kept_to))]
pub fn send_kept_to(
    core: &mut Core,
    alloc: Global,
    kept: &KeptBallot,
    to: Option<u8>,
) -> Result<(), NoMemory>
    ensures { OnOk result (core.new ≡ send_kept_to core.old kept.now to kept.now.ballot.filled) }
{
    match kept.ballot.filled() {
        None => Ok(()),
        Some(filled) => {
            let ballot = FilledBallot {
                group: &kept.group,
                proto: kept.proto,
                phase: kept.phase,
                provider: kept.provider,
                filled,
            };
            send_vote(core, alloc, to, &ballot)
        }
    }
}

/// The packet that asks for the leader of a group.
fn lookup(alloc: Global, view: ViewId, group: &Name) -> Result<Body, NoMemory>
    ensures { IfOk result (λ b. b ≡ body.Lookup view group.now) }
{
    Ok(Body::Lookup {
        view,
        name: group.copy(alloc)?,
    })
}

/// The packet of a request.
fn request(alloc: Global, view: ViewId, request: &Request) -> Result<Body, NoMemory>
    ensures { IfOk result (λ b. b ≡ body.Request view request.now.group request.now.provider
        request.now.request request.now.phases request.now.proposal) }
{
    Ok(Body::Request {
        view,
        name: request.group.copy(alloc)?,
        provider: request.provider,
        request: request.request,
        phases: request.phases,
        proposal: request.proposal.copy(alloc)?,
    })
}

/// Sends a request to the leader of its group; where that is unknown, its name is looked up.
#[tactic(auto, unfolding(node_state::specs::Sending::send_request_to))]
pub fn send_request_to(
    core: &mut Core,
    alloc: Global,
    asked: &Request,
    leader: Option<u8>,
) -> Result<(), NoMemory>
    ensures { OnOk result (core.new ≡ send_request_to core.old asked.now leader) }
{
    match leader {
        None => {
            let body = lookup(alloc, core.views.view, &asked.group)?;
            send(core, core.views.view.coord, body)
        }
        Some(n) => {
            let body = request(alloc, core.views.view, asked)?;
            send(core, n, body)
        }
    }
}
