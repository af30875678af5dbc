//! Deciding a request that is no join: it is refused, or it begins.
ghost use Rattle.std.specs.Prelude.{◌≡◌, IfOk, OnOk, None, not};
ghost use Rattle.session_clients.specs.Clients.{KeepsScripts};
ghost use Rattle.std.specs.List.{list_any};
ghost use Rattle.rsct_packet.specs.Providers.{among};
ghost use Rattle.entry_delivery.specs.Doing.{Does, RuleDoes};
ghost use Rattle.group_leading.specs.Working.{AtWork};
ghost use Rattle.node_state.specs.Leading.{begins};
ghost use Rattle.node_state.specs.Deciding.{keep_decision, expelled_by, has_other_source, is_no_member, collide_refusal, other_refusal, decide_change};

use crate::limits::full_refusal;
use crate::refusals::refuse;
use client_callbacks::{Callbacks, Why};
use group_attr::Attrs;
use group_leading::begin;
use node_groups::{gone_of, keep_decision, state_of};
use node_state::Core;
use proposal_core::{GroupState, Proposal, Running};
use rsct_packet::{NoMemory, ProviderId, is_among};
use session_state::Request;
use std::alloc::Global;

/// Whom a proposal expels.
#[tactic(auto, unfolding(node_state::specs::Deciding::expelled_by))]
fn expelled_by(proposal: &Proposal) -> &[ProviderId]
    ensures { result.now ≡ expelled_by proposal.now }
{
    match proposal {
        Proposal::Expel { out, .. } => out.as_slice(),
        _ => &[],
    }
}

/// Does a proposal give the group another source?
#[tactic(auto, unfolding(node_state::specs::Deciding::has_other_source))]
fn has_other_source(old: &Attrs, proposal: &Proposal) -> bool
    ensures { result ≡ has_other_source old.now proposal.now }
{
    match proposal {
        Proposal::Attributes { attrs, .. } => !attrs.has_same_source(old),
        _ => false,
    }
}

/// Is one of them no member?
fn has_stranger(members: &[ProviderId], providers: &[ProviderId]) -> bool
    ensures { result ≡ list_any (λ q. not (among members.now q)) providers.now }
{
    providers.iter().any(|q| !is_among(members, *q))
}

/// Is the requester no member, failed or gone, or is one of the expelled no member?
#[tactic(auto, unfolding(node_state::specs::Deciding::is_no_member))]
fn is_no_member(
    state: &GroupState,
    gone: &[ProviderId],
    provider: ProviderId,
    proposal: &Proposal,
) -> bool
    ensures { result ≡ is_no_member state.now gone.now provider proposal.now }
{
    let members = state.members.as_slice();
    !is_among(members, provider)
        || is_among(state.failed.as_slice(), provider)
        || is_among(gone, provider)
        || has_stranger(members, expelled_by(proposal))
}

/// Why a request of a member is refused that may be made: a protocol runs, or the list is full.
#[tactic(auto, unfolding(node_state::specs::Deciding::collide_refusal))]
fn collide_refusal(core: &Core, group: &[u8], running: &Option<Running>) -> Option<Why>
    ensures { result ≡ collide_refusal core.now group.now running.now }
{
    match running {
        None => full_refusal(core, group),
        Some(run) => Some(Why::Collide(run.proto)),
    }
}

/// Why a request that is no join is refused: the first that holds of a requester or an expelled one who is no member,
/// another source, a protocol that runs and a full list.
#[tactic(auto, unfolding(node_state::specs::Deciding::other_refusal))]
fn other_refusal(
    core: &Core,
    alloc: Global,
    group: &[u8],
    provider: ProviderId,
    proposal: &Proposal,
) -> Result<Option<Why>, NoMemory>
    ensures { IfOk result (λ y. y ≡ other_refusal core.now group.now provider proposal.now) }
{
    let state = state_of(core, alloc, group)?;
    let gone = gone_of(core, alloc, group)?;
    if is_no_member(&state, gone.as_slice(), provider, proposal) {
        return Ok(Some(Why::NotAMember));
    }
    if has_other_source(&state.attrs, proposal) {
        return Ok(Some(Why::BadAttributes));
    }
    Ok(collide_refusal(core, group, &state.running))
}

/// Begins what is requested, and this decision is kept.
fn grant<C: Callbacks>(
    core: &mut Core,
    clients: &mut Vec<C>,
    alloc: Global,
    asked: &Request,
) -> Result<(), NoMemory>
    requires work { AtWork core.old clients.old.items }
    ensures work { OnOk result (AtWork core.new clients.new.items) }
    ensures scripts { OnOk result (KeepsScripts C.script clients.old.items clients.new.items) }
    ensures does { OnOk result (RuleDoes C.script C.stands_for clients.old.items clients.new.items
        core.old core.new (λ f. begins f
        (keep_decision core.old asked.now.group asked.now.provider asked.now.request None)
        asked.now.group asked.now.proposal asked.now.phases)) }
{
    keep_decision(
        core,
        alloc,
        &asked.group,
        asked.provider,
        asked.request,
        None,
    )?;
    begin(
        core,
        clients,
        alloc,
        &asked.group,
        &asked.proposal,
        asked.phases,
    )
}

/// Decides a request that is no join: what is requested begins or is refused.
#[tactic(auto, unfolding(node_state::specs::Deciding::decide_change))]
pub(crate) fn decide_change<C: Callbacks>(
    core: &mut Core,
    clients: &mut Vec<C>,
    alloc: Global,
    asked: &Request,
) -> Result<(), NoMemory>
    requires work { AtWork core.old clients.old.items }
    ensures work { OnOk result (AtWork core.new clients.new.items) }
    ensures scripts { OnOk result (KeepsScripts C.script clients.old.items clients.new.items) }
    ensures does { OnOk result (RuleDoes C.script C.stands_for clients.old.items clients.new.items
        core.old core.new (λ f. decide_change f core.old asked.now.group asked.now.provider
        asked.now.request asked.now.phases asked.now.proposal
        (other_refusal core.old asked.now.group asked.now.provider asked.now.proposal))) }
{
    match other_refusal(
        core,
        alloc,
        asked.group.bytes(),
        asked.provider,
        &asked.proposal,
    )? {
        None => grant(core, clients, alloc, asked),
        Some(y) => refuse(core, alloc, &asked.group, asked.provider, asked.request, y),
    }
}
