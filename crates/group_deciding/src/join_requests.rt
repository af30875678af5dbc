//! Deciding a join: it is refused, or it waits.
ghost use Rattle.std.specs.Prelude.{◌≡◌, [], IfOk, OnOk};
ghost use Rattle.batch_rules.specs.Next.{added_as};
ghost use Rattle.batch_rules.specs.declared.waiting.Added.TheVariants.{Queued};
ghost use Rattle.proposal_core.specs.Fold.{present};
ghost use Rattle.node_state.specs.State.{InNameOrder, led_of, state_of};
ghost use Rattle.node_state.specs.Deciding.{is_idle_empty, meant_attrs, join_refusal, wait_join, decide_join};
ghost use Rattle.node_groups.specs.Keeps.{Keeps};

use crate::limits::full_refusal;
use crate::queue::{is_duplicate, queue_join};
use crate::refusals::refuse;
use crate::sources::{lacks_source, source_len};
use client_callbacks::Why;
use group_attr::Attrs;
use node_groups::{keep_decision, row_mut, state_of, waiting_joins};
use node_state::Core;
use proposal_core::GroupState;
use rsct_packet::{List, MAX_PROVIDERS, Name, NoMemory, ProviderId};
use std::alloc::Global;

/// The members, then the running joiners.
fn present(alloc: Global, state: &GroupState) -> Result<List<ProviderId>, NoMemory>
    ensures { IfOk result (λ ps. ps ≡ present state.now) }
{
    let mut ps = List::of(alloc, state.members.as_slice())?;
    ps.extend(state.joiners())?;
    Ok(ps)
}

/// Is nobody there, and does nothing run?
#[tactic(auto, unfolding(node_state::specs::Deciding::is_idle_empty))]
fn is_idle_empty(state: &GroupState) -> bool
    ensures { result ≡ is_idle_empty state.now }
{
    state.members.as_slice().is_empty() && state.running.is_none()
}

/// The source that is meant: in an empty idle group that of the request, else the group's own.
#[tactic(auto, unfolding(node_state::specs::Deciding::meant_attrs))]
fn meant_source<'a>(state: &'a GroupState, attrs: &'a Attrs, idle: bool) -> &'a Option<Name>
    ensures { result.now ≡ (meant_attrs state.now attrs.now idle).source }
{
    if idle {
        &attrs.source
    } else {
        &state.attrs.source
    }
}

/// Why a join is refused: the first that holds of bad attributes, a duplicate, a missing source, a full group and a
/// full list.
#[tactic(auto, unfolding(node_state::specs::Deciding::join_refusal, node_state::specs::Deciding::full_refusal), using(std::proofs::lemmas::Grind::common_steps))]
fn join_refusal(
    core: &Core,
    alloc: Global,
    group: &[u8],
    provider: ProviderId,
    attrs: &Attrs,
    state: &GroupState,
) -> Result<Option<Why>, NoMemory>
    requires { state.now ≡ state_of core.now group.now }
    ensures { IfOk result (λ y. y ≡ join_refusal core.now group.now provider attrs.now) }
{
    let idle = is_idle_empty(state);
    if !idle && !attrs.agrees(&state.attrs) {
        return Ok(Some(Why::BadAttributes));
    }
    let ps = present(alloc, state)?;
    if is_duplicate(core, group, provider, ps.as_slice()) {
        return Ok(Some(Why::DuplicateInstance));
    }
    let source = meant_source(state, attrs, idle);
    if lacks_source(core, source, provider.node) {
        return Ok(Some(Why::NoSource(source_len(core, source))));
    }
    if ps.len() + waiting_joins(core, group) >= MAX_PROVIDERS {
        return Ok(Some(Why::GroupFull(MAX_PROVIDERS as u32)));
    }
    if state.running.is_some() {
        return Ok(None);
    }
    Ok(full_refusal(core, group))
}

/// A join waits, and this decision is kept.
#[tactic(auto, unfolding(node_state::specs::Deciding::wait_join, node_state::specs::State::with_led, node_state::specs::State::with_row), using(node_groups::proofs::RowLaws::row_written, crate::proofs::DecidingLaws::still_free, std::proofs::lemmas::Grind::common_steps))]
fn wait_join(
    core: &mut Core,
    alloc: Global,
    group: &Name,
    provider: ProviderId,
    request: u32,
    attrs: &Attrs,
    idle: bool,
) -> Result<(), NoMemory>
    requires order { InNameOrder core.old.groups }
    requires free { added_as provider [] (led_of core.old group.now).waiting ≡ Queued }
    ensures { OnOk result
        (core.new ≡ wait_join core.old group.now provider request attrs.now idle) }
{
    keep_decision(core, alloc, group, provider, request, None)?;
    let row = row_mut(&mut core.groups, alloc, group)?;
    queue_join(row, alloc, provider, attrs, idle)
}

/// Decides a join: it waits or is refused.
#[tactic(auto, unfolding(node_state::specs::Deciding::decide_join), using(crate::proofs::DecidingLaws::join_free, crate::proofs::DecidingLaws::waiting_keeps))]
pub(crate) fn decide_join(
    core: &mut Core,
    alloc: Global,
    group: &Name,
    provider: ProviderId,
    request: u32,
    attrs: &Attrs,
) -> Result<(), NoMemory>
    requires order { InNameOrder core.old.groups }
    ensures rule { OnOk result (core.new ≡ decide_join core.old group.now provider request
        attrs.now (join_refusal core.old group.now provider attrs.now)) }
    ensures keeps { OnOk result (Keeps core.old core.new) }
{
    let state = state_of(core, alloc, group.bytes())?;
    match join_refusal(core, alloc, group.bytes(), provider, attrs, &state)? {
        None => wait_join(
            core,
            alloc,
            group,
            provider,
            request,
            attrs,
            is_idle_empty(&state),
        ),
        Some(y) => refuse(core, alloc, group, provider, request, y),
    }
}
