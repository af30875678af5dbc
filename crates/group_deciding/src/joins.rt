//! Waiting joins begin.
ghost use Rattle.std.specs.Prelude.{◌≡◌, IfOk, OnOk};
ghost use Rattle.session_clients.specs.Clients.{KeepsScripts};
ghost use Rattle.group_leading.specs.Working.{AtWork};
ghost use Rattle.node_state.specs.State.{InNameOrder, led_of, state_of};
ghost use Rattle.node_state.specs.Ending.{attrs_for, carried_len, source_refused, joins_begin};
ghost use Rattle.node_groups.specs.Keeps.{Keeps};
ghost use Rattle.group_deciding.specs.BeginJoins.{chosen_joins, chosen_attrs, sourced, unsourced, joins_chosen};
ghost use Rattle.group_deciding.specs.Passing.{PassDoes};

use crate::refusals::refuse;
use crate::sources::{lacks_source, source_len};
use crate::waiting::take_joins;
use client_callbacks::{Callbacks, Why};
use group_attr::Attrs;
use group_leading::begin;
use node_groups::{join_attrs_of, len_of, state_of};
use node_state::Core;
use proposal_core::{GroupState, Proposal};
use rsct_packet::{Name, NoMemory, ProviderId, Providers};
use std::alloc::Global;

/// Those who join next, and the attributes that their join carries.
struct Joiners {
    ps: Providers,
    attrs: Attrs,
}

/// The attributes that a join carries: those of the first one's request where they are kept, else the group's own.
#[tactic(auto, unfolding(node_state::specs::Ending::attrs_for))]
fn attrs_for(
    core: &Core,
    alloc: Global,
    group: &[u8],
    state: &GroupState,
    providers: &[ProviderId],
) -> Result<Attrs, NoMemory>
    ensures { IfOk result
        (λ a. a ≡ attrs_for state.now (led_of core.now group.now).join_attrs providers.now) }
{
    match providers {
        [] => state.attrs.copy(alloc),
        [p, ..] => match join_attrs_of(core, group, *p) {
            None => state.attrs.copy(alloc),
            Some(kept) => kept.attrs.copy(alloc),
        },
    }
}

/// The length of the source's list, which a join into a group with a source carries.
#[tactic(auto, unfolding(node_state::specs::Ending::carried_len))]
fn carried_len(core: &Core, source: &Option<Name>) -> Option<u32>
    ensures { result ≡ carried_len core.now source.now }
{
    match source {
        None => None,
        Some(g) => Some(len_of(core, g.bytes())),
    }
}

/// Those on whose nodes a member of the source stands.
#[tactic(auto, unfolding(crate::specs::BeginJoins::sourced))]
fn sourced(
    core: &Core,
    alloc: Global,
    source: &Option<Name>,
    providers: &[ProviderId],
) -> Result<Vec<ProviderId>, NoMemory>
    ensures { IfOk result (λ v. v.items ≡ sourced core.now source.now providers.now) }
{
    Ok(
        providers
            .iter()
            .copied()
            .filter(|p| !lacks_source(core, source, p.node))
            .collect(alloc)?,
    )
}

/// Those on whose nodes no member of the source stands.
#[tactic(auto, unfolding(crate::specs::BeginJoins::unsourced))]
fn unsourced(
    core: &Core,
    alloc: Global,
    source: &Option<Name>,
    providers: &[ProviderId],
) -> Result<Vec<ProviderId>, NoMemory>
    ensures { IfOk result (λ v. v.items ≡ unsourced core.now source.now providers.now) }
{
    Ok(
        providers
            .iter()
            .copied()
            .filter(|p| lacks_source(core, source, p.node))
            .collect(alloc)?,
    )
}

/// Refuses joins for want of a source.
#[tactic(auto, unfolding(node_state::specs::Ending::source_refused), using(std::proofs::lemmas::List::Sums::fold_more))]
fn refuse_unsourced(
    core: &mut Core,
    alloc: Global,
    group: &Name,
    source: &Option<Name>,
    providers: &[ProviderId],
) -> Result<(), NoMemory>
    ensures { OnOk result
        (core.new ≡ source_refused core.old group.now source.now providers.now) }
{
    for p in providers {
        let why = Why::NoSource(source_len(core, source));
        refuse(core, alloc, group, *p, p.join, why)?;
    }
    Ok(())
}

/// Takes those who join next out of the queue, and refuses those of them that lack a source.
fn next_joiners(
    core: &mut Core,
    alloc: Global,
    group: &Name,
    state: &GroupState,
) -> Result<Joiners, NoMemory>
    requires order { InNameOrder core.old.groups }
    requires state { state.now ≡ state_of core.old group.now }
    ensures attrs { IfOk result (λ j. j.attrs ≡ chosen_attrs core.old group.now) }
    ensures ps { IfOk result (λ j. j.ps
        ≡ sourced core.old (chosen_attrs core.old group.now).source
        (chosen_joins core.old group.now)) }
    ensures rule { OnOk result (core.new ≡ joins_chosen core.old group.now) }
    ensures keeps { OnOk result (Keeps core.old core.new) }
{
    let chosen = take_joins(core, alloc, group, state.attrs.batch)?;
    let attrs = attrs_for(core, alloc, group.bytes(), state, chosen.as_slice())?;
    let ps = sourced(core, alloc, &attrs.source, chosen.as_slice())?;
    let refused = unsourced(core, alloc, &attrs.source, chosen.as_slice())?;
    refuse_unsourced(core, alloc, group, &attrs.source, refused.as_slice())?;
    Ok(Joiners {
        ps: Providers::of(alloc, ps.as_slice())?,
        attrs,
    })
}

/// Waiting joins begin, in at most `most` choices: joiners that lack a source are refused and left out, and after a
/// choice that is left out whole the next one is taken. Has something begun?
pub fn begin_joins<C: Callbacks>(
    core: &mut Core,
    clients: &mut Vec<C>,
    alloc: Global,
    group: &Name,
    most: usize,
) -> Result<bool, NoMemory>
    requires work { AtWork core.old clients.old.items }
    ensures work { OnOk result (AtWork core.new clients.new.items) }
    ensures scripts { OnOk result (KeepsScripts C.script clients.old.items clients.new.items) }
    ensures does { IfOk result (λ began. PassDoes C.script C.stands_for clients.old.items
        clients.new.items core.old core.new began (λ f. joins_begin most f core.old group.now)) }
{
    if most == 0 {
        return Ok(false);
    }
    let state = state_of(core, alloc, group.bytes())?;
    let Joiners { ps, attrs } = next_joiners(core, alloc, group, &state)?;
    if ps.len() == 0 {
        return begin_joins(core, clients, alloc, group, most - 1);
    }
    let phases = attrs.phases;
    let source_len = carried_len(core, &attrs.source);
    let join = Proposal::Join {
        ps,
        attrs,
        source_len,
    };
    begin(core, clients, alloc, group, &join, phases)?;
    Ok(true)
}
