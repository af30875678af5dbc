//! Providers that do not live in the base of their group are dissolved.
ghost use Rattle.std.specs.Prelude.{◌≡◌, ◌&&◌, ◌∷◌, [], not, length, OnOk, filter, find, is_some, option_copied};
ghost use Rattle.session_clients.specs.Clients.{KeepsScripts};
ghost use Rattle.std.specs.List.{fold};
ghost use Rattle.std.specs.Str.{bytes_eq};
ghost use Rattle.client_callbacks.specs.declared.told.Why.TheVariants as why;
ghost use Rattle.session_state.specs.HandOn.{take_telling};
ghost use Rattle.session_state.specs.State.{provider_of, place_of, outstanding, is_asked_by};
ghost use Rattle.view_state.specs.Bases.{base_named};
ghost use Rattle.node_groups.specs.Keeps.{Stays};
ghost use Rattle.entry_delivery.specs.Received.{Receive};
ghost use Rattle.entry_delivery.specs.Doing.{RuleDoes};
ghost use Rattle.node_state.specs.declared.happened.Happened.TheVariants as happened;
ghost use Rattle.node_views.specs.Arriving.{handed_at};
ghost use Rattle.session_state.specs.Calls.{SameSessions};
ghost use Rattle.node_state.specs.Applying.{is_in_base, number_of, dissolved, dissolved_if, group_dissolved, sides_dissolved};

use client_callbacks::{Callbacks, Told, Why};
use node_state::{Core, GroupRow, Happened};
use rsct_packet::{Name, NoMemory, ProviderId, ViewId};
use session_clients::tell_at;
use session_delivery::{place_of, take_telling, takes_telling};
use session_state::{Provider, Request, SessionState};
use view_state::Base;

/// The base of a group, where it has one.
#[tactic(auto, unfolding(view_state::specs::Bases::base_named))]
pub(crate) fn base_named<'a>(bases: &'a [Base], group: &[u8]) -> Option<&'a Base>
    ensures { option_copied result ≡ base_named bases.now group.now }
{
    bases.iter().find(|base| base.name.bytes() == group)
}

/// Does the provider live in the base, which comes from the old view?
#[tactic(auto, unfolding(node_state::specs::Applying::is_in_base), using(proposal_core::proofs::FoldLaws::among_both))]
fn is_in_base(old: ViewId, provider: ProviderId, base: Option<&Base>) -> bool
    ensures { result ≡ is_in_base old provider (option_copied base.entry) }
{
    match base {
        None => false,
        Some(base) => { base.from == old && base.state.is_present(provider) }
    }
}

/// Does it take part in the group, and not live in its base?
fn is_left_out(provider: &Provider, group: &Name, old: ViewId, base: Option<&Base>) -> bool
    ensures { result ≡ (provider.now.takes_part && bytes_eq provider.now.group group.now
        && not (is_in_base old provider.now.provider (option_copied base.entry))) }
{
    provider.takes_part
        && provider.group.bytes() == group.bytes()
        && !is_in_base(old, provider.provider, base)
}

/// The outstanding request of a provider.
fn request_of(requests: &[Request], provider: ProviderId) -> Option<&Request>
    ensures { option_copied result ≡ find (is_asked_by provider) requests.now }
{
    requests.iter().find(|q| q.provider == provider)
}

/// The number of the provider's outstanding request; 0 where it has none.
#[tactic(auto, unfolding(session_state::specs::State::outstanding))]
fn number_of(sessions: &SessionState, provider: ProviderId) -> u32
    ensures { result ≡ number_of (outstanding sessions.now provider) }
{
    match request_of(sessions.requests.as_slice(), provider) {
        None => 0,
        Some(q) => q.request,
    }
}

/// Tells the client of a provider that it is dissolved, and drops the provider.
#[tactic(auto, unfolding(session_state::specs::HandOn::take_telling))]
fn tell_dissolved<C: Callbacks>(
    sessions: &mut SessionState,
    clients: &mut Vec<C>,
    provider: ProviderId,
    request: u32,
) -> Result<(), NoMemory>
    requires aligned { length clients.old.items ≡ length sessions.old.sessions }
    ensures length { length clients.new.items ≡ length clients.old.items }
    ensures scripts { OnOk result (KeepsScripts C.script clients.old.items clients.new.items) }
    ensures received { OnOk result (Receive C.stands_for clients.old.items clients.new.items
        (handed_at (place_of sessions.old provider) (happened.Told provider request why.Dissolved)
        ∷ [])) }
    ensures state { OnOk result
        (sessions.new ≡ take_telling sessions.old provider request why.Dissolved) }
    ensures same { OnOk result (SameSessions sessions.old sessions.new) }
{
    let why = Why::Dissolved;
    if !takes_telling(sessions, provider, request, why) {
        return Ok(());
    }
    tell_at(
        clients,
        place_of(sessions, provider),
        &Told::Refused {
            provider,
            request,
            why,
        },
    )?;
    take_telling(sessions, provider, why);
    Ok(())
}

/// Dissolves a provider, and records it.
#[tactic(auto, unfolding(node_state::specs::Applying::dissolved, node_state::specs::State::recorded, node_state::specs::State::with_sessions), using(crate::proofs::ToldLaws::told_stays))]
fn dissolve<C: Callbacks>(
    core: &mut Core,
    clients: &mut Vec<C>,
    provider: ProviderId,
    request: u32,
) -> Result<(), NoMemory>
    requires aligned { length clients.old.items ≡ length core.old.sessions.sessions }
    ensures length { length clients.new.items ≡ length clients.old.items }
    ensures scripts { OnOk result (KeepsScripts C.script clients.old.items clients.new.items) }
    ensures received { OnOk result (Receive C.stands_for clients.old.items clients.new.items
        (handed_at (place_of core.old.sessions provider)
        (happened.Told provider request why.Dissolved) ∷ [])) }
    ensures rule { OnOk result (core.new ≡ dissolved core.old provider request) }
    ensures stays { OnOk result (Stays core.old core.new) }
{
    tell_dissolved(&mut core.sessions, clients, provider, request)?;
    core.records.push(Happened::Told {
        provider,
        request,
        why: Why::Dissolved,
    })
}

/// Dissolves a provider that takes part in the group and does not live in its base.
#[tactic(auto, using(node_groups::proofs::KeepLaws::stays_itself))]
fn dissolve_if<C: Callbacks>(
    core: &mut Core,
    clients: &mut Vec<C>,
    group: &Name,
    old: ViewId,
    base: Option<&Base>,
    provider: ProviderId,
) -> Result<(), NoMemory>
    requires aligned { length clients.old.items ≡ length core.old.sessions.sessions }
    ensures length { length clients.new.items ≡ length clients.old.items }
    ensures scripts { OnOk result (KeepsScripts C.script clients.old.items clients.new.items) }
    ensures does { OnOk result (RuleDoes C.script C.stands_for clients.old.items clients.new.items
        core.old core.new (λ f. dissolved_if core.old group.now old (option_copied base.entry)
        (provider_of core.old.sessions provider))) }
    ensures stays { OnOk result (Stays core.old core.new) }
{
    match core.sessions.providers.get(provider) {
        None => Ok(()),
        Some(x) => {
            if !is_left_out(x, group, old, base) {
                return Ok(());
            }
            let provider = x.provider;
            let r = number_of(&core.sessions, provider);
            dissolve(core, clients, provider, r)
        }
    }
}

/// Dissolves those of these that take part in the group and do not live in its base.
fn dissolve_each<C: Callbacks>(
    core: &mut Core,
    clients: &mut Vec<C>,
    group: &Name,
    old: ViewId,
    base: Option<&Base>,
    providers: &[ProviderId],
) -> Result<(), NoMemory>
    requires aligned { length clients.old.items ≡ length core.old.sessions.sessions }
    ensures length { length clients.new.items ≡ length clients.old.items }
    ensures scripts { OnOk result (KeepsScripts C.script clients.old.items clients.new.items) }
    ensures does { OnOk result (RuleDoes C.script C.stands_for clients.old.items clients.new.items
        core.old core.new (λ f. fold (λ t p. dissolved_if t group.now old (option_copied base.entry)
        (provider_of t.sessions p)) core.old providers.now)) }
    ensures stays { OnOk result (Stays core.old core.new) }
{
    for p in providers {
        dissolve_if(core, clients, group, old, base, *p)?;
    }
    Ok(())
}

/// Dissolves those of a group's list, members and then running joiners, that do not live in the group's base.
#[tactic(auto, using(node_groups::proofs::KeepLaws::stays_itself, node_groups::proofs::KeepLaws::stays_then))]
fn dissolve_group<C: Callbacks>(
    core: &mut Core,
    clients: &mut Vec<C>,
    row: &GroupRow,
    old: ViewId,
    bases: &[Base],
) -> Result<(), NoMemory>
    requires aligned { length clients.old.items ≡ length core.old.sessions.sessions }
    ensures length { length clients.new.items ≡ length clients.old.items }
    ensures scripts { OnOk result (KeepsScripts C.script clients.old.items clients.new.items) }
    ensures does { OnOk result (RuleDoes C.script C.stands_for clients.old.items clients.new.items
        core.old core.new (λ f. fold (group_dissolved old bases.now) core.old
        (filter (λ x. is_some x.list) (row.now ∷ [])))) }
    ensures stays { OnOk result (Stays core.old core.new) }
{
    match &row.list {
        None => Ok(()),
        Some(list) => {
            let base = base_named(bases, row.name.bytes());
            let state = list.state();
            dissolve_each(
                core,
                clients,
                &row.name,
                old,
                base,
                state.members.as_slice(),
            )?;
            dissolve_each(core, clients, &row.name, old, base, state.joiners())
        }
    }
}

/// Dissolves, in the order of these rows of the old view, those of their lists that do not live in their bases.
pub(crate) fn dissolve_sides<C: Callbacks>(
    core: &mut Core,
    clients: &mut Vec<C>,
    rows: &[GroupRow],
    old: ViewId,
    bases: &[Base],
) -> Result<(), NoMemory>
    requires aligned { length clients.old.items ≡ length core.old.sessions.sessions }
    ensures length { length clients.new.items ≡ length clients.old.items }
    ensures scripts { OnOk result (KeepsScripts C.script clients.old.items clients.new.items) }
    ensures does { OnOk result (RuleDoes C.script C.stands_for clients.old.items clients.new.items
        core.old core.new (λ f. sides_dissolved core.old
        (filter (λ x. is_some x.list) rows.now) old bases.now)) }
    ensures stays { OnOk result (Stays core.old core.new) }
{
    for row in rows {
        dissolve_group(core, clients, row, old, bases)?;
    }
    Ok(())
}
