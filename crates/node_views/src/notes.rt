//! What subscribers are told at an install.
ghost use Rattle.std.specs.Prelude.{◌≡◌, ◌++◌, ◌∷◌, [], OnOk, IfOk, None, length, map};
ghost use Rattle.session_clients.specs.Clients.{KeepsScripts};
ghost use Rattle.std.specs.List.{flat_map};
ghost use Rattle.session_state.specs.State.{client_place};
ghost use Rattle.client_callbacks.specs.declared.told.Told.TheVariants as told;
ghost use Rattle.node_state.specs.declared.happened.Happened.TheVariants as happened;
ghost use Rattle.node_state.specs.HandOn.{subscriber_name};
ghost use Rattle.view_state.specs.Bases.{base_named};
ghost use Rattle.node_state.specs.Applying.{entering_noted};
ghost use Rattle.node_groups.specs.Keeps.{Stays};
ghost use Rattle.entry_delivery.specs.Received.{Receive};
ghost use Rattle.entry_delivery.specs.Doing.{RuleDoes};
ghost use Rattle.node_views.specs.Arriving.{note_at, notes_at, handed_at, note_handings};

use crate::dissolved::base_named;
use client_callbacks::{Callbacks, Told};
use entry_delivery::subscriber_name;
use group_attr::HOST_MEMBERSHIP;
use node_state::{Core, Happened, Records};
use rsct_packet::{List, Members, NoMemory, ViewId};
use session_clients::tell_at;
use session_delivery::client_place;
use session_state::SessionState;
use std::alloc::Global;
use subscribe_core::Subscription;
use view_state::Base;

/// What is told at a node of the view that it enters: its members, and what the groups begin with.
#[derive(Clone, Copy)]
struct Arrival<'a> {
    node: u8,
    view: ViewId,
    members: &'a Members,
    bases: &'a [Base],
}

/// Tells the client of a subscription something at an install, and records it.
fn tell<C: Callbacks>(
    sessions: &SessionState,
    clients: &mut Vec<C>,
    records: &mut Records,
    alloc: Global,
    arrival: &Arrival<'_>,
    subscription: &Subscription,
    told: Told,
) -> Result<(), NoMemory>
    requires aligned { length clients.old.items ≡ length sessions.now.sessions }
    ensures length { length clients.new.items ≡ length clients.old.items }
    ensures scripts { OnOk result (KeepsScripts C.script clients.old.items clients.new.items) }
    ensures received { OnOk result (Receive C.stands_for clients.old.items clients.new.items
        (handed_at (client_place sessions.now subscription.now.client)
        (happened.Noted arrival.now.node (subscriber_name sessions.now subscription.now)
        arrival.now.view None told) ∷ [])) }
    ensures records { OnOk result (records.new ≡ records.old
        ++ happened.Noted arrival.now.node (subscriber_name sessions.now subscription.now)
        arrival.now.view None told ∷ []) }
{
    let client = subscriber_name(alloc, sessions, subscription)?;
    tell_at(clients, client_place(sessions, subscription.client), &told)?;
    records.push(Happened::Noted {
        node: arrival.node,
        client,
        view: arrival.view,
        place: None,
        told,
    })
}

/// What a client is told of the hosts.
fn hosts(alloc: Global, arrival: &Arrival<'_>) -> Result<Told, NoMemory>
    ensures { IfOk result (λ t. t ≡ told.Hosts arrival.now.view arrival.now.members.now) }
{
    Ok(Told::Hosts {
        view: arrival.view,
        nodes: List::of(alloc, arrival.members.as_slice())?,
    })
}

/// What a client is told of a group that begins from its base.
fn note_of(alloc: Global, base: &Base) -> Result<Told, NoMemory>
    ensures { IfOk result (λ t. t ≡ told.Note base.now.name base.now.state.members
        base.now.state.value) }
{
    Ok(Told::Note {
        group: base.name.copy(alloc)?,
        members: base.state.members.copy(alloc)?,
        value: base.state.value.copy(alloc)?,
    })
}

/// Tells the client of a subscription what its group begins with, where it has a base.
fn tell_base<C: Callbacks>(
    sessions: &SessionState,
    clients: &mut Vec<C>,
    records: &mut Records,
    alloc: Global,
    arrival: &Arrival<'_>,
    subscription: &Subscription,
) -> Result<(), NoMemory>
    requires aligned { length clients.old.items ≡ length sessions.now.sessions }
    ensures length { length clients.new.items ≡ length clients.old.items }
    ensures scripts { OnOk result (KeepsScripts C.script clients.old.items clients.new.items) }
    ensures received { OnOk result (Receive C.stands_for clients.old.items clients.new.items
        (map (handed_at (client_place sessions.now subscription.now.client))
        (note_at arrival.now.node arrival.now.view sessions.now subscription.now
        (base_named arrival.now.bases.now subscription.now.group)))) }
    ensures records { OnOk result (records.new ≡ records.old
        ++ note_at arrival.now.node arrival.now.view sessions.now subscription.now
        (base_named arrival.now.bases.now subscription.now.group)) }
{
    match base_named(arrival.bases, subscription.group.as_slice()) {
        None => Ok(()),
        Some(base) => {
            let told = note_of(alloc, base)?;
            tell(
                sessions,
                clients,
                records,
                alloc,
                arrival,
                subscription,
                told,
            )
        }
    }
}

/// Tells the client of a subscription who the hosts are, or what its group begins with.
fn tell_one<C: Callbacks>(
    sessions: &SessionState,
    clients: &mut Vec<C>,
    records: &mut Records,
    alloc: Global,
    arrival: &Arrival<'_>,
    subscription: &Subscription,
) -> Result<(), NoMemory>
    requires aligned { length clients.old.items ≡ length sessions.now.sessions }
    ensures length { length clients.new.items ≡ length clients.old.items }
    ensures scripts { OnOk result (KeepsScripts C.script clients.old.items clients.new.items) }
    ensures received { OnOk result (Receive C.stands_for clients.old.items clients.new.items
        (note_handings arrival.now.node arrival.now.view arrival.now.members.now sessions.now
        arrival.now.bases.now subscription.now)) }
    ensures records { OnOk result (records.new ≡ records.old
        ++ notes_at arrival.now.node arrival.now.view arrival.now.members.now sessions.now
        arrival.now.bases.now subscription.now) }
{
    if subscription.group.as_slice() == HOST_MEMBERSHIP {
        let told = hosts(alloc, arrival)?;
        tell(
            sessions,
            clients,
            records,
            alloc,
            arrival,
            subscription,
            told,
        )
    } else {
        tell_base(sessions, clients, records, alloc, arrival, subscription)
    }
}

/// Tells the clients of all subscriptions, oldest first.
fn tell_all<C: Callbacks>(
    sessions: &SessionState,
    clients: &mut Vec<C>,
    records: &mut Records,
    alloc: Global,
    arrival: &Arrival<'_>,
) -> Result<(), NoMemory>
    requires aligned { length clients.old.items ≡ length sessions.now.sessions }
    ensures length { length clients.new.items ≡ length clients.old.items }
    ensures scripts { OnOk result (KeepsScripts C.script clients.old.items clients.new.items) }
    ensures received { OnOk result (Receive C.stands_for clients.old.items clients.new.items
        (flat_map (note_handings arrival.now.node arrival.now.view arrival.now.members.now
        sessions.now arrival.now.bases.now) sessions.now.subs.live)) }
    ensures records { OnOk result (records.new ≡ records.old
        ++ flat_map (notes_at arrival.now.node arrival.now.view arrival.now.members.now sessions.now
        arrival.now.bases.now) sessions.now.subs.live) }
{
    for u in sessions.subs.live() {
        tell_one(sessions, clients, records, alloc, arrival, u)?;
    }
    Ok(())
}

/// Tells the clients of subscriptions who the hosts of the view are and what their groups begin with, oldest first.
#[tactic(auto, unfolding(node_state::specs::State::recorded_all), using(crate::proofs::ToldLaws::noted_stays))]
pub(crate) fn note_bases<C: Callbacks>(
    core: &mut Core,
    clients: &mut Vec<C>,
    alloc: Global,
    bases: &[Base],
) -> Result<(), NoMemory>
    requires aligned { length clients.old.items ≡ length core.old.sessions.sessions }
    ensures length { length clients.new.items ≡ length clients.old.items }
    ensures scripts { OnOk result (KeepsScripts C.script clients.old.items clients.new.items) }
    ensures does { OnOk result (RuleDoes C.script C.stands_for clients.old.items clients.new.items
        core.old core.new (λ f. entering_noted core.old bases.now)) }
    ensures stays { OnOk result (Stays core.old core.new) }
{
    let arrival = Arrival {
        node: core.views.me,
        view: core.views.view,
        members: &core.views.members,
        bases,
    };
    tell_all(&core.sessions, clients, &mut core.records, alloc, &arrival)
}
