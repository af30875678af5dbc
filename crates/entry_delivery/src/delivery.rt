//! Handing an entry on.
ghost use Rattle.std.specs.Prelude.{◌≡◌, [], OnOk, map, length, List, Option};
ghost use Rattle.session_clients.specs.Clients.{KeepsScripts};
ghost use Rattle.std.specs.List.{fold, flat_map};
ghost use Rattle.client_callbacks.specs.declared.ballot.Filled.{Filled};
ghost use Rattle.session_clients.specs.Notices.{Fillings};
ghost use Rattle.session_state.specs.HandOn.{casts_out, hearers};
ghost use Rattle.session_state.specs.Calls.{SameSessions};
ghost use Rattle.session_state.specs.HandOn as session;
ghost use Rattle.node_state.specs.State.{state_of, recorded_all, with_sessions};
ghost use Rattle.node_state.specs.HandOn.{noted, cast_sent_of, casts_sent, hand_on};
ghost use Rattle.entry_delivery.specs.Telling.{heard_in, heard_handings, noted_handings};
ghost use Rattle.entry_delivery.specs.Received.{Receive};
ghost use Rattle.entry_delivery.specs.Doing.{Ready, RuleDoes};

use crate::notes::{News, note_all, record_all_heard};
use client_callbacks::Callbacks;
use node_sending::{FilledBallot, is_frozen, send_vote};
use node_state::Core;
use proposal_core::GroupState;
use rsct_packet::{List, Name, NoMemory};
use session_clients::hand_entry_on;
use session_state::{Cast, Casts, NewEntry};
use std::alloc::Global;
use subscribe_core::differ;

/// Sends what a provider casts, where its ballot is filled, to a leader that may be unknown.
#[tactic(auto, unfolding(node_state::specs::HandOn::cast_sent_of, node_state::specs::HandOn::ballot_sent))]
fn send_cast(
    core: &mut Core,
    alloc: Global,
    group: &Name,
    to: Option<u8>,
    cast: &Cast,
) -> Result<(), NoMemory>
    ensures { OnOk result
        (core.new ≡ cast_sent_of core.old group.now to cast.now.provider cast.now.cast) }
{
    match &cast.cast {
        None => Ok(()),
        Some((proto, phase, ballot)) => match ballot.filled() {
            None => Ok(()),
            Some(filled) => {
                let vote = FilledBallot {
                    group,
                    proto: *proto,
                    phase: *phase,
                    provider: cast.provider,
                    filled,
                };
                send_vote(core, alloc, to, &vote)
            }
        },
    }
}

/// Sends what providers cast to a leader that may be unknown.
#[tactic(auto, using(std::proofs::lemmas::List::Sums::fold_more))]
fn send_each_cast(
    core: &mut Core,
    alloc: Global,
    group: &Name,
    to: Option<u8>,
    casts: &[Cast],
) -> Result<(), NoMemory>
    ensures { OnOk result (core.new
        ≡ fold (λ t c. cast_sent_of t group.now to c.provider c.cast) core.old casts.now) }
{
    for c in casts {
        send_cast(core, alloc, group, to, c)?;
    }
    Ok(())
}

/// Sends what providers cast to a leader that may be unknown, where the node is not frozen.
#[tactic(auto, unfolding(node_state::specs::HandOn::casts_sent))]
fn send_casts(
    core: &mut Core,
    alloc: Global,
    group: &Name,
    to: Option<u8>,
    casts: &[Cast],
) -> Result<(), NoMemory>
    ensures { OnOk result (core.new ≡ casts_sent core.old group.now to casts.now) }
{
    if is_frozen(core) {
        return Ok(());
    }
    send_each_cast(core, alloc, group, to, casts)
}

/// Tells the subscribers of a group what it has become, where its members or its value differ.
#[tactic(auto, unfolding(node_state::specs::HandOn::noted, node_state::specs::HandOn::notes, node_state::specs::HandOn::note_of, node_state::specs::State::recorded_all, crate::specs::Telling::noted_handings), using(crate::proofs::DoingLaws::receive_nothing))]
fn note<C: Callbacks>(
    core: &mut Core,
    clients: &mut Vec<C>,
    alloc: Global,
    group: &Name,
    place: u32,
    before: &GroupState,
    after: &GroupState,
) -> Result<(), NoMemory>
    requires aligned { length clients.old.items ≡ length core.old.sessions.sessions }
    ensures length { length clients.new.items ≡ length clients.old.items }
    ensures scripts { OnOk result (KeepsScripts C.script clients.old.items clients.new.items) }
    ensures received { OnOk result (Receive C.stands_for clients.old.items clients.new.items
        (noted_handings core.old group.now place before.now after.now)) }
    ensures core { OnOk result (core.new ≡ noted core.old group.now place before.now after.now) }
{
    if !differ(before, after) {
        return Ok(());
    }
    let news = News {
        node: core.views.me,
        view: core.views.view,
        group,
        place: Some(place),
        state: after,
    };
    note_all(&core.sessions, clients, &mut core.records, alloc, &news)
}

/// Hands an entry on to the clients of the providers that hear it, and records what they hear and cast.
#[tactic(auto, unfolding(node_state::specs::State::recorded_all, node_state::specs::State::with_sessions))]
fn hand<C: Callbacks>(
    core: &mut Core,
    clients: &mut Vec<C>,
    alloc: Global,
    entry: &NewEntry<'_>,
    before: &GroupState,
    casts: &mut Casts,
) -> Result<(), NoMemory>
    requires ready { Ready core.old clients.old.items }
    requires empty { casts.old ≡ [] }
    ensures length { length clients.new.items ≡ length clients.old.items }
    ensures scripts { OnOk result (KeepsScripts C.script clients.old.items clients.new.items) }
    ensures received { OnOk result (Receive C.stands_for clients.old.items clients.new.items
        (heard_handings core.old.sessions entry.now.view entry.now.group.now entry.now.place
        entry.now.entry.now entry.now.after.now casts.new)) }
    ensures same { SameSessions core.old.sessions core.new.sessions }
    ensures handed { OnOk result ((bs : List (Option Filled))
        × Fillings (map C.script clients.old.items) core.old.sessions entry.now.entry.now
        entry.now.after.now (hearers core.old.sessions entry.now.group.now before.now
        entry.now.entry.now) bs × (casts.new ≡ casts_out core.old.sessions entry.now.group.now
        before.now entry.now.after.now entry.now.entry.now bs)
        × (core.new ≡ recorded_all (with_sessions core.old
        (session.handed_on core.old.sessions entry.now.group.now before.now entry.now.after.now
        entry.now.entry.now bs)) (flat_map (heard_in entry.now.view entry.now.group.now
        entry.now.place entry.now.entry.now entry.now.after.now) casts.new))) }
{
    hand_entry_on(&mut core.sessions, clients, alloc, entry, before, casts)?;
    record_all_heard(alloc, &mut core.records, entry, casts.as_slice())
}

/// Hands an entry of the view on: clients hear it and cast, subscribers are told, and the ballots go to `to`, which
/// may be unknown, where the node is not frozen. `before` is the group's state before the entry; `entry.after` is that
/// of the node's list, which has the entry already.
pub fn hand_on<C: Callbacks>(
    core: &mut Core,
    clients: &mut Vec<C>,
    alloc: Global,
    to: Option<u8>,
    before: &GroupState,
    entry: &NewEntry<'_>,
) -> Result<(), NoMemory>
    requires ready { Ready core.old clients.old.items }
    requires view { entry.now.view ≡ core.old.views.view }
    requires state { entry.now.after.now ≡ state_of core.old entry.now.group.now }
    ensures ready { OnOk result (Ready core.new clients.new.items) }
    ensures scripts { OnOk result (KeepsScripts C.script clients.old.items clients.new.items) }
    ensures does { OnOk result (RuleDoes C.script C.stands_for clients.old.items clients.new.items
        core.old core.new (λ f. hand_on f core.old to entry.now.group.now entry.now.place
        before.now entry.now.after.now entry.now.entry.now)) }
{
    let mut casts = List::new(alloc);
    hand(core, clients, alloc, entry, before, &mut casts)?;
    note(
        core,
        clients,
        alloc,
        entry.group,
        entry.place,
        before,
        entry.after,
    )?;
    send_casts(core, alloc, entry.group, to, casts.as_slice())
}
