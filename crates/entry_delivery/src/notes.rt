//! Records of what clients are handed.
ghost use Rattle.std.specs.Prelude.{◌≡◌, ◌++◌, ◌∷◌, [], OnOk, IfOk, map, filter, length, option_copied};
ghost use Rattle.session_clients.specs.Clients.{KeepsScripts};
ghost use Rattle.std.specs.List.{flat_map};
ghost use Rattle.subscribe_core.specs.Subs.{is_of_group};
ghost use Rattle.client_callbacks.specs.declared.told.Told.TheVariants as told;
ghost use Rattle.node_state.specs.declared.happened.Happened.TheVariants as happened;
ghost use Rattle.node_state.specs.HandOn.{cast_record, cast_records, subscriber_name};
ghost use Rattle.entry_delivery.specs.Telling.{heard_in, note_in, note_handing};
ghost use Rattle.entry_delivery.specs.Received.{Receive};

use client_callbacks::{Callbacks, Filled, Told};
use node_state::{Happened, Records};
use proposal_core::GroupState;
use rsct_packet::{List, Name, NoMemory, ProtoId, ProviderId, ViewId};
use session_clients::tell_at;
use session_delivery::client_place;
use session_state::{Cast, NewEntry, SessionState};
use std::alloc::Global;
use subscribe_core::Subscription;

/// What the subscribers of a group are told at a node in a view: what the group is, at a place of its list or at
/// an install.
#[derive(Clone, Copy)]
pub struct News<'a> {
    pub node: u8,
    pub view: ViewId,
    pub group: &'a Name,
    pub place: Option<u32>,
    pub state: &'a GroupState,
}

/// Records a ballot that is filled.
#[tactic(auto, unfolding(node_state::specs::HandOn::cast_record))]
fn record_filled(
    alloc: Global,
    records: &mut Records,
    provider: ProviderId,
    proto: ProtoId,
    phase: u16,
    filled: Option<&Filled>,
) -> Result<(), NoMemory>
    ensures { OnOk result (records.new ≡ records.old
        ++ cast_record provider proto phase (option_copied filled.entry)) }
{
    match filled {
        None => Ok(()),
        Some(filled) => {
            let filled = filled.copy(alloc)?;
            records.push(Happened::Cast {
                provider,
                proto,
                phase,
                vote: filled.vote,
                value: filled.value,
                message: filled.message,
            })
        }
    }
}

/// Records what a provider casts.
#[tactic(auto, unfolding(node_state::specs::HandOn::cast_records))]
fn record_cast(alloc: Global, records: &mut Records, cast: &Cast) -> Result<(), NoMemory>
    ensures { OnOk result (records.new
        ≡ records.old ++ cast_records cast.now.provider cast.now.cast) }
{
    match &cast.cast {
        None => Ok(()),
        Some((proto, phase, ballot)) => {
            record_filled(
                alloc,
                records,
                cast.provider,
                *proto,
                *phase,
                ballot.filled(),
            )
        }
    }
}

/// The record that a provider hears an entry.
fn heard_record(
    alloc: Global,
    entry: &NewEntry<'_>,
    provider: ProviderId,
) -> Result<Happened, NoMemory>
    ensures { IfOk result (λ r. r ≡ happened.Heard provider entry.now.view entry.now.group.now
        entry.now.place entry.now.entry.now entry.now.after.now.members entry.now.after.now.value) }
{
    Ok(Happened::Heard {
        provider,
        view: entry.view,
        group: entry.group.copy(alloc)?,
        place: entry.place,
        members: entry.after.members.copy(alloc)?,
        value: entry.after.value.copy(alloc)?,
        entry: entry.entry.copy(alloc)?,
    })
}

/// Records that a provider hears an entry, and its ballot.
#[tactic(auto, using(std::proofs::lemmas::Grind::common_steps))]
fn record_heard(
    alloc: Global,
    records: &mut Records,
    entry: &NewEntry<'_>,
    cast: &Cast,
) -> Result<(), NoMemory>
    ensures { OnOk result (records.new ≡ records.old
        ++ heard_in entry.now.view entry.now.group.now entry.now.place entry.now.entry.now
        entry.now.after.now cast.now) }
{
    let record = heard_record(alloc, entry, cast.provider)?;
    records.push(record)?;
    record_cast(alloc, records, cast)
}

/// Records that providers hear an entry, and their ballots.
#[tactic(auto, using(std::proofs::lemmas::Grind::common_steps))]
pub fn record_all_heard(
    alloc: Global,
    records: &mut Records,
    entry: &NewEntry<'_>,
    casts: &[Cast],
) -> Result<(), NoMemory>
    ensures { OnOk result (records.new ≡ records.old
        ++ flat_map (heard_in entry.now.view entry.now.group.now entry.now.place entry.now.entry.now
        entry.now.after.now) casts.now) }
{
    for c in casts {
        record_heard(alloc, records, entry, c)?;
    }
    Ok(())
}

/// The name of a subscription's client; no bytes where it has no session.
#[tactic(auto, unfolding(node_state::specs::HandOn::subscriber_name))]
pub fn subscriber_name(
    alloc: Global,
    sessions: &SessionState,
    subscription: &Subscription,
) -> Result<List<u8>, NoMemory>
    ensures { IfOk result (λ l. l ≡ subscriber_name sessions.now subscription.now) }
{
    match sessions.client_name(subscription.client) {
        None => Ok(List::new(alloc)),
        Some(name) => List::of(alloc, name),
    }
}

/// What a client is told.
fn told_of(alloc: Global, news: &News<'_>) -> Result<Told, NoMemory>
    ensures { IfOk result (λ t. t ≡ told.Note news.now.group.now news.now.state.now.members
        news.now.state.now.value) }
{
    Ok(Told::Note {
        group: news.group.copy(alloc)?,
        members: news.state.members.copy(alloc)?,
        value: news.state.value.copy(alloc)?,
    })
}

/// Tells the client of a subscription, and records it.
fn note_one<C: Callbacks>(
    sessions: &SessionState,
    clients: &mut Vec<C>,
    records: &mut Records,
    alloc: Global,
    news: &News<'_>,
    subscription: &Subscription,
) -> Result<(), NoMemory>
    requires aligned { length clients.old.items ≡ length sessions.now.sessions }
    ensures length { length clients.new.items ≡ length clients.old.items }
    ensures scripts { OnOk result (KeepsScripts C.script clients.old.items clients.new.items) }
    ensures received { OnOk result (Receive C.stands_for clients.old.items clients.new.items
        (note_handing news.now.node news.now.view sessions.now news.now.group.now news.now.place
        news.now.state.now subscription.now ∷ [])) }
    ensures records { OnOk result (records.new ≡ records.old
        ++ note_in news.now.node news.now.view sessions.now news.now.group.now news.now.place
        news.now.state.now subscription.now ∷ []) }
{
    let client = subscriber_name(alloc, sessions, subscription)?;
    let told = told_of(alloc, news)?;
    tell_at(clients, client_place(sessions, subscription.client), &told)?;
    records.push(Happened::Noted {
        node: news.node,
        client,
        view: news.view,
        place: news.place,
        told,
    })
}

/// Tells the clients of a group's subscriptions, oldest first, and records it.
#[tactic(auto, using(std::proofs::lemmas::List::map_more, std::proofs::lemmas::List::Elements::filter_more, std::proofs::lemmas::Grind::common_steps))]
pub fn note_all<C: Callbacks>(
    sessions: &SessionState,
    clients: &mut Vec<C>,
    records: &mut Records,
    alloc: Global,
    news: &News<'_>,
) -> Result<(), NoMemory>
    requires aligned { length clients.old.items ≡ length sessions.now.sessions }
    ensures length { length clients.new.items ≡ length clients.old.items }
    ensures scripts { OnOk result (KeepsScripts C.script clients.old.items clients.new.items) }
    ensures received { OnOk result (Receive C.stands_for clients.old.items clients.new.items
        (map (note_handing news.now.node news.now.view sessions.now news.now.group.now
        news.now.place news.now.state.now) (filter
        (is_of_group news.now.group.now) sessions.now.subs.live))) }
    ensures records { OnOk result (records.new ≡ records.old
        ++ map (note_in news.now.node news.now.view sessions.now news.now.group.now news.now.place
        news.now.state.now) (filter (is_of_group news.now.group.now) sessions.now.subs.live)) }
{
    for u in sessions.subs.live() {
        if u.group.as_slice() == news.group.bytes() {
            note_one(sessions, clients, records, alloc, news, u)?;
        }
    }
    Ok(())
}
