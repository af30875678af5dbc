//! Handing to the clients of the sessions.
ghost use Rattle.std.specs.Prelude.{◌≡◌, ◌++◌, ◌∷◌, [], ◌<◌, List, Option, Some, IsTrue, IfOk, IfSome, OnOk, length, map, slice_get};
ghost use Rattle.proposal_core.specs.declared.group_state.Running.{Running};
ghost use Rattle.client_callbacks.specs.declared.ballot.Filled.{Filled};
ghost use Rattle.client_callbacks.specs.Ballots.{new_ballot, is_level, may_hold};
ghost use Rattle.client_callbacks.specs.Handed.{Handed, Notified, Informed, notice_of, Fills};
ghost use Rattle.session_state.specs.State.{place_of};
ghost use Rattle.session_state.specs.Calls.{SameSessions};
ghost use Rattle.session_state.specs.HandOn.{hearers, handed_on, casts_out, cast_with, cast_of, casts_of};
ghost use Rattle.session_clients.specs.Clients.{StandFor, StandAfter, add_at, add_for, is_at, KeepsAllBut, KeepsScripts};
ghost use Rattle.session_clients.specs.Notices.{notice_to, ballot_of, notified, hears_at, FillsAs, Filling, Fillings};

use client_callbacks::{Ballot, Callbacks, Notice, Told};
use proposal_core::{GroupState, Running};
use rsct_packet::{List, NoMemory, ProviderId};
use session_delivery::{beginners, hear, hearers, place_of};
use session_state::{Cast, Casts, NewEntry, SessionState};
use std::alloc::Global;

/// What a provider casts, where its client left the ballot like this.
fn cast_from(provider: ProviderId, ballot: Ballot, running: &Option<Running>) -> Cast
    ensures cast { result ≡ cast_with ballot.votes running.now ballot.level provider ballot.filled }
    ensures holds { IsTrue (may_hold ballot.votes ballot.level ballot.filled) }
{
    if !ballot.asks() || ballot.filled().is_none() {
        return Cast {
            provider,
            cast: None,
        };
    }
    match running {
        None => Cast {
            provider,
            cast: None,
        },
        Some(run) => Cast {
            provider,
            cast: Some((run.proto, run.phase, ballot)),
        },
    }
}

/// Hands a client a notice with a new ballot.
fn hand_to<C: Callbacks>(client: &mut C, level: u8, notice: &Notice<'_>) -> Result<Ballot, NoMemory>
    requires { IsTrue (is_level level) }
    ensures stands { (h : List Handed) → C.stands_for client.old h
        → IfOk result (λ b. C.stands_for client.new (h ++ Notified (notice_of notice.now)
        b.filled ∷ [])) }
    ensures script { OnOk result (C.script client.new ≡ C.script client.old) }
    ensures fills { IfOk result (λ b. Fills (C.script client.old) notice.now.after.now
        (new_ballot notice.now.votes level) b) }
    ensures ballot { IfOk result (λ b. (b.votes ≡ notice.now.votes) × (b.level ≡ level)) }
{
    let mut ballot = Ballot::new(notice.votes, level);
    client.notice(notice, &mut ballot)?;
    Ok(ballot)
}

/// Hands the client at a place a notice with a new ballot.
fn notify_at<C: Callbacks>(
    clients: &mut Vec<C>,
    place: usize,
    level: u8,
    notice: &Notice<'_>,
) -> Result<Ballot, NoMemory>
    requires level { IsTrue (is_level level) }
    requires within { place < length clients.old.items }
    ensures stand { IfOk result (λ b. StandAfter C.stands_for clients.old.items
        clients.new.items (add_at place (Notified (notice_of notice.now) b.filled))) }
    ensures scripts { OnOk result (KeepsScripts C.script clients.old.items clients.new.items) }
    ensures length { length clients.new.items ≡ length clients.old.items }
    ensures others { KeepsAllBut (λ k. is_at k (Some place)) clients.old.items clients.new.items }
    ensures fills { IfOk result (λ b. FillsAs (slice_get (map C.script clients.old.items) place)
        notice.now.after.now (new_ballot notice.now.votes level) b) }
    ensures ballot { IfOk result (λ b. (b.votes ≡ notice.now.votes) × (b.level ≡ level)) }
{
    let ballot = hand_to(&mut clients[place], level, notice)?;
    Ok(ballot)
}

/// Hands the client of a provider the notice of an entry, and answers what it casts.
fn notify_one<C: Callbacks>(
    state: &SessionState,
    clients: &mut Vec<C>,
    entry: &NewEntry<'_>,
    provider: ProviderId,
) -> Result<Cast, NoMemory>
    requires level { IsTrue (is_level state.now.level) }
    requires aligned { length clients.old.items ≡ length state.now.sessions }
    ensures stand { IfOk result (λ c. StandAfter C.stands_for clients.old.items
        clients.new.items (add_for (place_of state.now provider) (Notified
        (notice_to entry.now.view entry.now.group.now entry.now.place entry.now.entry.now
        entry.now.after.now provider) (ballot_of c)))) }
    ensures scripts { OnOk result (KeepsScripts C.script clients.old.items clients.new.items) }
    ensures length { length clients.new.items ≡ length clients.old.items }
    ensures others { KeepsAllBut (λ k. is_at k (place_of state.now provider)) clients.old.items
        clients.new.items }
    ensures cast { IfOk result (λ c. (b : Option Filled)
        × Filling (map C.script clients.old.items) state.now entry.now.entry.now entry.now.after.now
        provider b × (c ≡ cast_of entry.now.entry.now entry.now.after.now state.now.level provider
        b)) }
{
    let votes = entry.asks(provider);
    let notice = Notice {
        provider,
        view: entry.view,
        group: entry.group.bytes(),
        place: entry.place,
        entry: entry.entry,
        after: entry.after,
        votes,
    };
    match place_of(state, provider) {
        None => {
            let ballot = Ballot::new(votes, state.level);
            Ok(cast_from(provider, ballot, &entry.after.running))
        }
        Some(i) => {
            let ballot = notify_at(clients, i, state.level, &notice)?;
            Ok(cast_from(provider, ballot, &entry.after.running))
        }
    }
}

/// Hands the clients of these providers the notice of an entry, one after another: each stands then for the notice
/// with what it filled, which is what the provider casts.
pub fn notify<C: Callbacks>(
    state: &SessionState,
    clients: &mut Vec<C>,
    entry: &NewEntry<'_>,
    providers: &[ProviderId],
    casts: &mut Casts,
) -> Result<(), NoMemory>
    requires level { IsTrue (is_level state.now.level) }
    requires aligned { length clients.old.items ≡ length state.now.sessions }
    ensures scripts { OnOk result (KeepsScripts C.script clients.old.items clients.new.items) }
    ensures length { length clients.new.items ≡ length clients.old.items }
    ensures others { KeepsAllBut
        (hears_at state.now providers.now) clients.old.items clients.new.items }
    ensures casts { OnOk result ((bs : List (Option Filled))
        × Fillings (map C.script clients.old.items) state.now entry.now.entry.now
        entry.now.after.now providers.now bs × (casts.new
        ≡ casts.old ++ casts_of entry.now.entry.now entry.now.after.now state.now.level
        providers.now bs) × StandAfter C.stands_for clients.old.items clients.new.items
        (notified state.now entry.now.view entry.now.group.now entry.now.place entry.now.entry.now
        entry.now.after.now (casts_of entry.now.entry.now entry.now.after.now state.now.level
        providers.now bs))) }
{
    for p in providers {
        let cast = notify_one(state, clients, entry, *p)?;
        casts.push(cast)?;
    }
    Ok(())
}

/// Tells the client at a place something.
pub fn tell_at<C: Callbacks>(
    clients: &mut Vec<C>,
    place: Option<usize>,
    told: &Told,
) -> Result<(), NoMemory>
    requires { IfSome place (λ i. i < length clients.old.items) }
    ensures stand { (hs : List (List Handed)) → StandFor C.stands_for clients.old.items hs
        → OnOk result (StandFor C.stands_for clients.new.items
        (add_for place (Informed told.now) hs)) }
    ensures scripts { OnOk result (KeepsScripts C.script clients.old.items clients.new.items) }
    ensures length { length clients.new.items ≡ length clients.old.items }
    ensures others { KeepsAllBut (λ k. is_at k place) clients.old.items clients.new.items }
{
    if let Some(i) = place {
        clients[i].told(told)?;
    }
    Ok(())
}

/// Hands an entry on: each local provider that takes part hears it. Its client stands then for the notice with what it
/// filled, which is what the provider casts.
#[tactic(auto, unfolding(session_state::specs::HandOn::handed_on, session_state::specs::HandOn::casts_out))]
pub fn hand_entry_on<C: Callbacks>(
    state: &mut SessionState,
    clients: &mut Vec<C>,
    alloc: Global,
    entry: &NewEntry<'_>,
    before: &GroupState,
    out: &mut Casts,
) -> Result<(), NoMemory>
    requires level { IsTrue (is_level state.old.level) }
    requires aligned { length clients.old.items ≡ length state.old.sessions }
    ensures scripts { OnOk result (KeepsScripts C.script clients.old.items clients.new.items) }
    ensures length { length clients.new.items ≡ length clients.old.items }
    ensures others { KeepsAllBut (hears_at state.old
        (hearers state.old entry.now.group.now before.now entry.now.entry.now)) clients.old.items
        clients.new.items }
    ensures same { SameSessions state.old state.new }
    ensures handed { OnOk result ((bs : List (Option Filled))
        × Fillings (map C.script clients.old.items) state.old entry.now.entry.now
        entry.now.after.now (hearers state.old entry.now.group.now before.now entry.now.entry.now)
        bs × (state.new ≡ handed_on state.old entry.now.group.now before.now entry.now.after.now
        entry.now.entry.now bs) × (out.new ≡ out.old
        ++ casts_out state.old entry.now.group.now before.now entry.now.after.now
        entry.now.entry.now bs) × StandAfter C.stands_for clients.old.items clients.new.items
        (notified state.old entry.now.view entry.now.group.now entry.now.place entry.now.entry.now
        entry.now.after.now (casts_out state.old entry.now.group.now before.now
        entry.now.after.now entry.now.entry.now bs))) }
{
    let ps = hearers(state, alloc, entry.group.bytes(), before, entry.entry)?;
    let beginning = beginners(state, alloc, entry.group.bytes(), entry.entry)?;
    let mut casts = List::new(alloc);
    notify(state, clients, entry, ps.as_slice(), &mut casts)?;
    hear(
        state,
        alloc,
        entry,
        ps.as_slice(),
        beginning.as_slice(),
        casts.as_slice(),
    )?;
    out.append(&mut casts)?;
    Ok(())
}
