//! Subscriptions and ends of sessions, as far as they change what a node has of its clients.
ghost use Rattle.std.specs.Prelude.{◌≡◌, ◌<◌, ◌+◌, not, filter, find, length, option_copied, IfOk, IfSome, OnOk, OnErr};
ghost use Rattle.std.specs.List.{list_any};
ghost use Rattle.subscribe_core.specs.Subs.{has_token, is_live};
ghost use Rattle.session_state.specs.State.{client_place};
ghost use Rattle.session_state.specs.Calls.{Answers, AnswersAlways, SameSessions, is_owned, add_session, subscribe_taken, unsubscribe_taken, end_session, removed_at};
ghost use Rattle.session_state.specs.HandOn.{subscriber_of};

use crate::checks::{check_subscribe, check_unsubscribe};
use rsct_packet::{List, NoMemory, ProviderId};
use session_delivery::client_place;
use session_state::{GsFault, KeptBallot, Provider, Request, Session, SessionState};
use std::alloc::Global;
use subscribe_core::{ClientToken, SubToken, Subscription};

/// Is the provider of the client?
fn is_owned(rows: &[Provider], client: ClientToken, provider: ProviderId) -> bool
    ensures { result ≡ is_owned rows.now client provider }
{
    rows.iter()
        .any(|x| x.client == client && x.provider == provider)
}

fn drop_requests_owned(requests: &mut List<Request>, rows: &[Provider], client: ClientToken)
    ensures { requests.new ≡ filter (λ q. not (is_owned rows.now client q.provider)) requests.old }
{
    requests.retain(|q| !is_owned(rows, client, q.provider));
}

fn drop_kept_owned(kept: &mut List<KeptBallot>, rows: &[Provider], client: ClientToken)
    ensures { kept.new ≡ filter (λ k. not (is_owned rows.now client k.provider)) kept.old }
{
    kept.retain(|k| !is_owned(rows, client, k.provider));
}

/// Is one of them the subscription of this token?
fn is_live(live: &[Subscription], subscription: SubToken) -> bool
    ensures { result ≡ list_any (has_token subscription) live.now }
{
    live.iter().any(|x| x.token == subscription)
}

/// The subscription of a token.
fn subscription(live: &[Subscription], subscription: SubToken) -> Option<&Subscription>
    ensures { option_copied result ≡ find (has_token subscription) live.now }
{
    live.iter().find(|x| x.token == subscription)
}

/// Is the subscription live?
pub fn has_subscription(sessions: &SessionState, subscription: SubToken) -> bool
    ensures { result ≡ is_live subscription sessions.now.subs }
{
    is_live(sessions.subs.live(), subscription)
}

/// The place of the client that has the subscription.
#[tactic(auto, unfolding(session_state::specs::HandOn::subscriber_of))]
pub fn subscriber_of(sessions: &SessionState, token: SubToken) -> Option<usize>
    ensures value { result ≡ subscriber_of sessions.now token }
    ensures within { IfSome result (λ i. i < length sessions.now.sessions) }
{
    match subscription(sessions.subs.live(), token) {
        None => None,
        Some(x) => client_place(sessions, x.client),
    }
}

/// Adds a session of this name.
#[tactic(auto, unfolding(session_state::specs::Calls::add_session))]
pub fn add_session(
    sessions: &mut SessionState,
    alloc: Global,
    name: &[u8],
) -> Result<ClientToken, NoMemory>
    requires { sessions.old.last_client < 4294967295 }
    ensures ok { OnOk result (sessions.new ≡ add_session sessions.old name.now) }
    ensures token { IfOk result (λ t. t.number ≡ sessions.old.last_client + 1) }
    ensures err { OnErr result (sessions.new ≡ sessions.old) }
{
    let token = ClientToken {
        number: sessions.last_client + 1,
    };
    let name = List::of(alloc, name)?;
    sessions.sessions.push(Session { token, name })?;
    sessions.last_client = token.number;
    Ok(token)
}

/// Subscribes a client to a group.
#[tactic(auto, unfolding(session_state::specs::Calls::subscribe_taken))]
pub fn subscribe(
    sessions: &mut SessionState,
    alloc: Global,
    client: ClientToken,
    group: &[u8],
    known: bool,
) -> Result<SubToken, GsFault>
    ensures answer { Answers result sessions.old sessions.new
        (subscribe_taken sessions.old client group.now known) }
    ensures same { SameSessions sessions.old sessions.new }
    ensures token { IfOk result (λ s. s.number ≡ sessions.new.subs.last) }
{
    check_subscribe(sessions, client, group, known)?;
    match sessions.subs.add(alloc, client, group, known) {
        Ok(s) => Ok(s),
        Err(_) => Err(GsFault::NoMemory),
    }
}

/// Ends a subscription of a client.
#[tactic(auto, unfolding(session_state::specs::Calls::unsubscribe_taken))]
pub fn unsubscribe(
    sessions: &mut SessionState,
    client: ClientToken,
    subscription: SubToken,
) -> Result<(), GsFault>
    ensures answer { AnswersAlways result sessions.old sessions.new
        (unsubscribe_taken sessions.old client subscription) }
    ensures same { SameSessions sessions.old sessions.new }
{
    check_unsubscribe(sessions, client, subscription)?;
    sessions.subs.remove(subscription);
    Ok(())
}

/// Ends the session at this place, which is the client's, with its providers and its subscriptions.
#[tactic(auto, unfolding(session_state::specs::Calls::end_session))]
pub fn end_session(sessions: &mut SessionState, client: ClientToken)
    ensures state { sessions.new ≡ end_session sessions.old client }
    ensures sessions { sessions.new.sessions ≡ removed_at
        (client_place sessions.old client) sessions.old.sessions }
    ensures level { sessions.new.level ≡ sessions.old.level }
{
    if let Some(i) = client_place(sessions, client) {
        sessions.sessions.remove(i);
    }
    drop_requests_owned(
        &mut sessions.requests,
        sessions.providers.as_slice(),
        client,
    );
    drop_kept_owned(&mut sessions.kept, sessions.providers.as_slice(), client);
    sessions.providers.retain_not_of(client);
    sessions.subs.remove_client(client);
}
