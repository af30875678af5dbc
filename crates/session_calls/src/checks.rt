//! The checks of session calls. Each answers its fault, or that there is none.
ghost use Rattle.std.specs.Prelude.{◌≡◌, ◌<◌, ◌^◌, ◌&&◌, None, length, IfOk, find, option_copied};
ghost use Rattle.std.specs.Result.{result_err};
ghost use Rattle.group_attr.specs.Attrs.{first_fault};
ghost use Rattle.rsct_packet.specs.Text.{IsName};
ghost use Rattle.rsct_packet.specs.Providers.{differ, AreProviders};
ghost use Rattle.session_state.specs.State.{is_member_of, is_kept_for, is_in_group, is_session, is_named};
ghost use Rattle.session_state.specs.Calls.{or_fault, no_session_fault, client_fault, name_fault, hosts_fault, value_fault, message_fault, targets_fault, attributes_fault, collide_fault, spent_fault, init_fault, join_fault, subscribe_fault, unsubscribe_fault};
ghost use Rattle.std.specs.List.{list_any};
ghost use Rattle.subscribe_core.specs.Subs.{has_token, is_of_client};

use client_callbacks::{MAX_MESSAGE, value_limit};
use group_attr::{Attrs, HOST_MEMBERSHIP};
use rsct_packet::{MAX_CLIENT_NAME, MAX_NAME, ProviderId, is_among, is_name};
use session_delivery::outstanding;
use session_state::{Field, GsFault, MemberToken, OpenPhase, Provider, Request, SessionState};
use subscribe_core::{ClientToken, SubToken, Subscription};

/// How many sessions a node has at most.
pub const MAX_SESSIONS: usize = 64;

/// How many providers a call expels at most.
pub const MAX_TARGETS: usize = 64;

/// A name of 1 to `most` letters, digits and signs.
#[tactic(auto, unfolding(session_state::specs::Calls::name_fault))]
pub fn check_name(most: usize, name: &[u8]) -> Result<(), GsFault>
    ensures fault { result_err result ≡ name_fault most name.now }
    ensures name { IfOk result (λ _. IsName name.now) }
{
    if name.len() > most {
        return Err(GsFault::NameTooLong);
    }
    if !is_name(name) {
        return Err(GsFault::BadParameter(Field::Name));
    }
    Ok(())
}

/// No provider joins the group of the hosts.
#[tactic(auto, unfolding(session_state::specs::Calls::hosts_fault))]
fn check_no_hosts(group: &[u8]) -> Result<(), GsFault>
    ensures { result_err result ≡ hosts_fault group.now }
{
    if group == HOST_MEMBERSHIP {
        return Err(GsFault::BadParameter(Field::Name));
    }
    Ok(())
}

#[tactic(auto, unfolding(session_state::specs::Calls::message_fault))]
pub fn check_message(bytes: &[u8]) -> Result<(), GsFault>
    ensures fault { result_err result ≡ message_fault bytes.now }
    ensures short { IfOk result (λ _. length bytes.now < 2 ^ 16) }
{
    if bytes.len() > MAX_MESSAGE {
        return Err(GsFault::BadParameter(Field::Message));
    }
    Ok(())
}

/// The fault of attributes is the call's.
pub fn check_attributes(attrs: &Attrs, group: &[u8]) -> Result<(), GsFault>
    ensures { result_err result ≡ attributes_fault (first_fault attrs.now group.now) }
{
    match attrs.check(group) {
        Ok(()) => Ok(()),
        Err(f) => Err(GsFault::BadGroupAttributes(f)),
    }
}

/// A number follows this one.
#[tactic(auto, unfolding(session_state::specs::Calls::spent_fault))]
fn check_spent(last: u32) -> Result<(), GsFault>
    ensures fault { result_err result ≡ spent_fault last }
    ensures next { IfOk result (λ _. last < 4294967295) }
{
    if last == u32::MAX {
        return Err(GsFault::Spent);
    }
    Ok(())
}

/// There is a session.
#[tactic(auto, unfolding(session_state::specs::Calls::no_session_fault))]
pub fn check_session(sessions: &SessionState) -> Result<(), GsFault>
    ensures { result_err result ≡ no_session_fault sessions.now }
{
    if sessions.sessions.len() == 0 {
        return Err(GsFault::NoInit);
    }
    Ok(())
}

/// Is the client's session live?
fn has_client(sessions: &SessionState, client: ClientToken) -> bool
    ensures { result ≡ list_any (is_session client) sessions.now.sessions }
{
    sessions
        .sessions
        .as_slice()
        .iter()
        .any(|x| x.token == client)
}

/// Does a live session have this name?
fn has_name(sessions: &SessionState, name: &[u8]) -> bool
    ensures { result ≡ list_any (is_named name.now) sessions.now.sessions }
{
    sessions
        .sessions
        .as_slice()
        .iter()
        .any(|x| x.name.as_slice() == name)
}

/// The client's session is live.
#[tactic(auto, unfolding(session_state::specs::Calls::client_fault))]
pub fn check_client(sessions: &SessionState, client: ClientToken) -> Result<(), GsFault>
    ensures { result_err result ≡ client_fault sessions.now client }
{
    check_session(sessions)?;
    if !has_client(sessions, client) {
        return Err(GsFault::BadClientToken);
    }
    Ok(())
}

/// The bytes of a value are within the limit of the level.
#[tactic(auto, unfolding(session_state::specs::Calls::value_fault))]
pub fn check_bytes(sessions: &SessionState, bytes: &[u8]) -> Result<(), GsFault>
    ensures fault { result_err result ≡ value_fault sessions.now (Some bytes.now) }
    ensures short { IfOk result (λ _. length bytes.now < 2 ^ 16) }
{
    if bytes.len() > value_limit(sessions.level) {
        return Err(GsFault::BadParameter(Field::Value));
    }
    Ok(())
}

/// A value is within the limit of the level.
#[tactic(auto, unfolding(session_state::specs::Calls::value_fault))]
pub fn check_value(sessions: &SessionState, value: Option<&[u8]>) -> Result<(), GsFault>
    ensures { result_err result ≡ value_fault sessions.now (option_copied value.entry) }
{
    match value {
        None => Ok(()),
        Some(b) => check_bytes(sessions, b),
    }
}

/// The provider has no outstanding request.
#[tactic(auto, unfolding(session_state::specs::Calls::collide_fault))]
fn check_collide(sessions: &SessionState, provider: ProviderId) -> Result<(), GsFault>
    ensures { result_err result ≡ collide_fault sessions.now provider }
{
    match outstanding(sessions, provider) {
        None => Ok(()),
        Some(q) => Err(GsFault::Collide(q.request)),
    }
}

/// The provider may ask for something now.
pub fn check_ask(sessions: &SessionState, provider: ProviderId) -> Result<(), GsFault>
    ensures fault { result_err result ≡ or_fault (collide_fault sessions.now provider)
        (spent_fault sessions.now.last_request) }
    ensures next { IfOk result (λ _. sessions.now.last_request < 4294967295) }
{
    check_collide(sessions, provider)?;
    check_spent(sessions.last_request)
}

/// The provider of a token.
pub fn member(sessions: &SessionState, member: MemberToken) -> Option<&Provider>
    ensures { option_copied result ≡ find (is_member_of member) sessions.now.providers }
{
    sessions
        .providers
        .as_slice()
        .iter()
        .find(|x| x.provider.join == member.number)
}

/// Is a ballot of the provider kept for this phase?
pub fn is_kept(sessions: &SessionState, provider: ProviderId, phase: OpenPhase) -> bool
    ensures { result ≡ list_any (is_kept_for provider phase.proto phase.phase) sessions.now.kept }
{
    sessions.kept.as_slice().iter().any(|k| k.provider == provider
        && k.proto == phase.proto
        && k.phase == phase.phase)
}

#[tactic(auto, unfolding(session_state::specs::Calls::init_fault))]
pub fn check_init(sessions: &SessionState, name: &[u8]) -> Result<(), GsFault>
    ensures fault { result_err result ≡ init_fault sessions.now name.now }
    ensures next { IfOk result (λ _. sessions.now.last_client < 4294967295) }
{
    check_name(MAX_CLIENT_NAME, name)?;
    if has_name(sessions, name) {
        return Err(GsFault::Exists);
    }
    if sessions.sessions.len() >= MAX_SESSIONS {
        return Err(GsFault::SessionsFull(MAX_SESSIONS as u32));
    }
    check_spent(sessions.last_client)
}

/// The session has a provider of the group.
fn has_joined(sessions: &SessionState, client: ClientToken, group: &[u8]) -> bool
    ensures { result ≡ list_any (is_in_group client group.now) sessions.now.providers }
{
    sessions
        .providers
        .as_slice()
        .iter()
        .any(|x| x.client == client && x.group.bytes() == group)
}

#[tactic(auto, unfolding(session_state::specs::Calls::join_fault))]
pub fn check_join(
    sessions: &SessionState,
    client: ClientToken,
    group: &[u8],
    attrs: &Attrs,
) -> Result<(), GsFault>
    ensures fault { result_err result ≡ join_fault sessions.now client group.now attrs.now }
    ensures name { IfOk result (λ _. IsName group.now) }
    ensures next { IfOk result (λ _. sessions.now.last_request < 4294967295) }
{
    check_client(sessions, client)?;
    check_name(MAX_NAME, group)?;
    check_no_hosts(group)?;
    check_attributes(attrs, group)?;
    if has_joined(sessions, client, group) {
        return Err(GsFault::Exists);
    }
    check_spent(sessions.last_request)
}

/// Is the subscription the client's?
fn is_subscription(live: &[Subscription], client: ClientToken, subscription: SubToken) -> bool
    ensures { result
        ≡ list_any (λ x. has_token subscription x && is_of_client client x) live.now }
{
    live.iter()
        .any(|x| x.token == subscription && x.client == client)
}

#[tactic(auto, unfolding(session_state::specs::Calls::subscribe_fault))]
pub fn check_subscribe(
    sessions: &SessionState,
    client: ClientToken,
    group: &[u8],
    known: bool,
) -> Result<(), GsFault>
    ensures fault { result_err result ≡ subscribe_fault sessions.now client group.now known }
    ensures next { IfOk result (λ _. sessions.now.subs.last < 4294967295) }
{
    check_client(sessions, client)?;
    check_name(MAX_NAME, group)?;
    if sessions.subs.is_subscribed(client, group) {
        return Err(GsFault::Exists);
    }
    if !known && group != HOST_MEMBERSHIP {
        return Err(GsFault::UnknownGroup);
    }
    check_spent(sessions.subs.last())
}

#[tactic(auto, unfolding(session_state::specs::Calls::unsubscribe_fault))]
pub fn check_unsubscribe(
    sessions: &SessionState,
    client: ClientToken,
    subscription: SubToken,
) -> Result<(), GsFault>
    ensures { result_err result ≡ unsubscribe_fault sessions.now client subscription }
{
    check_client(sessions, client)?;
    if !is_subscription(sessions.subs.live(), client, subscription) {
        return Err(GsFault::BadParameter(Field::Subscription));
    }
    Ok(())
}

/// Each differs from those after it.
fn are_apart(out: &[ProviderId]) -> bool
    ensures { result ≡ differ out.now }
{
    for (i, p) in out.iter().enumerate() {
        if is_among(&out[i + 1..], *p) {
            return false;
        }
    }
    true
}

/// There are 1 to 64 targets, which differ.
#[tactic(auto, unfolding(session_state::specs::Calls::targets_fault))]
pub fn check_targets(out: &[ProviderId]) -> Result<(), GsFault>
    ensures fault { result_err result ≡ targets_fault out.now }
    ensures providers { IfOk result (λ _. AreProviders out.now) }
{
    if out.len() == 0 || out.len() > MAX_TARGETS || !are_apart(out) {
        return Err(GsFault::BadParameter(Field::Targets));
    }
    Ok(())
}
