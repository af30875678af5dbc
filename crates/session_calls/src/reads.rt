//! What a node reads of its sessions.
ghost use Rattle.std.specs.Prelude.{◌≡◌, find, option_copied};
ghost use Rattle.std.specs.List.{position};
ghost use Rattle.rsct_packet.specs.Search.{place_where};
ghost use Rattle.subscribe_core.specs.Subs.{is_of};
ghost use Rattle.session_state.specs.State.{is_named, is_in_group, client_token, member_token, sub_token};

use session_state::{MemberToken, Provider, Session, SessionState};
use subscribe_core::{ClientToken, SubToken, Subscription};

fn session_named<'a>(rows: &'a [Session], name: &[u8]) -> Option<&'a Session>
    ensures { option_copied result ≡ find (is_named name.now) rows.now }
{
    rows.iter().find(|x| x.name.as_slice() == name)
}

fn place_named(rows: &[Session], name: &[u8]) -> Option<usize>
    ensures { result ≡ position (is_named name.now) rows.now }
{
    rows.iter().position(|row| row.name.as_slice() == name)
}

fn provider_in<'a>(rows: &'a [Provider], client: ClientToken, group: &[u8]) -> Option<&'a Provider>
    ensures { option_copied result ≡ find (is_in_group client group.now) rows.now }
{
    rows.iter()
        .find(|x| x.client == client && x.group.bytes() == group)
}

fn subscription_of<'a>(
    rows: &'a [Subscription],
    client: ClientToken,
    group: &[u8],
) -> Option<&'a Subscription>
    ensures { option_copied result ≡ find (is_of client group.now) rows.now }
{
    rows.iter()
        .find(|x| x.client == client && x.group.as_slice() == group)
}

/// The place of the live session of a name, at which its client stands too.
#[tactic(auto, using(rsct_packet::proofs::SearchLaws::place_is_position))]
pub fn session_place(sessions: &SessionState, name: &[u8]) -> Option<usize>
    ensures { result ≡ place_where (is_named name.now) sessions.now.sessions }
{
    place_named(sessions.sessions.as_slice(), name)
}

/// The token of the live session of a name; 0 where there is none.
#[tactic(auto, unfolding(session_state::specs::State::client_token))]
pub fn client_token(sessions: &SessionState, name: &[u8]) -> ClientToken
    ensures { result ≡ client_token sessions.now name.now }
{
    match session_named(sessions.sessions.as_slice(), name) {
        None => ClientToken { number: 0 },
        Some(x) => x.token,
    }
}

/// The token of a client's provider of a group; 0 where there is none.
#[tactic(auto, unfolding(session_state::specs::State::member_token))]
pub fn member_token(sessions: &SessionState, client: ClientToken, group: &[u8]) -> MemberToken
    ensures { result ≡ member_token sessions.now client group.now }
{
    match provider_in(sessions.providers.as_slice(), client, group) {
        None => MemberToken { number: 0 },
        Some(x) => MemberToken {
            number: x.provider.join,
        },
    }
}

/// The token of a client's subscription to a group; 0 where there is none.
#[tactic(auto, unfolding(session_state::specs::State::sub_token))]
pub fn sub_token(sessions: &SessionState, client: ClientToken, group: &[u8]) -> SubToken
    ensures { result ≡ sub_token sessions.now client group.now }
{
    match subscription_of(sessions.subs.live(), client, group) {
        None => SubToken { number: 0 },
        Some(x) => x.token,
    }
}
