//! Where clients stand, and whose providers are.
ghost use Rattle.std.specs.Prelude.{◌≡◌, ◌<◌, length, IfSome};
ghost use Rattle.std.specs.List.{position};
ghost use Rattle.session_state.specs.State.{is_session, client_place, place_of};

use rsct_packet::ProviderId;
use session_state::{Session, SessionState};
use subscribe_core::ClientToken;

fn place(rows: &[Session], client: ClientToken) -> Option<usize>
    ensures value { result ≡ position (is_session client) rows.now }
    ensures within { IfSome result (λ i. i < length rows.now) }
{
    rows.iter().position(|row| row.token == client)
}

/// The place of a client's session.
#[tactic(auto, using(rsct_packet::proofs::SearchLaws::place_is_position))]
pub fn client_place(sessions: &SessionState, client: ClientToken) -> Option<usize>
    ensures value { result ≡ client_place sessions.now client }
    ensures within { IfSome result (λ i. i < length sessions.now.sessions) }
{
    place(sessions.sessions.as_slice(), client)
}

/// The place of the client that has the provider.
#[tactic(auto, unfolding(session_state::specs::State::place_of, session_state::specs::State::provider_of))]
pub fn place_of(sessions: &SessionState, provider: ProviderId) -> Option<usize>
    ensures value { result ≡ place_of sessions.now provider }
    ensures within { IfSome result (λ i. i < length sessions.now.sessions) }
{
    match sessions.providers.get(provider) {
        None => None,
        Some(x) => client_place(sessions, x.client),
    }
}
