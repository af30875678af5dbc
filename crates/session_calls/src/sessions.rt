//! The sessions of a node, with their clients.
ghost use Rattle.std.specs.Prelude.{◌≡◌, ◌++◌, ◌∷◌, [], Option, ◌<◌, IfOk, IfSome, OnOk, OnErr, length};
ghost use Rattle.session_state.specs.State.{client_place};
ghost use Rattle.session_state.specs.Calls.{Answers, AnswersAlways, inited, goodbye_taken, removed_at};

use crate::checks::{check_client, check_init};
use crate::ends::{self, add_session, end_session};
use client_callbacks::Callbacks;
use rsct_packet::NoMemory;
use session_delivery::client_place;
use session_state::{GsFault, SessionState};
use std::alloc::Global;
use subscribe_core::ClientToken;

/// Adds a session with its client.
#[tactic(auto, unfolding(session_state::specs::Calls::inited, session_state::specs::Calls::add_session))]
pub fn open_session<C: Callbacks>(
    state: &mut SessionState,
    clients: &mut Vec<C>,
    alloc: Global,
    name: &[u8],
    client: C,
) -> Result<ClientToken, GsFault>
    ensures answer { Answers result state.old state.new (inited state.old name.now) }
    ensures token { IfOk result (λ t. t.number ≡ state.new.last_client) }
    ensures level { state.new.level ≡ state.old.level }
    ensures client { OnOk result (clients.new.items ≡ clients.old.items ++ client ∷ []) }
    ensures refused { OnErr result (clients.new.items ≡ clients.old.items) }
    ensures aligned { length clients.old.items ≡ length state.old.sessions
        → length clients.new.items ≡ length state.new.sessions }
{
    check_init(state, name)?;
    let n = clients.len();
    if clients.push(client).is_err() {
        return Err(GsFault::NoMemory);
    }
    match add_session(state, alloc, name) {
        Ok(t) => Ok(t),
        Err(_) => {
            clients.truncate(n);
            Err(GsFault::NoMemory)
        }
    }
}

/// Drops the client at a place.
fn drop_at<C: Callbacks>(clients: &mut Vec<C>, place: Option<usize>)
    requires { IfSome place (λ i. i < length clients.old.items) }
    ensures { clients.new.items ≡ removed_at place clients.old.items }
{
    if let Some(i) = place {
        clients.remove(i);
    }
}

/// Ends a session, and drops its client.
#[tactic(auto, unfolding(session_state::specs::Calls::goodbye_taken), using(session_clients::proofs::Standing::removed_alike))]
pub fn close_session<C: Callbacks>(
    state: &mut SessionState,
    clients: &mut Vec<C>,
    client: ClientToken,
) -> Result<(), GsFault>
    requires aligned { length clients.old.items ≡ length state.old.sessions }
    ensures answer { AnswersAlways result state.old state.new (goodbye_taken state.old client) }
    ensures level { state.new.level ≡ state.old.level }
    ensures clients { OnOk result (clients.new.items
        ≡ removed_at (client_place state.old client) clients.old.items) }
    ensures refused { OnErr result (clients.new.items ≡ clients.old.items) }
    ensures aligned { length clients.new.items ≡ length state.new.sessions }
{
    check_client(state, client)?;
    drop_at(clients, client_place(state, client));
    end_session(state, client);
    Ok(())
}
