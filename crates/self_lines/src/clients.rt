//! The lines of a daemon's clients.
ghost use Rattle.std.specs.Prelude.{◌≡◌, ◌++◌, IfOk, OnOk};
ghost use Rattle.value_words.specs.Wording.{word};
ghost use Rattle.daemon_model.specs.SelfLines.{number_or_none, silent_of, unread_of, key_in, standing_in, is_member_of, members_in, client_text, client_line, clients_text};

use crate::numbers::put_optional_word;
use remote_clients::Sessions;
use remote_session::Standing;
use rsct_packet::{NoMemory, ProviderId};
use session_state::{Provider, Session, SessionState};
use std::alloc::Global;
use subscribe_core::ClientToken;
use value_words::{put_count_word, put_number_word, put_providers, put_text, put_word};

/// The key of the client of this name, where it is one on another machine.
fn key_in(sessions: &Option<Sessions>, name: &[u8]) -> Option<u32>
    ensures { result ≡ key_in sessions.now name.now }
{
    match sessions {
        None => None,
        Some(sessions) => sessions.clients.key_of(name),
    }
}

/// How that key stands.
fn standing_in(sessions: &Option<Sessions>, name: &[u8]) -> Option<Standing>
    ensures { result ≡ standing_in sessions.now name.now }
{
    match sessions {
        None => None,
        Some(sessions) => match sessions.clients.key_of(name) {
            None => None,
            Some(key) => sessions.remote.standing(key),
        },
    }
}

fn is_member_of(client: ClientToken, provider: &Provider) -> bool
    ensures { result ≡ is_member_of client provider.now }
{
    provider.client == client && provider.takes_part
}

/// The client's providers that have joined.
#[tactic(auto, unfolding(daemon_model::specs::SelfLines::members_in))]
fn members_in(
    alloc: Global,
    state: &SessionState,
    client: ClientToken,
) -> Result<Vec<ProviderId>, NoMemory>
    ensures { IfOk result (λ ps. ps.items ≡ members_in state.now client) }
{
    let members = state
        .providers
        .as_slice()
        .iter()
        .filter(|provider| is_member_of(client, provider))
        .map(|provider| provider.provider)
        .collect(alloc)?;
    Ok(members)
}

fn put_silent_word(out: &mut Vec<u8>, standing: Option<Standing>) -> Result<(), NoMemory>
    ensures { OnOk result (out.new.items ≡ out.old.items
        ++ word (number_or_none (silent_of standing))) }
{
    match standing {
        None => put_word(out, b"-"),
        Some(standing) => put_number_word(out, standing.silent),
    }
}

fn put_unread_word(out: &mut Vec<u8>, standing: Option<Standing>) -> Result<(), NoMemory>
    ensures { OnOk result (out.new.items ≡ out.old.items
        ++ word (number_or_none (unread_of standing))) }
{
    match standing {
        None => put_word(out, b"-"),
        Some(standing) => put_count_word(out, standing.unread),
    }
}

/// The line of a client with this name: its key and how that stands, where it is one on another machine; and its providers
/// that have joined.
#[tactic(auto, unfolding(daemon_model::specs::SelfLines::client_text))]
pub(crate) fn put_client(
    out: &mut Vec<u8>,
    name: &[u8],
    key: Option<u32>,
    standing: Option<Standing>,
    members: &[ProviderId],
) -> Result<(), NoMemory>
    ensures { OnOk result (out.new.items ≡ out.old.items
        ++ client_text name.now key standing members.now) }
{
    put_text(out, b"hagscl ")?;
    put_word(out, name)?;
    put_text(out, b"key=")?;
    put_optional_word(out, key)?;
    put_text(out, b"silent=")?;
    put_silent_word(out, standing)?;
    put_text(out, b"unread=")?;
    put_unread_word(out, standing)?;
    put_text(out, b"members=")?;
    put_providers(out, members)?;
    put_text(out, b"\n")
}

#[tactic(auto, unfolding(daemon_model::specs::SelfLines::client_line))]
fn put_client_line(
    sessions: &Option<Sessions>,
    alloc: Global,
    out: &mut Vec<u8>,
    state: &SessionState,
    session: &Session,
) -> Result<(), NoMemory>
    ensures { OnOk result (out.new.items ≡ out.old.items
        ++ client_line sessions.now state.now session.now) }
{
    let name = session.name.as_slice();
    let members = members_in(alloc, state, session.token)?;
    put_client(
        out,
        name,
        key_in(sessions, name),
        standing_in(sessions, name),
        members.as_slice(),
    )
}

/// A line `hagscl` for each client whose session is there, in the order of the sessions, each with its line feed.
/// `sessions`: those of the clients on other machines, where they are served.
#[tactic(auto, using(value_words::proofs::TextLaws::item_on), unfolding(daemon_model::specs::SelfLines::clients_text))]
pub fn put_clients(
    sessions: &Option<Sessions>,
    alloc: Global,
    out: &mut Vec<u8>,
    state: &SessionState,
) -> Result<(), NoMemory>
    ensures { OnOk result (out.new.items ≡ out.old.items
        ++ clients_text sessions.now state.now) }
{
    for session in state.sessions.as_slice() {
        put_client_line(sessions, alloc, out, state, session)?;
    }
    Ok(())
}
