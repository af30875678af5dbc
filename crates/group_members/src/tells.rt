//! Telling clients that their requests are refused.
ghost use Rattle.std.specs.Prelude.{◌≡◌, List, OnOk, length};
ghost use Rattle.std.specs.List.{fold};
ghost use Rattle.client_callbacks.specs.Handed.{Handed};
ghost use Rattle.session_state.specs.State.{outstanding};
ghost use Rattle.session_state.specs.HandOn.{is_numbered, take_telling};
ghost use Rattle.session_clients.specs.Clients.{StandFor, KeepsScripts};
ghost use Rattle.session_clients.specs.Notices.{told_lists};
ghost use Rattle.entry_delivery.specs.Doing.{RuleDoes};
ghost use Rattle.group_leading.specs.Working.{AtWork};
ghost use Rattle.node_state.specs.Following.{take_tell};

use client_callbacks::{Callbacks, Told, Why};
use node_state::{Core, Happened};
use rsct_packet::{NoMemory, ProviderId};
use session_clients::tell_at;
use session_delivery::{outstanding, place_of, take_telling, takes_telling};
use session_state::SessionState;
use std::alloc::Global;

/// Is this the number of the provider's outstanding request?
fn is_outstanding(sessions: &SessionState, provider: ProviderId, request: u32) -> bool
    ensures { result ≡ is_numbered request (outstanding sessions.now provider) }
{
    match outstanding(sessions, provider) {
        None => false,
        Some(q) => q.request == request,
    }
}

/// Tells the client of a live provider that its request is refused, which ends the request.
#[tactic(auto, unfolding(session_state::specs::HandOn::take_telling, session_clients::specs::Notices::told_lists))]
fn tell_client<C: Callbacks>(
    sessions: &mut SessionState,
    clients: &mut Vec<C>,
    provider: ProviderId,
    request: u32,
    why: Why,
) -> Result<(), NoMemory>
    requires aligned { length clients.old.items ≡ length sessions.old.sessions }
    ensures aligned { OnOk result (length clients.new.items ≡ length sessions.new.sessions) }
    ensures scripts { OnOk result (KeepsScripts C.script clients.old.items clients.new.items) }
    ensures state { OnOk result (sessions.new ≡ take_telling sessions.old provider request why) }
    ensures stand { (hs : List (List Handed)) → StandFor C.stands_for clients.old.items hs
        → OnOk result (StandFor C.stands_for clients.new.items
        (told_lists sessions.old provider request why hs)) }
{
    if !takes_telling(sessions, provider, request, why) {
        return Ok(());
    }
    let told = Told::Refused {
        provider,
        request,
        why,
    };
    tell_at(clients, place_of(sessions, provider), &told)?;
    take_telling(sessions, provider, why);
    Ok(())
}

/// Tells a client that its outstanding request is refused, and records it.
fn tell<C: Callbacks>(
    core: &mut Core,
    clients: &mut Vec<C>,
    provider: ProviderId,
    request: u32,
    why: Why,
) -> Result<(), NoMemory>
    requires aligned { length clients.old.items ≡ length core.old.sessions.sessions }
    ensures aligned { OnOk result (length clients.new.items ≡ length core.new.sessions.sessions) }
    ensures scripts { OnOk result (KeepsScripts C.script clients.old.items clients.new.items) }
    ensures does { OnOk result (RuleDoes C.script C.stands_for clients.old.items clients.new.items
        core.old core.new (λ f. take_tell core.old provider request why)) }
{
    if !is_outstanding(&core.sessions, provider, request) {
        return Ok(());
    }
    tell_client(&mut core.sessions, clients, provider, request, why)?;
    core.records.push(Happened::Told {
        provider,
        request,
        why,
    })
}

/// Tells clients that these outstanding requests are refused.
pub(crate) fn tell_each<C: Callbacks>(
    core: &mut Core,
    clients: &mut Vec<C>,
    requests: &[(ProviderId, u32)],
    why: Why,
) -> Result<(), NoMemory>
    requires aligned { length clients.old.items ≡ length core.old.sessions.sessions }
    ensures aligned { OnOk result (length clients.new.items ≡ length core.new.sessions.sessions) }
    ensures scripts { OnOk result (KeepsScripts C.script clients.old.items clients.new.items) }
    ensures does { OnOk result (RuleDoes C.script C.stands_for clients.old.items clients.new.items
        core.old core.new (λ f. fold (λ t x. take_tell t x.0 x.1 why) core.old requests.now)) }
{
    for (p, r) in requests {
        tell(core, clients, *p, *r, why)?;
    }
    Ok(())
}

/// TELL: a client is told that its outstanding request is refused.
pub fn take_tell<C: Callbacks>(
    core: &mut Core,
    clients: &mut Vec<C>,
    alloc: Global,
    provider: ProviderId,
    request: u32,
    why: Why,
) -> Result<(), NoMemory>
    requires work { AtWork core.old clients.old.items }
    ensures work { OnOk result (AtWork core.new clients.new.items) }
    ensures scripts { OnOk result (KeepsScripts C.script clients.old.items clients.new.items) }
    ensures does { OnOk result (RuleDoes C.script C.stands_for clients.old.items clients.new.items
        core.old core.new (λ f. take_tell core.old provider request why)) }
{
    tell(core, clients, provider, request, why)
}
