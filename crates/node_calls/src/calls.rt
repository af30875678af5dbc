//! The calls of a client in its session.
ghost use Rattle.std.specs.Prelude.{◌≡◌, OnOk, IsTrue, option_copied};
ghost use Rattle.client_callbacks.specs.Ballots.{is_level};
ghost use Rattle.session_state.specs.State.{client_token};
ghost use Rattle.session_state.specs.Calls.{joined, left, expelled, state_changed, message_sent, attributes_changed, voted, subscribe_taken, unsubscribe_taken};
ghost use Rattle.node_state.specs.State.{holds};
ghost use Rattle.node_state.specs.Calls.{caller, subscriber, changed, proposed, give_ballot, take_call};
ghost use Rattle.node_groups.specs.Keeps.{Stays};
ghost use Rattle.node_calls.specs.Calling.{is_within_session};

use crate::answers::change;
use crate::ballots::give_ballot;
use crate::requests::propose;
use group_attr::{Attrs, Phases};
use node_groups::holds;
use node_state::{CallLine, Core};
use proposal_core::Vote;
use rsct_packet::{List, NoMemory, ProviderId};
use session_calls::{client_token, member_token, sub_token};
use session_state::{MemberToken, SessionState};
use std::alloc::Global;
use subscribe_core::SubToken;

/// The token of the provider that calls; 0 where there is none.
#[tactic(auto, unfolding(node_state::specs::Calls::caller))]
fn caller(sessions: &SessionState, client: &[u8], group: &[u8]) -> MemberToken
    ensures { result ≡ caller sessions.now client.now group.now }
{
    member_token(sessions, client_token(sessions, client), group)
}

/// The token of the subscription that a call is about; 0 where there is none.
#[tactic(auto, unfolding(node_state::specs::Calls::subscriber))]
fn subscriber(sessions: &SessionState, client: &[u8], group: &[u8]) -> SubToken
    ensures { result ≡ subscriber sessions.now client.now group.now }
{
    sub_token(sessions, client_token(sessions, client), group)
}

fn join(
    core: &mut Core,
    alloc: Global,
    client: &[u8],
    group: &[u8],
    instance: u16,
    attrs: &Attrs,
) -> Result<(), NoMemory>
    ensures rule { OnOk result (core.new ≡ proposed core.old client.now
        (joined core.old.sessions (client_token core.old.sessions client.now) group.now instance
        attrs.now)) }
    ensures keeps { OnOk result (Stays core.old core.new) }
{
    let attrs = attrs.copy(alloc)?;
    let t = client_token(&core.sessions, client);
    let answer = session_calls::join(&mut core.sessions, alloc, t, group, instance, attrs);
    propose(core, alloc, client, answer)
}

fn leave(
    core: &mut Core,
    alloc: Global,
    client: &[u8],
    group: &[u8],
    phases: Phases,
) -> Result<(), NoMemory>
    ensures rule { OnOk result (core.new ≡ proposed core.old client.now
        (left core.old.sessions (caller core.old.sessions client.now group.now) phases)) }
    ensures keeps { OnOk result (Stays core.old core.new) }
{
    let m = caller(&core.sessions, client, group);
    let answer = session_calls::leave(&mut core.sessions, alloc, m, phases);
    propose(core, alloc, client, answer)
}

fn expel(
    core: &mut Core,
    alloc: Global,
    client: &[u8],
    group: &[u8],
    phases: Phases,
    out: &[ProviderId],
) -> Result<(), NoMemory>
    ensures rule { OnOk result (core.new ≡ proposed core.old client.now
        (expelled core.old.sessions (caller core.old.sessions client.now group.now) phases
        out.now)) }
    ensures keeps { OnOk result (Stays core.old core.new) }
{
    let m = caller(&core.sessions, client, group);
    let answer = session_calls::expel(&mut core.sessions, alloc, m, phases, out);
    propose(core, alloc, client, answer)
}

fn change_state(
    core: &mut Core,
    alloc: Global,
    client: &[u8],
    group: &[u8],
    phases: Phases,
    value: &[u8],
) -> Result<(), NoMemory>
    ensures rule { OnOk result (core.new ≡ proposed core.old client.now
        (state_changed core.old.sessions (caller core.old.sessions client.now group.now) phases
        value.now)) }
    ensures keeps { OnOk result (Stays core.old core.new) }
{
    let m = caller(&core.sessions, client, group);
    let answer = session_calls::change_state(&mut core.sessions, alloc, m, phases, value);
    propose(core, alloc, client, answer)
}

fn send_message(
    core: &mut Core,
    alloc: Global,
    client: &[u8],
    group: &[u8],
    phases: Phases,
    bytes: &[u8],
) -> Result<(), NoMemory>
    ensures rule { OnOk result (core.new ≡ proposed core.old client.now
        (message_sent core.old.sessions (caller core.old.sessions client.now group.now) phases
        bytes.now)) }
    ensures keeps { OnOk result (Stays core.old core.new) }
{
    let m = caller(&core.sessions, client, group);
    let answer = session_calls::send_message(&mut core.sessions, alloc, m, phases, bytes);
    propose(core, alloc, client, answer)
}

fn change_attributes(
    core: &mut Core,
    alloc: Global,
    client: &[u8],
    group: &[u8],
    phases: Phases,
    attrs: &Attrs,
) -> Result<(), NoMemory>
    ensures rule { OnOk result (core.new ≡ proposed core.old client.now
        (attributes_changed core.old.sessions (caller core.old.sessions client.now group.now) phases
        attrs.now)) }
    ensures keeps { OnOk result (Stays core.old core.new) }
{
    let attrs = attrs.copy(alloc)?;
    let m = caller(&core.sessions, client, group);
    let answer = session_calls::change_attributes(&mut core.sessions, alloc, m, phases, attrs);
    propose(core, alloc, client, answer)
}

/// The bytes of an optional text.
fn bytes_of(value: &Option<List<u8>>) -> Option<&[u8]>
    ensures { option_copied result ≡ value.now }
{
    match value {
        None => None,
        Some(value) => Some(value.as_slice()),
    }
}

fn vote(
    core: &mut Core,
    alloc: Global,
    client: &[u8],
    group: &[u8],
    vote: Vote,
    value: &Option<List<u8>>,
) -> Result<(), NoMemory>
    requires level { IsTrue (is_level core.old.sessions.level) }
    ensures rule { OnOk result (core.new ≡ give_ballot core.old client.now
        (voted core.old.sessions (caller core.old.sessions client.now group.now) vote value.now)) }
    ensures keeps { OnOk result (Stays core.old core.new) }
{
    let m = caller(&core.sessions, client, group);
    let answer = session_calls::vote(&mut core.sessions, alloc, m, vote, bytes_of(value));
    give_ballot(core, alloc, client, answer)
}

fn subscribe(core: &mut Core, alloc: Global, client: &[u8], group: &[u8]) -> Result<(), NoMemory>
    ensures rule { OnOk result (core.new ≡ changed core.old client.now
        (subscribe_taken core.old.sessions (client_token core.old.sessions client.now) group.now
        (holds core.old group.now))) }
    ensures keeps { OnOk result (Stays core.old core.new) }
{
    let known = holds(core, group);
    let t = client_token(&core.sessions, client);
    let answer = session_calls::subscribe(&mut core.sessions, alloc, t, group, known);
    change(core, alloc, client, answer)
}

fn unsubscribe(core: &mut Core, alloc: Global, client: &[u8], group: &[u8]) -> Result<(), NoMemory>
    ensures rule { OnOk result (core.new ≡ changed core.old client.now
        (unsubscribe_taken core.old.sessions (client_token core.old.sessions client.now)
        (subscriber core.old.sessions client.now group.now))) }
    ensures keeps { OnOk result (Stays core.old core.new) }
{
    let t = client_token(&core.sessions, client);
    let s = subscriber(&core.sessions, client, group);
    let answer = session_calls::unsubscribe(&mut core.sessions, t, s);
    change(core, alloc, client, answer)
}

/// A call of a client in its session.
#[tactic(auto, unfolding(node_state::specs::Calls::take_call))]
pub fn take_call(core: &mut Core, alloc: Global, call: &CallLine) -> Result<(), NoMemory>
    requires within { IsTrue (is_within_session call.now) }
    requires level { IsTrue (is_level core.old.sessions.level) }
    ensures rule { OnOk result (core.new ≡ take_call core.old call.now) }
    ensures keeps { OnOk result (Stays core.old core.new) }
{
    match call {
        CallLine::Join {
            client,
            group,
            instance,
            attrs,
        } => join(
            core,
            alloc,
            client.as_slice(),
            group.as_slice(),
            *instance,
            attrs,
        ),
        CallLine::Leave {
            client,
            group,
            phases,
        } => leave(core, alloc, client.as_slice(), group.as_slice(), *phases),
        CallLine::Expel {
            client,
            group,
            phases,
            out,
        } => expel(
            core,
            alloc,
            client.as_slice(),
            group.as_slice(),
            *phases,
            out.as_slice(),
        ),
        CallLine::ChangeState {
            client,
            group,
            phases,
            value,
        } => change_state(
            core,
            alloc,
            client.as_slice(),
            group.as_slice(),
            *phases,
            value.as_slice(),
        ),
        CallLine::SendMessage {
            client,
            group,
            phases,
            bytes,
        } => send_message(
            core,
            alloc,
            client.as_slice(),
            group.as_slice(),
            *phases,
            bytes.as_slice(),
        ),
        CallLine::ChangeAttributes {
            client,
            group,
            phases,
            attrs,
        } => change_attributes(
            core,
            alloc,
            client.as_slice(),
            group.as_slice(),
            *phases,
            attrs,
        ),
        CallLine::Vote {
            client,
            group,
            vote: kind,
            value,
        } => vote(
            core,
            alloc,
            client.as_slice(),
            group.as_slice(),
            *kind,
            value,
        ),
        CallLine::Subscribe { client, group } => {
            subscribe(core, alloc, client.as_slice(), group.as_slice())
        }
        CallLine::Unsubscribe { client, group } => {
            unsubscribe(core, alloc, client.as_slice(), group.as_slice())
        }
        CallLine::Init { .. } | CallLine::Goodbye { .. } => unreachable!(),
    }
}
