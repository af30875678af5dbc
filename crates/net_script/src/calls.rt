//! Calls of clients, whose sessions begin and end with some.
ghost use Rattle.std.specs.Prelude.{◌≡◌, ℕ, ◌+◌, ◌++◌, ◌∷◌, [], IfOk, OnOk, IsErrOf};
ghost use Rattle.std.specs.List.{list_any};
ghost use Rattle.std.specs.Option.{ForSome, unwrap_or};
ghost use Rattle.client_callbacks.specs.Votes.{votes_word};
ghost use Rattle.session_state.specs.State.{is_session};
ghost use Rattle.node_state.specs.declared.call.CallLine.TheVariants as call;
ghost use Rattle.node_state.specs.declared.happened.Happened.TheVariants as happened;
ghost use Rattle.session_state.specs.declared.fault.GsFault.TheVariants as fault;
ghost use Rattle.node_state.specs.Calls.{caller_of};
ghost use Rattle.node_state.specs.Step.{Calls};
ghost use Rattle.world_model.specs.World.{node_at, calls_if};
ghost use Rattle.world_laws.specs.world_answers.Answers.{calls_by_if};
ghost use Rattle.net_script.specs.Standing.{silent_or, CallDone, Goes, Passes, Comes};
ghost use Rattle.run_hands.specs.Hands.{NodeHands};
ghost use Rattle.net_script.specs.Hearing.{StepHears, HearsAs};

use crate::steps::{Left, step_node, take_left};
use crate::world::World;
use client_callbacks::{Callbacks, Made, votes_word};
use node_core::{Node, NodeEvent};
use node_state::{CallLine, Happened, Records};
use play_state::WorldFault;
use rsct_packet::{List, NoMemory};
use session_clients::scripted_clients_fill_their_scripts;
use session_state::GsFault;
use std::alloc::Global;

/// The name of the client that calls.
#[tactic(auto, unfolding(node_state::specs::Calls::caller_of))]
fn caller_of(call: &CallLine) -> &[u8]
    ensures { result.now ≡ caller_of call.now }
{
    match call {
        CallLine::Init { name, .. } => name.as_slice(),
        CallLine::Join { client, .. } => client.as_slice(),
        CallLine::Leave { client, .. } => client.as_slice(),
        CallLine::Expel { client, .. } => client.as_slice(),
        CallLine::ChangeState { client, .. } => client.as_slice(),
        CallLine::SendMessage { client, .. } => client.as_slice(),
        CallLine::ChangeAttributes { client, .. } => client.as_slice(),
        CallLine::Vote { client, .. } => client.as_slice(),
        CallLine::Subscribe { client, .. } => client.as_slice(),
        CallLine::Unsubscribe { client, .. } => client.as_slice(),
        CallLine::Goodbye { client } => client.as_slice(),
    }
}

/// A client that is made of a votes word. That none is made counts as want of memory.
fn made_of<C: Made>(alloc: Global, votes: &[u8]) -> Result<C, NoMemory>
    ensures { IfOk result (λ c. C.stands_for c []
        × ForSome (votes_word votes.now) (λ items. C.script c ≡ C.script_of items)) }
{
    match C::made(alloc, votes)? {
        Some(client) => Ok(client),
        None => Err(NoMemory),
    }
}

/// A client that votes as a word says, which was handed nothing; one that is silent where it is no votes word.
fn client_of<C: Made>(alloc: Global, votes: &[u8]) -> Result<C, NoMemory>
    ensures stands { IfOk result (λ c. C.stands_for c []) }
    ensures votes { IfOk result (λ c. C.script c
        ≡ C.script_of (silent_or (unwrap_or (votes_word votes.now) []))) }
{
    match votes_word(alloc, votes)? {
        Some(_) => made_of(alloc, votes),
        None => made_of(alloc, b"-"),
    }
}

/// Has a session the token that the next one is to have?
fn has_next<C: Callbacks>(node: &Node<C>) -> bool
    ensures { result
        ≡ list_any (is_session (record { number = node.now.core.sessions.last_client + 1 }))
        node.now.core.sessions.sessions }
{
    let sessions = &node.core().sessions;
    let next = sessions.last_client as u64 + 1;
    sessions
        .sessions
        .as_slice()
        .iter()
        .any(|x| x.token.number as u64 == next)
}

/// A client calls to begin its session. That a session has its token already counts as want of memory.
fn begin_session<C: Made>(
    node: &mut Node<C>,
    alloc: Global,
    name: &[u8],
    votes: &[u8],
) -> Result<Left, NoMemory>
    ensures done { IfOk result (λ l. (k : ℕ) → CallDone C.script C.script_of node.old node.new l
        (call.Init k name.now votes.now)) }
    ensures hears { IfOk result (λ l. (k : ℕ) → StepHears C.stands_for node.old node.new l.records
        (Calls (call.Init k name.now votes.now))) }
{
    scripted_clients_fill_their_scripts();
    let me = node.core().views.me;
    if has_next(node) {
        return Err(NoMemory);
    }
    let client = client_of::<C>(alloc, votes)?;
    match node.begin_session(alloc, name, client) {
        Ok(()) => take_left(node, alloc, me),
        Err(_) => Err(NoMemory),
    }
}

/// A client says goodbye.
fn say_goodbye<C: Made>(node: &mut Node<C>, alloc: Global, client: &[u8]) -> Result<Left, NoMemory>
    ensures done { IfOk result (λ l. CallDone C.script C.script_of node.old node.new l
        (call.Goodbye client.now)) }
    ensures hears { IfOk result (λ l. StepHears C.stands_for node.old node.new l.records
        (Calls (call.Goodbye client.now))) }
{
    scripted_clients_fill_their_scripts();
    let me = node.core().views.me;
    match node.say_goodbye(alloc, client) {
        Ok(()) => take_left(node, alloc, me),
        Err(_) => Err(NoMemory),
    }
}

/// A client of the node calls.
pub fn call_node<C: Made>(
    node: &mut Node<C>,
    alloc: Global,
    call: &CallLine,
) -> Result<Left, NoMemory>
    ensures done { IfOk result (λ l. CallDone C.script C.script_of node.old node.new l call.now) }
    ensures hears { IfOk result (λ l. StepHears C.stands_for node.old node.new l.records
        (Calls call.now)) }
{
    match call {
        CallLine::Init { name, votes, .. } => {
            begin_session(node, alloc, name.as_slice(), votes.as_slice())
        }
        CallLine::Goodbye { client } => say_goodbye(node, alloc, client.as_slice()),
        _ => step_node(node, alloc, NodeEvent::Call(call)),
    }
}

/// A call of a client whose node is down is refused.
fn refuse(alloc: Global, node: u8, call: &CallLine, out: &mut Records) -> Result<(), NoMemory>
    ensures { OnOk result (out.new ≡ out.old ++ happened.Refused node
        (caller_of call.now) fault.NoInit ∷ []) }
{
    out.push(Happened::Refused {
        node,
        client: List::of(alloc, caller_of(call))?,
        fault: GsFault::NoInit,
    })
}

impl<C: Made> World<C> {
    /// A client of a node calls: it is refused where the node is down.
    pub(crate) fn call(
        &mut self,
        alloc: Global,
        node: u8,
        call: &CallLine,
        out: &mut Records,
    ) -> Result<(), WorldFault>
        ensures goes { OnOk result (Comes C.script C.script_of self.old
            (Goes C.script C.script_of self.old self.new out.old out.new)
            (λ f w. calls_by_if f w node call.now (node_at w node))
            (λ w. calls_if w node call.now (node_at w node))) }
        ensures hears { OnOk result (HearsAs C.stands_for C.script C.script_of self.old
            self.new.nodes out.old out.new (λ w rs old new. NodeHands (node_at w node) node
            (Calls call.now) rs old new)) }
        ensures passes { (k : ℕ) → IsErrOf result (WorldFault.TooMuchKept k)
            → Comes C.script C.script_of self.old (Passes k self.old)
            (λ f w. calls_by_if f w node call.now (node_at w node))
            (λ w. calls_if w node call.now (node_at w node)) }
        ensures kept { (k : ℕ) → IsErrOf result (WorldFault.TooMuchKept k) → out.new ≡ out.old }
    {
        let done = self.nodes.call(alloc, node, call)?;
        match done {
            None => {
                refuse(alloc, node, call, out)?;
                Ok(())
            }
            Some(left) => self.settle(alloc, left, out),
        }
    }
}
