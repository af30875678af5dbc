//! The calls of the settings: those of the own node's clients.
ghost use Rattle.std.specs.Prelude.{◌≡◌, ◌≤◌, ℕ, ◌∷◌, [], List, OnOk, OnErr, IfOk, IfErr, IfSome, IsTrue, Some, None, false, is_none};
ghost use Rattle.link_use.specs.Stops.{StopsBy};
ghost use Rattle.node_state.specs.declared.call.CallLine.TheVariants as call;
ghost use Rattle.node_state.specs.Step.{Calls};
ghost use Rattle.daemon_model.specs.Daemon.{own_call, own_calls};
ghost use Rattle.daemon_run.specs.Hosting.{Known, StandWhere};
ghost use Rattle.daemon_run.specs.Audience.{is_boxed, first_for, left_for, Attend, AttendWith};
ghost use Rattle.daemon_run.specs.Doing.{IsSame, IsStep, StepsAs, StepBreaks, StepFails, CallSteps};
ghost use Rattle.remote_clients.specs.Clients.{IsPlain};
ghost use Rattle.daemon_run.specs.Calling.{CallsAs, CallsBreak, CallsFail};

use crate::hosted::Hosted;
use crate::running::Running;
use client_callbacks::{BoxedClient, Callbacks, DaemonClient, ScriptClient};
use hags_io::Outside;
use link_use::Stop;
use node_core::NodeEvent;
use node_state::CallLine;
use rsct_packet::NoMemory;
use std::alloc::Global;
use world_model::{Event, Line};

/// What gives a daemon its clients: for the votes word `boxed` the next of the objects that it has, and for any other
/// word a client that was handed nothing.
pub trait Hosts<C: Callbacks> {
    /// This is known of the objects that it can still give, in order: the list for which one stands, or nothing.
    ghost stand: { Self → Known → Type 0 };

    /// The client of a votes word. That there is none counts as want of memory.
    fn client(&mut self, alloc: Global, votes: &[u8]) -> Result<C, NoMemory>
        ensures gives { (known : Known) → stand self.old known
            → IfOk result (λ c. IfSome (first_for votes.now known) (C.stands_for c)
            × stand self.new (left_for votes.now known)) }
        ensures votes { IfOk result (λ c. is_none (C.script c) ≡ is_boxed votes.now) }
        ensures plain { is_boxed votes.now ≡ false → IfOk result (λ c. C.stands_for c []) };
}

/// The objects that were handed to a daemon and that no client has taken.
#[derive(Drop)]
pub struct Objects {
    pub left: Vec<Box<dyn Callbacks>>,
}

impl Hosts<DaemonClient> for Objects {
    ghost stand = { λ o known. StandWhere
        (λ (b : _) (h : _). (Callbacks-box b).stands_for b.value h) o.left.items known };

    /// The client of a votes word: for `boxed` it is the next of the objects, and else one that votes as the word says.
    /// That no object is left, or that it is no votes word, counts as want of memory: good settings have neither.
    fn client(&mut self, alloc: Global, votes: &[u8]) -> Result<DaemonClient, NoMemory> {
        if votes == b"boxed".as_slice() {
            if self.left.is_empty() {
                return Err(NoMemory);
            }
            let inner = self.left.remove(0);
            return Ok(DaemonClient::Boxed(BoxedClient { inner }));
        }
        match ScriptClient::new(alloc, votes)? {
            Some(client) => Ok(DaemonClient::Script(client)),
            None => Err(NoMemory),
        }
    }
}

/// The call of a line, where it is one of the own node's clients.
fn own_call(me: u8, line: &Line) -> Option<&CallLine>
    ensures some { IfSome result (λ c. own_call me line.now ≡ c.now ∷ []) }
    ensures none { result ≡ None → own_call me line.now ≡ [] }
{
    match line {
        Line::Plain(Event::Call(node, call)) => { if *node == me { Some(call) } else { None } }
        _ => None,
    }
}

impl<C: Callbacks> Running<C> {
    /// A client begins its session. One whose votes are none of an object takes none.
    fn begin_session<H: Hosts<C>>(
        &mut self,
        alloc: Global,
        name: &[u8],
        votes: &[u8],
        hosts: &mut H,
    ) -> Result<(), NoMemory>
        ensures does { OnOk result ((node : ℕ) → IsStep
            (AttendWith (H.stand hosts.old) C.stands_for C.script)
            (AttendWith (H.stand hosts.new) C.stands_for C.script) self.old self.new
            (Calls (call.Init node name.now votes.now))) }
        ensures plain { is_boxed votes.now ≡ false → OnOk result ((node : ℕ) → IsStep
            (Attend C.stands_for C.script) (Attend C.stands_for C.script) self.old self.new
            (Calls (call.Init node name.now votes.now))) }
        ensures same { IsSame self.old self.new }
    {
        let client = hosts.client(alloc, votes)?;
        match self.node.begin_session(alloc, name, Hosted { client }) {
            Ok(()) => Ok(()),
            Err(_) => Err(NoMemory),
        }
    }

    /// A client ends its session.
    fn say_goodbye(&mut self, alloc: Global, client: &[u8]) -> Result<(), NoMemory>
        ensures does { OnOk result (IsStep (Attend C.stands_for C.script)
            (Attend C.stands_for C.script) self.old self.new (Calls (call.Goodbye client.now))) }
        ensures same { IsSame self.old self.new }
    {
        match self.node.say_goodbye(alloc, client) {
            Ok(()) => Ok(()),
            Err(_) => Err(NoMemory),
        }
    }

    /// A call happens to the node. A plain one takes no object.
    #[tactic(auto, using(crate::proofs::NodeLaws::within_kept, crate::proofs::NodeLaws::goodbye_kept))]
    fn call<H: Hosts<C>>(
        &mut self,
        alloc: Global,
        call: &CallLine,
        hosts: &mut H,
    ) -> Result<(), NoMemory>
        ensures does { OnOk result (IsStep (AttendWith (H.stand hosts.old) C.stands_for C.script)
            (AttendWith (H.stand hosts.new) C.stands_for C.script) self.old self.new
            (Calls call.now)) }
        ensures plain { IsPlain call.now → OnOk result (IsStep (Attend C.stands_for C.script)
            (Attend C.stands_for C.script) self.old self.new (Calls call.now)) }
        ensures same { IsSame self.old self.new }
    {
        match call {
            CallLine::Init { name, votes, .. } => {
                self.begin_session(alloc, name.as_slice(), votes.as_slice(), hosts)
            }
            CallLine::Goodbye { client } => self.say_goodbye(alloc, client.as_slice()),
            _ => self.happen(alloc, NodeEvent::Call(call)),
        }
    }

    /// A call happens, of this key or of none, and what it leaves is written and sent, and comes to who is to hear it.
    /// Answers whether it was refused.
    #[tactic(auto, using(crate::proofs::StepLaws::step_done, crate::proofs::StepLaws::call_step_done, crate::proofs::StepLaws::step_none))]
    pub(crate) fn carry_call<H: Hosts<C>, O: Outside>(
        &mut self,
        alloc: Global,
        calling: Option<u32>,
        call: &CallLine,
        hosts: &mut H,
        outside: &mut O,
    ) -> Result<bool, Stop>
        requires { self.old.outbox.me ≤ 32 }
        ensures done { OnOk result (StepsAs (AttendWith (H.stand hosts.old) C.stands_for C.script)
            (AttendWith (H.stand hosts.new) C.stands_for C.script) calling self.old self.new
            (O.told outside.old) (O.told outside.new) (Calls call.now)) }
        ensures plain { IsPlain call.now → IfOk result (λ refused. CallSteps
            (Attend C.stands_for C.script) calling self.old self.new refused
            (O.told outside.old) (O.told outside.new) call.now) }
        ensures broke { OnErr result (StepBreaks calling self.old (O.told outside.old)
            (O.told outside.new) (Calls call.now)) }
        ensures unwritten { IfErr result (λ stop. stop ≡ Stop.WriteFault → StepFails
            (AttendWith (H.stand hosts.old) C.stands_for C.script)
            (AttendWith (H.stand hosts.new) C.stands_for C.script) calling self.old self.new
            (O.told outside.old) (O.told outside.new) (Calls call.now)) }
        ensures plain_unwritten { IsPlain call.now → IfErr result (λ stop.
            stop ≡ Stop.WriteFault → StepFails (Attend C.stands_for C.script)
            (Attend C.stands_for C.script) calling self.old self.new (O.told outside.old)
            (O.told outside.new) (Calls call.now)) }
        ensures same { IsSame self.old self.new }
        ensures fault { IfErr result (StopsBy (O.told outside.new)) }
    {
        self.call(alloc, call, hosts)?;
        self.settle(alloc, calling, outside)
    }

    /// A line of the settings: a call of the own node's clients is carried out, and any other line is skipped.
    #[tactic(auto, using(crate::proofs::CallLaws::call_done, crate::proofs::CallLaws::call_broke, crate::proofs::CallLaws::call_fails, crate::proofs::CallLaws::call_none))]
    fn carry_line<H: Hosts<C>, O: Outside>(
        &mut self,
        alloc: Global,
        line: &Line,
        hosts: &mut H,
        outside: &mut O,
    ) -> Result<(), Stop>
        requires { self.old.outbox.me ≤ 32 }
        ensures done { OnOk result (CallsAs (AttendWith (H.stand hosts.old) C.stands_for C.script)
            (AttendWith (H.stand hosts.new) C.stands_for C.script) self.old self.new
            (own_call self.old.outbox.me line.now) (O.told outside.old) (O.told outside.new)) }
        ensures broke { OnErr result (CallsBreak self.old (own_call self.old.outbox.me line.now)
            (O.told outside.old) (O.told outside.new)) }
        ensures unwritten { IfErr result (λ stop. stop ≡ Stop.WriteFault → CallsFail
            (AttendWith (H.stand hosts.old) C.stands_for C.script)
            (AttendWith (H.stand hosts.new) C.stands_for C.script) self.old self.new
            (own_call self.old.outbox.me line.now) (O.told outside.old) (O.told outside.new)) }
        ensures same { IsSame self.old self.new }
        ensures fault { IfErr result (StopsBy (O.told outside.new)) }
    {
        if let Some(call) = own_call(self.outbox.me, line) {
            let _refused = self.carry_call(alloc, None, call, hosts, outside)?;
        }
        Ok(())
    }

    /// The lines of the settings, in order.
    #[tactic(auto, using(crate::proofs::CallLaws::lines_begin, crate::proofs::CallLaws::lines_next, crate::proofs::CallLaws::lines_broke, crate::proofs::CallLaws::lines_all))]
    pub fn carry_lines<H: Hosts<C>, O: Outside>(
        &mut self,
        alloc: Global,
        lines: &[Line],
        hosts: &mut H,
        outside: &mut O,
    ) -> Result<(), Stop>
        requires { self.old.outbox.me ≤ 32 }
        ensures done { OnOk result (CallsAs (AttendWith (H.stand hosts.old) C.stands_for C.script)
            (AttendWith (H.stand hosts.new) C.stands_for C.script) self.old self.new
            (own_calls self.old.outbox.me lines.now) (O.told outside.old) (O.told outside.new)) }
        ensures broke { OnErr result (CallsBreak self.old (own_calls self.old.outbox.me lines.now)
            (O.told outside.old) (O.told outside.new)) }
        ensures unwritten { IfErr result (λ stop. stop ≡ Stop.WriteFault → CallsFail
            (AttendWith (H.stand hosts.old) C.stands_for C.script)
            (AttendWith (H.stand hosts.new) C.stands_for C.script) self.old self.new
            (own_calls self.old.outbox.me lines.now) (O.told outside.old) (O.told outside.new)) }
        ensures same { IsSame self.old self.new }
        ensures fault { IfErr result (StopsBy (O.told outside.new)) }
    {
        for line in lines {
            self.carry_line(alloc, line, hosts, outside)?;
        }
        Ok(())
    }
}
