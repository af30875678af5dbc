//! A daemon that runs, and the steps of its node.
ghost use Rattle.std.specs.Prelude.{◌≡◌, ◌≤◌, OnOk, OnErr, IfOk, IfErr, IsTrue, None, option_map};
ghost use Rattle.link_use.specs.Stops.{StopsBy};
ghost use Rattle.node_core.specs.Event.{event_in, is_taken};
ghost use Rattle.remote_clients.specs.Sessions.{is_refused};
ghost use Rattle.remote_clients.specs.Entries.{noted_with};
ghost use Rattle.daemon_model.specs.Counts.{one_more};
ghost use Rattle.daemon_model.specs.Daemon.{counted_in};
ghost use Rattle.daemon_model.specs.Doings.{MadeFront};
ghost use Rattle.daemon_run.specs.Audience.{Attend};
ghost use Rattle.daemon_run.specs.Doing.{IsSame, left_doings, Settles, SettleFails, IsStep, StepsAs, StepBreaks, StepFails};

use crate::hosted::Hosted;
use crate::writing::write_and_send;
use client_callbacks::Callbacks;
use daemon_model::About;
use hags_io::Outside;
use link_use::{Outbox, Receiving, Stop};
use node_core::{Node, NodeEvent};
use node_state::Happened;
use remote_clients::{Sessions, is_refused};
use rsct_packet::NoMemory;
use std::alloc::Global;

/// A daemon that runs: what it sends by, with the number of its node, which is at most 32, and its incarnation; the node
/// with its clients; what it receives; the moment of its last tick, or of its start; the sessions of clients on other
/// machines, where it serves them, and whether it tells those the lines of entries; and what it tells who asks it about
/// itself, beside what came: what it was told at its start, the ticks of its node, and the datagrams that it sent, as if
/// each went out. Each count stays at 18,446,744,073,709,551,615 once it is there.
#[derive(Drop)]
pub struct Running<C: Callbacks> {
    pub outbox: Outbox,
    pub node: Node<Hosted<C>>,
    pub receiving: Receiving,
    pub last: u64,
    pub sessions: Option<Sessions>,
    pub entries: bool,
    pub about: About,
    pub ticks: u64,
    pub sent: u64,
}

impl<C: Callbacks> Running<C> {
    /// What a step recorded comes to the clients on other machines that are to hear it, where they are served.
    /// `calling`: the key whose call the step was, if it was one.
    fn note(
        &mut self,
        alloc: Global,
        calling: Option<u32>,
        records: &[Happened],
    ) -> Result<(), NoMemory>
        ensures noted { OnOk result (self.new ≡ record self.old {
          sessions = option_map (noted_with self.old.entries calling records.now)
              self.old.sessions;
        }) }
        ensures same { IsSame self.old self.new }
    {
        let entries = self.entries;
        match &mut self.sessions {
            None => Ok(()),
            Some(sessions) => sessions.note_all_with(alloc, entries, calling, records),
        }
    }

    /// The daemon ticked: each key was silent for one tick more.
    pub(crate) fn count(&mut self)
        ensures counted { self.new ≡ record self.old
            { sessions = counted_in self.old.sessions; ticks = one_more self.old.ticks } }
        ensures same { IsSame self.old self.new }
    {
        self.ticks = self.ticks.saturating_add(1);
        if let Some(sessions) = &mut self.sessions {
            sessions.remote.tick();
        }
    }

    /// The lines of what the node's last step recorded are written; then its packets are sent, and the lines come to the
    /// clients on other machines that are to hear them. So what a daemon wrote says at least what others know of it.
    /// Where that fails, a front of it was done. `calling`: the key whose call the step was, if it was one. Answers
    /// whether a call was refused in it.
    pub fn settle<O: Outside>(
        &mut self,
        alloc: Global,
        calling: Option<u32>,
        outside: &mut O,
    ) -> Result<bool, Stop>
        requires { self.old.outbox.me ≤ 32 }
        ensures done { OnOk result (Settles calling self.old self.new (O.told outside.old)
            (O.told outside.new)) }
        ensures refused { IfOk result (λ refused. refused
            ≡ is_refused self.old.node.core.records) }
        ensures broke { OnErr result (MadeFront (O.told outside.old) (O.told outside.new)
            (left_doings self.old)) }
        ensures unwritten { IfErr result (λ stop. stop ≡ Stop.WriteFault
            → SettleFails self.old self.new (O.told outside.old) (O.told outside.new)) }
        ensures same { IsSame self.old self.new }
        ensures fault { IfErr result (StopsBy (O.told outside.new)) }
    {
        let sends = self.node.take_sends(alloc);
        let records = self.node.take_records(alloc);
        let sent = write_and_send(
            &mut self.outbox,
            alloc,
            records.as_slice(),
            sends.as_slice(),
            outside,
        )?;
        let total = self.sent.saturating_add(sent);
        self.sent = total;
        self.note(alloc, calling, records.as_slice())?;
        Ok(is_refused(records.as_slice()))
    }

    /// An event happens to the node.
    pub(crate) fn happen(&mut self, alloc: Global, event: NodeEvent<'_>) -> Result<(), NoMemory>
        requires taken { IsTrue (is_taken event) }
        ensures does { OnOk result (IsStep (Attend C.stands_for C.script)
            (Attend C.stands_for C.script) self.old self.new (event_in event.entry)) }
        ensures same { IsSame self.old self.new }
    {
        match self.node.step(alloc, event) {
            Ok(()) => Ok(()),
            Err(_) => Err(NoMemory),
        }
    }

    /// An event happens to the node; its lines are written, and what that leaves is sent.
    #[tactic(auto, using(crate::proofs::StepLaws::step_done, crate::proofs::StepLaws::step_none, crate::proofs::StepLaws::step_fails))]
    pub fn step<O: Outside>(
        &mut self,
        alloc: Global,
        event: NodeEvent<'_>,
        outside: &mut O,
    ) -> Result<(), Stop>
        requires within { self.old.outbox.me ≤ 32 }
        requires taken { IsTrue (is_taken event) }
        ensures done { OnOk result (StepsAs (Attend C.stands_for C.script)
            (Attend C.stands_for C.script) None self.old self.new (O.told outside.old)
            (O.told outside.new) (event_in event.entry)) }
        ensures broke { OnErr result (StepBreaks None self.old (O.told outside.old)
            (O.told outside.new) (event_in event.entry)) }
        ensures unwritten { IfErr result (λ stop. stop ≡ Stop.WriteFault → StepFails
            (Attend C.stands_for C.script) (Attend C.stands_for C.script) None self.old self.new
            (O.told outside.old) (O.told outside.new) (event_in event.entry)) }
        ensures same { IsSame self.old self.new }
        ensures fault { IfErr result (StopsBy (O.told outside.new)) }
    {
        self.happen(alloc, event)?;
        let _refused = self.settle(alloc, None, outside)?;
        Ok(())
    }
}
