//! A node that runs: its state, its clients, and whether it has halted.
ghost use Rattle.std.specs.Prelude.{◌≡◌, ◌↔◌, ◌++◌, ℕ, [], List, false, map, option_copied, IfOk, OnOk, OnErr, IsErrOf, IsTrue};
ghost use Rattle.session_clients.specs.Clients.{KeepsScripts, client_named};
ghost use Rattle.session_state.specs.State.{client_token, client_place};
ghost use Rattle.session_state.specs.Calls.{inited, removed_at};
ghost use Rattle.node_calls.specs.Calling.{clients_with};
ghost use Rattle.entry_delivery.specs.Received.{Receive};
ghost use Rattle.entry_delivery.specs.Doing.{Does, RuleDoes};
ghost use Rattle.node_state.specs.declared.call.CallLine.TheVariants as call;
ghost use Rattle.node_state.specs.Calls.{take_call};
ghost use Rattle.node_state.specs.Sending.{network_to};
ghost use Rattle.node_state.specs.State.{InNameOrder};
ghost use Rattle.node_state.specs.Status.{status_text};
ghost use Rattle.node_state.specs.Step.{Calls, at_work, started, stepped};
ghost use Rattle.node_core.specs.Event.{called, event_in, is_taken};
ghost use Rattle.node_core.specs.Node.{sessions_in};
ghost use Rattle.node_core.specs.Sends.{SendsFew};

use crate::events::{NodeEvent, take_event};
use crate::sessions::{close_session, open_session};
use client_callbacks::Callbacks;
use node_sending::network_to;
use node_start::start_core;
use node_state::{Config, Core, Packets, Records, What};
use node_text::status_text;
use rsct_packet::{List, NoMemory};
use session_calls::session_place;
use std::alloc::Global;
use std::marker::Model;
use std::mem;

/// Why a step was not done.
#[derive(Clone, Copy, Debug, PartialEq, Eq)]
pub enum StepFault {
    /// Memory has run out in the middle of this step: the node has halted.
    NoMemory,
    /// The node halted in an earlier step.
    Halted,
}

/// A node: its state with what its last step sent and recorded, its clients in the order of their sessions, and
/// whether it has halted. It halts where memory runs out in the middle of a step, since its state is that of no
/// step then.
#[derive(Drop)]
pub struct Node<C: Callbacks> {
    core: Core,
    clients: Vec<C>,
    halted: bool,
}

impl<C: Callbacks> Model for Node<C> {
    ghost use Rattle.std.specs.Prelude.{◌≡◌, false};
    ghost use Rattle.group_leading.specs.Working.{AtWork};
    ghost use Rattle.node_core.specs.Node.{NodeView};

    ghost Value = { NodeView C };

    ghost view = { λ n. record { core = n.core; clients = n.clients.items; halted = n.halted } };

    ghost invariant = { λ n. n.halted ≡ false → AtWork n.core n.clients.items };
}

impl<C: Callbacks> Node<C> {
    /// A node of this number that starts in this incarnation, with no clients. What it records at its start is
    /// there to be taken.
    pub fn start(alloc: Global, config: Config, me: u8, inc: u32) -> Result<Node<C>, NoMemory>
        ensures { IfOk result (λ n. n ≡ record {
          core = started config me inc;
          clients = [];
          halted = false;
        }) }
    {
        Ok(Node {
            core: start_core(alloc, config, me, inc)?,
            clients: Vec::new(alloc),
            halted: false,
        })
    }

    /// Its state, with what its last step sent and recorded and was not taken.
    pub fn core(&self) -> &Core
        ensures { result.now ≡ self.now.core }
    {
        &self.core
    }

    /// Its clients, in the order of their sessions.
    pub fn clients(&self) -> &[C]
        ensures { result.now ≡ self.now.clients }
    {
        self.clients.as_slice()
    }

    /// The client of the live session of this name.
    pub fn client(&self, name: &[u8]) -> Option<&C>
        ensures { option_copied result ≡ client_named (sessions_in self.now) name.now }
    {
        let place = session_place(&self.core.sessions, name)?;
        self.clients.get(place)
    }

    pub fn is_halted(&self) -> bool
        ensures { result ≡ self.now.halted }
    {
        self.halted
    }

    /// The network, from 1 to 4, by which it sends to the node of this number now: the least in whose ring both stand,
    /// else the least on which both have an adapter; 0 where there is none.
    pub fn network(&self, node: u8) -> u8
        ensures { result ≡ network_to self.now.core node }
    {
        network_to(&self.core, node)
    }

    /// Appends the lines of a status as the node stands, as a reply to a status client carries them. Where memory
    /// runs out nothing is appended.
    pub fn status(&self, alloc: Global, out: &mut Vec<u8>, what: What) -> Result<(), NoMemory>
        ensures ok { OnOk result (out.new.items
            ≡ out.old.items ++ status_text self.now.core what) }
        ensures err { OnErr result (out.new.items ≡ out.old.items) }
    {
        let text = status_text(&self.core, alloc, what)?;
        out.extend_from_slice(text.as_slice())?;
        Ok(())
    }

    /// Takes what its last step sent. The bytes of a packet are those of its `Datagram` in `packet_codec`.
    #[tactic(auto, using(crate::proofs::StepLaws::work_beside))]
    pub fn take_sends(&mut self, alloc: Global) -> Packets
        ensures taken { result ≡ self.old.core.sends }
        ensures left { self.new ≡ record self.old { core = record (self.old.core) { sends = [] } } }
    {
        mem::replace(&mut self.core.sends, List::new(alloc))
    }

    /// Takes what its last step recorded.
    #[tactic(auto, using(crate::proofs::StepLaws::work_beside))]
    pub fn take_records(&mut self, alloc: Global) -> Records
        ensures taken { result ≡ self.old.core.records }
        ensures left { self.new ≡ record self.old {
          core = record
              (self.old.core) { records = [] };
        } }
    {
        mem::replace(&mut self.core.records, List::new(alloc))
    }

    /// An event happens. What an earlier step sent and recorded and was not taken is let go.
    pub fn step(&mut self, alloc: Global, event: NodeEvent<'_>) -> Result<(), StepFault>
        requires taken { IsTrue (is_taken event) }
        ensures scripts { OnOk result (KeepsScripts C.script self.old.clients self.new.clients) }
        ensures does { OnOk result (RuleDoes C.script C.stands_for self.old.clients self.new.clients
            (called (at_work self.old.core) (event_in event.entry)) self.new.core
            (λ f. stepped f self.old.core (event_in event.entry))) }
        ensures sends { OnOk result
            (SendsFew self.old.core (event_in event.entry) self.new.core) }
        ensures order { OnOk result (InNameOrder self.old.core.groups) }
        ensures goes_on { OnOk result (self.new.halted ≡ false) }
        ensures halts { IsErrOf result StepFault.NoMemory → IsTrue self.new.halted }
        ensures halted { IsErrOf result StepFault.Halted ↔ IsTrue self.old.halted }
        ensures stays { IsErrOf result StepFault.Halted → self.new ≡ self.old }
    {
        if self.halted {
            return Err(StepFault::Halted);
        }
        match take_event(&mut self.core, &mut self.clients, alloc, event) {
            Ok(()) => Ok(()),
            Err(_) => {
                self.halted = true;
                Err(StepFault::NoMemory)
            }
        }
    }

    /// A client of this name calls to begin its session, with the object that is handed its notices; or it is
    /// refused. The words of the call beside the name are any.
    pub fn begin_session(&mut self, alloc: Global, name: &[u8], client: C) -> Result<(), StepFault>
        ensures scripts { OnOk result (KeepsScripts C.script
            (clients_with client self.old.clients (inited self.old.core.sessions name.now))
            self.new.clients) }
        ensures does { OnOk result ((node : ℕ) (votes : List ℕ)
            → Does (map C.script self.new.clients) (Receive C.stands_for
            (clients_with client self.old.clients (inited self.old.core.sessions name.now))
            self.new.clients) (take_call (at_work self.old.core) (call.Init node name.now votes))
            self.new.core (λ f. stepped f self.old.core (Calls (call.Init node name.now votes)))) }
        ensures sends { OnOk result ((node : ℕ) (votes : List ℕ) → SendsFew self.old.core
            (Calls (call.Init node name.now votes)) self.new.core) }
        ensures order { OnOk result (InNameOrder self.old.core.groups) }
        ensures goes_on { OnOk result (self.new.halted ≡ false) }
        ensures halts { IsErrOf result StepFault.NoMemory → IsTrue self.new.halted }
        ensures halted { IsErrOf result StepFault.Halted ↔ IsTrue self.old.halted }
        ensures stays { IsErrOf result StepFault.Halted → self.new ≡ self.old }
    {
        if self.halted {
            return Err(StepFault::Halted);
        }
        match open_session(&mut self.core, &mut self.clients, alloc, name, client) {
            Ok(()) => Ok(()),
            Err(_) => {
                self.halted = true;
                Err(StepFault::NoMemory)
            }
        }
    }

    /// The client of this name says goodbye: its session ends, and its object is let go; or it is refused.
    pub fn say_goodbye(&mut self, alloc: Global, client: &[u8]) -> Result<(), StepFault>
        ensures scripts { OnOk result (KeepsScripts C.script
            (removed_at (client_place self.old.core.sessions
            (client_token self.old.core.sessions client.now)) self.old.clients) self.new.clients) }
        ensures does { OnOk result (Does (map C.script self.new.clients)
            (Receive C.stands_for (removed_at (client_place self.old.core.sessions
            (client_token self.old.core.sessions client.now)) self.old.clients) self.new.clients)
            (take_call (at_work self.old.core) (call.Goodbye client.now)) self.new.core
            (λ f. stepped f self.old.core (Calls (call.Goodbye client.now)))) }
        ensures sends { OnOk result
            (SendsFew self.old.core (Calls (call.Goodbye client.now)) self.new.core) }
        ensures order { OnOk result (InNameOrder self.old.core.groups) }
        ensures goes_on { OnOk result (self.new.halted ≡ false) }
        ensures halts { IsErrOf result StepFault.NoMemory → IsTrue self.new.halted }
        ensures halted { IsErrOf result StepFault.Halted ↔ IsTrue self.old.halted }
        ensures stays { IsErrOf result StepFault.Halted → self.new ≡ self.old }
    {
        if self.halted {
            return Err(StepFault::Halted);
        }
        match close_session(&mut self.core, &mut self.clients, alloc, client) {
            Ok(()) => Ok(()),
            Err(_) => {
                self.halted = true;
                Err(StepFault::NoMemory)
            }
        }
    }
}
