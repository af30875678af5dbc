//! A client for whose notice there is no memory: its node halts.
ghost use Rattle.std.specs.Prelude.{None, IsTrue};
ghost use Rattle.node_core.specs.Event.{is_taken};

use client_callbacks::{Ballot, Callbacks, Notice, Told};
use node_core::{Node, NodeEvent, StepFault};
use node_state::CallLine;
use rsct_packet::{Mask, NoMemory};
use script_reader::read_script;
use std::alloc::Global;
use world_model::Script;

#[derive(Drop)]
struct Starving;

impl Callbacks for Starving {
    ghost stands_for = { λ c h. Unit {0} };

    ghost script = { λ c. None };

    fn notice(&mut self, _notice: &Notice<'_>, _ballot: &mut Ballot) -> Result<(), NoMemory> {
        Err(NoMemory)
    }

    fn told(&mut self, _told: &Told) -> Result<(), NoMemory> {
        Ok(())
    }
}

const JOINS: &[u8] = b"mode fixed\nnode 1\nbegin\nclient 1 a A\njoin a db 1\n";

/// What node 1 sends to itself for that join, as the leader of its group.
const REQUEST: &[u8] =
    b"RG\x01\x10\x01\x01\x01\0\0\0\0\x01\0\0\04\0\0\0\x01\x01\0\0\0\x01\x02db\x01\0\0\0\x01\0\x01\0\0\0\x01\0\0\0\x01\x01\x01\x01\x01\0\0\0\x01\0\x01\0\0\0\x01\x01\0\x01\0\0\x01\0\0\0\0\0";

/// Is the join of the script asked for by the node?
fn asks(node: &mut Node<Starving>, alloc: Global, script: &Script) -> bool {
    match script.call(1) {
        Some((_, call)) => match call {
            CallLine::Join { .. } => node.step(alloc, NodeEvent::Call(call)).is_ok(),
            _ => false,
        },
        None => false,
    }
}

/// Node 1 with a client that has asked to join.
fn joining(alloc: Global) -> Option<Node<Starving>> {
    let script = read_script(alloc, JOINS).ok()?;
    let mut node = Node::start(alloc, *script.config(), 1, 1).ok()?;
    node.begin_session(alloc, b"a", Starving).ok()?;
    if asks(&mut node, alloc, &script) {
        Some(node)
    } else {
        None
    }
}

/// Is the node halted, and does it send and record nothing where this happens?
fn is_idle(node: &mut Node<Starving>, alloc: Global, event: NodeEvent<'_>) -> bool
    requires taken { IsTrue (is_taken event) }
{
    let done = node.step(alloc, event);
    done == Err(StepFault::Halted) && node.core().sends.is_empty() && node.core().records.is_empty()
}

#[test]
fn a_halted_node_does_nothing(rt: HostRuntime) {
    let alloc = rt.alloc();
    let mut node = joining(alloc).expect(&rt, "a node");
    let broken = node.step(alloc, NodeEvent::Datagram(REQUEST));
    assert!(rt; broken == Err(StepFault::NoMemory));
    // What the broken step left is for nobody.
    let _sends = node.take_sends(alloc);
    let _records = node.take_records(alloc);
    assert!(rt; is_idle(&mut node, alloc, NodeEvent::Tick));
    assert!(rt; is_idle(&mut node, alloc, NodeEvent::Datagram(REQUEST)));
    assert!(rt; is_idle(&mut node, alloc, NodeEvent::Ask(Mask::empty().with(1))));
    assert!(rt; node.begin_session(alloc, b"b", Starving) == Err(StepFault::Halted));
    assert!(rt; node.say_goodbye(alloc, b"a") == Err(StepFault::Halted));
    assert!(rt; node.is_halted());
}
