//! What happens to a node, and what it makes of it.
ghost use Rattle.std.specs.Prelude.{◌≡◌, OnOk, IsTrue};
ghost use Rattle.session_clients.specs.Clients.{KeepsScripts};
ghost use Rattle.entry_delivery.specs.Doing.{RuleDoes};
ghost use Rattle.group_leading.specs.Working.{AtWork};
ghost use Rattle.node_state.specs.Bytes.{event_of};
ghost use Rattle.node_state.specs.Ticks.{tick_rule};
ghost use Rattle.node_state.specs.Calls.{take_call};
ghost use Rattle.node_state.specs.Step.{Asks, Calls, at_work, event_rule, stepped};
ghost use Rattle.node_calls.specs.Calling.{is_within_session};
ghost use Rattle.node_core.specs.Event.{called, event_in, is_taken};

use crate::packets::take_datagram;
use client_callbacks::Callbacks;
use group_deciding::{end_step, tick_led};
use node_calls::take_call;
use node_owed::tick_owed;
use node_rings::tick_rings;
use node_state::{CallLine, Core};
use node_views::{take_order, tick_views};
use rsct_packet::{List, Mask, NoMemory};
use std::alloc::Global;

/// What happens to a node: a tick, an order to ask for a view of these nodes, a datagram, or a call of a client in
/// its session. The calls that begin and end a session are calls of the node, since the client's object comes and
/// goes with them.
#[derive(Clone, Copy)]
pub enum NodeEvent<'a> {
    Tick,
    Ask(Mask),
    Datagram(&'a [u8]),
    Call(&'a CallLine),
}

/// Lets go what an earlier step sent and recorded.
pub fn clear(core: &mut Core, alloc: Global)
    ensures { core.new ≡ at_work core.old }
{
    core.sends = List::new(alloc);
    core.records = List::new(alloc);
}

/// A tick: the rings, the views, what is owed, what the node leads, and the end of the step.
#[tactic(auto, using(group_leading::proofs::WorkLaws::work_kept))]
fn tick<C: Callbacks>(core: &mut Core, clients: &mut Vec<C>, alloc: Global) -> Result<(), NoMemory>
    requires work { AtWork core.old clients.old.items }
    ensures work { OnOk result (AtWork core.new clients.new.items) }
    ensures scripts { OnOk result (KeepsScripts C.script clients.old.items clients.new.items) }
    ensures does { OnOk result (RuleDoes C.script C.stands_for clients.old.items clients.new.items
        core.old core.new (λ f. tick_rule f core.old)) }
{
    tick_rings(core, alloc)?;
    tick_views(core, clients, alloc)?;
    tick_owed(core, alloc)?;
    tick_led(core, clients, alloc)?;
    end_step(core, clients, alloc)
}

/// An order to ask for a view of these nodes, and the end of the step.
fn obey<C: Callbacks>(
    core: &mut Core,
    clients: &mut Vec<C>,
    alloc: Global,
    mask: Mask,
) -> Result<(), NoMemory>
    requires work { AtWork core.old clients.old.items }
    ensures work { OnOk result (AtWork core.new clients.new.items) }
    ensures scripts { OnOk result (KeepsScripts C.script clients.old.items clients.new.items) }
    ensures does { OnOk result (RuleDoes C.script C.stands_for clients.old.items clients.new.items
        core.old core.new (λ f. event_rule f core.old (Asks mask))) }
{
    take_order(core, clients, alloc, mask)?;
    end_step(core, clients, alloc)
}

/// A datagram, and the end of the step.
fn receive<C: Callbacks>(
    core: &mut Core,
    clients: &mut Vec<C>,
    alloc: Global,
    bytes: &[u8],
) -> Result<(), NoMemory>
    requires work { AtWork core.old clients.old.items }
    ensures work { OnOk result (AtWork core.new clients.new.items) }
    ensures scripts { OnOk result (KeepsScripts C.script clients.old.items clients.new.items) }
    ensures does { OnOk result (RuleDoes C.script C.stands_for clients.old.items clients.new.items
        core.old core.new (λ f. event_rule f core.old (event_of bytes.now))) }
{
    take_datagram(core, clients, alloc, bytes)?;
    end_step(core, clients, alloc)
}

/// A call of a client in its session, and the end of the step.
#[tactic(auto, using(group_leading::proofs::WorkLaws::work_kept))]
fn answer<C: Callbacks>(
    core: &mut Core,
    clients: &mut Vec<C>,
    alloc: Global,
    call: &CallLine,
) -> Result<(), NoMemory>
    requires within { IsTrue (is_within_session call.now) }
    requires work { AtWork core.old clients.old.items }
    ensures work { OnOk result (AtWork core.new clients.new.items) }
    ensures scripts { OnOk result (KeepsScripts C.script clients.old.items clients.new.items) }
    ensures does { OnOk result (RuleDoes C.script C.stands_for clients.old.items clients.new.items
        (take_call core.old call.now) core.new (λ f. event_rule f core.old (Calls call.now))) }
{
    take_call(core, alloc, call)?;
    end_step(core, clients, alloc)
}

/// An event, with nothing sent or recorded before.
fn take_cleared<C: Callbacks>(
    core: &mut Core,
    clients: &mut Vec<C>,
    alloc: Global,
    event: NodeEvent<'_>,
) -> Result<(), NoMemory>
    requires taken { IsTrue (is_taken event) }
    requires work { AtWork core.old clients.old.items }
    ensures work { OnOk result (AtWork core.new clients.new.items) }
    ensures scripts { OnOk result (KeepsScripts C.script clients.old.items clients.new.items) }
    ensures does { OnOk result (RuleDoes C.script C.stands_for clients.old.items clients.new.items
        (called core.old (event_in event.entry)) core.new
        (λ f. event_rule f core.old (event_in event.entry))) }
{
    match event {
        NodeEvent::Tick => tick(core, clients, alloc),
        NodeEvent::Ask(mask) => obey(core, clients, alloc, mask),
        NodeEvent::Datagram(bytes) => receive(core, clients, alloc, bytes),
        NodeEvent::Call(c) => answer(core, clients, alloc, c),
    }
}

/// An event happens to a node.
#[tactic(auto, unfolding(node_state::specs::Step::stepped), using(crate::proofs::StepLaws::work_cleared))]
pub fn take_event<C: Callbacks>(
    core: &mut Core,
    clients: &mut Vec<C>,
    alloc: Global,
    event: NodeEvent<'_>,
) -> Result<(), NoMemory>
    requires taken { IsTrue (is_taken event) }
    requires work { AtWork core.old clients.old.items }
    ensures work { OnOk result (AtWork core.new clients.new.items) }
    ensures scripts { OnOk result (KeepsScripts C.script clients.old.items clients.new.items) }
    ensures does { OnOk result (RuleDoes C.script C.stands_for clients.old.items clients.new.items
        (called (at_work core.old) (event_in event.entry)) core.new
        (λ f. stepped f core.old (event_in event.entry))) }
{
    clear(core, alloc);
    take_cleared(core, clients, alloc, event)
}
