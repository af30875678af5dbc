//! Steps of nodes.
ghost use Rattle.std.specs.Prelude.{IfOk, IsTrue};
ghost use Rattle.node_core.specs.Event.{event_in, is_taken};
ghost use Rattle.net_script.specs.Standing.{Leaves, StepsAs};
ghost use Rattle.net_script.specs.Hearing.{StepHears};

use client_callbacks::{Callbacks, Made};
use node_core::{Node, NodeEvent};
use node_state::{Packets, Records};
use rsct_packet::NoMemory;
use session_clients::scripted_clients_fill_their_scripts;
use std::alloc::Global;

/// What a step sends and records.
#[derive(Drop)]
pub struct Left {
    pub sends: Packets,
    pub records: Records,
}

/// Takes what a node's last step left. A node keeps its number: one that has another counts as want of memory.
pub fn take_left<C: Callbacks>(node: &mut Node<C>, alloc: Global, me: u8) -> Result<Left, NoMemory>
    ensures { IfOk result (λ l. Leaves node.old node.new l me) }
{
    if node.core().views.me != me {
        return Err(NoMemory);
    }
    let sends = node.take_sends(alloc);
    let records = node.take_records(alloc);
    Ok(Left { sends, records })
}

/// An event happens to a node.
pub fn step_node<C: Made>(
    node: &mut Node<C>,
    alloc: Global,
    event: NodeEvent<'_>,
) -> Result<Left, NoMemory>
    requires taken { IsTrue (is_taken event) }
    ensures steps { IfOk result (λ l. StepsAs C.script C.script_of node.old node.new l
        (event_in event.entry)) }
    ensures hears { IfOk result (λ l. StepHears C.stands_for node.old node.new l.records
        (event_in event.entry)) }
{
    scripted_clients_fill_their_scripts();
    let me = node.core().views.me;
    match node.step(alloc, event) {
        Ok(()) => take_left(node, alloc, me),
        Err(_) => Err(NoMemory),
    }
}
