//! Sessions that begin and end at a node.
ghost use Rattle.std.specs.Prelude.{ℕ, List, OnOk, map};
ghost use Rattle.session_clients.specs.Clients.{KeepsScripts};
ghost use Rattle.session_state.specs.State.{client_token, client_place};
ghost use Rattle.session_state.specs.Calls.{inited, removed_at};
ghost use Rattle.node_calls.specs.Calling.{clients_with};
ghost use Rattle.entry_delivery.specs.Received.{Receive};
ghost use Rattle.entry_delivery.specs.Doing.{Does};
ghost use Rattle.group_leading.specs.Working.{AtWork};
ghost use Rattle.node_state.specs.declared.call.CallLine.TheVariants as call;
ghost use Rattle.node_state.specs.Calls.{take_call};
ghost use Rattle.node_state.specs.Step.{Calls, at_work, stepped};

use crate::events::clear;
use client_callbacks::Callbacks;
use group_deciding::end_step;
use node_calls::{take_goodbye, take_init};
use node_state::Core;
use rsct_packet::NoMemory;
use std::alloc::Global;

/// A client begins its session, or is refused; and the end of the step.
#[tactic(auto, using(crate::proofs::StepLaws::work_cleared))]
pub fn open_session<C: Callbacks>(
    core: &mut Core,
    clients: &mut Vec<C>,
    alloc: Global,
    name: &[u8],
    client: C,
) -> Result<(), NoMemory>
    requires work { AtWork core.old clients.old.items }
    ensures work { OnOk result (AtWork core.new clients.new.items) }
    ensures scripts { OnOk result (KeepsScripts C.script
        (clients_with client clients.old.items (inited core.old.sessions name.now))
        clients.new.items) }
    ensures does { OnOk result ((node : ℕ) (votes : List ℕ)
        → Does (map C.script clients.new.items) (Receive C.stands_for
        (clients_with client clients.old.items (inited core.old.sessions name.now))
        clients.new.items) (take_call (at_work core.old) (call.Init node name.now votes)) core.new
        (λ f. stepped f core.old (Calls (call.Init node name.now votes)))) }
{
    clear(core, alloc);
    take_init(core, clients, alloc, name, client)?;
    end_step(core, clients, alloc)
}

/// A client says goodbye, or is refused; and the end of the step.
#[tactic(auto, using(crate::proofs::StepLaws::work_cleared))]
pub fn close_session<C: Callbacks>(
    core: &mut Core,
    clients: &mut Vec<C>,
    alloc: Global,
    client: &[u8],
) -> Result<(), NoMemory>
    requires work { AtWork core.old clients.old.items }
    ensures work { OnOk result (AtWork core.new clients.new.items) }
    ensures scripts { OnOk result (KeepsScripts C.script
        (removed_at (client_place core.old.sessions (client_token core.old.sessions client.now))
        clients.old.items) clients.new.items) }
    ensures does { OnOk result (Does (map C.script clients.new.items)
        (Receive C.stands_for (removed_at (client_place core.old.sessions
        (client_token core.old.sessions client.now)) clients.old.items) clients.new.items)
        (take_call (at_work core.old) (call.Goodbye client.now)) core.new
        (λ f. stepped f core.old (Calls (call.Goodbye client.now)))) }
{
    clear(core, alloc);
    take_goodbye(core, clients, alloc, client)?;
    end_step(core, clients, alloc)
}
