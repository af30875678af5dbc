//! A request.
ghost use Rattle.std.specs.Prelude.{OnOk};
ghost use Rattle.session_clients.specs.Clients.{KeepsScripts};
ghost use Rattle.entry_delivery.specs.Doing.{RuleDoes};
ghost use Rattle.group_leading.specs.Working.{AtWork};
ghost use Rattle.node_state.specs.Deciding.{decided};

use crate::changes::decide_change;
use crate::join_requests::decide_join;
use client_callbacks::Callbacks;
use node_state::Core;
use proposal_core::Proposal;
use rsct_packet::NoMemory;
use session_state::Request;
use std::alloc::Global;

/// Decides a request: a join waits or is refused, another proposal begins or is refused.
#[tactic(auto, unfolding(node_state::specs::Deciding::decided))]
pub fn decide<C: Callbacks>(
    core: &mut Core,
    clients: &mut Vec<C>,
    alloc: Global,
    asked: &Request,
) -> Result<(), NoMemory>
    requires work { AtWork core.old clients.old.items }
    ensures work { OnOk result (AtWork core.new clients.new.items) }
    ensures scripts { OnOk result (KeepsScripts C.script clients.old.items clients.new.items) }
    ensures does { OnOk result (RuleDoes C.script C.stands_for clients.old.items clients.new.items
        core.old core.new (λ f. decided f core.old asked.now.group asked.now.provider
        asked.now.request asked.now.phases asked.now.proposal)) }
{
    match &asked.proposal {
        Proposal::Join { attrs, .. } => {
            decide_join(
                core,
                alloc,
                &asked.group,
                asked.provider,
                asked.request,
                attrs,
            )
        }
        _ => decide_change(core, clients, alloc, asked),
    }
}
