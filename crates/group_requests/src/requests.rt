//! Requests that come to the leader of a group.
ghost use Rattle.std.specs.Prelude.{◌≡◌, OnOk};
ghost use Rattle.session_clients.specs.Clients.{KeepsScripts};
ghost use Rattle.entry_delivery.specs.Doing.{RuleDoes};
ghost use Rattle.group_leading.specs.Working.{AtWork};
ghost use Rattle.node_state.specs.Following.{tell_again, decide_new, is_group_refused, take_request};

use client_callbacks::{Callbacks, Why};
use group_deciding::{decide, tell};
use group_members::send_name;
use node_groups::{decision_of, held_count, holds, set_leader};
use node_sending::{is_fixed, send};
use node_state::Core;
use rsct_packet::{Name, NoMemory, ProviderId};
use session_state::Request;
use std::alloc::Global;

/// How many groups a view has.
const MAX_GROUPS: usize = 64;

/// In mode fixed, is it a new group where as many lists are held as a view has groups?
#[tactic(auto, unfolding(node_state::specs::Following::is_group_refused))]
fn is_group_refused(core: &Core, group: &[u8]) -> bool
    ensures { result ≡ is_group_refused core.now group.now }
{
    is_fixed(core.config.mode) && !holds(core, group) && held_count(core) >= MAX_GROUPS
}

/// Tells the node of a requester again why its request was refused, if it was.
#[tactic(auto, unfolding(node_state::specs::Following::tell_again))]
fn tell_again(
    core: &mut Core,
    alloc: Global,
    group: &Name,
    provider: ProviderId,
    request: u32,
    why: Option<Why>,
) -> Result<(), NoMemory>
    ensures { OnOk result (core.new ≡ tell_again core.old group.now provider request why) }
{
    match why {
        None => Ok(()),
        Some(why) => {
            let told = tell(alloc, core.views.view, group, provider, request, why)?;
            send(core, provider.node, told)
        }
    }
}

/// The node is the leader, and decides a request that is new to it.
fn decide_new<C: Callbacks>(
    core: &mut Core,
    clients: &mut Vec<C>,
    alloc: Global,
    asked: &Request,
) -> Result<(), NoMemory>
    requires work { AtWork core.old clients.old.items }
    ensures work { OnOk result (AtWork core.new clients.new.items) }
    ensures scripts { OnOk result (KeepsScripts C.script clients.old.items clients.new.items) }
    ensures does { OnOk result (RuleDoes C.script C.stands_for clients.old.items clients.new.items
        core.old core.new (λ f. decide_new f core.old asked.now.group asked.now.provider
        asked.now.request asked.now.phases asked.now.proposal)) }
{
    set_leader(core, alloc, &asked.group, core.views.me)?;
    decide(core, clients, alloc, asked)
}

/// REQUEST: a request is decided, or told again; it is dropped where a later one was decided.
pub fn take_request<C: Callbacks>(
    core: &mut Core,
    clients: &mut Vec<C>,
    alloc: Global,
    from: u8,
    asked: &Request,
) -> Result<(), NoMemory>
    requires work { AtWork core.old clients.old.items }
    ensures work { OnOk result (AtWork core.new clients.new.items) }
    ensures scripts { OnOk result (KeepsScripts C.script clients.old.items clients.new.items) }
    ensures does { OnOk result (RuleDoes C.script C.stands_for clients.old.items clients.new.items
        core.old core.new (λ f. take_request f core.old from asked.now.group asked.now.provider
        asked.now.request asked.now.phases asked.now.proposal)) }
{
    if is_group_refused(core, asked.group.bytes()) {
        return send_name(core, alloc, from, &asked.group, 0);
    }
    let Some(last) = decision_of(core, asked.group.bytes(), asked.provider) else {
        return decide_new(core, clients, alloc, asked);
    };
    if asked.request < last.request {
        return Ok(());
    }
    if asked.request == last.request {
        return tell_again(
            core,
            alloc,
            &asked.group,
            asked.provider,
            asked.request,
            last.why,
        );
    }
    decide_new(core, clients, alloc, asked)
}
