//! Outstanding requests.
ghost use Rattle.std.specs.Prelude.{◌≡◌, IfOk, OnOk, filter};
ghost use Rattle.std.specs.List.{fold};
ghost use Rattle.std.specs.Str.{bytes_eq};
ghost use Rattle.session_state.specs.declared.state.Request.{Request};
ghost use Rattle.node_groups.specs.Keeps.{Keeps};
ghost use Rattle.node_state.specs.Sending.{send_request, send_requests};
ghost use Rattle.node_state.specs.Following.{requests_of};

use node_groups::leader_of;
use node_sending::{is_frozen, send_request_to};
use node_state::Core;
use rsct_packet::{List, NoMemory};
use session_state::Request;
use std::alloc::Global;
use std::mem;

/// An equal request.
pub fn copy_request(alloc: Global, request: &Request) -> Result<Request, NoMemory>
    ensures { IfOk result (λ x. x ≡ request.now) }
{
    Ok(Request {
        provider: request.provider,
        request: request.request,
        group: request.group.copy(alloc)?,
        phases: request.phases,
        proposal: request.proposal.copy(alloc)?,
    })
}

/// Sends an outstanding request to the leader of its group, or looks the name up; nothing where the node is frozen.
#[tactic(auto, unfolding(node_state::specs::Sending::send_request))]
pub fn send_request(core: &mut Core, alloc: Global, request: &Request) -> Result<(), NoMemory>
    ensures rule { OnOk result (core.new ≡ send_request core.old request.now) }
    ensures keeps { OnOk result (Keeps core.old core.new) }
{
    if is_frozen(core) {
        return Ok(());
    }
    let leader = leader_of(core, request.group.bytes());
    send_request_to(core, alloc, request, leader)
}

/// Sends these requests.
#[tactic(auto, using(std::proofs::lemmas::List::Sums::fold_more))]
fn send_each(core: &mut Core, alloc: Global, requests: &[Request]) -> Result<(), NoMemory>
    ensures { OnOk result (core.new ≡ fold send_request core.old requests.now) }
{
    for q in requests {
        send_request(core, alloc, q)?;
    }
    Ok(())
}

/// Sends those of these requests that are in the group.
#[tactic(auto, using(std::proofs::lemmas::List::Elements::filter_more, std::proofs::lemmas::Grind::common_steps))]
fn send_each_of(
    core: &mut Core,
    alloc: Global,
    group: &[u8],
    requests: &[Request],
) -> Result<(), NoMemory>
    ensures { OnOk result (core.new ≡ fold send_request core.old
        (filter (λ (q : Request). bytes_eq q.group group.now) requests.now)) }
{
    for q in requests {
        if q.group.bytes() == group {
            send_request(core, alloc, q)?;
        }
    }
    Ok(())
}

/// Sends each outstanding request, in order of number.
pub fn send_requests(core: &mut Core, alloc: Global) -> Result<(), NoMemory>
    ensures rule { OnOk result (core.new ≡ send_requests core.old) }
    ensures keeps { OnOk result (Keeps core.old core.new) }
{
    let requests = mem::replace(&mut core.sessions.requests, List::new(alloc));
    let sent = send_each(core, alloc, requests.as_slice());
    core.sessions.requests = requests;
    sent
}

/// Sends each outstanding request in the group, in order of number.
pub fn send_requests_of(core: &mut Core, alloc: Global, group: &[u8]) -> Result<(), NoMemory>
    ensures rule { OnOk result
        (core.new ≡ fold send_request core.old (requests_of core.old group.now)) }
    ensures keeps { OnOk result (Keeps core.old core.new) }
{
    let requests = mem::replace(&mut core.sessions.requests, List::new(alloc));
    let sent = send_each_of(core, alloc, group, requests.as_slice());
    core.sessions.requests = requests;
    sent
}
