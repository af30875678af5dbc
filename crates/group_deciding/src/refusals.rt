//! Refusing a request.
ghost use Rattle.std.specs.Prelude.{◌≡◌, OnOk, IfOk};
ghost use Rattle.node_groups.specs.Keeps.{Keeps};
ghost use Rattle.node_state.specs.Deciding.{refused};
ghost use Rattle.node_state.specs.declared.packet.Body.TheVariants as body;

use client_callbacks::Why;
use node_groups::keep_decision;
use node_sending::send;
use node_state::{Body, Core};
use rsct_packet::{Name, NoMemory, ProviderId, ViewId};
use std::alloc::Global;

/// The packet that tells a requester why its request is refused.
pub fn tell(
    alloc: Global,
    view: ViewId,
    group: &Name,
    provider: ProviderId,
    request: u32,
    why: Why,
) -> Result<Body, NoMemory>
    ensures { IfOk result (λ b. b ≡ body.Tell view group.now provider request why) }
{
    Ok(Body::Tell {
        view,
        name: group.copy(alloc)?,
        provider,
        request,
        why,
    })
}

/// The refusal is kept, and sent to the requester's node.
#[tactic(auto, unfolding(node_state::specs::Deciding::refused))]
fn keep_and_tell(
    core: &mut Core,
    alloc: Global,
    group: &Name,
    provider: ProviderId,
    request: u32,
    why: Why,
) -> Result<(), NoMemory>
    ensures { OnOk result (core.new ≡ refused core.old group.now provider request why) }
{
    let told = tell(alloc, core.views.view, group, provider, request, why)?;
    keep_decision(core, alloc, group, provider, request, Some(why))?;
    send(core, provider.node, told)
}

/// Refuses a request: the decision is kept, and its requester is told.
#[tactic(auto, using(crate::proofs::RefusingLaws::refused_keeps))]
pub fn refuse(
    core: &mut Core,
    alloc: Global,
    group: &Name,
    provider: ProviderId,
    request: u32,
    why: Why,
) -> Result<(), NoMemory>
    ensures rule { OnOk result (core.new ≡ refused core.old group.now provider request why) }
    ensures keeps { OnOk result (Keeps core.old core.new) }
{
    keep_and_tell(core, alloc, group, provider, request, why)
}
