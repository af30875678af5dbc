//! When a target group owes something to its source group.
ghost use Rattle.std.specs.Prelude.{◌≡◌, IfOk, option_copied};
ghost use Rattle.std.specs.List.{list_any};
ghost use Rattle.source_target.specs.Due.{allowed as allowed_by, cast_outs as cast_outs_of, due as due_of, reflection_due as reflection_due_of, is_on};

use crate::owed::Due;
use proposal_core::{Cause, Failure, Fallen, GroupState};
use rsct_packet::{List, NoMemory, ProviderId};
use std::alloc::Global;

/// Is one of them on the node?
fn is_one_on(providers: &[ProviderId], node: u8) -> bool
    ensures { result ≡ list_any (is_on node) providers.now }
{
    providers.iter().any(|q| q.node == node)
}

/// Has the source a member on the node? A source that is not known has none.
#[tactic(auto, unfolding(crate::specs::Due::allowed))]
pub fn allowed(source: Option<&GroupState>, node: u8) -> bool
    ensures { result ≡ allowed_by (option_copied source.entry) node }
{
    match source {
        None => false,
        Some(state) => is_one_on(state.members.as_slice(), node),
    }
}

/// The members on nodes without a source member, in membership order.
#[tactic(auto, unfolding(crate::specs::Due::cast_outs))]
fn cast_outs(
    alloc: Global,
    members: &[ProviderId],
    source: Option<&GroupState>,
) -> Result<Fallen, NoMemory>
    ensures { IfOk result (λ out. out ≡ cast_outs_of members.now (option_copied source.entry)) }
{
    let mut out = List::new(alloc);
    for p in members {
        if !allowed(source, p.node) {
            out.push(Failure {
                provider: *p,
                cause: Cause::Cast,
            })?;
        }
    }
    Ok(out)
}

/// The reflection of a value that was set after the reflected one, where the target has members.
#[tactic(auto, unfolding(crate::specs::Due::reflection_due))]
fn reflection_due(target: &GroupState, source: Option<&GroupState>) -> Option<Due>
    ensures { result ≡ reflection_due_of target.now
        (option_copied source.entry) target.now.members }
{
    let set_at = source?.value_at?;
    if target.members.len() > 0 && target.reflected_at < Some(set_at) {
        Some(Due::Reflect(set_at.view, set_at.place))
    } else {
        None
    }
}

/// What the target is to begin: a cast-out exactly where one of its members stands on a node without a member of
/// the source; else a reflection exactly where it has members and the source's value was set at a greater
/// place than the reflected one.
#[tactic(auto, unfolding(crate::specs::Due::due))]
pub fn due(
    alloc: Global,
    target: &GroupState,
    source: Option<&GroupState>,
) -> Result<Option<Due>, NoMemory>
    ensures { IfOk result (λ o. o ≡ due_of target.now (option_copied source.entry)) }
{
    let out = cast_outs(alloc, target.members.as_slice(), source)?;
    if out.is_empty() {
        Ok(reflection_due(target, source))
    } else {
        Ok(Some(Due::CastOut(out)))
    }
}
