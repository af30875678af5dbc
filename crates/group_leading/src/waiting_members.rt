//! New members that failed or are gone.
ghost use Rattle.std.specs.Prelude.{◌≡◌, OnOk};
ghost use Rattle.node_state.specs.Leading.{wait_if, new_members_wait};
ghost use Rattle.group_leading.specs.Waiting.{new_ones_wait};

use node_groups::{gone_of, wait_failure};
use node_state::Core;
use proposal_core::{Cause, GroupState};
use rsct_packet::{Name, NoMemory, ProviderId, is_among};
use std::alloc::Global;

/// One who failed waits with that cause, also where it is gone.
#[tactic(auto, unfolding(node_state::specs::Leading::wait_if))]
fn wait_if(
    core: &mut Core,
    alloc: Global,
    group: &Name,
    provider: ProviderId,
    failed: bool,
    gone: bool,
) -> Result<(), NoMemory>
    ensures { OnOk result (core.new ≡ wait_if core.old group.now provider failed gone) }
{
    if failed {
        return wait_failure(core, alloc, group, provider, Cause::Died);
    }
    if gone {
        return wait_failure(core, alloc, group, provider, Cause::Gone);
    }
    Ok(())
}

/// Those of the members who are new wait where they failed or are gone. `before` is the group's state before the
/// entry that made them members, `after` that behind it.
#[tactic(auto, using(crate::proofs::LeadLaws::one_waits, crate::proofs::LeadLaws::none_waits, std::proofs::lemmas::Grind::common_steps))]
fn new_ones_wait(
    core: &mut Core,
    alloc: Global,
    group: &Name,
    gone: &[ProviderId],
    before: &GroupState,
    after: &GroupState,
) -> Result<(), NoMemory>
    ensures { OnOk result (core.new ≡ new_ones_wait core.old group.now after.now.failed gone.now
        before.now.members after.now.members) }
{
    let failed = after.failed.as_slice();
    for p in after.members.as_slice() {
        if !is_among(before.members.as_slice(), *p) {
            wait_if(
                core,
                alloc,
                group,
                *p,
                is_among(failed, *p),
                is_among(gone, *p),
            )?;
        }
    }
    Ok(())
}

/// A failed or gone joiner waits as a failure once it is a member.
#[tactic(auto, unfolding(node_state::specs::Leading::new_members_wait))]
pub fn new_members_wait(
    core: &mut Core,
    alloc: Global,
    group: &Name,
    before: &GroupState,
    after: &GroupState,
) -> Result<(), NoMemory>
    ensures { OnOk result (core.new ≡ new_members_wait core.old group.now before.now after.now) }
{
    let gone = gone_of(core, alloc, group.bytes())?;
    new_ones_wait(core, alloc, group, gone.as_slice(), before, after)
}
