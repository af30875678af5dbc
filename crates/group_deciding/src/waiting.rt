//! What waits in a group, and is taken out to begin.
ghost use Rattle.std.specs.Prelude.{◌≡◌, IfOk, OnOk};
ghost use Rattle.rsct_packet.specs.Providers.{AreProviders};
ghost use Rattle.batch_rules.specs.Waiting.{next_failures, failures_left, next_joins, joins_left};
ghost use Rattle.node_state.specs.State.{InNameOrder, led_of};
ghost use Rattle.node_state.specs.Leading.{with_waiting};

use arrayvec::ArrayVec;
use batch_rules::MAX_WAITING;
use group_attr::Batch;
use node_groups::row_mut;
use node_state::Core;
use proposal_core::Failure;
use rsct_packet::{Name, NoMemory, ProviderId};
use std::alloc::Global;

/// Takes the failures that begin next out of the group's queue.
#[tactic(auto, unfolding(node_state::specs::Leading::with_waiting, node_state::specs::State::with_led, node_state::specs::State::with_row, node_state::specs::State::led_of, node_state::specs::State::row_of), using(node_groups::proofs::RowLaws::row_written, node_groups::proofs::RowLaws::reached_found, std::proofs::lemmas::Grind::common_steps))]
pub fn take_failures(
    core: &mut Core,
    alloc: Global,
    group: &Name,
    batch: Batch,
) -> Result<ArrayVec<Failure, MAX_WAITING>, NoMemory>
    requires { InNameOrder core.old.groups }
    ensures taken { IfOk result (λ out. out.items
        ≡ next_failures batch (led_of core.old group.now).waiting) }
    ensures rule { OnOk result
        (core.new ≡ with_waiting core.old group.now (failures_left batch)) }
{
    let row = row_mut(&mut core.groups, alloc, group)?;
    Ok(row.led.waiting.next_failures(batch))
}

/// Takes the joins that begin next out of the group's queue.
#[tactic(auto, unfolding(node_state::specs::Leading::with_waiting, node_state::specs::State::with_led, node_state::specs::State::with_row, node_state::specs::State::led_of, node_state::specs::State::row_of), using(node_groups::proofs::RowLaws::row_written, node_groups::proofs::RowLaws::reached_found, std::proofs::lemmas::Grind::common_steps))]
pub fn take_joins(
    core: &mut Core,
    alloc: Global,
    group: &Name,
    batch: Batch,
) -> Result<ArrayVec<ProviderId, MAX_WAITING>, NoMemory>
    requires { InNameOrder core.old.groups }
    ensures taken { IfOk result (λ ps. ps.items ≡ next_joins batch
        (led_of core.old group.now).waiting) }
    ensures apart { IfOk result (λ ps. AreProviders ps.items) }
    ensures rule { OnOk result (core.new ≡ with_waiting core.old group.now (joins_left batch)) }
{
    let row = row_mut(&mut core.groups, alloc, group)?;
    Ok(row.led.waiting.next_joins(batch))
}
