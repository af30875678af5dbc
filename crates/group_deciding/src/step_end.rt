//! The end of a step.
ghost use Rattle.std.specs.Prelude.{◌≡◌, OnOk};
ghost use Rattle.session_clients.specs.Clients.{KeepsScripts};
ghost use Rattle.entry_delivery.specs.Doing.{RuleDoes};
ghost use Rattle.group_leading.specs.Working.{AtWork};
ghost use Rattle.node_state.specs.Ending.{passes, most_begun, end_step};

use crate::limits::MAX_PLACES;
use crate::passes::pass;
use client_callbacks::Callbacks;
use node_sending::is_frozen;
use node_state::Core;
use rsct_packet::NoMemory;
use std::alloc::Global;

/// How often something can begin: each time a list grows, and nothing begins in a full one. 128 bits hold that for
/// any number of groups.
#[tactic(auto, unfolding(node_state::specs::Ending::most_begun))]
fn most_begun(core: &Core) -> u128
    ensures { result ≡ most_begun core.now }
{
    core.groups.rows.len() as u128 * MAX_PLACES as u128 + 1
}

/// Passes over the groups, at most `left` times, until nothing begins.
#[tactic(auto, unfolding(node_state::specs::Ending::passes))]
fn repeat<C: Callbacks>(
    core: &mut Core,
    clients: &mut Vec<C>,
    alloc: Global,
    left: u128,
    most: u128,
) -> Result<(), NoMemory>
    requires work { AtWork core.old clients.old.items }
    ensures work { OnOk result (AtWork core.new clients.new.items) }
    ensures scripts { OnOk result (KeepsScripts C.script clients.old.items clients.new.items) }
    ensures does { OnOk result (RuleDoes C.script C.stands_for clients.old.items clients.new.items
        core.old core.new (λ f. passes left most f core.old)) }
{
    if left == 0 {
        return Ok(());
    }
    if !pass(core, clients, alloc, most)? {
        return Ok(());
    }
    repeat(core, clients, alloc, left - 1, most)
}

/// Ends a step: in each group that the node leads, and where nothing runs, the first of waiting failures, what is due
/// of its source, and waiting joins begins, again and again until nothing begins.
#[tactic(auto, unfolding(node_state::specs::Ending::end_step))]
pub fn end_step<C: Callbacks>(
    core: &mut Core,
    clients: &mut Vec<C>,
    alloc: Global,
) -> Result<(), NoMemory>
    requires work { AtWork core.old clients.old.items }
    ensures work { OnOk result (AtWork core.new clients.new.items) }
    ensures scripts { OnOk result (KeepsScripts C.script clients.old.items clients.new.items) }
    ensures does { OnOk result (RuleDoes C.script C.stands_for clients.old.items clients.new.items
        core.old core.new (λ f. end_step f core.old)) }
{
    if is_frozen(core) {
        return Ok(());
    }
    let most = most_begun(core);
    repeat(core, clients, alloc, most, most)
}
