//! The entries of a group's list are sent again, from the acknowledged length on.
ghost use Rattle.std.specs.Prelude.{◌≡◌, ◌+◌, ◌-◌, ◌^◌, ◌<◌, ◌≤◌, IfOk, OnOk, drop, fold, length, take};
ghost use Rattle.node_groups.specs.Keeps.{Keeps};
ghost use Rattle.node_state.specs.State.{others};
ghost use Rattle.node_state.specs.Ticks.{entries_sent, sent_again};

use node_groups::{acked_by, least_acked, row_of};
use node_sending::{others, send};
use node_state::{Body, Core};
use proposal_core::{Entry, GroupList};
use rsct_packet::{List, Name, NoMemory};
use std::alloc::Global;

/// How many entries are sent to a member in one tick.
const MOST_AGAIN: usize = 16;

/// Copies of the entries from a place on, 16 at most.
#[tactic(auto, using(crate::proofs::ResendLaws::copied_more, crate::proofs::ResendLaws::copied_end, std::proofs::lemmas::Grind::common_steps))]
fn entries_from(alloc: Global, list: &GroupList, from: u32) -> Result<List<Entry>, NoMemory>
    requires { list.now.start ≤ from }
    ensures entries { IfOk result (λ l. l ≡ take 16
        (drop (from - list.now.start) list.now.entries)) }
    ensures places { IfOk result (λ l. from + length l < 2 ^ 32) }
{
    // a place below the length is a number of 32 bits, as the length is
    let _len = list.len();
    let mut entries = List::new(alloc);
    let mut place = from;
    while entries.len() < MOST_AGAIN {
        let Some(e) = list.get(place) else {
            return Ok(entries);
        };
        entries.push(e.copy(alloc)?)?;
        place += 1;
    }
    Ok(entries)
}

/// Sends these entries, which stand from a place on.
#[tactic(auto, using(crate::proofs::ResendLaws::entries_none, crate::proofs::ResendLaws::entries_more, std::proofs::lemmas::Grind::common_steps))]
fn send_entries(
    core: &mut Core,
    alloc: Global,
    to: u8,
    group: &Name,
    first: u32,
    stable: u32,
    entries: List<Entry>,
) -> Result<(), NoMemory>
    requires { first + length entries < 2 ^ 32 }
    ensures rule { OnOk result (core.new
        ≡ entries_sent to group.now first stable entries core.old) }
    ensures keeps { OnOk result (Keeps core.old core.new) }
{
    let mut place = first;
    for entry in entries.into_items() {
        let body = Body::Entry {
            view: core.views.view,
            name: group.copy(alloc)?,
            place,
            stable,
            entry,
        };
        send(core, to, body)?;
        place += 1;
    }
    Ok(())
}

/// Sends up to 16 entries of the group to a member, from the length on that it acknowledged.
#[tactic(auto, unfolding(node_state::specs::Ticks::sent_again, node_state::specs::Ticks::list_sent_again, node_state::specs::State::row_of))]
fn send_again(core: &mut Core, alloc: Global, group: &Name, to: u8) -> Result<(), NoMemory>
    ensures rule { OnOk result (core.new ≡ sent_again group.now core.old to) }
    ensures keeps { OnOk result (Keeps core.old core.new) }
{
    let Some(row) = row_of(&core.groups, group.bytes()) else {
        return Ok(());
    };
    let Some(list) = &row.list else {
        return Ok(());
    };
    let first = acked_by(core, row, to);
    let stable = least_acked(core, group.bytes());
    let entries = entries_from(alloc, list, first.max(list.start()))?;
    send_entries(core, alloc, to, group, first, stable, entries)
}

/// Sends entries of the group to these members again.
fn send_to_each(core: &mut Core, alloc: Global, group: &Name, nodes: &[u8]) -> Result<(), NoMemory>
    ensures rule { OnOk result (core.new ≡ fold (sent_again group.now) core.old nodes.now) }
    ensures keeps { OnOk result (Keeps core.old core.new) }
{
    for n in nodes {
        send_again(core, alloc, group, *n)?;
    }
    Ok(())
}

/// Sends entries of the group to the other members again.
pub fn send_to_others(core: &mut Core, alloc: Global, group: &Name) -> Result<(), NoMemory>
    ensures rule { OnOk result
        (core.new ≡ fold (sent_again group.now) core.old (others core.old)) }
    ensures keeps { OnOk result (Keeps core.old core.new) }
{
    let nodes = others(core, alloc)?;
    send_to_each(core, alloc, group, nodes.as_slice())
}
