//! What each number of a load's sequence does.
ghost use Rattle.std.specs.Prelude.{◌≡◌, ◌++◌, ◌∷◌, [], OnOk, IfOk};
ghost use Rattle.world_model.specs.Load.{eight, mask_of, starts, asks, comes, joins_again, all_but, asker, next_seed, load_step};
ghost use Rattle.world_model.specs.declared.script.Line.TheVariants as line;
ghost use Rattle.world_model.specs.declared.event.Event.TheVariants as event;
ghost use Rattle.load_script.specs.Steps.{step_lines, restart, partition};

use crate::calls::{push_coming, push_join, push_message, push_state};
use crate::lines::{push_ask, push_start, push_stop};
use crate::settings::all_nodes;
use rsct_packet::{List, Mask, NoMemory};
use std::alloc::Global;
use world_model::{Line, Lines};

/// The number of the sequence behind this one.
pub fn next_seed(seed: u64) -> u64
    ensures { result ≡ next_seed seed }
{
    seed.wrapping_mul(6_364_136_223_846_793_005)
        .wrapping_add(1_442_695_040_888_963_407)
}

/// A node other than this one.
#[tactic(auto, unfolding(world_model::specs::Load::asker))]
fn asker(node: u8) -> u8
    ensures { result ≡ asker node }
{
    if node == 1 { 2 } else { 1 }
}

/// All nodes but this one.
#[tactic(auto, unfolding(world_model::specs::Load::all_but))]
fn all_but(node: u8) -> Mask
    ensures { result ≡ all_but node }
{
    all_nodes().without(node)
}

/// The node stops, the others go on in a view of theirs; it starts again, and its client joins anew.
fn push_restart(lines: &mut Lines, alloc: Global, node: u8) -> Result<(), NoMemory>
    ensures { OnOk result (lines.new ≡ lines.old ++ restart node) }
{
    push_stop(lines, node)?;
    push_ask(lines, asker(node), all_but(node))?;
    lines.push(Line::Flow)?;
    push_start(lines, node)?;
    push_ask(lines, asker(node), all_nodes())?;
    lines.push(Line::Flow)?;
    push_coming(lines, alloc, node)
}

/// The node and the others go on in views of their own, and come together again; its client joins anew.
#[tactic(auto, unfolding(world_model::specs::Load::mask_of))]
fn push_partition(lines: &mut Lines, alloc: Global, node: u8) -> Result<(), NoMemory>
    ensures { OnOk result (lines.new ≡ lines.old ++ partition node) }
{
    push_ask(lines, asker(node), all_but(node))?;
    push_ask(lines, node, Mask::empty().with(node))?;
    lines.push(Line::Flow)?;
    push_ask(lines, asker(node), all_nodes())?;
    lines.push(Line::Flow)?;
    push_join(lines, alloc, node)
}

/// What step `number` does at the node, by this choice of eight: five of them send a message, one changes the state,
/// one restarts the node, and one parts it from the others for a while.
#[tactic(auto, unfolding(world_model::specs::Load::load_step))]
fn push_step(
    lines: &mut Lines,
    alloc: Global,
    number: u32,
    node: u8,
    choice: u8,
) -> Result<(), NoMemory>
    ensures { OnOk result (lines.new ≡ lines.old ++ load_step number node choice) }
{
    if choice < 5 {
        push_message(lines, alloc, node, number)
    } else if choice == 5 {
        push_state(lines, alloc, node, number)
    } else if choice == 6 {
        push_restart(lines, alloc, node)
    } else {
        push_partition(lines, alloc, node)
    }
}

/// The lines of step `number`, whose number of the sequence is `seed`.
pub fn step_lines(alloc: Global, number: u32, seed: u64) -> Result<Lines, NoMemory>
    ensures { IfOk result (λ lines. lines ≡ step_lines number seed) }
{
    let node = 1 + (seed >> 33) % 8;
    let choice = (seed >> 40) % 8;
    let mut lines = List::new(alloc);
    push_step(&mut lines, alloc, number, node as u8, choice as u8)?;
    Ok(lines)
}
