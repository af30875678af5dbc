//! How a load begins, and its lines that no client says.
ghost use Rattle.std.specs.Prelude.{◌≡◌, ◌++◌, ◌∷◌, [], map, flat_map, OnOk, IfOk};
ghost use Rattle.world_model.specs.Load.{starts, asks, comes, first_lines};
ghost use Rattle.world_model.specs.declared.script.Line.TheVariants as line;
ghost use Rattle.world_model.specs.declared.event.Event.TheVariants as event;

use crate::calls::push_coming;
use crate::settings::all_nodes;
use rsct_packet::{List, Mask, NoMemory};
use std::alloc::Global;
use world_model::{Event, Line, Lines};

const EIGHT: [u8; 8] = [1, 2, 3, 4, 5, 6, 7, 8];

/// The node starts.
#[tactic(auto, unfolding(world_model::specs::Load::starts))]
pub fn push_start(lines: &mut Lines, node: u8) -> Result<(), NoMemory>
    ensures { OnOk result (lines.new ≡ lines.old ++ starts node ∷ []) }
{
    lines.push(Line::Plain(Event::Start(node)))
}

/// The node stops.
pub fn push_stop(lines: &mut Lines, node: u8) -> Result<(), NoMemory>
    ensures { OnOk result (lines.new ≡ lines.old ++ line.Plain (event.Stop node) ∷ []) }
{
    lines.push(Line::Plain(Event::Stop(node)))
}

/// The node is asked for a view of these nodes.
#[tactic(auto, unfolding(world_model::specs::Load::asks))]
pub fn push_ask(lines: &mut Lines, node: u8, nodes: Mask) -> Result<(), NoMemory>
    ensures { OnOk result (lines.new ≡ lines.old ++ asks node nodes ∷ []) }
{
    lines.push(Line::Plain(Event::Ask(node, nodes)))
}

/// These nodes start, in this order.
fn push_starts(lines: &mut Lines, nodes: &[u8]) -> Result<(), NoMemory>
    ensures { OnOk result (lines.new ≡ lines.old ++ map starts nodes.now) }
{
    for node in nodes {
        push_start(lines, *node)?;
    }
    Ok(())
}

/// The clients of these nodes come, in this order.
fn push_comings(lines: &mut Lines, alloc: Global, nodes: &[u8]) -> Result<(), NoMemory>
    ensures { OnOk result (lines.new ≡ lines.old ++ flat_map comes nodes.now) }
{
    for node in nodes {
        push_coming(lines, alloc, *node)?;
    }
    Ok(())
}

/// The lines with which each load begins: eight nodes start and come into one view, and a client of each joins the
/// group.
#[tactic(auto, unfolding(world_model::specs::Load::first_lines))]
pub fn first_lines(alloc: Global) -> Result<Lines, NoMemory>
    ensures { IfOk result (λ lines. lines ≡ first_lines) }
{
    let mut lines = List::new(alloc);
    push_starts(&mut lines, &EIGHT)?;
    push_ask(&mut lines, 1, all_nodes())?;
    lines.push(Line::Flow)?;
    push_comings(&mut lines, alloc, &EIGHT)?;
    Ok(lines)
}
