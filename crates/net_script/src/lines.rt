//! The lines of a script.
ghost use Rattle.std.specs.Prelude.{◌≡◌, ◌≤◌};
ghost use Rattle.hags_io.specs.Edges.{Rose};
ghost use Rattle.world_model.specs.World as world;
ghost use Rattle.world_laws.specs.world_answers.Plays.{AnsweredPlay, PlaysLine, PlaysLines};
ghost use Rattle.net_script.specs.Stage.{At, LeadsTo};

use crate::flow::flow;
use crate::plain_events::play_event;
use crate::rounds::run;
use crate::stage::Stage;
use client_callbacks::Made;
use hags_io::Sink;
use play_state::PlayFault;
use std::alloc::Global;
use transcript::Kinds;
use world_model::Line;

/// A line is played.
fn play_line<C: Made, K: Sink>(
    alloc: Global,
    stage: &mut Stage<C>,
    kinds: Kinds,
    line: &Line,
    out: &mut K,
) -> Result<(), PlayFault>
    ensures outcome { (p : AnsweredPlay) → (v : world.World) → At C.script C.script_of stage.old p v
        → LeadsTo C.script C.script_of C.stands_for result kinds (K.held out.old)
        (K.held out.new) stage.old stage.new p (PlaysLine C.script_of p line.now) v }
    ensures later { K.faults out.old ≤ K.faults out.new }
    ensures fault { result ≡ Err PlayFault.WriteFault → Rose (K.faults out.old) (K.faults out.new) }
{
    match line {
        Line::Plain(e) => play_event(alloc, stage, kinds, e, out),
        Line::Drop(a, b) => {
            stage.world.packets.lose(alloc, *a, *b)?;
            Ok(())
        }
        Line::Flow => flow(alloc, stage, kinds, out),
        Line::Run(count) => run(alloc, stage, kinds, *count, out),
        Line::Cut(a, b, network) => {
            stage.cuts.cut(*a, *b, *network)?;
            Ok(())
        }
        Line::Heal(a, b, network) => {
            stage.cuts.heal(*a, *b, *network);
            Ok(())
        }
    }
}

/// Lines are played, in this order.
pub fn play_lines<C: Made, K: Sink>(
    alloc: Global,
    stage: &mut Stage<C>,
    kinds: Kinds,
    lines: &[Line],
    out: &mut K,
) -> Result<(), PlayFault>
    ensures outcome { (p : AnsweredPlay) → (v : world.World) → At C.script C.script_of stage.old p v
        → LeadsTo C.script C.script_of C.stands_for result kinds (K.held out.old)
        (K.held out.new) stage.old stage.new p (PlaysLines C.script_of p lines.now) v }
    ensures later { K.faults out.old ≤ K.faults out.new }
    ensures fault { result ≡ Err PlayFault.WriteFault → Rose (K.faults out.old) (K.faults out.new) }
{
    for line in lines {
        play_line(alloc, stage, kinds, line, out)?;
    }
    Ok(())
}
