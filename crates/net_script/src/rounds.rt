//! Rounds: every node ticks, and then all flows.
ghost use Rattle.std.specs.Prelude.{◌≡◌, ◌≤◌};
ghost use Rattle.hags_io.specs.Edges.{Rose};
ghost use Rattle.world_model.specs.World as world;
ghost use Rattle.world_laws.specs.world_answers.Plays.{AnsweredPlay, PlaysEach, PlaysTick, PlaysTicks, PlaysRounds};
ghost use Rattle.net_script.specs.Stage.{At, LeadsTo};

use crate::flow::flow;
use crate::plain_events::play_event;
use crate::stage::Stage;
use client_callbacks::Made;
use hags_io::Sink;
use play_state::PlayFault;
use std::alloc::Global;
use transcript::Kinds;
use world_model::Event;

/// These nodes tick, in this order.
fn tick_each<C: Made, K: Sink>(
    alloc: Global,
    stage: &mut Stage<C>,
    kinds: Kinds,
    nodes: &[u8],
    out: &mut K,
) -> Result<(), PlayFault>
    ensures outcome { (p : AnsweredPlay) → (v : world.World) → At C.script C.script_of stage.old p v
        → LeadsTo C.script C.script_of C.stands_for result kinds (K.held out.old)
        (K.held out.new) stage.old stage.new p (PlaysEach (PlaysTick C.script_of) p nodes.now) v }
    ensures later { K.faults out.old ≤ K.faults out.new }
    ensures fault { result ≡ Err PlayFault.WriteFault → Rose (K.faults out.old) (K.faults out.new) }
{
    for n in nodes {
        play_event(alloc, stage, kinds, &Event::Tick(*n), out)?;
    }
    Ok(())
}

/// Each node that is up ticks, ascending.
fn tick_all<C: Made, K: Sink>(
    alloc: Global,
    stage: &mut Stage<C>,
    kinds: Kinds,
    out: &mut K,
) -> Result<(), PlayFault>
    ensures outcome { (p : AnsweredPlay) → (v : world.World) → At C.script C.script_of stage.old p v
        → LeadsTo C.script C.script_of C.stands_for result kinds (K.held out.old)
        (K.held out.new) stage.old stage.new p (PlaysTicks C.script_of p) v }
    ensures later { K.faults out.old ≤ K.faults out.new }
    ensures fault { result ≡ Err PlayFault.WriteFault → Rose (K.faults out.old) (K.faults out.new) }
{
    let ns = stage.world.nodes.numbers(alloc)?;
    tick_each(alloc, stage, kinds, ns.as_slice(), out)
}

/// So many rounds.
pub fn run<C: Made, K: Sink>(
    alloc: Global,
    stage: &mut Stage<C>,
    kinds: Kinds,
    count: u16,
    out: &mut K,
) -> Result<(), PlayFault>
    ensures outcome { (p : AnsweredPlay) → (v : world.World) → At C.script C.script_of stage.old p v
        → LeadsTo C.script C.script_of C.stands_for result kinds (K.held out.old)
        (K.held out.new) stage.old stage.new p (PlaysRounds C.script_of count p) v }
    ensures later { K.faults out.old ≤ K.faults out.new }
    ensures fault { result ≡ Err PlayFault.WriteFault → Rose (K.faults out.old) (K.faults out.new) }
{
    for _i in 0..count {
        tick_all(alloc, stage, kinds, out)?;
        flow(alloc, stage, kinds, out)?;
    }
    Ok(())
}
