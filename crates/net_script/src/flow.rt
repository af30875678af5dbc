//! Packets that flow.
ghost use Rattle.std.specs.Prelude.{◌≡◌, ◌≤◌, ◌∷◌, ◌&&◌, not, List, is_some, find};
ghost use Rattle.std.specs.List.{list_any};
ghost use Rattle.hags_io.specs.Edges.{Rose};
ghost use Rattle.world_model.specs.World.{Sent, node_at};
ghost use Rattle.world_model.specs.World as world;
ghost use Rattle.world_model.specs.Play.{is_cut_of, is_cut, flow_limit};
ghost use Rattle.world_laws.specs.world_answers.Plays.{AnsweredPlay, TakesPacket, PlaysFlow};
ghost use Rattle.world_packets.specs.Packets.{waits_as};
ghost use Rattle.net_script.specs.Standing.{is_me};
ghost use Rattle.net_script.specs.Stage.{At, LeadsTo};

use crate::plain_events::play_event;
use crate::stage::Stage;
use client_callbacks::Made;
use hags_io::Sink;
use play_state::PlayFault;
use std::alloc::Global;
use transcript::Kinds;
use world_model::Event;
use world_packets::Waiting;

/// How many packets one flow takes at most.
pub const FLOW_LIMIT: u32 = 100_000;

/// Is a packet given, since its receiver is up and not cut off from its sender?
fn is_given<C: Made>(stage: &Stage<C>, waiting: Waiting) -> bool
    ensures { result ≡ (is_some (find (is_me waiting.to) stage.now.world.nodes)
        && not (list_any (is_cut_of waiting.from waiting.to waiting.network) stage.now.cuts)) }
{
    stage.world.nodes.is_up(waiting.to)
        && !stage.cuts.has(waiting.from, waiting.to, waiting.network)
}

/// The packet that waits longest is given, or lost where its receiver is down or cut off from its sender.
fn pass<C: Made, K: Sink>(
    alloc: Global,
    stage: &mut Stage<C>,
    kinds: Kinds,
    waiting: Waiting,
    out: &mut K,
) -> Result<(), PlayFault>
    ensures outcome { (p : AnsweredPlay) → (v : world.World) → At C.script C.script_of stage.old p v
        → (y : Sent) → (ys : List Sent) → p.world.queue ≡ y ∷ ys → waits_as y ≡ waiting
        → LeadsTo C.script C.script_of C.stands_for result kinds (K.held out.old)
        (K.held out.new) stage.old stage.new p (TakesPacket C.script_of p y ys
        (is_some (node_at p.world y.packet.to)) (is_cut p.cuts y.packet)) v }
    ensures later { K.faults out.old ≤ K.faults out.new }
    ensures fault { result ≡ Err PlayFault.WriteFault → Rose (K.faults out.old) (K.faults out.new) }
{
    if is_given(stage, waiting) {
        play_event(
            alloc,
            stage,
            kinds,
            &Event::Deliver(waiting.from, waiting.to, waiting.number),
            out,
        )
    } else {
        stage.world.packets.skip_first();
        Ok(())
    }
}

/// The packet that waits longest is taken again and again, until none is left or so many were.
pub fn flow<C: Made, K: Sink>(
    alloc: Global,
    stage: &mut Stage<C>,
    kinds: Kinds,
    out: &mut K,
) -> Result<(), PlayFault>
    ensures outcome { (p : AnsweredPlay) → (v : world.World) → At C.script C.script_of stage.old p v
        → LeadsTo C.script C.script_of C.stands_for result kinds (K.held out.old)
        (K.held out.new) stage.old stage.new p (PlaysFlow C.script_of flow_limit p) v }
    ensures later { K.faults out.old ≤ K.faults out.new }
    ensures fault { result ≡ Err PlayFault.WriteFault → Rose (K.faults out.old) (K.faults out.new) }
{
    for _i in 0..FLOW_LIMIT {
        let Some(x) = stage.world.packets.first() else {
            return Ok(());
        };
        pass(alloc, stage, kinds, x, out)?;
    }
    Ok(())
}
