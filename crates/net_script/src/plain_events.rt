//! A plain event of a play.
ghost use Rattle.std.specs.Prelude.{◌≡◌, ◌≤◌};
ghost use Rattle.hags_io.specs.Edges.{Rose};
ghost use Rattle.net_script.specs.Writing.{EndsBy};
ghost use Rattle.world_model.specs.World as world;
ghost use Rattle.world_laws.specs.world_answers.Plays.{AnsweredPlay, PlaysEvent};
ghost use Rattle.net_script.specs.Stage.{At, LeadsTo};

use crate::records::{write_records, write_rest};
use crate::stage::Stage;
use client_callbacks::Made;
use hags_io::Sink;
use node_state::Records;
use play_state::{PlayFault, WorldFault};
use rsct_packet::List;
use std::alloc::Global;
use transcript::Kinds;
use world_model::Event;

/// An event does not happen: the text of what was recorded before it is written, and then the play ends.
#[tactic(auto, using(crate::proofs::TextLaws::ends_by_world, crate::proofs::TextLaws::ends_by_put))]
fn end_by<K: Sink>(fault: WorldFault, text: &[u8], out: &mut K) -> PlayFault
    ensures ends { EndsBy result fault (K.held out.old) (K.held out.new) text.now }
    ensures later { K.faults out.old ≤ K.faults out.new }
    ensures fault { result ≡ PlayFault.WriteFault → Rose (K.faults out.old) (K.faults out.new) }
{
    match write_rest(text, out) {
        Ok(()) => PlayFault::from(fault),
        Err(e) => PlayFault::from(e),
    }
}

/// A plain event happens, and what it records is counted, and written with the next block.
pub fn play_event<C: Made, K: Sink>(
    alloc: Global,
    stage: &mut Stage<C>,
    kinds: Kinds,
    event: &Event,
    out: &mut K,
) -> Result<(), PlayFault>
    ensures outcome { (p : AnsweredPlay) → (v : world.World) → At C.script C.script_of stage.old p v
        → LeadsTo C.script C.script_of C.stands_for result kinds (K.held out.old)
        (K.held out.new) stage.old stage.new p (PlaysEvent C.script_of p event.now) v }
    ensures later { K.faults out.old ≤ K.faults out.new }
    ensures fault { result ≡ Err PlayFault.WriteFault → Rose (K.faults out.old) (K.faults out.new) }
{
    let mut records: Records = List::new(alloc);
    match stage.world.event(alloc, event, &mut records) {
        Ok(()) => {
            stage.counts.count(records.as_slice())?;
            write_records(&mut stage.text, alloc, kinds, records.as_slice(), out)?;
            Ok(())
        }
        Err(fault) => Err(end_by(fault, stage.text.as_slice(), out)),
    }
}
