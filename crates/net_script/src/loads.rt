//! The play of a load.
ghost use Rattle.std.specs.Prelude.{◌≡◌, ◌≤◌, ◌<◌, ℕ, OnOk, IfOk, IsErrOf, Some, None, []};
ghost use Rattle.std.specs.Io.KnownBytes.{Appends, Keeps};
ghost use Rattle.hags_io.specs.Edges.{GrowsByFront, Rose};
ghost use Rattle.world_model.specs.World as world;
ghost use Rattle.world_model.specs.Play.{script_records};
ghost use Rattle.world_model.specs.Kept.{kept_past};
ghost use Rattle.world_model.specs.Load.{first_lines, load_lines, load_text};
ghost use Rattle.world_laws.specs.world_answers.Plays.{AnsweredPlay, PlaysLines};
ghost use Rattle.load_script.specs.Counting.{no_counts, counted};
ghost use Rattle.load_script.specs.Script.{load_script};
ghost use Rattle.load_script.specs.Steps.{step_lines};
ghost use Rattle.net_script.specs.Safe.{ScriptIsSafe, KeptRunIsSafe};
ghost use Rattle.net_script.specs.Stage.{At, LeadsTo};

use crate::World;
use crate::lines::play_lines;
use crate::records::put_all;
use crate::stage::Stage;
use client_callbacks::{Made, ScriptClient};
use hags_io::Sink;
use load_script::{Counts, first_lines, load_settings, next_seed, step_lines, summary};
use node_state::Records;
use play_state::{Cuts, PlayFault};
use rsct_packet::List;
use std::alloc::Global;
use transcript::Kinds;

/// The lines with which each load begins are played.
fn play_beginning<C: Made, K: Sink>(
    alloc: Global,
    stage: &mut Stage<C>,
    kinds: Kinds,
    out: &mut K,
) -> Result<(), PlayFault>
    ensures outcome { (p : AnsweredPlay) → (v : world.World) → At C.script C.script_of stage.old p v
        → LeadsTo C.script C.script_of C.stands_for result kinds (K.held out.old)
        (K.held out.new) stage.old stage.new p (PlaysLines C.script_of p first_lines) v }
    ensures later { K.faults out.old ≤ K.faults out.new }
    ensures fault { result ≡ Err PlayFault.WriteFault → Rose (K.faults out.old) (K.faults out.new) }
{
    let lines = first_lines(alloc)?;
    play_lines(alloc, stage, kinds, lines.as_slice(), out)
}

/// The lines of step `number`, whose number of the sequence is `seed`, are played.
fn play_step<C: Made, K: Sink>(
    alloc: Global,
    stage: &mut Stage<C>,
    kinds: Kinds,
    number: u32,
    seed: u64,
    out: &mut K,
) -> Result<(), PlayFault>
    ensures outcome { (p : AnsweredPlay) → (v : world.World) → At C.script C.script_of stage.old p v
        → LeadsTo C.script C.script_of C.stands_for result kinds (K.held out.old)
        (K.held out.new) stage.old stage.new p
        (PlaysLines C.script_of p (step_lines number seed)) v }
    ensures later { K.faults out.old ≤ K.faults out.new }
    ensures fault { result ≡ Err PlayFault.WriteFault → Rose (K.faults out.old) (K.faults out.new) }
{
    let lines = step_lines(alloc, number, seed)?;
    play_lines(alloc, stage, kinds, lines.as_slice(), out)
}

/// The lines of a load of so many steps are played, those of each step as they are generated.
fn play_steps<C: Made, K: Sink>(
    alloc: Global,
    stage: &mut Stage<C>,
    kinds: Kinds,
    steps: u32,
    out: &mut K,
) -> Result<(), PlayFault>
    ensures outcome { (p : AnsweredPlay) → (v : world.World) → At C.script C.script_of stage.old p v
        → LeadsTo C.script C.script_of C.stands_for result kinds (K.held out.old)
        (K.held out.new) stage.old stage.new p (PlaysLines C.script_of p (load_lines steps)) v }
    ensures later { K.faults out.old ≤ K.faults out.new }
    ensures fault { result ≡ Err PlayFault.WriteFault → Rose (K.faults out.old) (K.faults out.new) }
{
    play_beginning(alloc, stage, kinds, out)?;
    let mut seed = u64::from(steps);
    for done in 0..steps {
        seed = next_seed(seed);
        play_step(alloc, stage, kinds, done + 1, seed, out)?;
    }
    Ok(())
}

/// A load of so many steps is played, and its records are counted. Nothing is written.
fn play_load<K: Sink>(
    alloc: Global,
    steps: u32,
    limit: u64,
    out: &mut K,
) -> Result<Counts, PlayFault>
    ensures done { IfOk result (λ counts. (kept_past limit (load_script steps) ≡ None)
        × (counts ≡ counted no_counts (script_records (load_script steps)))) }
    ensures kept { (n : ℕ) → IsErrOf result (PlayFault.Kept n)
        → kept_past limit (load_script steps) ≡ Some n }
    ensures still { Appends (K.held out.old) (K.held out.new) [] }
    ensures later { K.faults out.old ≤ K.faults out.new }
    ensures fault { result ≡ Err PlayFault.WriteFault → Rose (K.faults out.old) (K.faults out.new) }
{
    // In mode asked no node has started yet: these stay empty.
    let mut records: Records = List::new(alloc);
    let world = World::<ScriptClient>::new(alloc, load_settings(), limit, &mut records)?;
    let mut stage = Stage {
        world,
        cuts: Cuts::new(alloc),
        counts: Counts::none(),
        text: Vec::new(alloc),
    };
    match play_steps(alloc, &mut stage, Kinds::none(), steps, out) {
        Ok(()) => Ok(stage.counts),
        Err(e) => Err(e),
    }
}

/// Plays the script that a load of `steps` steps generates, line by line as it generates it, and then writes the summary
/// of its run: how many records there are of views that nodes entered, of entries that they put and that clients heard,
/// and of refusals that clients were told. Memory is taken by what the world keeps, not by lines or records.
///
/// The packets of the run may have as many bytes as `limit` says: `Kept` comes exactly where they pass it, with their
/// sum at that packet, and then nothing is written. `WriteFault` comes only where the sink's count of faults rose. After
/// it, and where memory runs out, a front of the summary is written.
///
/// The run is safe: the whole one, and up to the event whose packets pass the limit.
#[tactic(auto, using(crate::proofs::LoadLaws::summary_is, crate::proofs::LoadLaws::kept_still, crate::proofs::LoadLaws::written_then, crate::proofs::LoadLaws::front_then, crate::proofs::LoadLaws::no_front))]
pub fn load<K: Sink>(alloc: Global, steps: u32, limit: u64, out: &mut K) -> Result<(), PlayFault>
    ensures done { OnOk result ((kept_past limit (load_script steps) ≡ None)
        × Appends (K.held out.old) (K.held out.new) (load_text steps)) }
    ensures kept { (n : ℕ) → IsErrOf result (PlayFault.Kept n)
        → (kept_past limit (load_script steps) ≡ Some n) × Keeps (K.held out.old) (K.held out.new) }
    ensures front { GrowsByFront (K.held out.old) (K.held out.new) (load_text steps) }
    ensures safe { OnOk result (ScriptIsSafe (load_script steps)) }
    ensures safe_front { KeptRunIsSafe limit (load_script steps) }
    ensures later { K.faults out.old ≤ K.faults out.new }
    ensures fault { result ≡ Err PlayFault.WriteFault → Rose (K.faults out.old) (K.faults out.new) }
{
    let counts = play_load(alloc, steps, limit, out)?;
    let text = summary(alloc, steps, counts)?;
    put_all(text.as_slice(), out)?;
    Ok(())
}
