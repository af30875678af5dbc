//! The play of a script.
ghost use Rattle.std.specs.Prelude.{◌≡◌, ◌≤◌, ℕ, OnOk, IfOk, IsErrOf, Some, None, true, false};
ghost use Rattle.std.specs.Io.KnownBytes.{Appends};
ghost use Rattle.hags_io.specs.Edges.{GrowsByFront, Rose};
ghost use Rattle.world_model.specs.World.{world_new};
ghost use Rattle.world_model.specs.Play.{script_records};
ghost use Rattle.world_model.specs.Kept.{kept_past, kept_records};
ghost use Rattle.transcript.specs.Kinds.{kinds_text};
ghost use Rattle.net_script.specs.Safe.{ScriptIsSafe, KeptRunIsSafe, MayPlay};
ghost use Rattle.net_script.specs.Standing.{Stands};
ghost use Rattle.net_script.specs.Ends.{PlayedAs};

use crate::World;
use crate::lines::play_lines;
use crate::records::{write_records, write_rest};
use crate::stage::Stage;
use client_callbacks::{Made, ScriptClient};
use hags_io::Sink;
use load_script::Counts;
use node_state::Records;
use play_state::{Cuts, PlayFault};
use rsct_packet::List;
use std::alloc::Global;
use transcript::Kinds;
use world_model::Script;

/// Plays a script that has begun, and gives the world at its end.
fn play_begun<C: Made, K: Sink>(
    alloc: Global,
    script: &Script,
    kinds: Kinds,
    limit: u64,
    out: &mut K,
) -> Result<World<C>, PlayFault>
    ensures played { PlayedAs C.script C.script_of C.stands_for result kinds limit script.now
        (K.held out.old) (K.held out.new) }
    ensures later { K.faults out.old ≤ K.faults out.new }
    ensures fault { result ≡ Err PlayFault.WriteFault → Rose (K.faults out.old) (K.faults out.new) }
{
    let mut records: Records = List::new(alloc);
    let world = World::<C>::new(alloc, script.config, limit, &mut records)?;
    let mut text = Vec::new(alloc);
    write_records(&mut text, alloc, kinds, records.as_slice(), out)?;
    let mut stage = Stage {
        world,
        cuts: Cuts::new(alloc),
        counts: Counts::none(),
        text,
    };
    match play_lines(alloc, &mut stage, kinds, script.lines.as_slice(), out) {
        Ok(()) => {
            let Stage {
                world,
                cuts: _,
                counts: _,
                text,
            } = stage;
            write_rest(text.as_slice(), out)?;
            Ok(world)
        }
        Err(e) => Err(e),
    }
}

/// The world with which the run of a script without a `begin` line would begin.
fn play_nothing<C: Made>(alloc: Global, script: &Script, limit: u64) -> Result<World<C>, PlayFault>
    ensures world { IfOk result (λ w. Stands C.script C.script_of w (world_new script.now.config)) }
    ensures kept { (n : ℕ) → IsErrOf result (PlayFault.Kept n) → ⊥ }
    ensures fault { result ≡ Err PlayFault.WriteFault → ⊥ }
{
    let mut records: Records = List::new(alloc);
    match World::<C>::new(alloc, script.config, limit, &mut records) {
        Ok(world) => Ok(world),
        Err(_) => Err(PlayFault::NoMemory),
    }
}

/// Plays a script with clients of any kind that is made of votes words, and gives the world at its end.
///
/// With some answers of the clients, the run is that of the definitions: its records are written as `play` says of those
/// where each client votes just as its word says, and so is what is written where the packets pass the limit, and after
/// other faults. Where the lines of the script may happen the run is safe, whatever the clients answer: the whole one,
/// and up to the event whose packets pass the limit. Of a script without a `begin` line nothing is written, and the world
/// is that with which its run would begin.
///
/// Each client of the world at the end stands for what the run handed to it since its session began, in order, as the
/// records of the run tell it (`hands`). Where the lines of the script may happen, the state that comes
/// with the entry at place i of a group's list is the fold of the first i + 1 entries of that list, in every log that the
/// run hands out, also to clients that are gone later (`folds`).
pub fn play_as<C: Made, K: Sink>(
    alloc: Global,
    script: &Script,
    kinds: Kinds,
    limit: u64,
    out: &mut K,
) -> Result<World<C>, PlayFault>
    ensures played { script.now.begun ≡ true → PlayedAs C.script C.script_of C.stands_for result
        kinds limit script.now (K.held out.old) (K.held out.new) }
    ensures unbegun { script.now.begun ≡ false → (K.held out.new ≡ K.held out.old)
        × IfOk result (λ w. Stands C.script C.script_of w (world_new script.now.config)) }
    ensures not_kept { script.now.begun ≡ false → (n : ℕ) → IsErrOf result (PlayFault.Kept n) → ⊥ }
    ensures later { K.faults out.old ≤ K.faults out.new }
    ensures fault { result ≡ Err PlayFault.WriteFault → Rose (K.faults out.old) (K.faults out.new) }
{
    if script.begun {
        play_begun::<C, K>(alloc, script, kinds, limit, out)
    } else {
        play_nothing::<C>(alloc, script, limit)
    }
}

/// Plays a script: of the records of its run the lines of these kinds are written, in order; none without a `begin`
/// line.
///
/// The packets of the run may have as many bytes as `limit` says: `Kept` comes exactly where they pass it, with their
/// sum at that packet, and then the records before the event that sends it are written. `WriteFault` comes only where
/// the sink's count of faults rose. After it, and where memory runs out, a front of that text is written. It is written
/// in blocks of at least 65,536 bytes, and what is left at the end.
///
/// Where the lines of the script may happen, as those of each script that is read, the run that it played is safe: the
/// whole one, and up to the event whose packets pass the limit.
pub fn play<K: Sink>(
    alloc: Global,
    script: &Script,
    kinds: Kinds,
    limit: u64,
    out: &mut K,
) -> Result<(), PlayFault>
    ensures done { OnOk result ((kept_past limit script.now ≡ None)
        × Appends (K.held out.old) (K.held out.new)
        (kinds_text kinds (script_records script.now))) }
    ensures kept { (n : ℕ) → IsErrOf result (PlayFault.Kept n)
        → (kept_past limit script.now ≡ Some n) × Appends (K.held out.old) (K.held out.new)
        (kinds_text kinds (kept_records limit script.now)) }
    ensures front { GrowsByFront (K.held out.old) (K.held out.new)
        (kinds_text kinds (kept_records limit script.now)) }
    ensures safe { OnOk result (MayPlay script.now → ScriptIsSafe script.now) }
    ensures safe_front { MayPlay script.now → KeptRunIsSafe limit script.now }
    ensures later { K.faults out.old ≤ K.faults out.new }
    ensures fault { result ≡ Err PlayFault.WriteFault → Rose (K.faults out.old) (K.faults out.new) }
{
    if script.begun {
        match play_as::<ScriptClient, K>(alloc, script, kinds, limit, out) {
            Ok(_) => Ok(()),
            Err(e) => Err(e),
        }
    } else {
        Ok(())
    }
}
