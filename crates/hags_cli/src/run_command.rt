//! The command `run`.
ghost use Rattle.std.specs.Prelude.{◌≡◌};
ghost use Rattle.hags_io.specs.Edges.{Rose};
ghost use Rattle.transcript.specs.Kinds.{kinds_text};
ghost use Rattle.hags_cli.specs.Run.{RunEnds};

use crate::ending::Ending;
use crate::input::read_input;
use hags_io::{Sink, Source};
use net_script::play;
use script_reader::read_script;
use std::alloc::Global;
use transcript::Kinds;

/// How many bytes the packets of one run may have, and those of one load.
pub const MOST_KEPT: u64 = 536_870_912;

/// Reads a script to its end, plays it, and writes its records of these kinds, in blocks.
#[tactic(auto, using(crate::proofs::RunLaws::input_ends, crate::proofs::RunLaws::script_ends))]
pub fn run<S: Source, K: Sink>(
    alloc: Global,
    kinds: Kinds,
    input: &mut S,
    out: &mut K,
) -> Result<(), Ending>
    ensures { RunEnds result (kinds_text kinds) (S.left input.old) (S.left input.new)
        (Rose (S.faults input.old) (S.faults input.new))
        (Rose (K.faults out.old) (K.faults out.new)) (out.new ≡ out.old) (K.held out.old)
        (K.held out.new) }
{
    let front = read_input(alloc, input)?;
    let script = read_script(alloc, front.as_slice())?;
    play(alloc, &script, kinds, MOST_KEPT, out)?;
    Ok(())
}
