//! The command `load`.
ghost use Rattle.hags_cli.specs.Tasks.{LoadEnds};

use crate::ending::Ending;
use crate::run_command::MOST_KEPT;
use hags_io::Sink;
use net_script::load;
use std::alloc::Global;

/// Plays a generated script of so many steps, and writes the summary of its run.
#[tactic(auto, using(crate::proofs::LoadLaws::load_done))]
pub fn load_steps<K: Sink>(alloc: Global, steps: u32, out: &mut K) -> Result<(), Ending>
    ensures { LoadEnds result steps (K.faults out.old) (K.faults out.new)
        (K.held out.old) (K.held out.new) }
{
    load(alloc, steps, MOST_KEPT, out)?;
    Ok(())
}
