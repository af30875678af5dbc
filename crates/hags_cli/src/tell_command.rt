//! What `--help` and `--version` write.
ghost use Rattle.hags_cli.specs.Tasks.{TellEnds};

use crate::ending::Ending;
use hags_io::{Put, Sink};
use link_use::Stop;

/// Writes a text.
pub fn tell<K: Sink>(text: &[u8], out: &mut K) -> Result<(), Ending>
    ensures { TellEnds result text.now (K.faults out.old) (K.faults out.new)
        (K.held out.old) (K.held out.new) }
{
    match out.put(text) {
        Put::Done => Ok(()),
        Put::Failed => Err(Ending::Stop(Stop::WriteFault)),
        Put::NoMemory => Err(Ending::Stop(Stop::NoMemory)),
    }
}
