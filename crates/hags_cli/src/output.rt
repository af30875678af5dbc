//! Where an outside writes, as a sink.
ghost use Rattle.std.specs.Prelude.{◌-◌, ◌^◌, min};

use hags_io::{Outside, Put, Sink};

/// An outside as a sink, for what only writes. What it tells is what the outside tells of its writes.
#[derive(Drop)]
pub struct Output<O> {
    pub outside: O,
}

impl<O: Outside> Sink for Output<O> {
    ghost held = { λ s. (O.told s.outside).held };

    ghost faults = { λ s. min (O.told s.outside).write_faults (2 ^ 64 - 1) };

    #[tactic(auto, using(crate::proofs::OutputLaws::puts, crate::proofs::OutputLaws::later, crate::proofs::OutputLaws::rose))]
    fn put(&mut self, bytes: &[u8]) -> Put {
        self.outside.write(bytes)
    }
}
