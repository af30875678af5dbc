//! A source over any reader, and a sink over any writer.
ghost use Rattle.std.specs.Prelude.{◌≡◌, ◌<◌, ◌≤◌, ◌+◌, ◌-◌, ◌^◌, min, length};

use crate::source::{Put, Sink, Source, Taken};
use std::io::{Read, Write};

/// A source over a reader, as standard input. Each read that fails counts as a fault, an interrupted one too.
/// What it tells is what the reader tells: nothing, at a reader of the system.
#[derive(Drop)]
pub struct StdSource<R> {
    inner: R,
    faults: u64,
}

impl<R> StdSource<R> {
    pub fn new(inner: R) -> StdSource<R> {
        StdSource { inner, faults: 0 }
    }
}

impl<R: Read> Source for StdSource<R> {
    ghost left = { λ s. R.remaining s.inner };

    ghost faults = { λ s. s.faults };

    #[tactic(auto, using(crate::proofs::ByteLaws::end_before))]
    fn take(&mut self, buf: &mut [u8]) -> Taken {
        match self.inner.read(buf) {
            Ok(0) => Taken::End,
            Ok(n) => Taken::Bytes(n),
            Err(_) => {
                self.faults = self.faults.saturating_add(1);
                Taken::Failed
            }
        }
    }
}

/// A sink over a writer, as standard output. A write that fails, or that takes nothing of what is left, counts
/// as a fault.
#[derive(Drop)]
pub struct StdSink<W> {
    inner: W,
    faults: u64,
}

impl<W> StdSink<W> {
    pub fn new(inner: W) -> StdSink<W> {
        StdSink { inner, faults: 0 }
    }
}

impl<W> StdSink<W> {
    fn failed(&mut self) -> Put
        ensures put { result ≡ Put.Failed }
        ensures inner { self.new.inner ≡ self.old.inner }
        ensures rose { self.new.faults ≡ min (self.old.faults + 1) (2 ^ 64 - 1) }
    {
        self.faults = self.faults.saturating_add(1);
        Put::Failed
    }
}

impl<W: Write> Sink for StdSink<W> {
    ghost held = { λ s. W.contents s.inner };

    ghost faults = { λ s. s.faults };

    #[tactic(auto, using(crate::proofs::ByteLaws::sent_on, crate::proofs::ByteLaws::all_sent, crate::proofs::ByteLaws::stopped, crate::proofs::ByteLaws::broken))]
    fn put(&mut self, bytes: &[u8]) -> Put {
        let mut done = 0;
        while done < bytes.len() {
            match self.inner.write(&bytes[done..]) {
                Ok(n) if n > 0 => done += n,
                Ok(_) => return self.failed(),
                Err(_) => return self.failed(),
            }
        }
        Put::Done
    }
}
