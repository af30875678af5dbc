//! What a program reads from and writes to.
ghost use Rattle.std.specs.Prelude.{◌≡◌, ◌<◌, ◌≤◌, ℕ, List, length};
ghost use Rattle.std.specs.declared.option.Option.{Option};
ghost use Rattle.hags_io.specs.Edges.{Rose, Takes, Puts};

/// What a source gave: so many bytes (at least one) at the front of the buffer, the end, or a fault.
#[derive(Clone, Copy, Debug, PartialEq, Eq)]
pub enum Taken {
    Bytes(usize),
    End,
    Failed,
}

/// What became of the bytes that a sink was handed: all went out; an unknown front of them did, since the
/// sink failed; or nothing, for want of memory.
#[derive(Clone, Copy, Debug, PartialEq, Eq)]
pub enum Put {
    Done,
    Failed,
    NoMemory,
}

/// Bytes that come in. `left` is what is still to come, where the source tells. `faults` counts the calls
/// that failed; it never falls, and stands still at its last value, 18,446,744,073,709,551,615.
pub trait Source {
    ghost left: { Self → Option (List ℕ) };

    ghost faults: { Self → ℕ };

    /// Takes the next bytes. The end comes only where nothing is left; a failed call takes nothing.
    fn take(&mut self, buf: &mut [u8]) -> Taken
        requires { 0 < length buf.old }
        ensures bytes { Takes (left self.old) (left self.new) result buf.new }
        ensures later { faults self.old ≤ faults self.new }
        ensures failed { result ≡ Taken.Failed → Rose (faults self.old) (faults self.new) };
}

/// Bytes that go out. `held` is what went out, where the sink tells. `faults` counts the calls that failed,
/// as that of a source.
pub trait Sink {
    ghost held: { Self → Option (List ℕ) };

    ghost faults: { Self → ℕ };

    /// Puts all of the bytes, or a front of it where the call fails.
    fn put(&mut self, bytes: &[u8]) -> Put
        ensures bytes { Puts (held self.old) (held self.new) result bytes.now }
        ensures later { faults self.old ≤ faults self.new }
        ensures failed { result ≡ Put.Failed → Rose (faults self.old) (faults self.new) };
}
