//! A source and a sink in memory, which fail exactly at the calls that a list names.
ghost use Rattle.std.specs.Prelude.{◌≡◌, ◌<◌, ◌≤◌, ◌+◌, ◌↔◌, ◌++◌, ◌∷◌, [], length, IsTrue, Some, min, take, drop};
ghost use Rattle.std.specs.List.{list_any};
ghost use Rattle.hags_io.specs.Edges.{Rose, Takes, Puts};
ghost use Rattle.hags_io.specs.Memory.{names_call, is_named};

use crate::source::{Put, Sink, Source, Taken};
use std::alloc::Global;
use std::marker::Model;

/// Does the list name this call?
pub(crate) fn is_listed(fail: &[u32], call: u64) -> bool
    ensures { result ≡ is_named fail.now call }
{
    fail.iter().any(|x| u64::from(*x) == call)
}

/// Copies as much as fits, and says how much.
#[tactic(auto, using(std::proofs::lemmas::Grind::common_steps, crate::proofs::ByteLaws::take_at_seam, crate::proofs::ByteLaws::nothing_left))]
fn fill(buf: &mut [u8], bytes: &[u8]) -> usize
    requires { 0 < length buf.old }
    ensures count { result ≡ min (length bytes.now) (length buf.old) }
    ensures front { take result buf.new ++ drop result bytes.now ≡ bytes.now }
    ensures none { result ≡ 0 → bytes.now ≡ [] }
{
    let n = bytes.len().min(buf.len());
    buf[..n].copy_from_slice(&bytes[..n]);
    n
}

/// A source that gives the bytes it was made of. `fail` names by number, from 1, the calls that fail; a call
/// past number 4,294,967,295 does not.
#[derive(Drop)]
pub struct MemSource {
    bytes: Vec<u8>,
    at: usize,
    fail: Vec<u32>,
    calls: u64,
    faults: u64,
}

impl Model for MemSource {
    ghost use Rattle.std.specs.Prelude.{◌≤◌, length, drop};
    ghost use Rattle.hags_io.specs.Memory.{SourceView};

    ghost Value = { SourceView };

    ghost view = { λ s. record { left = drop s.at s.bytes.items; fail = s.fail.items; calls = s.calls; faults = s.faults } };

    ghost invariant = { λ s. s.at ≤ length s.bytes.items };
}

impl MemSource {
    pub fn new(bytes: Vec<u8>, fail: Vec<u32>) -> MemSource
        ensures left { result.left ≡ bytes.items }
        ensures fail { result.fail ≡ fail.items }
        ensures fresh { (result.calls ≡ 0) × (result.faults ≡ 0) }
    {
        MemSource {
            bytes,
            at: 0,
            fail,
            calls: 0,
            faults: 0,
        }
    }
}

impl Source for MemSource {
    ghost use Rattle.std.specs.Prelude.{Some};

    ghost left = { λ s. Some s.left };

    ghost faults = { λ s. s.faults };

    #[tactic(auto, using(std::proofs::lemmas::Grind::common_steps, crate::proofs::ByteLaws::drop_add))]
    fn take(&mut self, buf: &mut [u8]) -> Taken
        requires { 0 < length buf.old }
        ensures bytes { Takes (Some self.old.left) (Some self.new.left) result buf.new }
        ensures later { self.old.faults ≤ self.new.faults }
        ensures failed { result ≡ Taken.Failed → Rose self.old.faults self.new.faults }
        ensures exact { (result ≡ Taken.Failed) ↔ IsTrue (names_call self.old.fail self.old.calls) }
    {
        self.calls = self.calls.saturating_add(1);
        if is_listed(self.fail.as_slice(), self.calls) {
            self.faults = self.faults.saturating_add(1);
            return Taken::Failed;
        }
        let rest = &self.bytes.as_slice()[self.at..];
        let n = fill(buf, rest);
        if n == 0 {
            return Taken::End;
        }
        self.at += n;
        Taken::Bytes(n)
    }
}

/// A sink that holds what it was handed. `fail` names the calls that fail, as for a source; a call that fails
/// takes nothing.
#[derive(Drop)]
pub struct MemSink {
    bytes: Vec<u8>,
    fail: Vec<u32>,
    calls: u64,
    faults: u64,
}

impl Model for MemSink {
    ghost use Rattle.hags_io.specs.Memory.{SinkView};

    ghost Value = { SinkView };

    ghost view = { λ s. record { held = s.bytes.items; fail = s.fail.items; calls = s.calls; faults = s.faults } };
}

impl MemSink {
    pub fn new(alloc: Global, fail: Vec<u32>) -> MemSink
        ensures held { result.held ≡ [] }
        ensures fail { result.fail ≡ fail.items }
        ensures fresh { (result.calls ≡ 0) × (result.faults ≡ 0) }
    {
        MemSink {
            bytes: Vec::new(alloc),
            fail,
            calls: 0,
            faults: 0,
        }
    }

    /// All that it was handed.
    pub fn held(&self) -> &[u8]
        ensures { result.now ≡ self.now.held }
    {
        self.bytes.as_slice()
    }
}

impl Sink for MemSink {
    ghost use Rattle.std.specs.Prelude.{Some};

    ghost held = { λ s. Some s.held };

    ghost faults = { λ s. s.faults };

    #[tactic(auto, using(crate::proofs::ByteLaws::none_grew))]
    fn put(&mut self, bytes: &[u8]) -> Put
        ensures bytes { Puts (Some self.old.held) (Some self.new.held) result bytes.now }
        ensures later { self.old.faults ≤ self.new.faults }
        ensures failed { result ≡ Put.Failed → Rose self.old.faults self.new.faults }
        ensures exact { (result ≡ Put.Failed) ↔ IsTrue (names_call self.old.fail self.old.calls) }
        ensures none { result ≡ Put.Failed → self.new.held ≡ self.old.held }
    {
        self.calls = self.calls.saturating_add(1);
        if is_listed(self.fail.as_slice(), self.calls) {
            self.faults = self.faults.saturating_add(1);
            return Put::Failed;
        }
        match self.bytes.extend_from_slice(bytes) {
            Ok(()) => Put::Done,
            Err(_) => Put::NoMemory,
        }
    }
}
