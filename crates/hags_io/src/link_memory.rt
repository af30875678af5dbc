//! A link and a clock in memory, which tell.
ghost use Rattle.std.specs.Prelude.{◌≡◌, ◌≤◌, ◌<◌, ◌+◌, ◌-◌, ◌^◌, ◌++◌, ◌∷◌, ◌↔◌, [], ℕ, Bool, None, Some, false, not, length, take, map, min, IsTrue, replicate};
ghost use Rattle.std.specs.List.{list_any};
ghost use Rattle.hags_io.specs.Edges.{Rose};
ghost use Rattle.hags_io.specs.Links.{Same, Tells, Receives, Sends, Grows, Counts, was_opened};
ghost use Rattle.hags_io.specs.Places.{no_places, with_place};
ghost use Rattle.hags_io.specs.LinkMemory.{AreWithin, Ascend, ReceivesFrom, SendsTo, open_fails, opened_at, placed, clock_after, last_given, told_moments};

use crate::link::{Clock, Got, Link, LinkCall, Places};
use crate::memory::is_listed;
use crate::source::Put;
use rsct_packet::List;
use std::alloc::Global;
use std::collections::VecDeque;
use std::marker::Model;

/// Which calls of a link fail, by number, from 1: a call past number 4,294,967,295 does not.
#[derive(Drop)]
pub struct LinkFails {
    pub opens: Vec<u32>,
    pub recvs: Vec<u32>,
    pub sends: Vec<u32>,
}

/// A link that gives what it was made of, in order, and keeps what it was handed.
#[derive(Drop)]
pub struct MemLink {
    alloc: Global,
    inbox: VecDeque<(u8, Vec<u8>)>,
    fails: LinkFails,
    opens: u64,
    recvs: u64,
    sends: u64,
    calls: List<LinkCall>,
    places: Places,
    opened: Option<(u16, bool)>,
    faults: u64,
}

impl Model for MemLink {
    ghost use Rattle.std.specs.Prelude.{map};
    ghost use Rattle.hags_io.specs.LinkMemory.{LinkView, AreWithin};

    ghost Value = { LinkView };

    ghost view = { λ l. record { inbox = map (λ x. (x.0, x.1.items)) l.inbox.items; fail_opens = l.fails.opens.items; fail_recvs = l.fails.recvs.items; fail_sends = l.fails.sends.items; opens = l.opens; recvs = l.recvs; sends = l.sends; calls = l.calls; places = l.places; opened = l.opened; faults = l.faults } };

    ghost invariant = { λ l. AreWithin (map (λ x. (x.0, x.1.items)) l.inbox.items) };
}

/// Copies a datagram to the front of a buffer.
fn fill(buf: &mut [u8], bytes: &[u8])
    requires { length bytes.now ≤ length buf.old }
    ensures front { take (length bytes.now) buf.new ≡ bytes.now }
    ensures len { length buf.new ≡ length buf.old }
{
    buf[..bytes.len()].copy_from_slice(bytes);
}

impl MemLink {
    /// A link whose inbox this is: each datagram with the network on which it comes, and of at most 65,535 bytes.
    pub fn new(alloc: Global, inbox: VecDeque<(u8, Vec<u8>)>, fail: LinkFails) -> MemLink
        requires { AreWithin (map (λ x. (x.0, x.1.items)) inbox.items) }
        ensures inbox { result.inbox ≡ map (λ x. (x.0, x.1.items)) inbox.items }
        ensures fail_opens { result.fail_opens ≡ fail.opens.items }
        ensures fail_recvs { result.fail_recvs ≡ fail.recvs.items }
        ensures fail_sends { result.fail_sends ≡ fail.sends.items }
        ensures uncalled { (result.opens ≡ 0) × (result.recvs ≡ 0) × (result.sends ≡ 0) }
        ensures untold { (result.calls ≡ []) × (result.places ≡ no_places)
            × (result.opened ≡ None) }
        ensures faults { result.faults ≡ 0 }
    {
        MemLink {
            alloc,
            inbox,
            fails: fail,
            opens: 0,
            recvs: 0,
            sends: 0,
            calls: List::new(alloc),
            places: Places::none(),
            opened: None,
            faults: 0,
        }
    }

    /// All receives and sends, in their order.
    pub fn calls(&self) -> &[LinkCall]
        ensures { result.now ≡ self.now.calls }
    {
        self.calls.as_slice()
    }

    /// The places that it was told.
    pub fn places(&self) -> &Places
        ensures { result.now ≡ self.now.places }
    {
        &self.places
    }

    /// The port of the last `open`, and its answer.
    pub fn opened(&self) -> Option<(u16, bool)>
        ensures { result ≡ self.now.opened }
    {
        self.opened
    }
}

impl Link for MemLink {
    ghost use Rattle.std.specs.Prelude.{Some};

    ghost calls = { λ l. Some l.calls };

    ghost places = { λ l. Some l.places };

    ghost opened = { λ l. Some l.opened };

    ghost faults = { λ l. l.faults };

    fn open(&mut self, port: u16) -> bool
        ensures opened { Tells (Some self.old.opened) (Some self.new.opened)
            (was_opened port result) }
        ensures calls { Same (Some self.old.calls) (Some self.new.calls) }
        ensures places { Same (Some self.old.places) (Some self.new.places) }
        ensures later { self.old.faults ≤ self.new.faults }
        ensures failed { result ≡ false → Rose self.old.faults self.new.faults }
        ensures exact { result ≡ not (open_fails self.old) }
        ensures after { self.new ≡ opened_at port self.old }
    {
        self.opens = self.opens.saturating_add(1);
        let done = !is_listed(self.fails.opens.as_slice(), self.opens);
        if !done {
            self.faults = self.faults.saturating_add(1);
        }
        self.opened = Some((port, done));
        done
    }

    fn place(&mut self, node: u8, network: u8, address: u32, port: u16)
        requires node { (1 ≤ node) × (node ≤ 32) }
        requires network { (1 ≤ network) × (network ≤ 4) }
        ensures places { Tells (Some self.old.places) (Some self.new.places)
            (with_place node network address port) }
        ensures calls { Same (Some self.old.calls) (Some self.new.calls) }
        ensures opened { Same (Some self.old.opened) (Some self.new.opened) }
        ensures later { self.new.faults ≡ self.old.faults }
        ensures after { self.new ≡ placed node network address port self.old }
    {
        self.places.set(node, network, address, port);
    }

    fn recv(&mut self, buf: &mut [u8]) -> Got
        requires { 65536 ≤ length buf.old }
        ensures told { Receives (Some self.old.calls) (Some self.new.calls) result buf.new }
        ensures places { Same (Some self.old.places) (Some self.new.places) }
        ensures opened { Same (Some self.old.opened) (Some self.new.opened) }
        ensures later { self.old.faults ≤ self.new.faults }
        ensures failed { result ≡ Got.Failed → Rose self.old.faults self.new.faults }
        ensures exact { ReceivesFrom self.old self.new result buf.new }
    {
        self.recvs = self.recvs.saturating_add(1);
        if is_listed(self.fails.recvs.as_slice(), self.recvs) {
            if self.calls.push(LinkCall::Failed).is_err() {
                return Got::NoMemory;
            }
            self.faults = self.faults.saturating_add(1);
            return Got::Failed;
        }
        let Some((network, bytes)) = self.inbox.front() else {
            if self.calls.push(LinkCall::Quiet).is_err() {
                return Got::NoMemory;
            }
            return Got::Quiet;
        };
        let (network, len) = (*network, bytes.len());
        fill(buf, bytes.as_slice());
        let Ok(told) = List::of(self.alloc, &buf[..len]) else {
            return Got::NoMemory;
        };
        if self.calls.push(LinkCall::Received(network, told)).is_err() {
            return Got::NoMemory;
        }
        let _ = self.inbox.pop_front();
        Got::Datagram(len, network)
    }

    fn send(&mut self, node: u8, network: u8, bytes: &[u8]) -> Put
        ensures told { Sends (Some self.old.calls) (Some self.new.calls)
            result node network bytes.now }
        ensures places { Same (Some self.old.places) (Some self.new.places) }
        ensures opened { Same (Some self.old.opened) (Some self.new.opened) }
        ensures later { self.old.faults ≤ self.new.faults }
        ensures failed { result ≡ Put.Failed → Rose self.old.faults self.new.faults }
        ensures exact { SendsTo self.old self.new result node network bytes.now }
    {
        self.sends = self.sends.saturating_add(1);
        let out = !is_listed(self.fails.sends.as_slice(), self.sends);
        let Ok(told) = List::of(self.alloc, bytes) else {
            return Put::NoMemory;
        };
        if self
            .calls
            .push(LinkCall::Sent(node, network, told, out))
            .is_err()
        {
            return Put::NoMemory;
        }
        if out {
            Put::Done
        } else {
            self.faults = self.faults.saturating_add(1);
            Put::Failed
        }
    }
}

/// A clock that gives the moments it was made of, and then the last one again and again. It tells, until it has given
/// that one again 18,446,744,073,709,551,615 times.
#[derive(Drop)]
pub struct MemClock {
    moments: Vec<u64>,
    given: usize,
    repeats: u64,
}

impl Model for MemClock {
    ghost use Rattle.std.specs.Prelude.{◌≡◌, ◌≤◌, ◌<◌, length};
    ghost use Rattle.hags_io.specs.LinkMemory.{ClockView, Ascend};

    ghost Value = { ClockView };

    ghost view = { λ c. record { moments = c.moments.items; given = c.given; repeats = c.repeats } };

    ghost invariant = { λ c. Ascend c.moments.items × (0 < length c.moments.items) × (c.given ≤ length c.moments.items) × (0 < c.repeats → c.given ≡ length c.moments.items) };
}

impl MemClock {
    /// A clock of these moments: at least one, and none less than the one before it.
    pub fn new(moments: Vec<u64>) -> MemClock
        requires some { 0 < length moments.items }
        requires ascend { Ascend moments.items }
        ensures moments { result.moments ≡ moments.items }
        ensures fresh { (result.given ≡ 0) × (result.repeats ≡ 0) }
    {
        MemClock {
            moments,
            given: 0,
            repeats: 0,
        }
    }
}

impl Clock for MemClock {
    ghost moments = { λ c. told_moments c };

    ghost last = { λ c. last_given c };

    fn now(&mut self) -> u64
        ensures told { Counts (told_moments self.old) (told_moments self.new) (result ∷ []) }
        ensures later { last_given self.old ≤ result }
        ensures kept { last_given self.new ≡ result }
        ensures after { self.new ≡ clock_after self.old }
    {
        if self.given < self.moments.len() {
            let moment = self.moments[self.given];
            self.given += 1;
            return moment;
        }
        self.repeats = self.repeats.saturating_add(1);
        self.moments[self.given - 1]
    }
}
