//! A daemon of the program with one object for its clients: the object's ballot is what counts.
ghost use Rattle.std.specs.Prelude.{None};

use crate::edges::{clock_at, sink, sink_of, source, words_of};
use client_callbacks::{Ballot, Callbacks, Notice, SteadyClient, Told};
use hags_cli::{Edges, Output, hags};
use hags_io::{Got, History, Link, MemSink, Parts, Put};
use proposal_core::Vote;
use rsct_packet::NoMemory;
use std::alloc::{AllocError, Global};
use std::collections::VecDeque;
use std::test::Fail;

/// An object that rejects wherever a vote is asked for.
#[derive(Drop)]
struct Rejecting {
    alloc: Global,
}

impl Callbacks for Rejecting {
    ghost stands_for = { λ c h. Unit {0} };

    ghost script = { λ c. None };

    fn notice(&mut self, _n: &Notice<'_>, ballot: &mut Ballot) -> Result<(), NoMemory> {
        ballot.set(self.alloc, Vote::Reject, None, None)?;
        Ok(())
    }

    fn told(&mut self, _t: &Told) -> Result<(), NoMemory> {
        Ok(())
    }
}

/// A link on which a node hears what it sends.
#[derive(Drop)]
struct Echo {
    alloc: Global,
    waiting: VecDeque<(u8, Vec<u8>)>,
}

impl Link for Echo {
    ghost use Rattle.std.specs.Prelude.{None};

    ghost calls = { λ _. None };

    ghost places = { λ _. None };

    ghost opened = { λ _. None };

    ghost faults = { λ _. 0 };

    fn open(&mut self, _port: u16) -> bool {
        true
    }

    fn place(&mut self, _node: u8, _network: u8, _address: u32, _port: u16) {}

    fn recv(&mut self, buf: &mut [u8]) -> Got {
        let Some((network, bytes)) = self.waiting.pop_front() else {
            return Got::Quiet;
        };
        let len = bytes.len();
        if len > buf.len() {
            return Got::Quiet;
        }
        buf[..len].copy_from_slice(bytes.as_slice());
        Got::Datagram(len, network)
    }

    fn send(&mut self, _node: u8, network: u8, bytes: &[u8]) -> Put {
        let Ok(bytes) = Vec::from_slice(self.alloc, bytes) else {
            return Put::NoMemory;
        };
        match self.waiting.push_back((network, bytes)) {
            Ok(()) => Put::Done,
            Err(_) => Put::NoMemory,
        }
    }
}

const JOINS: &[u8] = b"node 1\nbegin\nclient 1 a boxed\njoin a db 7 phases=n\n";

/// What a daemon of three turns writes, whose client is this object.
fn written(alloc: Global, client: Box<dyn Callbacks>) -> Result<MemSink, AllocError> {
    let words = words_of(alloc, "daemon --node=1 --inc=5 --turns=3")?;
    let mut edges = Edges {
        input: source(alloc, JOINS, &[])?,
        output: Output {
            outside: Parts {
                out: sink(alloc, &[])?,
                link: Echo {
                    alloc,
                    waiting: VecDeque::new(alloc),
                },
                clock: clock_at(alloc, 0)?,
                history: History::new(),
            },
        },
    };
    let mut clients = Vec::new(alloc);
    clients.push(client)?;
    let mut err = sink(alloc, &[])?;
    let _status = hags(alloc, words.as_slice(), &mut edges, &mut err, clients);
    Ok(sink_of(edges))
}

/// Does the text have this line?
fn has_line(text: &[u8], line: &[u8]) -> bool {
    for at in 0..text.len() {
        if text[at..].starts_with(line) {
            return true;
        }
    }
    false
}

#[test]
fn an_object_that_rejects_is_the_one_that_is_asked(rt: HostRuntime) -> Result<(), Fail> {
    let alloc = rt.alloc();
    let rejecting: Box<dyn Callbacks> = Box::new(alloc, Rejecting { alloc })?;
    let out = written(alloc, rejecting)?;
    assert!(rt; has_line(out.held(), b"\ncast 1.5.7.1 1.1.5/0 1 R\n"));
    let steady: Box<dyn Callbacks> = Box::new(alloc, SteadyClient { alloc })?;
    let out = written(alloc, steady)?;
    assert!(rt; has_line(out.held(), b"\ncast 1.5.7.1 1.1.5/0 1 A\n"));
    Ok(())
}
