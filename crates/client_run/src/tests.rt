//! What no clause says: that a client ends with its answers where there is memory.
ghost use Rattle.std.specs.Prelude.{◌≤◌, length, map, IfOk};
ghost use Rattle.hags_io.specs.LinkMemory.{AreWithin};
ghost use Rattle.rsct_packet.specs.Format.{EachFits};
ghost use Rattle.client_run.specs.Running.{IsCall};

use crate::{Usage, use_daemon};
use hags_io::{History, LinkFails, MemClock, MemLink, MemSink, Parts};
use link_use::Stop;
use node_state::{Config, Mode};
use rsct_packet::{List, Mask, NoMemory};
use std::alloc::Global;
use std::collections::VecDeque;

/// The piece of a Down of key 7: of incarnation 5, with one event, which answers the first call as taken.
const TAKEN: [u8; 53] = [
    0x52, 0x50, 0x01, 0x00, 0x00, 0x00, 0x00, 0x05, 0x00, 0x00, 0x00, 0x00, 0x00, 0x00, 0x00, 0x01,
    0x00, 0x00, 0x00, 0x00, 0x00, 0x00, 0x00, 0x01, 0x52, 0x53, 0x02, 0x00, 0x00, 0x00, 0x00, 0x07,
    0x00, 0x00, 0x00, 0x05, 0x00, 0x00, 0x00, 0x01, 0x01, 0x00, 0x00, 0x00, 0x01, 0x01, 0x00, 0x05,
    0x68, 0x65, 0x61, 0x72, 0x64,
];

/// That of another incarnation.
const LOST: [u8; 46] = [
    0x52, 0x50, 0x01, 0x00, 0x00, 0x00, 0x00, 0x06, 0x00, 0x00, 0x00, 0x00, 0x00, 0x00, 0x00, 0x01,
    0x00, 0x00, 0x00, 0x00, 0x00, 0x00, 0x00, 0x01, 0x52, 0x53, 0x02, 0x00, 0x00, 0x00, 0x00, 0x07,
    0x00, 0x00, 0x00, 0x06, 0x00, 0x00, 0x00, 0x00, 0x00, 0x00, 0x00, 0x00, 0x01, 0x00,
];

/// That of a daemon that keeps no more keys.
const FULL: [u8; 46] = [
    0x52, 0x50, 0x01, 0x00, 0x00, 0x00, 0x00, 0x05, 0x00, 0x00, 0x00, 0x00, 0x00, 0x00, 0x00, 0x01,
    0x00, 0x00, 0x00, 0x00, 0x00, 0x00, 0x00, 0x01, 0x52, 0x53, 0x02, 0x00, 0x00, 0x00, 0x00, 0x07,
    0x00, 0x00, 0x00, 0x05, 0x00, 0x00, 0x00, 0x00, 0x03, 0x00, 0x00, 0x00, 0x01, 0x00,
];

/// Node 1 at 127.0.0.1, port 4001.
fn settings() -> Config
    ensures { result.port ≤ 4000 }
{
    let mut addr = [[0; 32]; 4];
    addr[0][0] = 0x7f00_0001;
    Config {
        mode: Mode::Rings,
        nodes: Mask::empty().with(1),
        addr,
        every: 1,
        misses: 4,
        port: 4000,
        level_from: [0; 32],
        domain: 1,
    }
}

fn one_call(alloc: Global, line: &[u8]) -> Result<List<List<u8>>, NoMemory>
    requires some { 1 ≤ length line.now }
    requires short { length line.now ≤ 1100 }
    ensures { IfOk result (λ lines. EachFits IsCall lines) }
{
    let mut lines = List::new(alloc);
    lines.push(List::of(alloc, line)?)?;
    Ok(lines)
}

/// Puts a datagram before those that are to come.
fn put_first(
    alloc: Global,
    inbox: &mut VecDeque<(u8, Vec<u8>)>,
    piece: &[u8],
) -> Result<(), NoMemory>
    requires { AreWithin (map (λ x. (x.0, x.1.items)) inbox.old.items) }
    ensures { AreWithin (map (λ x. (x.0, x.1.items)) inbox.new.items) }
{
    if piece.len() > 65_535 {
        return Err(NoMemory);
    }
    inbox.push_front((1, Vec::from_slice(alloc, piece)?))?;
    Ok(())
}

/// A link on which these datagrams come.
fn link_of(alloc: Global, pieces: &[&[u8]]) -> Result<MemLink, NoMemory> {
    let mut inbox = VecDeque::new(alloc);
    for piece in pieces.iter().rev() {
        put_first(alloc, &mut inbox, piece)?;
    }
    let fails = LinkFails {
        opens: Vec::new(alloc),
        recvs: Vec::new(alloc),
        sends: Vec::new(alloc),
    };
    Ok(MemLink::new(alloc, inbox, fails))
}

/// How a client with key 7 and one call ends after so many turns, and whether it wrote this.
fn ends(
    alloc: Global,
    pieces: &[&[u8]],
    turns: u32,
    want: &[u8],
) -> Result<(Result<(), Stop>, bool), NoMemory> {
    let mut outside = Parts {
        out: MemSink::new(alloc, Vec::new(alloc)),
        link: link_of(alloc, pieces)?,
        clock: MemClock::new(vec![in alloc; 7]?),
        history: History::new(),
    };
    let lines = one_call(alloc, b"client 1 a -")?;
    let usage = Usage {
        node: 1,
        turns,
        key: None,
    };
    let ended = use_daemon(alloc, &settings(), &lines, usage, &mut outside);
    Ok((ended, outside.out.held() == want))
}

#[test]
fn no_reply_over_an_empty_link(rt: HostRuntime) {
    let (ended, same) = ends(rt.alloc(), &[], 3, b"").expect(&rt, "memory");
    assert!(rt; ended == Err(Stop::NoReply));
    assert!(rt; same);
}

#[test]
fn an_answer_and_an_event_are_written(rt: HostRuntime) {
    let pieces = [TAKEN.as_slice()];
    let (ended, same) = ends(rt.alloc(), &pieces, 2, b"did 1 taken\nheard\n").expect(&rt, "memory");
    assert!(rt; ended == Ok(()));
    assert!(rt; same);
}

#[test]
fn another_incarnation_ends_it(rt: HostRuntime) {
    let pieces = [TAKEN.as_slice(), LOST.as_slice()];
    let (ended, same) = ends(rt.alloc(), &pieces, 9, b"did 1 taken\nheard\n").expect(&rt, "memory");
    assert!(rt; ended == Err(Stop::SessionLost));
    assert!(rt; same);
}

#[test]
fn a_full_daemon_ends_it(rt: HostRuntime) {
    let pieces = [FULL.as_slice()];
    let (ended, same) = ends(rt.alloc(), &pieces, 9, b"").expect(&rt, "memory");
    assert!(rt; ended == Err(Stop::DaemonFull));
    assert!(rt; same);
}
