//! Two daemons in one process, whose clients count together. Each daemon is a node, and what a node sends is put into the
//! queue of the daemon that it goes to.
#![tactic(auto)]

ghost use Rattle.std.specs.Prelude.{None};

use client_callbacks::{Ballot, Callbacks, Notice, Told};
use group_attr::{Attrs, Phases};
use node_core::{Node, NodeEvent, is_packet};
use node_state::{CallLine, Config, Mode, What};
use packet_codec::Datagram;
use proposal_core::Vote;
use rsct_packet::{List, Mask, NoMemory};
use std::alloc::Global;
use std::io::{self, Write};
use std::mem;
use transcript::put_line;

/// How many turns the daemons have between two calls.
const TURNS: u32 = 8;

/// Nodes 1 and 2, each with an adapter on network 1 that sends a heartbeat at each tick.
fn settings() -> Config {
    let mut addr = [[0; 32]; 4];
    addr[0][0] = 1;
    addr[0][1] = 2;
    Config {
        mode: Mode::Rings,
        nodes: Mask::empty().with(1).with(2),
        addr,
        every: 1,
        misses: 3,
        port: 0,
        level_from: [0; 32],
        domain: 0,
    }
}

/// The number that a value spells, 0 where it spells none.
fn number_of(value: &[u8]) -> u32 {
    match str::from_utf8(value) {
        Ok(text) => text.parse().unwrap_or(0),
        Err(_) => 0,
    }
}

/// A client that counts. The group's value is the count; where the client may vote, it approves with one more.
#[derive(Drop)]
struct Counter {
    alloc: Global,
    count: u32,
}

impl Callbacks for Counter {
    ghost stands_for = { λ c h. Unit {0} };

    ghost script = { λ c. None };

    fn notice(&mut self, notice: &Notice<'_>, ballot: &mut Ballot) -> Result<(), NoMemory> {
        self.count = number_of(notice.after.value.bytes());
        if ballot.asks() {
            let next = self.count.saturating_add(1);
            let text = format!(in self.alloc; "{next}")?;
            ballot.set(self.alloc, Vote::Approve, Some(text.as_bytes()), None)?;
        }
        Ok(())
    }

    fn told(&mut self, _told: &Told) -> Result<(), NoMemory> {
        Ok(())
    }
}

/// A daemon: a node with one client, the datagrams that have come for it, and the lines of what it recorded.
#[derive(Drop)]
struct Daemon {
    alloc: Global,
    me: u8,
    node: Node<Counter>,
    queue: Vec<Vec<u8>>,
    log: Vec<u8>,
}

impl Daemon {
    /// The daemon of this node, in its first incarnation.
    fn start(alloc: Global, me: u8) -> Result<Daemon, NoMemory> {
        Ok(Daemon {
            alloc,
            me,
            node: Node::start(alloc, settings(), me, 1)?,
            queue: Vec::new(alloc),
            log: Vec::new(alloc),
        })
    }

    /// Hands out what the last step left: its records to the log, its packets to the queues.
    fn hand_out(&mut self, other: &mut Daemon) -> Result<(), NoMemory> {
        let records = self.node.take_records(self.alloc);
        for record in records.as_slice() {
            put_line(self.alloc, &mut self.log, record)?;
        }
        let packets = self.node.take_sends(self.alloc);
        for packet in packets.as_slice() {
            let datagram = Datagram::of(self.alloc, packet)?;
            let bytes = Vec::from_slice(self.alloc, datagram.bytes())?;
            if packet.to == self.me {
                self.queue.push(bytes)?;
            } else {
                other.queue.push(bytes)?;
            }
        }
        Ok(())
    }

    /// A turn: the node ticks, and then takes each datagram that has come.
    fn turn(&mut self, other: &mut Daemon) -> Result<(), NoMemory> {
        self.node
            .step(self.alloc, NodeEvent::Tick)
            .map_err(|_| NoMemory)?;
        self.hand_out(other)?;
        let came = mem::replace(&mut self.queue, Vec::new(self.alloc));
        for bytes in &came {
            if is_packet(bytes.as_slice()) {
                self.node
                    .step(self.alloc, NodeEvent::Datagram(bytes.as_slice()))
                    .map_err(|_| NoMemory)?;
                self.hand_out(other)?;
            }
        }
        Ok(())
    }

    /// What its start recorded is handed out, and its client `c` begins its session.
    fn begin(&mut self, other: &mut Daemon) -> Result<(), NoMemory> {
        self.hand_out(other)?;
        let client = Counter {
            alloc: self.alloc,
            count: 0,
        };
        self.node
            .begin_session(self.alloc, b"c", client)
            .map_err(|_| NoMemory)?;
        self.hand_out(other)
    }

    /// Its client joins the group `count`.
    fn join(&mut self, other: &mut Daemon) -> Result<(), NoMemory> {
        let call = CallLine::Join {
            client: List::of(self.alloc, b"c")?,
            group: List::of(self.alloc, b"count")?,
            instance: 1,
            attrs: Attrs::empty(),
        };
        self.node
            .step(self.alloc, NodeEvent::Call(&call))
            .map_err(|_| NoMemory)?;
        self.hand_out(other)
    }

    /// Its client asks for one more: a message, on which the members vote.
    fn count(&mut self, other: &mut Daemon) -> Result<(), NoMemory> {
        let call = CallLine::SendMessage {
            client: List::of(self.alloc, b"c")?,
            group: List::of(self.alloc, b"count")?,
            phases: Phases::Many,
            bytes: List::of(self.alloc, b"one more")?,
        };
        self.node
            .step(self.alloc, NodeEvent::Call(&call))
            .map_err(|_| NoMemory)?;
        self.hand_out(other)
    }
}

/// Some turns of both daemons.
fn turns(first: &mut Daemon, second: &mut Daemon) -> Result<(), NoMemory> {
    for _ in 0..TURNS {
        first.turn(second)?;
        second.turn(first)?;
    }
    Ok(())
}

/// Both daemons start, and their clients join and count.
fn work(first: &mut Daemon, second: &mut Daemon) -> Result<(), NoMemory> {
    first.begin(second)?;
    second.begin(first)?;
    turns(first, second)?;
    first.join(second)?;
    turns(first, second)?;
    second.join(first)?;
    turns(first, second)?;
    first.count(second)?;
    turns(first, second)?;
    second.count(first)?;
    turns(first, second)
}

/// Both daemons work; then node 2 stops, and node 1 goes on alone.
fn run(alloc: Global) -> Result<(Daemon, Daemon), NoMemory> {
    let mut first = Daemon::start(alloc, 1)?;
    let mut second = Daemon::start(alloc, 2)?;
    work(&mut first, &mut second)?;
    for _ in 0..TURNS {
        first.turn(&mut second)?;
    }
    first.node.status(alloc, &mut first.log, What::Hagsgr)?;
    Ok((first, second))
}

fn main(rt: HostRuntime) -> io::Result<()> {
    let Ok((first, second)) = run(rt.alloc()) else {
        return Err(io::ErrorKind::OutOfMemory.into());
    };
    println!(rt; "node 1:")?;
    rt.stdout().write_all(first.log.as_slice())?;
    println!(rt; "node 2:")?;
    rt.stdout().write_all(second.log.as_slice())?;
    if let Some(client) = first.node.client(b"c") {
        let count = client.count;
        println!(rt; "the client of node 1 counts {count}")?;
    }
    Ok(())
}
