//! A daemon of node 1, in its incarnation 5, over a link, a clock and a sink in memory.
ghost use Rattle.std.specs.Prelude.{◌≡◌, ◌≤◌, ◌<◌, ◌+◌, map, length, IfOk, IfSome};
ghost use Rattle.hags_io.specs.LinkMemory.{AreWithin, Ascend};

use client_callbacks::{Callbacks, DaemonClient};
use daemon_model::{Options, RemoteService, Service};
use daemon_run::{Hosts, Objects, Serving, serve};
use hags_io::{History, LinkCall, LinkFails, MemClock, MemLink, MemSink, Outside, Parts};
use link_use::Stop;
use rsct_packet::NoMemory;
use script_reader::read_daemon;
use std::alloc::Global;
use std::collections::VecDeque;
use world_model::Script;

/// Settings of a node alone.
pub(crate) const ALONE: &[u8] = b"node 1\nport 4000\nbegin\n";

/// What a node alone records at its start.
pub(crate) const ALONE_TEXT: &[u8] = b"up 1 5\nring 1 1 1.5.1 1 1\nin 1 1.1.5 1.5\n";

/// Which calls fail, by number.
#[derive(Clone, Copy)]
pub(crate) struct Failing<'a> {
    pub opens: &'a [u32],
    pub recvs: &'a [u32],
    pub sends: &'a [u32],
    pub puts: &'a [u32],
}

impl Failing<'_> {
    /// No call fails.
    pub(crate) fn nothing() -> Failing<'static> {
        Failing {
            opens: &[],
            recvs: &[],
            sends: &[],
            puts: &[],
        }
    }
}

/// Puts a datagram before those that are to come.
fn put_first(
    alloc: Global,
    inbox: &mut VecDeque<(u8, Vec<u8>)>,
    piece: &[u8],
) -> Result<(), NoMemory>
    requires { AreWithin (map (λ x. (x.0, x.1.items)) inbox.old.items) }
    ensures { AreWithin (map (λ x. (x.0, x.1.items)) inbox.new.items) }
{
    if piece.len() > 65_535 {
        return Err(NoMemory);
    }
    inbox.push_front((1, Vec::from_slice(alloc, piece)?))?;
    Ok(())
}

/// These datagrams, which come on network 1.
fn inbox_of(alloc: Global, pieces: &[&[u8]]) -> Result<VecDeque<(u8, Vec<u8>)>, NoMemory>
    ensures { IfOk result (λ inbox. AreWithin (map (λ x. (x.0, x.1.items)) inbox.items)) }
{
    let mut inbox = VecDeque::new(alloc);
    for piece in pieces.iter().rev() {
        put_first(alloc, &mut inbox, piece)?;
    }
    Ok(inbox)
}

fn link_of(alloc: Global, pieces: &[&[u8]], failing: Failing<'_>) -> Result<MemLink, NoMemory> {
    let inbox = inbox_of(alloc, pieces)?;
    let fails = LinkFails {
        opens: Vec::from_slice(alloc, failing.opens)?,
        recvs: Vec::from_slice(alloc, failing.recvs)?,
        sends: Vec::from_slice(alloc, failing.sends)?,
    };
    Ok(MemLink::new(alloc, inbox, fails))
}

/// What a daemon runs over.
#[derive(Drop)]
pub(crate) struct Edges {
    pub outside: Parts<MemSink, MemLink, MemClock>,
}

impl Edges {
    /// A link with these datagrams, which come on network 1; a clock of these moments; and a sink.
    pub(crate) fn new(
        alloc: Global,
        pieces: &[&[u8]],
        moments: &[u64],
        failing: Failing<'_>,
    ) -> Result<Edges, NoMemory>
        requires some { 0 < length moments.now }
        requires ascend { Ascend moments.now }
    {
        Ok(Edges {
            outside: Parts {
                out: MemSink::new(alloc, Vec::from_slice(alloc, failing.puts)?),
                link: link_of(alloc, pieces, failing)?,
                clock: MemClock::new(Vec::from_slice(alloc, moments)?),
                history: History::new(),
            },
        })
    }

    /// The same, where no call fails.
    pub(crate) fn sound(alloc: Global, pieces: &[&[u8]], moments: &[u64]) -> Result<Edges, NoMemory>
        requires some { 0 < length moments.now }
        requires ascend { Ascend moments.now }
    {
        Edges::new(alloc, pieces, moments, Failing::nothing())
    }

    /// Is this what was written?
    pub(crate) fn wrote(&self, text: &[u8]) -> bool {
        self.outside.out.held() == text
    }

    /// Are these the calls of the link: D for a datagram received, Q where none came, F for a failed receive, S for a
    /// send, L for a send that failed?
    pub(crate) fn called(&self, letters: &[u8]) -> bool {
        let calls = self.outside.link.calls();
        calls.len() == letters.len() && calls.iter().map(letter).eq(letters.iter().copied())
    }

    /// How many sends there were, whether they went out or not.
    pub(crate) fn sends(&self) -> usize {
        let calls = self.outside.link.calls();
        calls
            .iter()
            .filter(|call| matches!(call, LinkCall::Sent(_, _, _, _)))
            .count()
    }

    /// What the call at this index sent, where it was a send to this node on network 1.
    pub(crate) fn sent_to(&self, node: u8, index: usize) -> Option<&[u8]> {
        match self.outside.link.calls().get(index)? {
            LinkCall::Sent(to, 1, piece, _) => {
                if *to == node {
                    Some(piece.as_slice())
                } else {
                    None
                }
            }
            _ => None,
        }
    }
}

fn letter(call: &LinkCall) -> u8 {
    match call {
        LinkCall::Received(_, _) => b'D',
        LinkCall::Quiet => b'Q',
        LinkCall::Failed => b'F',
        LinkCall::Sent(_, _, _, true) => b'S',
        LinkCall::Sent(_, _, _, false) => b'L',
    }
}

/// The settings of a daemon of node 1, with so many objects; none where they are refused.
#[tactic(auto, using(crate::proofs::PortLaws::has_ports))]
pub(crate) fn settings(alloc: Global, text: &[u8], objects: u32) -> Option<Script>
    ensures { IfSome result (λ script. script.config.port + 32 ≤ 65535) }
{
    match read_daemon(alloc, text, 1, Some(objects)) {
        Ok(script) => Some(script),
        Err(_) => None,
    }
}

/// Node 1, in its incarnation 5, for so many turns; whether it serves clients on other machines.
pub(crate) fn serving(turns: u32, remote: bool) -> Serving
    ensures { result.me ≡ 1 }
{
    let remote = if remote {
        RemoteService::On { entries: false }
    } else {
        RemoteService::Off
    };
    Serving {
        me: 1,
        incarnation: 5,
        turns: u64::from(turns),
        options: Options::plain(Service::plain(remote)),
    }
}

/// How a daemon ends. Its node is let go here, where the kind of its clients is open.
pub(crate) fn ended<C: Callbacks, H: Hosts<C>, O: Outside>(
    alloc: Global,
    script: &Script,
    serving: Serving,
    hosts: &mut H,
    outside: &mut O,
) -> Result<(), Stop>
    requires node { serving.me ≤ 32 }
    requires ports { script.now.config.port + 32 ≤ 65535 }
{
    let outcome = serve::<C, H, O>(alloc, script, serving, hosts, outside);
    outcome.end
}

/// How the daemon of these settings ends after so many turns, where these objects are handed to it.
pub(crate) fn served(
    alloc: Global,
    script: &Script,
    turns: u32,
    edges: &mut Edges,
    left: Vec<Box<dyn Callbacks>>,
) -> Result<(), Stop>
    requires { script.now.config.port + 32 ≤ 65535 }
{
    served_as(alloc, script, serving(turns, false), edges, left)
}

/// How such a daemon ends, where these objects are handed to it.
pub(crate) fn served_as(
    alloc: Global,
    script: &Script,
    serving: Serving,
    edges: &mut Edges,
    left: Vec<Box<dyn Callbacks>>,
) -> Result<(), Stop>
    requires node { serving.me ≤ 32 }
    requires ports { script.now.config.port + 32 ≤ 65535 }
{
    let mut objects = Objects { left };
    ended::<DaemonClient, Objects, Parts<MemSink, MemLink, MemClock>>(
        alloc,
        script,
        serving,
        &mut objects,
        &mut edges.outside,
    )
}

/// How the daemon of these settings ends after so many turns, without objects; none where the settings are refused.
pub(crate) fn end_of(
    alloc: Global,
    text: &[u8],
    turns: u32,
    edges: &mut Edges,
) -> Option<Result<(), Stop>> {
    let script = settings(alloc, text, 0)?;
    Some(served(alloc, &script, turns, edges, Vec::new(alloc)))
}
