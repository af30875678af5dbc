//! A daemon's parts over sockets of the system: what it sends to itself comes back, and who asks it is answered.
ghost use Rattle.std.specs.Prelude.{◌≤◌, ◌+◌, length};

use crate::questions::{RINGS_ASKED, RINGS_TOLD};
use crate::runs::{ended, serving, settings};
use client_callbacks::DaemonClient;
use daemon_run::Objects;
use hags_io::{Clock, Got, History, Link, MemSink, Parts, SysClock, UdpLink};
use link_use::{Stop, buffer};
use rsct_packet::NoMemory;
use std::alloc::Global;
use std::net::Net;
use std::test::Fail;
use world_model::Script;

/// 127.0.0.1.
const LOCALHOST: u32 = 0x7f00_0001;

/// How the daemon of these settings ends over a socket of its own, and what it wrote. Each of its 25 turns waits 20
/// milliseconds at most, so it takes half a second.
fn served_over<R: Net, M: Clock + Drop>(
    alloc: Global,
    rt: &R,
    script: &Script,
    clock: M,
) -> Result<(Result<(), Stop>, MemSink), NoMemory>
    requires { script.now.config.port + 32 ≤ 65535 }
{
    let mut outside = Parts {
        out: MemSink::new(alloc, Vec::new(alloc)),
        link: UdpLink::new(alloc, rt)?,
        clock,
        history: History::new(),
    };
    let mut objects = Objects {
        left: Vec::new(alloc),
    };
    let ended = ended::<DaemonClient, Objects, Parts<MemSink, UdpLink<'_, R>, M>>(
        alloc,
        script,
        serving(25, false),
        &mut objects,
        &mut outside,
    );
    Ok((ended, outside.out))
}

/// The client joins, and nobody else is waited for.
const JOINS: &[u8] = b"node 1\nadapter 1 1 127.0.0.1\nbegin\nclient 1 a A\njoin a db 7\n";

const JOINED: &[u8] =
    b"up 1 5\nring 1 1 1.5.1 1 1\nin 1 1.1.5 1.5\nasked 1.5.7.1 1 db join\nput 1 1.1.5 db 0 once join 1.5.7.1\nheard 1.5.7.1 1.1.5 db 0 once-join 1.5.7.1 =\n";

#[test]
fn what_a_daemon_sends_to_itself_comes_back(rt: HostRuntime) -> Result<(), Fail> {
    let alloc = rt.alloc();
    let mut script = settings(alloc, JOINS, 0).ok_or("settings")?;
    // Other tests may run beside this one: the first port that is free is taken.
    for port in 48_000..48_100u16 {
        script.config.port = port;
        let (ended, out) = served_over(alloc, &rt, &script, SysClock::new(&rt))?;
        if ended != Err(Stop::LinkFault) {
            assert!(rt; ended.is_ok());
            assert!(rt; out.held() == JOINED);
            return Ok(());
        }
    }
    Err("no port is free".into())
}

/// A clock that asks a daemon over a socket when it is read first: then the daemon's link is open, and it has done no
/// turn. So one thread suffices for the daemon and for who asks it.
#[derive(Drop)]
struct Asking<'a, 'r, M, R> {
    clock: M,
    link: &'a mut UdpLink<'r, R>,
    has_asked: bool,
}

impl<M: Clock, R: Net> Clock for Asking<'_, '_, M, R> {
    ghost use Rattle.std.specs.Prelude.{None};

    ghost moments = { λ _. None };

    ghost last = { λ c. M.last c.clock };

    fn now(&mut self) -> u64 {
        if !self.has_asked {
            self.has_asked = true;
            let _sent = self.link.send(1, 1, RINGS_ASKED);
        }
        self.clock.now()
    }
}

/// What comes within 500 receives: the first answer that is not `Quiet`.
fn received<R: Net>(link: &mut UdpLink<'_, R>, buf: &mut [u8]) -> Got
    requires { 65536 ≤ length buf.old }
{
    for _ in 0..500 {
        let got = link.recv(buf);
        if got != Got::Quiet {
            return got;
        }
    }
    Got::Quiet
}

const ASKED: &[u8] = b"node 1\nadapter 1 1 127.0.0.1\nbegin\n";

#[test]
fn who_asks_over_another_socket_is_answered(rt: HostRuntime) -> Result<(), Fail> {
    let alloc = rt.alloc();
    let mut script = settings(alloc, ASKED, 0).ok_or("settings")?;
    let mut own = UdpLink::new(alloc, &rt)?;
    assert!(rt; own.open(0));
    for port in 48_100..48_200u16 {
        script.config.port = port;
        own.place(1, 1, LOCALHOST, port + 1);
        let asking = Asking {
            clock: SysClock::new(&rt),
            link: &mut own,
            has_asked: false,
        };
        let (ended, _out) = served_over(alloc, &rt, &script, asking)?;
        if ended != Err(Stop::LinkFault) {
            assert!(rt; ended.is_ok());
            let mut room = buffer(alloc)?;
            let buf = room.as_mut_slice();
            assert!(rt; received(&mut own, buf) == Got::Datagram(RINGS_TOLD.len(), 1));
            assert!(rt; buf.starts_with(RINGS_TOLD));
            return Ok(());
        }
    }
    Err("no port is free".into())
}
