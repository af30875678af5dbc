//! Links and clocks: what the sockets of the system carry, what its clock shows, and that each call can succeed.
ghost use Rattle.std.specs.Prelude.{◌≡◌, ◌≤◌, length, vec_len, IfOk};

use hags_io::{Clock, Got, Link, LinkCall, LinkFails, MemClock, MemLink, Put, SysClock, UdpLink};
use rsct_packet::NoMemory;
use std::alloc::Global;
use std::collections::VecDeque;
use std::net::{Ipv4Addr, Net, UdpSocket};
use std::test::Fail;

/// 127.0.0.1.
const LOCALHOST: u32 = 0x7f00_0001;

fn buffer(alloc: Global, len: usize, byte: u8) -> Result<Vec<u8>, NoMemory>
    ensures { IfOk result (λ v. vec_len v ≡ len) }
{
    Ok(vec![in alloc; byte; len]?)
}

/// Opens the link at the first port that is free, since other tests may run beside this one.
fn open_somewhere<R: Net>(link: &mut UdpLink<'_, R>) -> u16 {
    for at in 47_000..48_000u16 {
        if link.open(at) {
            return at;
        }
    }
    0
}

/// What comes within so many receives: the first answer that is not `Quiet`.
fn received<R: Net>(link: &mut UdpLink<'_, R>, buf: &mut [u8], turns: u32) -> Got
    requires { 65536 ≤ length buf.old }
{
    for _ in 0..turns {
        let got = link.recv(buf);
        if got != Got::Quiet {
            return got;
        }
    }
    Got::Quiet
}

#[test]
fn sends_to_itself(rt: HostRuntime) -> Result<(), Fail> {
    let alloc = rt.alloc();
    let mut link = UdpLink::new(alloc, &rt)?;
    let mut room = buffer(alloc, 65_536, 0)?;
    let buf = room.as_mut_slice();
    assert!(rt; link.recv(buf) == Got::Failed, "it is not open");
    let at = open_somewhere(&mut link);
    assert!(rt; at != 0);
    assert!(rt; link.send(1, 1, b"no") == Put::Failed, "no place is told");
    assert!(rt;
        link.send(0, 1, b"no") == Put::Failed,
        "nothing was received"
    );
    link.place(1, 3, LOCALHOST, at);
    assert!(rt; link.send(1, 3, b"hello") == Put::Done);
    assert!(rt; received(&mut link, buf, 500) == Got::Datagram(5, 3));
    assert!(rt; buf.starts_with(b"hello".as_slice()));
    assert!(rt; link.send(0, 2, b"yes") == Put::Done);
    assert!(rt; received(&mut link, buf, 500) == Got::Datagram(3, 2));
    assert!(rt; buf.starts_with(b"yes".as_slice()));
    Ok(())
}

#[test]
fn carries_the_longest(rt: HostRuntime) -> Result<(), Fail> {
    let alloc = rt.alloc();
    let mut link = UdpLink::new(alloc, &rt)?;
    let at = open_somewhere(&mut link);
    assert!(rt; at != 0);
    link.place(32, 4, LOCALHOST, at);
    let mut room = buffer(alloc, 65_536, 0)?;
    let buf = room.as_mut_slice();
    let longest = buffer(alloc, 65_506, 7)?;
    assert!(rt; link.send(32, 4, longest.as_slice()) == Put::Done);
    assert!(rt; received(&mut link, buf, 500) == Got::Datagram(65_506, 4));
    assert!(rt; buf.starts_with(longest.as_slice()));
    let longer = buffer(alloc, 65_507, 7)?;
    assert!(rt; link.send(32, 4, longer.as_slice()) == Put::Failed);
    Ok(())
}

#[test]
fn waits_for_nothing_and_drops_strangers(rt: HostRuntime) -> Result<(), Fail> {
    let alloc = rt.alloc();
    let mut link = UdpLink::new(alloc, &rt)?;
    let at = open_somewhere(&mut link);
    assert!(rt; at != 0);
    let mut room = buffer(alloc, 65_536, 0)?;
    let buf = room.as_mut_slice();
    for turn in 0..5 {
        assert!(rt; link.recv(buf) == Got::Quiet, "at receive {turn}");
    }
    let stranger = UdpSocket::bind(&rt, (Ipv4Addr::UNSPECIFIED, 0))?;
    let to = (Ipv4Addr::LOCALHOST, at);
    assert!(rt; stranger.send_to(b"", to)? == 0);
    assert!(rt; stranger.send_to(b"\x00abc", to)? == 4);
    assert!(rt; stranger.send_to(b"\x05abc", to)? == 4);
    assert!(rt; stranger.send_to(b"\x04", to)? == 1);
    assert!(rt; stranger.send_to(b"\x01abc", to)? == 4);
    assert!(rt; received(&mut link, buf, 500) == Got::Datagram(0, 4));
    assert!(rt; received(&mut link, buf, 500) == Got::Datagram(3, 1));
    assert!(rt; buf.starts_with(b"abc".as_slice()));
    Ok(())
}

#[test]
fn two_links_answer_each_other(rt: HostRuntime) -> Result<(), Fail> {
    let alloc = rt.alloc();
    let mut one = UdpLink::new(alloc, &rt)?;
    let mut two = UdpLink::new(alloc, &rt)?;
    let mut room = buffer(alloc, 65_536, 0)?;
    let buf = room.as_mut_slice();
    assert!(rt; open_somewhere(&mut one) != 0);
    let at = open_somewhere(&mut two);
    assert!(rt; at != 0);
    one.place(2, 1, LOCALHOST, at);
    assert!(rt; one.send(2, 1, b"asked") == Put::Done);
    assert!(rt; received(&mut two, buf, 500) == Got::Datagram(5, 1));
    assert!(rt; two.send(0, 1, b"answered") == Put::Done);
    assert!(rt; received(&mut one, buf, 500) == Got::Datagram(8, 1));
    assert!(rt; buf.starts_with(b"answered".as_slice()));
    Ok(())
}

#[test]
fn the_clock_counts_from_1970(rt: HostRuntime) {
    let mut clock = SysClock::new(&rt);
    let first = clock.now();
    assert!(rt; first > 1_700_000_000_000, "{first}");
    assert!(rt; clock.now() >= first);
}

#[test]
fn a_link_in_memory_tells(rt: HostRuntime) -> Result<(), Fail> {
    let alloc = rt.alloc();
    let mut inbox = VecDeque::new(alloc);
    inbox.push_back((2, Vec::from_slice(alloc, b"in")?))?;
    let fail = LinkFails {
        opens: Vec::from_slice(alloc, &[1])?,
        recvs: Vec::from_slice(alloc, &[1])?,
        sends: Vec::from_slice(alloc, &[2])?,
    };
    let mut link = MemLink::new(alloc, inbox, fail);
    let mut room = buffer(alloc, 65_536, 0)?;
    let buf = room.as_mut_slice();
    assert!(rt; !link.open(4001));
    assert!(rt; link.open(4002));
    assert!(rt; link.opened() == Some((4002, true)));
    link.place(3, 2, LOCALHOST, 4003);
    assert!(rt; link.places().get(3, 2) == Some((LOCALHOST, 4003)));
    assert!(rt; link.places().get(3, 1) == None);
    assert!(rt; link.recv(buf) == Got::Failed);
    assert!(rt; link.recv(buf) == Got::Datagram(2, 2));
    assert!(rt; buf.starts_with(b"in".as_slice()));
    assert!(rt; link.recv(buf) == Got::Quiet);
    assert!(rt; link.send(3, 2, b"out") == Put::Done);
    assert!(rt; link.send(3, 2, b"lost") == Put::Failed);
    let told = link.calls();
    assert!(rt; told.len() == 5);
    assert!(rt; matches!(told.first(), Some(LinkCall::Failed)));
    assert!(rt; matches!(told.get(2), Some(LinkCall::Quiet)));
    assert!(rt; matches!(told.get(3), Some(LinkCall::Sent(3, 2, _, true))));
    assert!(rt; matches!(told.last(), Some(LinkCall::Sent(3, 2, _, false))));
    Ok(())
}

#[test]
fn a_clock_in_memory_repeats_its_last_moment(rt: HostRuntime) -> Result<(), Fail> {
    let moments = Vec::from_slice(rt.alloc(), &[5, 5, 9])?;
    let mut clock = MemClock::new(moments);
    for (turn, want) in [5, 5, 9, 9, 9].into_iter().enumerate() {
        assert!(rt; clock.now() == want, "at reading {turn}");
    }
    Ok(())
}
