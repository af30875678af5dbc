//! The link and the clock of the system. They tell nothing: what a socket carried and what a clock showed is not told.
ghost use Rattle.std.specs.Prelude.{◌≡◌, ◌≤◌, ◌+◌, ◌-◌, ◌^◌, ◌↔◌, length, min, IfSome, IsTrue};

use crate::link::{Clock, DATAGRAM_ROOM, Got, Link, Places};
use crate::source::Put;
use rsct_packet::{MAX_NODES, NoMemory};
use std::alloc::Global;
use std::io;
use std::net::{Ipv4Addr, Net, SocketAddr, UdpSocket};
use std::time::{Duration, Instant, SystemTime};

/// Datagrams of a UDP port on all addresses. On the wire one byte with the network, from 1 to 4, stands before each
/// datagram; since UDP over IPv4 carries at most 65,507 bytes, a datagram has at most 65,506, and a longer one fails.
///
/// A receive waits at most 20 milliseconds, whatever comes. What comes with no byte, or with a first byte that is no
/// network, was sent by no link: it is dropped, and that receive is `Quiet`. A datagram of the network's byte alone
/// is one of no bytes.
#[derive(Drop)]
pub struct UdpLink<'r, R> {
    net: &'r R,
    socket: Option<UdpSocket>,
    places: Places,
    from: Option<SocketAddr>,
    packet: Vec<u8>,
    faults: u64,
}

impl<'r, R: Net> UdpLink<'r, R> {
    /// A link that is not open: until `open` its sends and receives fail. All memory that it needs is taken here.
    pub fn new(alloc: Global, net: &'r R) -> Result<UdpLink<'r, R>, NoMemory> {
        Ok(UdpLink {
            net,
            socket: None,
            places: Places::none(),
            from: None,
            packet: vec![in alloc; 0u8; DATAGRAM_ROOM]?,
            faults: 0,
        })
    }

    /// Where a datagram to the node's adapter on the network goes.
    fn address_of(&self, node: u8, network: u8) -> Option<SocketAddr> {
        if node == 0 {
            return self.from;
        }
        if node > MAX_NODES || !is_network(network) {
            return None;
        }
        let (address, port) = self.places.get(node, network)?;
        Some(SocketAddr::from((Ipv4Addr::from_bits(address), port)))
    }

    fn fail(&mut self)
        ensures later { self.old.faults ≤ self.new.faults }
        ensures rose { self.new.faults ≡ min (self.old.faults + 1) (2 ^ 64 - 1) }
    {
        self.faults = self.faults.saturating_add(1);
    }
}

fn is_network(network: u8) -> bool
    ensures { IsTrue result ↔ ((1 ≤ network) × (network ≤ 4)) }
{
    network >= 1 && network <= 4
}

/// A socket of a port on all addresses, whose receive waits at most 20 milliseconds. It stays unconnected, since a
/// connected one would report the peer's closed port as a fault of a later receive.
fn bound<R: Net>(net: &R, port: u16) -> io::Result<UdpSocket> {
    let socket = UdpSocket::bind(net, (Ipv4Addr::UNSPECIFIED, port))?;
    socket.set_read_timeout(Some(Duration::from_millis(20)))?;
    Ok(socket)
}

/// Is it no fault: the wait was over, or a signal ended it?
fn is_quiet(error: &io::Error) -> bool {
    error.kind() == io::ErrorKind::WouldBlock || error.kind() == io::ErrorKind::Interrupted
}

/// A network and a datagram, written into a packet's memory; none where they do not fit.
fn packed<'p>(packet: &'p mut [u8], network: u8, bytes: &[u8]) -> Option<&'p [u8]> {
    let len = bytes.len();
    if len >= packet.len() {
        return None;
    }
    packet[0] = network;
    packet[1..=len].copy_from_slice(bytes);
    Some(&packet[..=len])
}

/// The datagram behind its network, copied to the front of a buffer: how long it is, and the network. None where it
/// has none.
fn unpacked(packet: &[u8], buf: &mut [u8]) -> Option<(usize, u8)>
    ensures { IfSome result (λ x. x.0 ≤ length buf.old) }
{
    let (network, bytes) = packet.split_first()?;
    let network = *network;
    if !is_network(network) || bytes.len() > buf.len() {
        return None;
    }
    buf[..bytes.len()].copy_from_slice(bytes);
    Some((bytes.len(), network))
}

impl<R: Net> Link for UdpLink<'_, R> {
    ghost use Rattle.std.specs.Prelude.{None};

    ghost calls = { λ _. None };

    ghost places = { λ _. None };

    ghost opened = { λ _. None };

    ghost faults = { λ l. l.faults };

    fn open(&mut self, port: u16) -> bool {
        match bound(self.net, port) {
            Ok(socket) => {
                self.socket = Some(socket);
                true
            }
            Err(_) => {
                self.fail();
                false
            }
        }
    }

    fn place(&mut self, node: u8, network: u8, address: u32, port: u16) {
        self.places.set(node, network, address, port);
    }

    fn recv(&mut self, buf: &mut [u8]) -> Got {
        let Some(socket) = &self.socket else {
            self.fail();
            return Got::Failed;
        };
        match socket.recv_from(self.packet.as_mut_slice()) {
            Ok((n, from)) => {
                let Some((len, network)) = unpacked(&self.packet.as_slice()[..n], buf) else {
                    return Got::Quiet;
                };
                self.from = Some(from);
                Got::Datagram(len, network)
            }
            Err(e) => {
                if is_quiet(&e) {
                    return Got::Quiet;
                }
                self.fail();
                Got::Failed
            }
        }
    }

    fn send(&mut self, node: u8, network: u8, bytes: &[u8]) -> Put {
        let to = self.address_of(node, network);
        if let (Some(socket), Some(to)) = (&self.socket, to) {
            if let Some(packet) = packed(self.packet.as_mut_slice(), network, bytes) {
                if socket.send_to(packet, to).is_ok() {
                    return Put::Done;
                }
            }
        }
        self.fail();
        Put::Failed
    }
}

/// Milliseconds from 1970, as the system's clock had them when this one was made, and from then on by its monotonic
/// clock: so a moment is never less than the one before, also where the system's clock is set back. Where the system
/// has no clock, the moment stands still.
#[derive(Drop)]
pub struct SysClock<'r, R> {
    clock: &'r R,
    start: Option<Instant>,
    begun: u64,
    last: u64,
}

fn millis_of(duration: Duration) -> u64 {
    u64::try_from(duration.as_millis()).unwrap_or(u64::MAX)
}

/// Milliseconds from 1970; 0 where the system does not say.
fn since_1970<R: std::rt::Clock>(clock: &R) -> u64 {
    let Ok(now) = SystemTime::now(clock) else {
        return 0;
    };
    match now.duration_since(SystemTime::UNIX_EPOCH) {
        Ok(d) => millis_of(d),
        Err(_) => 0,
    }
}

impl<'r, R: std::rt::Clock> SysClock<'r, R> {
    pub fn new(clock: &'r R) -> SysClock<'r, R> {
        let begun = since_1970(clock);
        SysClock {
            clock,
            start: Instant::now(clock).ok(),
            begun,
            last: begun,
        }
    }
}

impl<R: std::rt::Clock> Clock for SysClock<'_, R> {
    ghost use Rattle.std.specs.Prelude.{None};

    ghost moments = { λ _. None };

    ghost last = { λ c. c.last };

    fn now(&mut self) -> u64 {
        if let Some(start) = self.start {
            if let Ok(passed) = start.elapsed(self.clock) {
                let moment = self.begun.saturating_add(millis_of(passed));
                self.last = self.last.max(moment);
            }
        }
        self.last
    }
}
