//! All that a program works over as one value: a sink, a link and a clock, with one list of what was done.
ghost use Rattle.std.specs.Prelude.{◌≡◌, ◌≤◌, ◌∷◌, [], length};
ghost use Rattle.hags_io.specs.Deeds.{Read, Placed, Opened};
ghost use Rattle.hags_io.specs.Telling.{Telling, Did, DidReceive, DidSend, DidWrite, telling_of};

use crate::history::History;
use crate::link::{Clock, Got, Link};
use crate::source::{Put, Sink};

/// What a program works over. It tells all deeds in the order in which they happened, each as it is called here, and what
/// the parts tell that did them (`Did`). A call that found no memory did nothing, and is no deed.
pub trait Outside {
    ghost told: { Self → Telling };

    /// Tells where the node's adapter on the network is, in place of what was told of it before.
    fn place(&mut self, node: u8, network: u8, address: u32, port: u16)
        requires node { (1 ≤ node) × (node ≤ 32) }
        requires network { (1 ≤ network) × (network ≤ 4) }
        ensures { Did (told self.old) (told self.new) (Placed node network address port ∷ []) };

    /// Opens the link at a port, where 0 is any that is free. False where it could not be opened.
    fn open(&mut self, port: u16) -> bool
        ensures { Did (told self.old) (told self.new) (Opened port result ∷ []) };

    /// Reads the clock: milliseconds from 1970, which never fall.
    fn now(&mut self) -> u64
        ensures read { Did (told self.old) (told self.new) (Read result ∷ []) }
        ensures later { (told self.old).last_moment ≤ result };

    /// Receives one datagram, if one comes. `Failed` and `NoMemory` take none.
    fn recv(&mut self, buf: &mut [u8]) -> Got
        requires { 65536 ≤ length buf.old }
        ensures { DidReceive (told self.old) (told self.new) result buf.new };

    /// Sends to the node's adapter on the network; to node 0: to the sender of the datagram last received.
    fn send(&mut self, node: u8, network: u8, bytes: &[u8]) -> Put
        ensures { DidSend (told self.old) (told self.new) result node network bytes.now };

    /// Writes all of the bytes, or a front of them where it fails.
    fn write(&mut self, bytes: &[u8]) -> Put
        ensures { DidWrite (told self.old) (told self.new) result bytes.now };
}

/// An outside that is made of a sink, a link and a clock. Its history takes no memory.
#[derive(Drop)]
pub struct Parts<K, L, M> {
    pub out: K,
    pub link: L,
    pub clock: M,
    pub history: History,
}

impl<K: Sink, L: Link, M: Clock> Outside for Parts<K, L, M> {
    ghost told = { λ p. telling_of p.history.deeds (L.calls p.link) (L.places p.link)
        (L.opened p.link) (L.faults p.link) (K.held p.out) (K.faults p.out)
        (M.moments p.clock) (M.last p.clock) };

    #[tactic(auto, using(crate::proofs::DeedLaws::did_place))]
    fn place(&mut self, node: u8, network: u8, address: u32, port: u16) {
        self.link.place(node, network, address, port);
        self.history = self.history.placed(node, network, address, port);
    }

    #[tactic(auto, using(crate::proofs::DeedLaws::did_open))]
    fn open(&mut self, port: u16) -> bool {
        let done = self.link.open(port);
        self.history = self.history.opened(port, done);
        done
    }

    #[tactic(auto, using(crate::proofs::DeedLaws::did_read))]
    fn now(&mut self) -> u64 {
        let moment = self.clock.now();
        self.history = self.history.read(moment);
        moment
    }

    #[tactic(auto, using(crate::proofs::DeedLaws::did_receive, crate::proofs::DeedLaws::did_quiet, crate::proofs::DeedLaws::did_fail, crate::proofs::DeedLaws::did_none_at_link))]
    fn recv(&mut self, buf: &mut [u8]) -> Got {
        let got = self.link.recv(buf);
        match got {
            Got::Datagram(len, network) => {
                self.history = self.history.received(network, &buf[..len]);
            }
            Got::Quiet => self.history = self.history.quiet(),
            Got::Failed => self.history = self.history.failed(),
            Got::NoMemory => {}
        }
        got
    }

    #[tactic(auto, using(crate::proofs::DeedLaws::did_send, crate::proofs::DeedLaws::did_lose, crate::proofs::DeedLaws::did_none_at_link))]
    fn send(&mut self, node: u8, network: u8, bytes: &[u8]) -> Put {
        let put = self.link.send(node, network, bytes);
        match put {
            Put::Done => self.history = self.history.sent(node, network, bytes, true),
            Put::Failed => self.history = self.history.sent(node, network, bytes, false),
            Put::NoMemory => {}
        }
        put
    }

    #[tactic(auto, using(crate::proofs::DeedLaws::did_write, crate::proofs::DeedLaws::did_write_front, crate::proofs::DeedLaws::did_none_at_sink))]
    fn write(&mut self, bytes: &[u8]) -> Put {
        let put = self.out.put(bytes);
        match put {
            Put::Done => self.history = self.history.wrote(bytes, true),
            Put::Failed => self.history = self.history.wrote(bytes, false),
            Put::NoMemory => {}
        }
        put
    }
}
