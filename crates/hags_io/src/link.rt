//! What datagrams come and go by, and what tells the time.
ghost use Rattle.std.specs.Prelude.{◌≡◌, ◌≤◌, ℕ, Bool, List as Listed, length, false, ◌∷◌, []};
ghost use Rattle.std.specs.declared.option.Option.{Option};
ghost use Rattle.hags_io.specs.Edges.{Rose};
ghost use Rattle.hags_io.specs.Links.{Same, Tells, Receives, Sends, Counts, was_opened};
ghost use Rattle.hags_io.specs.Places.{with_place, no_places, told_place};
ghost use Rattle.hags_io.specs.declared.link.LinkCall.{LinkCall};
ghost use Rattle.hags_io.specs.declared.link.Places.{Places};

use crate::source::Put;
use rsct_packet::List;

/// A buffer of so many bytes holds whatever datagram a link can give, and the network before it on the wire.
pub const DATAGRAM_ROOM: usize = 65_536;

/// What a link gave: a datagram of so many bytes, at the front of the buffer, that came on this network; nothing for
/// now; a fault; or nothing for want of memory.
#[derive(Clone, Copy, Debug, PartialEq, Eq)]
pub enum Got {
    Datagram(usize, u8),
    Quiet,
    Failed,
    NoMemory,
}

/// One call of a link, as it is told: a receive with what it gave (the network and the bytes), or a send with what it
/// was handed (the node, the network, the bytes) and whether it went out.
#[derive(Drop)]
pub enum LinkCall {
    Received(u8, List<u8>),
    Quiet,
    Failed,
    Sent(u8, u8, List<u8>, bool),
}

/// Where adapters are: at `[network - 1][node - 1]` an IPv4 address, 0 where none was told, and a port.
#[derive(Clone, Copy)]
pub struct Places {
    pub addresses: [[u32; 32]; 4],
    pub ports: [[u16; 32]; 4],
}

impl Places {
    /// The table in which no place is told.
    pub fn none() -> Places
        ensures { result ≡ no_places }
    {
        Places {
            addresses: [[0; 32]; 4],
            ports: [[0; 32]; 4],
        }
    }

    /// Tells the place of one adapter, in place of what was told of it before.
    pub fn set(&mut self, node: u8, network: u8, address: u32, port: u16)
        requires node { (1 ≤ node) × (node ≤ 32) }
        requires network { (1 ≤ network) × (network ≤ 4) }
        ensures { self.new ≡ with_place node network address port self.old }
    {
        let (row, column) = (usize::from(network) - 1, usize::from(node) - 1);
        self.addresses[row][column] = address;
        self.ports[row][column] = port;
    }

    /// The address and the port of an adapter, where they were told.
    pub fn get(&self, node: u8, network: u8) -> Option<(u32, u16)>
        requires node { (1 ≤ node) × (node ≤ 32) }
        requires network { (1 ≤ network) × (network ≤ 4) }
        ensures { result ≡ told_place node network self.now }
    {
        let (row, column) = (usize::from(network) - 1, usize::from(node) - 1);
        let address = self.addresses[row][column];
        if address == 0 {
            return None;
        }
        Some((address, self.ports[row][column]))
    }
}

/// Datagrams. A link that tells has the list of its receives and sends, in their order, which only grows; the places
/// that it was told; and the port of its last `open` with its answer. A call that found no memory is not in the list.
/// `faults` counts the calls that failed; it never falls, and stands still at its last value,
/// 18,446,744,073,709,551,615.
pub trait Link {
    ghost calls: { Self → Option (Listed LinkCall) };

    ghost places: { Self → Option Places };

    ghost opened: { Self → Option (Option (ℕ × Bool)) };

    ghost faults: { Self → ℕ };

    /// Opens the link at a port, where 0 is any that is free. False where it could not be opened.
    fn open(&mut self, port: u16) -> bool
        ensures opened { Tells (opened self.old) (opened self.new) (was_opened port result) }
        ensures calls { Same (calls self.old) (calls self.new) }
        ensures places { Same (places self.old) (places self.new) }
        ensures later { faults self.old ≤ faults self.new }
        ensures failed { result ≡ false → Rose (faults self.old) (faults self.new) };

    /// Tells where the node's adapter on the network is, in place of what was told of it before.
    fn place(&mut self, node: u8, network: u8, address: u32, port: u16)
        requires node { (1 ≤ node) × (node ≤ 32) }
        requires network { (1 ≤ network) × (network ≤ 4) }
        ensures places { Tells (places self.old) (places self.new)
            (with_place node network address port) }
        ensures calls { Same (calls self.old) (calls self.new) }
        ensures opened { Same (opened self.old) (opened self.new) }
        ensures later { faults self.new ≡ faults self.old };

    /// Receives one datagram, if one comes. `Failed` and `NoMemory` take none.
    fn recv(&mut self, buf: &mut [u8]) -> Got
        requires { 65536 ≤ length buf.old }
        ensures told { Receives (calls self.old) (calls self.new) result buf.new }
        ensures places { Same (places self.old) (places self.new) }
        ensures opened { Same (opened self.old) (opened self.new) }
        ensures later { faults self.old ≤ faults self.new }
        ensures failed { result ≡ Got.Failed → Rose (faults self.old) (faults self.new) };

    /// Sends to the node's adapter on the network; to node 0: to the sender of the datagram last received.
    fn send(&mut self, node: u8, network: u8, bytes: &[u8]) -> Put
        ensures told { Sends (calls self.old) (calls self.new) result node network bytes.now }
        ensures places { Same (places self.old) (places self.new) }
        ensures opened { Same (opened self.old) (opened self.new) }
        ensures later { faults self.old ≤ faults self.new }
        ensures failed { result ≡ Put.Failed → Rose (faults self.old) (faults self.new) };
}

/// Milliseconds from 1970, which never fall. A clock that tells has the list of the moments that it gave; it may stop
/// telling, for good. `last` is the moment that it gave last.
pub trait Clock {
    ghost moments: { Self → Option (Listed ℕ) };

    ghost last: { Self → ℕ };

    fn now(&mut self) -> u64
        ensures told { Counts (moments self.old) (moments self.new) (result ∷ []) }
        ensures later { last self.old ≤ result }
        ensures kept { last self.new ≡ result };
}
