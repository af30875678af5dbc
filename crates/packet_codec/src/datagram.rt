//! The bytes of a packet.
ghost use Rattle.std.specs.Prelude.{◌≡◌, IfOk, Some};
ghost use Rattle.node_state.specs.Bytes.{packet_of, bytes_of, packet_len};

use crate::writable_packets::is_writable;
use crate::writing::write_packet;
use node_state::Packet;
use rsct_packet::NoMemory;
use std::alloc::Global;
use std::marker::Model;

/// A packet as the bytes that spell it.
#[derive(Drop)]
pub struct Datagram {
    bytes: Vec<u8>,
}

impl Model for Datagram {
    ghost use Rattle.node_state.specs.declared.packet.Packet.{Packet};
    ghost use Rattle.packet_codec.specs.Datagram.{packet_as, IsDatagram};

    ghost Value = { Packet };

    ghost view = { λ d. packet_as d.bytes.items };

    ghost invariant = { λ d. IsDatagram d.bytes.items };
}

impl Datagram {
    /// The bytes of a packet. One that has no spelling, since its numbers, lists or texts pass what its fields can
    /// hold, counts as want of memory: no packet of a node is so, but that is not proved.
    #[tactic(auto, using(crate::proofs::DatagramLaws::packet_again, crate::proofs::DatagramLaws::is_datagram))]
    pub fn of(alloc: Global, packet: &Packet) -> Result<Datagram, NoMemory>
        ensures { IfOk result (λ d. d ≡ packet.now) }
    {
        if !is_writable(packet) {
            return Err(NoMemory);
        }
        let mut bytes = Vec::new(alloc);
        write_packet(alloc, &mut bytes, packet)?;
        Ok(Datagram { bytes })
    }

    /// The bytes, which are read as the packet, and are those that spell it.
    #[tactic(auto, using(crate::proofs::DatagramLaws::datagram_spells))]
    pub fn bytes(&self) -> &[u8]
        ensures read { packet_of result.now ≡ Some self.now }
        ensures spelled { result.now ≡ bytes_of self.now }
    {
        self.bytes.as_slice()
    }

    /// How many bytes the packet has.
    #[tactic(auto, using(crate::proofs::DatagramLaws::datagram_len))]
    pub fn len(&self) -> usize
        ensures { result ≡ packet_len self.now }
    {
        self.bytes.len()
    }
}
