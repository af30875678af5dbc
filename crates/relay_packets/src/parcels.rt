//! What a datagram has, as bytes.
ghost use Rattle.std.specs.Prelude.{◌≡◌, ◌++◌, IfOk, Some};
ghost use Rattle.node_state.specs.Bytes.{packet_of};
ghost use Rattle.packet_codec.specs.Datagram.{packet_as, IsDatagram};
ghost use Rattle.relay_model.specs.Leaving.{Bare, Wrapped};
ghost use Rattle.relay_model.specs.Limits.{parcel_len};
ghost use Rattle.relay_packets.specs.Parcels.{front_in};
ghost use Rattle.relay_runs.specs.Arrivals.{carried};

use node_state::Packet;
use packet_codec::{is_writable, write_packet};
use route_state::Front;
use rsct_packet::NoMemory;
use std::alloc::Global;
use std::marker::Model;

/// How many bytes the front of an envelope has.
const FRONT_LEN: usize = 6;

/// A packet by itself, as the bytes that spell it, or one in an envelope with this front.
#[derive(Drop)]
pub struct KeptParcel {
    front: Option<Front>,
    bytes: Vec<u8>,
}

impl Model for KeptParcel {
    ghost use Rattle.packet_codec.specs.Datagram.{IsDatagram};
    ghost use Rattle.relay_model.specs.Leaving.{Parcel};
    ghost use Rattle.relay_packets.specs.Parcels.{parcel_of};

    ghost Value = { Parcel };

    ghost view = { λ d. parcel_of d.front d.bytes.items };

    ghost invariant = { λ d. IsDatagram d.bytes.items };
}

/// The bytes of a packet. One that has no spelling counts as want of memory, as it does where it leaves a machine.
#[tactic(auto, using(packet_codec::proofs::DatagramLaws::packet_again, packet_codec::proofs::DatagramLaws::is_datagram))]
fn spelled(alloc: Global, packet: &Packet) -> Result<Vec<u8>, NoMemory>
    ensures { IfOk result (λ b. IsDatagram b.items × (packet_as b.items ≡ packet.now)) }
{
    if !is_writable(packet) {
        return Err(NoMemory);
    }
    let mut bytes = Vec::new(alloc);
    write_packet(alloc, &mut bytes, packet)?;
    Ok(bytes)
}

/// The same bytes.
fn copied(alloc: Global, bytes: &[u8]) -> Result<Vec<u8>, NoMemory>
    ensures { IfOk result (λ b. b.items ≡ bytes.now) }
{
    let mut copy = Vec::new(alloc);
    copy.extend_from_slice(bytes)?;
    Ok(copy)
}

impl KeptParcel {
    /// A packet by itself.
    pub fn bare(alloc: Global, packet: &Packet) -> Result<KeptParcel, NoMemory>
        ensures { IfOk result (λ d. d ≡ Bare packet.now) }
    {
        Ok(KeptParcel {
            front: None,
            bytes: spelled(alloc, packet)?,
        })
    }

    /// A packet in an envelope.
    pub fn wrapped(alloc: Global, front: Front, packet: &Packet) -> Result<KeptParcel, NoMemory>
        ensures { IfOk result (λ d. d ≡ Wrapped front packet.now) }
    {
        Ok(KeptParcel {
            front: Some(front),
            bytes: spelled(alloc, packet)?,
        })
    }

    /// Its packet in an envelope with this front.
    #[tactic(auto, using(crate::proofs::ParcelLaws::packet_there))]
    pub fn in_envelope(&self, alloc: Global, front: Front) -> Result<KeptParcel, NoMemory>
        ensures { IfOk result (λ d. d ≡ Wrapped front (carried self.now)) }
    {
        Ok(KeptParcel {
            front: Some(front),
            bytes: copied(alloc, self.bytes.as_slice())?,
        })
    }

    /// The front of its envelope; None where it is a packet by itself.
    #[tactic(auto, using(crate::proofs::ParcelLaws::front_there))]
    pub fn front(&self) -> Option<Front>
        ensures { result ≡ front_in self.now }
    {
        self.front
    }

    /// The bytes of its packet.
    #[tactic(auto, using(crate::proofs::ParcelLaws::packet_read))]
    pub fn packet_bytes(&self) -> &[u8]
        ensures { packet_of result.now ≡ Some (carried self.now) }
    {
        self.bytes.as_slice()
    }

    /// How many bytes it has. So many that no number says it count as want of memory.
    #[tactic(auto, using(crate::proofs::ParcelLaws::bare_len, crate::proofs::ParcelLaws::wrapped_len))]
    pub fn len(&self) -> Result<usize, NoMemory>
        ensures { IfOk result (λ n. n ≡ parcel_len self.now) }
    {
        let len = self.bytes.len();
        if self.front.is_none() {
            return Ok(len);
        }
        match len.checked_add(FRONT_LEN) {
            None => Err(NoMemory),
            Some(n) => Ok(n),
        }
    }
}
