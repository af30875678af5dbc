//! An envelope: a packet with its way in front.
ghost use Rattle.std.specs.Prelude.{◌≡◌, ◌≢◌, ◌++◌, ◌≤◌, IsTrue, IfSome, OnOk, OnErr, Some};
ghost use Rattle.rsct_packet.specs.Reading.{Gives};
ghost use Rattle.rsct_packet.specs.Fields.{IsNode};
ghost use Rattle.route_state.specs.Envelope.{EnvelopeView, IsEnvelope, is_carried, front_at, front_text, envelope_of, envelope_text};

use packet_codec::PacketRef;
use route_state::{Front, MAX_HOPS};
use rsct_packet::{NoMemory, known, read_node, read_u8, read_u16};
use std::alloc::Global;
use std::marker::Model;

/// A packet that the origin sends to the target, on its way through other nodes. The packet is a part of the datagram,
/// whose format is in docs/formats.md.
#[derive(Drop)]
pub struct Envelope<'a> {
    pub front: Front,
    pub inner: &'a [u8],
}

impl<'a> Model for Envelope<'a> {
    ghost use Rattle.route_state.specs.Envelope.{EnvelopeView};

    ghost Value = { EnvelopeView };

    ghost view = { λ e. record { front = e.front; inner = e.inner.now } };
}

/// Are the bytes a packet that the one node sends to the other?
#[tactic(auto, unfolding(route_state::specs::Envelope::is_carried))]
pub fn is_carried(origin: u8, target: u8, inner: &[u8]) -> bool
    ensures { result ≡ is_carried origin target inner.now }
{
    match PacketRef::read(inner) {
        None => false,
        Some(packet) => packet.from == origin && packet.to == target,
    }
}

#[tactic(auto, unfolding(route_state::specs::Envelope::front_at))]
fn read_front(bytes: &[u8]) -> Option<(Front, &[u8])>
    ensures { Gives result (front_at bytes.now) }
{
    let (mark, bytes) = read_u16(bytes)?;
    let (hops, bytes) = read_u8(bytes)?;
    let (zero, bytes) = read_u8(bytes)?;
    let (origin, bytes) = read_node(bytes)?;
    let (target, bytes) = read_node(bytes)?;
    if mark != 0x5254 || zero != 0 || hops > MAX_HOPS {
        return None;
    }
    Some((
        Front {
            hops,
            origin,
            target,
        },
        bytes,
    ))
}

#[tactic(auto, unfolding(route_state::specs::Envelope::envelope_of))]
fn read_alone(bytes: &[u8]) -> Option<Envelope>
    ensures { result ≡ envelope_of bytes.now }
{
    let (front, inner) = read_front(bytes)?;
    if !is_carried(front.origin, front.target, inner) {
        return None;
    }
    Some(Envelope { front, inner })
}

impl<'a> Envelope<'a> {
    /// The envelope that a datagram is; None exactly where it is none: the mark 52 54, how often it may be sent on (0 to
    /// 31), a zero byte, two nodes, and a packet that the first of them sends to the second.
    #[tactic(auto, using(route_state::proofs::EnvelopeLaws::read_found, route_state::proofs::EnvelopeLaws::read_only))]
    pub fn read(bytes: &'a [u8]) -> Option<Envelope<'a>>
        ensures value { result ≡ envelope_of bytes.now }
        ensures found { IfSome result (λ e. IsEnvelope e × (bytes.now ≡ envelope_text e)) }
        ensures only { (e : EnvelopeView) → IsEnvelope e → bytes.now ≡ envelope_text e
            → result ≡ Some e }
    {
        read_alone(known(bytes))
    }
}

#[tactic(auto, unfolding(route_state::specs::Envelope::front_text, rsct_packet::specs::Fields::u16_text))]
fn front_bytes(front: Front) -> [u8; 6]
    ensures { result ≡ front_text front }
{
    [0x52, 0x54, front.hops, 0, front.origin, front.target]
}

/// Appends an envelope. Where memory has run out nothing is appended.
#[tactic(auto, unfolding(route_state::specs::Envelope::envelope_text))]
pub(crate) fn put_envelope(out: &mut Vec<u8>, front: Front, inner: &[u8]) -> Result<(), NoMemory>
    ensures ok { OnOk result (out.new.items ≡ out.old.items
        ++ envelope_text (record { front = front; inner = inner.now })) }
    ensures err { OnErr result (out.new.items ≡ out.old.items) }
{
    let before = out.len();
    out.extend_from_slice(&front_bytes(front))?;
    if let Err(e) = out.extend_from_slice(inner) {
        out.truncate(before);
        return Err(NoMemory::from(e));
    }
    Ok(())
}

/// Appends the envelope of a packet that the origin's node sends to the target, as it leaves the origin: it may be sent
/// on 31 times. Where memory has run out nothing is appended.
pub fn wrap(
    _alloc: Global,
    origin: u8,
    target: u8,
    packet: &[u8],
    out: &mut Vec<u8>,
) -> Result<(), NoMemory>
    requires origin { IsNode origin }
    requires target { IsNode target }
    requires apart { origin ≢ target }
    requires carried { IsTrue (is_carried origin target packet.now) }
    ensures ok { OnOk result (out.new.items ≡ out.old.items ++ envelope_text (record {
      front = record { hops = 31; origin = origin; target = target };
      inner = packet.now;
    })) }
    ensures err { OnErr result (out.new.items ≡ out.old.items) }
{
    put_envelope(
        out,
        Front {
            hops: MAX_HOPS,
            origin,
            target,
        },
        packet,
    )
}
