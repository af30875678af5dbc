//! What leaves a node.
ghost use Rattle.std.specs.Prelude.{◌≡◌, IfOk, option_copied, option_map};
ghost use Rattle.route_state.specs.Relaying.{may_relay};
ghost use Rattle.relay_model.specs.Leaving.{alone, wrapped, around, leaves_as};
ghost use Rattle.relay_model.specs.Relays.{passed};
ghost use Rattle.relay_runs.specs.Arrivals.{carried};
ghost use Rattle.relay_packets.specs.Leaving.{leaving_in};

use crate::parcels::KeptParcel;
use node_sending::network_to;
use node_state::{Body, Core, Packet};
use route_state::{Front, MAX_HOPS};
use rsct_packet::NoMemory;
use std::alloc::Global;

/// A datagram as it leaves a node: from whom to whom, and on which network.
#[derive(Drop)]
pub struct Departure {
    pub from: u8,
    pub to: u8,
    pub network: u8,
    pub parcel: KeptParcel,
}

/// May the packet of this body go through other nodes?
fn may_relay(body: &Body) -> bool
    ensures { result ≡ may_relay body.now }
{
    match body {
        Body::Ring { .. } => false,
        Body::Report { .. } => false,
        Body::Query { .. } => false,
        Body::Reply { .. } => false,
        _ => true,
    }
}

/// A packet that leaves by itself.
fn alone(alloc: Global, packet: &Packet) -> Result<Departure, NoMemory>
    ensures { IfOk result (λ d. leaving_in d ≡ alone packet.now) }
{
    Ok(Departure {
        from: packet.from,
        to: packet.to,
        network: packet.network,
        parcel: KeptParcel::bare(alloc, packet)?,
    })
}

/// A packet that leaves in an envelope, to the next hop.
fn wrapped(alloc: Global, core: &Core, packet: Packet, hop: u8) -> Result<Departure, NoMemory>
    ensures { IfOk result (λ d. leaving_in d ≡ wrapped core.now packet hop) }
{
    let front = Front {
        hops: MAX_HOPS,
        origin: packet.from,
        target: packet.to,
    };
    let mut packet = packet;
    packet.network = 1;
    Ok(Departure {
        from: front.origin,
        to: hop,
        network: network_to(core, hop),
        parcel: KeptParcel::wrapped(alloc, front, &packet)?,
    })
}

/// A packet to a node that shares no network with its sender: without a next hop it is lost.
fn around(
    alloc: Global,
    sender: Option<&Core>,
    packet: Packet,
) -> Result<Option<Departure>, NoMemory>
    ensures { IfOk result (λ o. option_map leaving_in o
        ≡ around (option_copied sender.entry) packet) }
{
    let Some(core) = sender else {
        return Ok(None);
    };
    match core.reach.next_hop(packet.to) {
        None => Ok(None),
        Some(hop) => Ok(Some(wrapped(alloc, core, packet, hop)?)),
    }
}

/// As what a packet that a step sent leaves, where this is its sender after the step; None where it is lost.
#[tactic(auto, unfolding(relay_model::specs::Leaving::leaves_as))]
pub fn departs(
    alloc: Global,
    sender: Option<&Core>,
    packet: Packet,
) -> Result<Option<Departure>, NoMemory>
    ensures { IfOk result (λ o. option_map leaving_in o
        ≡ leaves_as (option_copied sender.entry) packet) }
{
    if packet.network != 0 {
        return Ok(Some(alone(alloc, &packet)?));
    }
    if !may_relay(&packet.body) {
        return Ok(None);
    }
    around(alloc, sender, packet)
}

/// An envelope as it goes on from a node.
pub fn goes_on(
    alloc: Global,
    core: &Core,
    from: u8,
    to: u8,
    front: Front,
    parcel: &KeptParcel,
) -> Result<Departure, NoMemory>
    ensures { IfOk result (λ d. leaving_in d
        ≡ passed core.now from to front (carried parcel.now)) }
{
    Ok(Departure {
        from,
        to,
        network: network_to(core, to),
        parcel: parcel.in_envelope(alloc, front)?,
    })
}
