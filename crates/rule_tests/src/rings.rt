//! Two rings become one.
use adapter_ring::{Ring, RingEvent, RingOut, RingPacket, RingSend, RingSet, RingSettings};
use rsct_packet::{Mask, NoMemory, RingId};
use std::alloc::Global;

const SETTINGS: RingSettings = RingSettings {
    addr: [
        1, 2, 0, 0, 0, 0, 0, 0, 0, 0, 0, 0, 0, 0, 0, 0, 0, 0, 0, 0, 0, 0, 0, 0, 0, 0, 0, 0, 0, 0,
        0, 0,
    ],
    every: 1,
    misses: 4,
};

const FIRST: Mask = Mask { bits: 1 };

const BOTH: Mask = Mask { bits: 3 };

/// The ring of node 2 with node 1.
const SECOND_RING: RingId = RingId {
    leader: 2,
    inc: 1,
    number: 2,
};

fn heard(packet: RingPacket) -> RingEvent {
    RingEvent::Packet {
        from: 1,
        inc: 1,
        packet,
    }
}

fn to_one(packet: RingPacket) -> RingSend {
    RingSend {
        network: 1,
        to: 1,
        packet,
    }
}

/// Node 2 proclaims, and node 1 joins it.
fn join(ring: &mut Ring, alloc: Global, out: &mut RingOut) -> Result<(), NoMemory> {
    ring.step(alloc, RingEvent::Tick, out)?;
    ring.step(alloc, heard(RingPacket::Join { mask: FIRST }), out)?;
    ring.step(alloc, heard(RingPacket::PtcAck { ring: SECOND_RING }), out)
}

/// What node 2 sends meanwhile, from its ring of one.
fn wanted(first: RingId) -> [RingSend; 3] {
    [
        to_one(RingPacket::Proclaim { ring: first }),
        to_one(RingPacket::Ptc {
            ring: SECOND_RING,
            mask: BOTH,
        }),
        to_one(RingPacket::Commit {
            ring: SECOND_RING,
            mask: BOTH,
        }),
    ]
}

/// The ring of both, as node 2 has it.
fn both() -> RingSet {
    RingSet {
        id: SECOND_RING,
        members: BOTH,
        neighbour: 1,
    }
}

#[test]
fn two_become_one_ring(rt: HostRuntime) {
    let mut ring = Ring::new(1, 2, 1, SETTINGS);
    let first = ring.id();
    let mut out = RingOut::new(rt.alloc());
    join(&mut ring, rt.alloc(), &mut out).expect(&rt, "memory");
    assert!(rt; out.sends.as_slice() == wanted(first).as_slice());
    assert!(rt; out.set == Some(both()));
}
