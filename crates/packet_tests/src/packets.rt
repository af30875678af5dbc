//! Whole packets: that memory which is there is used, and bytes composed by hand.
use adapter_ring::RingPacket;
use node_state::{Body, Packet};
use packet_codec::{BodyRef, PacketRef, write_packet};
use rsct_packet::RingId;

/// The heartbeat of node 2 to node 1 on network 1, in the ring `3.1.3`.
const HEARTBEAT: [u8; 25] = [
    0x52, 0x47, 0x01, 0x01, 0x01, 0x02, 0x01, 0x00, 0x00, 0x00, 0x00, 0x01, 0x00, 0x00, 0x00, 0x09,
    0x00, 0x00, 0x00, 0x03, 0x03, 0x00, 0x00, 0x00, 0x01,
];

const RING: RingId = RingId {
    leader: 3,
    inc: 1,
    number: 3,
};

/// Is it of node 2, with the heartbeat of the ring `3.1.3`?
fn is_heartbeat(packet: &PacketRef<'_>) -> bool {
    packet.from == 2
        && matches!(
            &packet.body,
            BodyRef::Ring(RingPacket::Heartbeat { ring: RING })
        )
}

#[test]
fn a_heartbeat_is_read(rt: HostRuntime) {
    let packet = PacketRef::read(&HEARTBEAT).expect(&rt, "a packet");
    assert!(rt; is_heartbeat(&packet));
    assert!(rt; PacketRef::read(&HEARTBEAT[..24]).is_none());
}

#[test]
#[tactic(auto, using(crate::proofs::Heartbeats::heartbeat_is_spelled))]
fn a_heartbeat_is_written(rt: HostRuntime) {
    let packet = Packet {
        network: 1,
        from: 2,
        to: 1,
        inc: 1,
        level: 1,
        domain: 0,
        body: Body::Ring {
            packet: RingPacket::Heartbeat { ring: RING },
        },
    };
    let mut out = Vec::new(rt.alloc());
    write_packet(rt.alloc(), &mut out, &packet).expect(&rt, "memory");
    assert!(rt; out.as_slice() == HEARTBEAT.as_slice());
}
