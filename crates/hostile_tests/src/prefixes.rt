//! Packets cut short: no reader takes one, and a node neither sends nor records anything at it.
use client_callbacks::ScriptClient;
use node_core::{Node, NodeEvent};
use packet_codec::PacketRef;
use rsct_packet::Packet;
use script_reader::read_script;
use std::alloc::Global;

/// The heartbeat of node 2 to node 1 on network 1, in the ring `3.1.3`.
const HEARTBEAT: &[u8] = b"RG\x01\x01\x01\x02\x01\0\0\0\0\x01\0\0\0\x09\0\0\0\x03\x03\0\0\0\x01";

/// Node 3's answer to node 1 for the view `3.1.1`: of the group `db` in `2.1.1` it has the second entry.
const ANSWER: &[u8] =
    b"RG\x01\x0a\x01\x03\x01\0\0\0\0\x01\0\0\0b\0\0\0\x03\x01\0\0\0\x01\0\0\0\x02\x01\0\0\0\x01\x01\x02db\0\0\0\x01\x02\x02\0\0\0\x01\0\x01\0\0\0\x01\x03\0\0\0\x01\0\x01\0\0\0\x01\0\0\x01\0\x01\0\0\x01\0\0\0\0\0\0\0\0\0\0\0\x01\0\0\0\x19\x01\x01\x01\x03\0\0\0\x01\0\x01\0\0\0\x01\x01\0\x01\0\0\x01\0\0\0\0\0";

/// What node 1 makes of it for node 3: the third entry, which node 1 has.
const INSTALL: &[u8] =
    b"RG\x01\x0c\x01\x01\x03\0\0\0\0\x01\0\0\0n\0\0\0\x03\x01\0\0\0\x01\x02\x01\0\0\0\x01\x03\0\0\0\x01\x01\0\0\0\x02\x01\0\0\0\x01\0\0\0\x05\x01\x02db\0\0\0\x02\x02\x02\0\0\0\x01\0\x01\0\0\0\x01\x03\0\0\0\x01\0\x01\0\0\0\x01\0\0\x01\0\x01\0\0\x01\0\0\0\0\0\0\0\0\0\0\0\x01\0\0\0\x15\x01\x06\x02\0\0\0\x01\0\x01\0\0\0\x01\0\0\0\x02\0\x02hi";

/// This node of three, in its first incarnation.
fn started(alloc: Global, me: u8) -> Option<Node<ScriptClient>> {
    let script = read_script(alloc, b"mode asked\nnode 1\nnode 2\nnode 3\nbegin\n").ok()?;
    Node::start(alloc, *script.config(), me, 1).ok()
}

/// Is the step done, and neither sends nor records anything?
fn is_silent(node: &mut Node<ScriptClient>, alloc: Global, bytes: &[u8]) -> bool {
    let done = node.step(alloc, NodeEvent::Datagram(bytes)).is_ok();
    done && node.core().sends.is_empty() && node.core().records.is_empty()
}

/// Are all fronts of a packet dropped, the packet itself left out?
fn are_dropped(node: &mut Node<ScriptClient>, alloc: Global, packet: &[u8]) -> bool {
    for len in 0..packet.len() {
        let front = packet.get(..len).unwrap_or(b"");
        let is_read = Packet::read(front).is_some() || PacketRef::read(front).is_some();
        if is_read || !is_silent(node, alloc, front) {
            return false;
        }
    }
    true
}

/// 25, 114 and 126 fronts.
#[test]
fn packets_cut_short_are_dropped(rt: HostRuntime) {
    let alloc = rt.alloc();
    for (packet, me) in [(HEARTBEAT, 1), (ANSWER, 1), (INSTALL, 3)] {
        let mut node = started(alloc, me).expect(&rt, "a node");
        assert!(rt; PacketRef::read(packet).is_some());
        assert!(rt; are_dropped(&mut node, alloc, packet), "to node {me}");
    }
}
