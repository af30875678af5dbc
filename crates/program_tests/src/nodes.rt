//! A node by itself: its status by name, and bytes that are no packet.
use client_callbacks::ScriptClient;
use node_core::{Node, is_packet};
use node_state::What;
use rsct_packet::NoMemory;
use script_reader::read_daemon;
use std::alloc::Global;

/// Node 1 of nodes 1 and 2, in its incarnation 5.
fn node(alloc: Global) -> Option<Node<ScriptClient>> {
    let script = read_daemon(alloc, b"node 1\nnode 2\nbegin\n", 1, Some(0)).ok()?;
    Node::start(alloc, *script.config(), 1, 5).ok()
}

/// Does the status say this, behind what was there?
fn says(alloc: Global, what: What, text: &[u8]) -> Option<bool> {
    let node = node(alloc)?;
    let mut out = Vec::new(alloc);
    out.push(b'>').ok()?;
    node.status(alloc, &mut out, what).ok()?;
    Some(out.as_slice() == text)
}

#[test]
fn status(rt: HostRuntime) {
    let alloc = rt.alloc();
    assert!(rt;
        says(
            alloc,
            What::Hagsns,
            b">hagsns 1.1.5 coord=1 members=1.5 frozen=no\n"
        ) == Some(true)
    );
    assert!(rt; says(alloc, What::Hagsgr, b">") == Some(true));
}

#[test]
fn other_bytes(rt: HostRuntime) {
    assert!(rt; !is_packet(b"RG"));
}
