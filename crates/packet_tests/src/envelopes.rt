//! Envelopes: that memory which is there is used, and what becomes of one at each node of a chain, with bytes composed by
//! hand.
use node_reach::Reach;
use node_route::{Way, is_carried, pass, way, wrap};
use rsct_packet::{Mask, NoMemory};
use std::alloc::Global;

/// Node 1 took the view `1.1.1`, and says so to node 3.
const TAKEN: [u8; 25] = [
    0x52, 0x47, 0x01, 0x0d, 0x01, 0x01, 0x03, 0x00, 0x00, 0x00, 0x00, 0x01, 0x00, 0x00, 0x00, 0x09,
    0x00, 0x00, 0x00, 0x01, 0x01, 0x00, 0x00, 0x00, 0x01,
];

/// The rows of a chain of nodes 1, 2 and 3, as this node sees them.
fn chain(me: u8) -> Reach {
    let mut reach = Reach::new(me, 1);
    let first = Mask::empty().with(1).with(2);
    let last = Mask::empty().with(2).with(3);
    for (node, row) in [(1, first), (2, first.union(last)), (3, last)] {
        if node == me {
            reach.set_own(row);
        } else {
            reach.report(node, 1, 1, row);
        }
    }
    reach
}

/// The envelope with so many hops left of that packet.
fn around(alloc: Global, hops: u8) -> Result<Vec<u8>, NoMemory> {
    let mut bytes = Vec::from_slice(alloc, &[0x52, 0x54, hops, 0x00, 0x01, 0x03])?;
    bytes.extend_from_slice(&TAKEN)?;
    Ok(bytes)
}

/// What is sent on from the middle of an envelope with so many hops left; none where nothing is.
fn passed(alloc: Global, hops: u8) -> Result<Option<Vec<u8>>, NoMemory> {
    let bytes = around(alloc, hops)?;
    let mut out = Vec::new(alloc);
    match way(2, &chain(2), bytes.as_slice()) {
        None => Ok(None),
        Some(way) => {
            if pass(alloc, &way, &mut out)? {
                Ok(Some(out))
            } else {
                Ok(None)
            }
        }
    }
}

/// The envelope in which that packet leaves node 1.
fn wrapped(alloc: Global) -> Result<Vec<u8>, NoMemory> {
    let mut out = Vec::new(alloc);
    if is_carried(1, 3, &TAKEN) {
        wrap(alloc, 1, 3, &TAKEN, &mut out)?;
    }
    Ok(out)
}

/// An envelope of that packet whose last byte is missing.
fn cut_off(alloc: Global) -> Result<Vec<u8>, NoMemory> {
    let mut bytes = around(alloc, 31)?;
    bytes.truncate(30);
    Ok(bytes)
}

/// Is it the own way of that packet?
fn is_own(way: Option<Way<'_>>) -> bool {
    match way {
        Some(Way::Own(inner)) => inner == TAKEN.as_slice(),
        _ => false,
    }
}

#[test]
fn a_packet_is_wrapped(rt: HostRuntime) {
    let alloc = rt.alloc();
    let out = wrapped(alloc).expect(&rt, "memory");
    let envelope = around(alloc, 31).expect(&rt, "memory");
    assert!(rt; out.as_slice() == envelope.as_slice());
}

#[test]
fn the_middle_passes_it_on(rt: HostRuntime) {
    let alloc = rt.alloc();
    let out = passed(alloc, 31)
        .expect(&rt, "memory")
        .expect(&rt, "a pass");
    let envelope = around(alloc, 30).expect(&rt, "memory");
    assert!(rt; out.as_slice() == envelope.as_slice());
    assert!(rt; passed(alloc, 0).expect(&rt, "memory").is_none());
}

#[test]
fn at_its_target_it_is_its_own(rt: HostRuntime) {
    let envelope = around(rt.alloc(), 0).expect(&rt, "memory");
    assert!(rt; is_own(way(3, &chain(3), envelope.as_slice())));
}

#[test]
fn other_bytes_are_no_envelope(rt: HostRuntime) {
    let alloc = rt.alloc();
    let envelope = around(alloc, 32).expect(&rt, "memory");
    assert!(rt; way(2, &chain(2), envelope.as_slice()).is_none());
    let short = cut_off(alloc).expect(&rt, "memory");
    assert!(rt; way(2, &chain(2), short.as_slice()).is_none());
    assert!(rt; way(2, &chain(2), &TAKEN).is_none());
}
