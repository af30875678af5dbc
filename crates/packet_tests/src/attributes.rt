//! Attributes: which are taken, and what is spelled.
use group_attr::{AttrFault, Attrs, Batch, DefaultVote, Phases};
use group_codec::{put_attrs, read_attrs};
use rsct_packet::Name;
use std::alloc::Global;
use std::process::Abort;

/// The spelling of the attributes of the test.
const SPELLED: [u8; 12] = [2, 1, 3, 1, 44, 1, 0, 7, 0, 2, 100, 98];

/// Of many phases and the time limit 300, with the source `db`.
fn sample(rt: &impl Abort, alloc: Global) -> Attrs {
    Attrs {
        phases: Phases::Many,
        batch: Batch::Joins,
        default_vote: DefaultVote::Reject,
        limit: 300,
        source: Name::of(alloc, b"db").expect(rt, "memory"),
        source_phases: Phases::One,
        source_limit: 7,
    }
}

/// The spelling of attributes.
fn spelled(rt: &impl Abort, alloc: Global, attrs: &Attrs) -> Vec<u8> {
    let mut out = Vec::new(alloc);
    put_attrs(&mut out, attrs).expect(rt, "memory");
    out
}

/// The attributes of these bytes.
fn read(rt: &impl Abort, alloc: Global, spelled: &[u8]) -> Attrs {
    let (read, _rest) = read_attrs(spelled).expect(rt, "attributes");
    read.own(alloc).expect(rt, "memory")
}

/// Equal attributes.
fn copied(rt: &impl Abort, alloc: Global, attrs: &Attrs) -> Attrs {
    attrs.copy(alloc).expect(rt, "memory")
}

#[test]
fn attributes_are_spelled_and_read(rt: HostRuntime) {
    let alloc = rt.alloc();
    let attrs = sample(&rt, alloc);
    assert!(rt; spelled(&rt, alloc, &attrs).as_slice() == SPELLED.as_slice());
    assert!(rt; read(&rt, alloc, &SPELLED).agrees(&attrs));
    assert!(rt; copied(&rt, alloc, &attrs).agrees(&attrs));
}

#[test]
fn a_group_is_not_its_own_source(rt: HostRuntime) {
    let attrs = sample(&rt, rt.alloc());
    assert!(rt; attrs.check(b"cells").is_ok());
    assert!(rt; attrs.check(b"db").err() == Some(AttrFault::Source));
}
