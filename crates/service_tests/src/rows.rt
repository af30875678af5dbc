//! A node's rows of groups.
use node_groups::{open, row_of};
use node_state::{Groups, Table};
use rsct_packet::Name;
use std::alloc::Global;
use std::process::Abort;

fn named(rt: &impl Abort, alloc: Global, bytes: &[u8]) -> Name {
    Name::of(alloc, bytes)
        .expect(rt, "memory")
        .expect(rt, "a name")
}

fn opened(rt: &impl Abort, groups: &mut Groups, alloc: Global, bytes: &[u8]) -> usize {
    let name = named(rt, alloc, bytes);
    open(groups, alloc, &name).expect(rt, "memory")
}

#[test]
fn rows_stand_in_name_order(rt: HostRuntime) {
    let alloc = rt.alloc();
    let mut groups = Table {
        rows: Vec::new(alloc),
    };
    assert!(rt; opened(&rt, &mut groups, alloc, b"db") == 0);
    assert!(rt; opened(&rt, &mut groups, alloc, b"app") == 0);
    assert!(rt; opened(&rt, &mut groups, alloc, b"db") == 1);
    assert!(rt; row_of(&groups, b"app").is_some());
    assert!(rt; row_of(&groups, b"web").is_none());
}
