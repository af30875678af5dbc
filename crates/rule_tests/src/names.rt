//! Who leads a group.
use name_server::{Leader, Leaders, Names};
use rsct_packet::{List, Name};
use std::alloc::Global;
use std::process::Abort;

/// What is known after an install in which node 3 leads `db`.
fn of_install(rt: &impl Abort, alloc: Global) -> Names {
    let group = Name::of(alloc, b"db").expect(rt, "memory");
    let group = group.expect(rt, "a name");
    let mut table: Leaders = List::new(alloc);
    table.push(Leader { group, node: 3 }).expect(rt, "memory");
    Names::of_install(alloc, &table).expect(rt, "memory")
}

/// The leader that a node is told where it asks for a group.
fn told(rt: &impl Abort, alloc: Global, names: &mut Names, group: &[u8], node: u8) -> u8 {
    names.lookup(alloc, group, node).expect(rt, "memory")
}

#[test]
fn first_asker_leads(rt: HostRuntime) {
    let alloc = rt.alloc();
    let mut names = of_install(&rt, alloc);
    assert!(rt; told(&rt, alloc, &mut names, b"db", 1) == 3);
    assert!(rt; told(&rt, alloc, &mut names, b"web", 2) == 2);
    assert!(rt; told(&rt, alloc, &mut names, b"web", 1) == 2);
    assert!(rt; names.len() == 2);
}
