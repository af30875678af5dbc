//! Joins: each fault, beside the neighbour that is taken.
use crate::calls::{Steady, answered, init, join, letters, refused};
use crate::hand::sessions;
use group_attr::{AttrFault, Attrs, HOST_MEMBERSHIP};
use session_state::{Field, GsFault};
use std::alloc::Global;

/// The client joins a group with a name of so many bytes.
fn join_letters(
    alloc: Global,
    steady: &mut Steady,
    client: u32,
    len: usize,
) -> Result<u32, GsFault> {
    let name = letters(alloc, len)?;
    join(alloc, steady, client, name.as_slice(), Attrs::empty())
}

#[test]
fn names(rt: HostRuntime) {
    let alloc = rt.alloc();
    let mut s = sessions(alloc);
    answered(&rt, init(alloc, &mut s, b"a"), 1);
    let empty = join_letters(alloc, &mut s, 1, 0);
    refused(&rt, empty, GsFault::BadParameter(Field::Name));
    refused(
        &rt,
        join_letters(alloc, &mut s, 1, 33),
        GsFault::NameTooLong,
    );
    answered(&rt, join_letters(alloc, &mut s, 1, 32), 1);
    refused(&rt, join_letters(alloc, &mut s, 1, 32), GsFault::Exists);
    let hosts = join(alloc, &mut s, 1, HOST_MEMBERSHIP, Attrs::empty());
    refused(&rt, hosts, GsFault::BadParameter(Field::Name));
}

/// The client joins `db` with attributes of this time limit.
fn join_limited(
    alloc: Global,
    steady: &mut Steady,
    client: u32,
    limit: u16,
) -> Result<u32, GsFault> {
    let mut attrs = Attrs::empty();
    attrs.limit = limit;
    join(alloc, steady, client, b"db", attrs)
}

#[test]
fn attributes(rt: HostRuntime) {
    let alloc = rt.alloc();
    let mut s = sessions(alloc);
    answered(&rt, init(alloc, &mut s, b"a"), 1);
    let over = GsFault::BadGroupAttributes(AttrFault::Limit(10_001));
    refused(&rt, join_limited(alloc, &mut s, 1, 10_001), over);
    answered(&rt, join_limited(alloc, &mut s, 1, 10_000), 1);
}
