//! The sessions of clients: each fault, beside the neighbour that is taken.
use crate::calls::{Steady, answered, goodbye, init, join, letters, refused, taken};
use crate::hand::sessions;
use group_attr::Attrs;
use session_state::{Field, GsFault};
use std::alloc::Global;

/// A session with a name of so many bytes.
fn init_letters(alloc: Global, steady: &mut Steady, len: usize) -> Result<u32, GsFault> {
    let name = letters(alloc, len)?;
    init(alloc, steady, name.as_slice())
}

#[test]
fn names(rt: HostRuntime) {
    let alloc = rt.alloc();
    let mut s = sessions(alloc);
    let empty = init_letters(alloc, &mut s, 0);
    refused(&rt, empty, GsFault::BadParameter(Field::Name));
    refused(&rt, init_letters(alloc, &mut s, 17), GsFault::NameTooLong);
    answered(&rt, init_letters(alloc, &mut s, 16), 1);
    refused(&rt, init_letters(alloc, &mut s, 16), GsFault::Exists);
}

/// A join of this client with empty attributes.
fn join_plain(alloc: Global, steady: &mut Steady, client: u32) -> Result<u32, GsFault> {
    join(alloc, steady, client, b"db", Attrs::empty())
}

#[test]
fn tokens(rt: HostRuntime) {
    let alloc = rt.alloc();
    let mut s = sessions(alloc);
    refused(&rt, join_plain(alloc, &mut s, 1), GsFault::NoInit);
    answered(&rt, init(alloc, &mut s, b"a"), 1);
    refused(&rt, join_plain(alloc, &mut s, 2), GsFault::BadClientToken);
    answered(&rt, join_plain(alloc, &mut s, 1), 1);
}

/// Opens 64 sessions, with names of two letters.
fn fill(alloc: Global, steady: &mut Steady) -> Result<(), GsFault> {
    for i in 0..64u8 {
        init(alloc, steady, &[b'A' + i / 8, b'A' + i % 8])?;
    }
    Ok(())
}

#[test]
fn sixty_four_sessions(rt: HostRuntime) {
    let alloc = rt.alloc();
    let mut s = sessions(alloc);
    taken(&rt, fill(alloc, &mut s));
    refused(&rt, init(alloc, &mut s, b"a"), GsFault::SessionsFull(64));
    taken(&rt, goodbye(&mut s, 1));
    answered(&rt, init(alloc, &mut s, b"a"), 65);
}
