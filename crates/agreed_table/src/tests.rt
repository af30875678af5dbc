//! What no clause says: that each call that takes memory succeeds where there is memory, with its answer.
ghost use Rattle.rsct_packet.specs.Fields.{AreShort};

use super::*;
use rsct_packet::NoMemory;
use std::alloc::Global;

/// The encoding of a map from `x` to `1` and from `y` to nothing.
const TWO_PAIRS: [u8; 11] = [0, 1, b'x', 0, 1, b'1', 0, 1, b'y', 0, 0];

/// The only chunk of that map.
const CHUNK: [u8; 16] = [b'T', 0, 0, 0, 1, 0, 1, b'x', 0, 1, b'1', 0, 1, b'y', 0, 0];

/// The map from `x` to `1` and from `y` to nothing, by messages.
fn two_pairs(alloc: Global) -> Result<Table, NoMemory> {
    let mut table = Table::new(alloc);
    table.write(alloc, b"y=")?;
    table.write(alloc, b"x=2")?;
    table.write(alloc, b"x=1")?;
    Ok(table)
}

/// Does the message change that map?
fn changes(alloc: Global, message: &[u8]) -> Result<bool, NoMemory>
    requires { AreShort message.now }
{
    let mut table = two_pairs(alloc)?;
    table.write(alloc, message)
}

/// The value of `x` in that map after a message.
fn is_x_after(alloc: Global, message: &[u8], value: Option<&[u8]>) -> Result<bool, NoMemory>
    requires { AreShort message.now }
{
    let mut table = two_pairs(alloc)?;
    table.write(alloc, message)?;
    Ok(table.get(b"x") == value)
}

fn chunk(alloc: Global, number: u16) -> Result<Option<Vec<u8>>, NoMemory> {
    let table = two_pairs(alloc)?;
    let mut out = Vec::new(alloc);
    if table.chunk(alloc, number, &mut out)? {
        Ok(Some(out))
    } else {
        Ok(None)
    }
}

#[test]
fn messages_write(rt: HostRuntime) {
    let table = two_pairs(rt.alloc()).expect(&rt, "memory");
    assert!(rt; table.get(b"x") == Some(b"1".as_slice()));
    assert!(rt; table.get(b"y") == Some(b"".as_slice()));
    assert!(rt; table.get(b"z").is_none());
    assert!(rt; table.pair(0) == Some((b"x".as_slice(), b"1".as_slice())));
    assert!(rt; table.pair(2).is_none());
    assert!(rt; table.pairs().count() == 2);
    assert!(rt; table.chunks() == 1);
}

#[test]
fn a_message_changes_the_map_or_not(rt: HostRuntime) {
    let alloc = rt.alloc();
    assert!(rt; changes(alloc, b"x=1=1").expect(&rt, "memory"));
    assert!(rt; changes(alloc, b"x").expect(&rt, "memory"));
    assert!(rt; !changes(alloc, b"x=1").expect(&rt, "memory"));
    assert!(rt; !changes(alloc, b"z").expect(&rt, "memory"));
    assert!(rt; !changes(alloc, b"=1").expect(&rt, "memory"));
    assert!(rt; !changes(alloc, b"").expect(&rt, "memory"));
}

#[test]
fn the_first_equals_ends_the_key(rt: HostRuntime) {
    let alloc = rt.alloc();
    assert!(rt; is_x_after(alloc, b"x=1=1", Some(b"1=1")).expect(&rt, "memory"));
    assert!(rt; is_x_after(alloc, b"x", None).expect(&rt, "memory"));
}

#[test]
fn a_chunk_is_the_encoding_and_is_read(rt: HostRuntime) {
    let alloc = rt.alloc();
    let text = chunk(alloc, 0).expect(&rt, "memory").expect(&rt, "a chunk");
    assert!(rt; text.as_slice() == CHUNK.as_slice());
    let read = read_chunk(text.as_slice()).expect(&rt, "a chunk");
    assert!(rt; read.number == 0);
    assert!(rt; read.count == 1);
    assert!(rt; read.bytes == TWO_PAIRS.as_slice());
    assert!(rt; chunk(alloc, 1).expect(&rt, "memory").is_none());
}

#[test]
fn an_encoding_is_a_table(rt: HostRuntime) {
    let alloc = rt.alloc();
    let table = Table::of_chunks(alloc, &TWO_PAIRS)
        .expect(&rt, "memory")
        .expect(&rt, "a table");
    assert!(rt; table.get(b"x") == Some(b"1".as_slice()));
    assert!(rt; table.pairs().count() == 2);
    assert!(rt;
        Table::of_chunks(alloc, &TWO_PAIRS[..10])
            .expect(&rt, "memory")
            .is_none()
    );
    assert!(rt;
        Table::of_chunks(alloc, &[0, 0, 0, 0])
            .expect(&rt, "memory")
            .is_none()
    );
}
