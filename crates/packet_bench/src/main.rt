//! Writes and reads packets. With the word `rates` it does so a million times and prints how many a second;
//! with none it does so a thousand times and prints the counts alone.
#![tactic(auto)]

use packet_bodies::{Ack, GroupRef, put_ack, read_ack};
use rsct_packet::{Head, NoMemory, Packet, ViewId, write_head2};
use std::time::Instant;
use std::{env, io};

/// The length of the body of an ACK of a group with a name of two bytes.
const BODY: u32 = 16;

/// How many bytes the reading of a packet copies: none, since the readers are given no memory, and what they hand
/// out borrows the datagram.
const COPIED: u32 = 0;

/// An ACK of the group `db` at this length, at level 2 in domain 1.
#[tactic(auto, unfolding(rsct_packet::specs::Packet::is_head))]
fn write(out: &mut Vec<u8>, len: u32) -> Result<(), NoMemory> {
    out.clear();
    let head = Head {
        kind: 19,
        network: 1,
        from: 2,
        to: 1,
        inc: 1,
    };
    write_head2(out, &head, 1, BODY)?;
    let view = ViewId {
        number: 1,
        coord: 1,
        inc: 1,
    };
    let ack = Ack {
        group: GroupRef::new(view, b"db"),
        len,
    };
    put_ack(out, &ack)
}

/// How much of the list the sender of an ACK holds.
fn read(bytes: &[u8]) -> Option<u32> {
    let packet = Packet::read(bytes)?;
    let ack = read_ack(packet.body)?;
    Some(ack.len)
}

/// So many packets, one after another in the same memory; how many were written.
fn write_many(out: &mut Vec<u8>, count: u32) -> u32 {
    let mut done = 0u32;
    for i in 0..count {
        if write(out, i).is_ok() {
            done = done.saturating_add(1);
        }
    }
    done
}

/// The same packet so many times; how often it was read.
fn read_many(bytes: &[u8], count: u32) -> u32 {
    let mut done = 0u32;
    for _i in 0..count {
        if read(bytes).is_some() {
            done = done.saturating_add(1);
        }
    }
    done
}

fn per_second(count: u32, millis: u64) -> u64 {
    u64::from(count) * 1000 / millis.max(1)
}

fn main(rt: HostRuntime) -> io::Result<()> {
    let rates = env::args(&rt)?.count() > 1;
    let count = if rates { 1_000_000 } else { 1_000 };
    let mut out = Vec::new(rt.alloc());
    let start = Instant::now(&rt)?;
    let written = write_many(&mut out, count);
    let wrote = start.elapsed(&rt)?;
    let start = Instant::now(&rt)?;
    let got = read_many(&out, count);
    let took = start.elapsed(&rt)?;
    println!(rt; "{written} packets written, {got} read, {COPIED} bytes copied per packet read")?;
    if rates {
        let wrote = per_second(
            count,
            wrote
                .as_secs()
                .saturating_mul(1000)
                .saturating_add(u64::from(wrote.subsec_millis())),
        );
        let took = per_second(
            count,
            took.as_secs()
                .saturating_mul(1000)
                .saturating_add(u64::from(took.subsec_millis())),
        );
        println!(rt; "{wrote} packets written per second, {took} read per second")?;
    }
    Ok(())
}
