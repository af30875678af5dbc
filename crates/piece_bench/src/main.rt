//! Cuts messages of 1, 10 and 1,000 pieces and joins them, with the pieces in their order and backwards. With the word
//! `rates` it does so with 50,000 pieces of each and prints how long a piece and a byte took; with none it does so with
//! 1,000 pieces and prints the counts alone.
#![tactic(auto)]

use piece_link::{Joiner, PIECE_SIZE, cut};
use std::alloc::{AllocError, Global};
use std::time::{Duration, Instant};
use std::{env, io};

/// The messages that are cut: so many pieces each.
const COUNTS: [u32; 3] = [1, 10, 1000];

/// How many messages were cut and joined, and how long each took.
#[derive(Drop)]
struct Measured {
    cut: u32,
    joined: u32,
    joined_backwards: u32,
    cutting: Duration,
    joining: Duration,
    joining_backwards: Duration,
}

fn message_of(alloc: Global, count: u32) -> Result<Vec<u8>, AllocError> {
    let len = PIECE_SIZE.saturating_mul(count as usize);
    vec![in alloc; 7u8; len]
}

/// So many messages, numbered from 1; how many were cut.
fn cut_all(alloc: Global, message: &[u8], messages: u32, pieces: &mut Vec<Vec<u8>>) -> u32 {
    let mut done = 0u32;
    for i in 0..messages {
        if let Ok(true) = cut(alloc, pieces, 1, 1, u64::from(i) + 1, message) {
            done = done.saturating_add(1);
        }
    }
    done
}

/// How many messages the pieces are joined to: so many of each, in their order or from the last to the first.
fn join_all(alloc: Global, pieces: &[Vec<u8>], count: u32, backwards: bool) -> u32 {
    let mut joiner = Joiner::new();
    let mut done = 0u32;
    for message in pieces.chunks(count.max(1) as usize) {
        for at in 0..message.len() {
            let place = if backwards {
                message.len() - 1 - at
            } else {
                at
            };
            if let Ok(Some(_)) = joiner.take(alloc, message[place].as_slice()) {
                done = done.saturating_add(1);
            }
        }
    }
    done
}

/// Cuts and joins so many pieces, in messages of so many each.
fn measure<R: std::rt::Clock>(
    rt: &R,
    alloc: Global,
    count: u32,
    total: u32,
) -> io::Result<Measured> {
    let message = message_of(alloc, count)?;
    let mut pieces = Vec::new(alloc);
    let start = Instant::now(rt)?;
    let cut = cut_all(alloc, message.as_slice(), total / count.max(1), &mut pieces);
    let cutting = start.elapsed(rt)?;
    let start = Instant::now(rt)?;
    let joined = join_all(alloc, pieces.as_slice(), count, false);
    let joining = start.elapsed(rt)?;
    let start = Instant::now(rt)?;
    let joined_backwards = join_all(alloc, pieces.as_slice(), count, true);
    let joining_backwards = start.elapsed(rt)?;
    Ok(Measured {
        cut,
        joined,
        joined_backwards,
        cutting,
        joining,
        joining_backwards,
    })
}

/// Nanoseconds for each of so many.
fn each(took: Duration, total: u32) -> u64 {
    let nanos = u64::try_from(took.as_nanos()).unwrap_or(u64::MAX);
    nanos / u64::from(total).max(1)
}

/// A number in hundredths of another.
fn hundredths(number: u64, of: u64) -> u64 {
    number.saturating_mul(100) / of.max(1)
}

/// How long 1,024 bytes take, where a piece of 1,176 takes so long.
fn of_kib(nanos: u64) -> u64 {
    nanos.saturating_mul(1024) / 1176
}

/// Cuts and joins so many pieces, and prints how many messages they were; and, where there is a measure of lone pieces
/// to compare with, how long each took.
fn report<R: std::rt::Clock + Print>(
    rt: &R,
    alloc: Global,
    count: u32,
    total: u32,
    lone: Option<(u64, u64)>,
) -> io::Result<()> {
    let measured = measure(rt, alloc, count, total)?;
    let (messages, joined) = (measured.cut, measured.joined);
    let again = measured.joined_backwards;
    println!(rt; "{messages} messages of {count} pieces cut, {joined} joined, {again} backwards")?;
    if let Some((lone_cut, lone_joined)) = lone {
        let cutting = each(measured.cutting, total);
        let joining = each(measured.joining, total);
        let backwards = each(measured.joining_backwards, total);
        let backwards_ratio = hundredths(backwards, lone_joined);
        let (cut_kib, join_kib) = (of_kib(cutting), of_kib(joining));
        let (cut_ratio, join_ratio) = (
            hundredths(cutting, lone_cut),
            hundredths(joining, lone_joined),
        );
        println!(rt; "  a piece: {cutting} ns to cut, {joining} ns to join")?;
        println!(rt; "  1,024 bytes: {cut_kib} ns to cut, {join_kib} ns to join")?;
        println!(rt; "  in hundredths of a lone piece: {cut_ratio} to cut, {join_ratio} to join")?;
        println!(rt; "  backwards: {backwards} ns to join, {backwards_ratio} hundredths")?;
    }
    Ok(())
}

fn main(rt: HostRuntime) -> io::Result<()> {
    let alloc = rt.alloc();
    let rates = env::args(&rt)?.count() > 1;
    let total = if rates { 50_000 } else { 1_000 };
    let mut lone = None;
    if rates {
        let warm = measure(&rt, alloc, 1, total)?;
        let again = measure(&rt, alloc, 1, total)?;
        let cutting = warm.cutting.min(again.cutting);
        let joining = warm.joining.min(again.joining);
        lone = Some((each(cutting, total), each(joining, total)));
    }
    for count in COUNTS {
        report(&rt, alloc, count, total, lone)?;
    }
    Ok(())
}
