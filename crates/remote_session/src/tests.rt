//! What no clause says: that each call that takes memory succeeds where there is memory, with its answer.
use super::*;
use rsct_packet::NoMemory;
use std::alloc::Global;

const FIRST_UP: [u8; 30] = [
    0x52, 0x53, 0x01, 0x00, 0x00, 0x00, 0x00, 0x07, 0x00, 0x00, 0x00, 0x01, 0x00, 0x00, 0x00, 0x00,
    0x00, 0x0c, 0x63, 0x6c, 0x69, 0x65, 0x6e, 0x74, 0x20, 0x31, 0x20, 0x61, 0x20, 0x2d,
];

const FIRST_DOWN: [u8; 22] = [
    0x52, 0x53, 0x02, 0x00, 0x00, 0x00, 0x00, 0x07, 0x00, 0x00, 0x00, 0x05, 0x00, 0x00, 0x00, 0x01,
    0x01, 0x00, 0x00, 0x00, 0x01, 0x00,
];

/// Is it the call of key 7 with this line?
fn is_call(seen: UpSeen, line: &[u8]) -> bool {
    match seen {
        UpSeen::Call {
            key: 7,
            line: given,
        } => given == line,
        _ => false,
    }
}

fn up_of(alloc: Global, far: &Far) -> Result<Vec<u8>, NoMemory> {
    let mut out = Vec::new(alloc);
    far.up(&mut out)?;
    Ok(out)
}

fn down_of(alloc: Global, remote: &Remote, key: u32) -> Result<Vec<u8>, NoMemory> {
    let mut out = Vec::new(alloc);
    remote.down(key, &mut out)?;
    Ok(out)
}

/// A client's end with key 7 that makes its first call.
fn caller(alloc: Global) -> Result<Far, NoMemory> {
    let mut far = Far::new(alloc, 7);
    let _ = far.call(alloc, b"client 1 a -")?;
    Ok(far)
}

/// A daemon of incarnation 5 that was given the first call of key 7.
fn called(alloc: Global) -> Result<Remote, NoMemory> {
    let mut remote = Remote::new(alloc, 5);
    let _ = remote.up(alloc, &FIRST_UP)?;
    Ok(remote)
}

#[test]
fn an_up_is_written(rt: HostRuntime) {
    let far = caller(rt.alloc()).expect(&rt, "memory");
    let up = up_of(rt.alloc(), &far).expect(&rt, "memory");
    assert!(rt; up.as_slice() == FIRST_UP.as_slice());
}

#[test]
fn a_second_call_waits(rt: HostRuntime) {
    let mut far = caller(rt.alloc()).expect(&rt, "memory");
    let made = far.call(rt.alloc(), b"leave a db").expect(&rt, "memory");
    assert!(rt; !made);
}

#[test]
fn a_call_is_given_out(rt: HostRuntime) {
    let mut remote = Remote::new(rt.alloc(), 5);
    let seen = remote.up(rt.alloc(), &FIRST_UP).expect(&rt, "memory");
    assert!(rt; is_call(seen, b"client 1 a -"));
}

#[test]
fn a_call_is_given_out_once(rt: HostRuntime) {
    let mut remote = called(rt.alloc()).expect(&rt, "memory");
    let seen = remote.up(rt.alloc(), &FIRST_UP).expect(&rt, "memory");
    assert!(rt; matches!(seen, UpSeen::Known(7)));
}

#[test]
fn bytes_that_are_no_up(rt: HostRuntime) {
    let mut remote = Remote::new(rt.alloc(), 5);
    let seen = remote.up(rt.alloc(), &FIRST_DOWN).expect(&rt, "memory");
    assert!(rt; matches!(seen, UpSeen::NoMessage));
}

#[test]
fn a_down_is_written(rt: HostRuntime) {
    let mut remote = called(rt.alloc()).expect(&rt, "memory");
    remote.done(7, true);
    let down = down_of(rt.alloc(), &remote, 7).expect(&rt, "memory");
    assert!(rt; down.as_slice() == FIRST_DOWN.as_slice());
}

#[test]
fn an_answer_is_heard(rt: HostRuntime) {
    let mut far = caller(rt.alloc()).expect(&rt, "memory");
    let seen = far.down(rt.alloc(), &FIRST_DOWN).expect(&rt, "memory");
    assert!(rt; seen == DownSeen::Answer(true));
}

#[test]
fn events_are_heard(rt: HostRuntime) {
    let mut far = caller(rt.alloc()).expect(&rt, "memory");
    let mut remote = called(rt.alloc()).expect(&rt, "memory");
    remote.event(rt.alloc(), 7, b"one").expect(&rt, "memory");
    remote.event(rt.alloc(), 7, b"two").expect(&rt, "memory");
    let down = down_of(rt.alloc(), &remote, 7).expect(&rt, "memory");
    let seen = far.down(rt.alloc(), down.as_slice()).expect(&rt, "memory");
    let two = far.heard(1).is_some_and(|line| line == b"two".as_slice());
    assert!(rt; seen == DownSeen::Nothing && two && far.heard(2).is_none());
}

#[test]
fn another_life_is_not_believed(rt: HostRuntime) {
    let mut far = caller(rt.alloc()).expect(&rt, "memory");
    let _ = far.down(rt.alloc(), &FIRST_DOWN).expect(&rt, "memory");
    let remote = Remote::new(rt.alloc(), 6);
    let down = down_of(rt.alloc(), &remote, 7).expect(&rt, "memory");
    let seen = far.down(rt.alloc(), down.as_slice()).expect(&rt, "memory");
    assert!(rt; seen == DownSeen::Lost(5, 6));
}

#[test]
fn a_key_that_is_not_kept(rt: HostRuntime) {
    let mut far = caller(rt.alloc()).expect(&rt, "memory");
    let remote = Remote::new(rt.alloc(), 5);
    let down = down_of(rt.alloc(), &remote, 7).expect(&rt, "memory");
    let seen = far.down(rt.alloc(), down.as_slice()).expect(&rt, "memory");
    assert!(rt; seen == DownSeen::Full);
}

/// The daemon is given the first Ups of so many keys. How many were refused?
fn refused(alloc: Global, keys: u32) -> Result<u32, NoMemory> {
    let mut remote = Remote::new(alloc, 5);
    let mut full = 0u32;
    for key in 0..keys {
        let far = Far::new(alloc, key);
        let up = up_of(alloc, &far)?;
        if let UpSeen::Full(_, 1024) = remote.up(alloc, up.as_slice())? {
            full = full.saturating_add(1);
        }
    }
    Ok(full)
}

#[test]
fn keys_past_the_last(rt: HostRuntime) {
    let full = refused(rt.alloc(), 1026).expect(&rt, "memory");
    assert!(rt; full == 2);
}

/// A daemon whose key 7 has been silent for two ticks.
fn waited(alloc: Global) -> Result<Remote, NoMemory> {
    let mut remote = called(alloc)?;
    remote.tick();
    remote.tick();
    Ok(remote)
}

/// A daemon that was given the first call of key 7, and ended that key.
fn after_the_end(alloc: Global) -> Result<Remote, NoMemory> {
    let mut remote = called(alloc)?;
    let _ = remote.end(alloc, 7)?;
    Ok(remote)
}

#[test]
fn a_key_is_silent(rt: HostRuntime) {
    let remote = waited(rt.alloc()).expect(&rt, "memory");
    let two = remote.silent(rt.alloc(), 2).expect(&rt, "memory");
    let three = remote.silent(rt.alloc(), 3).expect(&rt, "memory");
    assert!(rt; two.as_slice() == [7u32].as_slice() && three.is_empty());
}

#[test]
fn an_up_ends_the_silence(rt: HostRuntime) {
    let mut remote = waited(rt.alloc()).expect(&rt, "memory");
    let _ = remote.up(rt.alloc(), &FIRST_UP).expect(&rt, "memory");
    let silent = remote.silent(rt.alloc(), 1).expect(&rt, "memory");
    assert!(rt; silent.is_empty());
}

#[test]
fn a_key_ends(rt: HostRuntime) {
    let mut remote = waited(rt.alloc()).expect(&rt, "memory");
    let ended = remote.end(rt.alloc(), 7).expect(&rt, "memory");
    let seen = remote.up(rt.alloc(), &FIRST_UP).expect(&rt, "memory");
    assert!(rt; ended && matches!(seen, UpSeen::Ended(7)));
}

#[test]
fn an_end_that_had_a_down_is_lost(rt: HostRuntime) {
    let mut far = caller(rt.alloc()).expect(&rt, "memory");
    let _ = far.down(rt.alloc(), &FIRST_DOWN).expect(&rt, "memory");
    let remote = after_the_end(rt.alloc()).expect(&rt, "memory");
    let down = down_of(rt.alloc(), &remote, 7).expect(&rt, "memory");
    let seen = far.down(rt.alloc(), down.as_slice()).expect(&rt, "memory");
    assert!(rt; seen == DownSeen::Lost(5, 0));
}

#[test]
fn an_end_that_had_none_is_full(rt: HostRuntime) {
    let mut far = caller(rt.alloc()).expect(&rt, "memory");
    let remote = after_the_end(rt.alloc()).expect(&rt, "memory");
    let down = down_of(rt.alloc(), &remote, 7).expect(&rt, "memory");
    let seen = far.down(rt.alloc(), down.as_slice()).expect(&rt, "memory");
    assert!(rt; seen == DownSeen::Full);
}

/// The daemon is given the first Ups of so many keys, one after another, and ends each. How many were refused?
fn refused_of_ended(alloc: Global, keys: u32) -> Result<u32, NoMemory> {
    let mut remote = Remote::new(alloc, 5);
    let mut full = 0u32;
    for key in 0..keys {
        let far = Far::new(alloc, key);
        let up = up_of(alloc, &far)?;
        if let UpSeen::Full(_, _) = remote.up(alloc, up.as_slice())? {
            full = full.saturating_add(1);
        }
        let _ = remote.end(alloc, key)?;
    }
    Ok(full)
}

#[test]
fn ended_keys_make_room(rt: HostRuntime) {
    let full = refused_of_ended(rt.alloc(), 3000).expect(&rt, "memory");
    assert!(rt; full == 0);
}
