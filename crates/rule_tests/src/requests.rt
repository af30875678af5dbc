//! What a provider asks for: each fault, beside the neighbour that is taken.
use crate::calls::{
    Steady, change_attributes, change_state, end_request, expel, first_number, first_request,
    leave, member, refused, send_message, taken,
};
use crate::hand::sessions;
use group_attr::{AttrFault, Attrs};
use proposal_core::Proposal;
use rsct_packet::{List, NoMemory, ProviderId};
use session_state::{Field, GsFault};
use std::alloc::Global;

/// How many bytes the value or the message of the oldest request has.
fn first_len(steady: &Steady) -> Option<usize> {
    match first_request(steady)? {
        Proposal::State { value, .. } => Some(value.bytes().len()),
        Proposal::Message { bytes, .. } => Some(bytes.bytes().len()),
        _ => None,
    }
}

/// How many providers the oldest request expels.
fn first_targets(steady: &Steady) -> Option<usize> {
    match first_request(steady)? {
        Proposal::Expel { out, .. } => Some(out.len()),
        _ => None,
    }
}

/// Is the oldest request one to leave?
fn is_leaving(steady: &Steady) -> bool {
    match first_request(steady) {
        Some(Proposal::Leave { .. }) => true,
        _ => false,
    }
}

/// The time limit that the oldest request asks for.
fn first_limit(steady: &Steady) -> Option<u16> {
    match first_request(steady)? {
        Proposal::Attributes { attrs, .. } => Some(attrs.limit),
        _ => None,
    }
}

#[test]
fn values(rt: HostRuntime) {
    let alloc = rt.alloc();
    let mut s = sessions(alloc);
    let m = member(&rt, alloc, &mut s);
    let long = change_state(alloc, &mut s, m, 257);
    refused(&rt, long, GsFault::BadParameter(Field::Value));
    taken(&rt, change_state(alloc, &mut s, m, 256));
    assert!(rt; first_len(&s) == Some(256));
}

/// Values have the limit of level 2 from now on.
fn at_level_2(steady: &mut Steady) {
    steady.set_level(2);
}

#[test]
fn values_at_level_2(rt: HostRuntime) {
    let alloc = rt.alloc();
    let mut s = sessions(alloc);
    let m = member(&rt, alloc, &mut s);
    at_level_2(&mut s);
    let long = change_state(alloc, &mut s, m, 1025);
    refused(&rt, long, GsFault::BadParameter(Field::Value));
    taken(&rt, change_state(alloc, &mut s, m, 1024));
    assert!(rt; first_len(&s) == Some(1024));
}

#[test]
fn messages(rt: HostRuntime) {
    let alloc = rt.alloc();
    let mut s = sessions(alloc);
    let m = member(&rt, alloc, &mut s);
    let long = send_message(alloc, &mut s, m, 1025);
    refused(&rt, long, GsFault::BadParameter(Field::Message));
    taken(&rt, send_message(alloc, &mut s, m, 1024));
    assert!(rt; first_len(&s) == Some(1024));
}

/// So many providers, from the number of the first join.
fn targets(alloc: Global, first: u32, end: u32) -> Result<List<ProviderId>, NoMemory> {
    let mut out = List::new(alloc);
    for join in first..end {
        out.push(ProviderId {
            node: 1,
            inc: 1,
            instance: 7,
            join,
        })?;
    }
    Ok(out)
}

/// Asks that the providers of these joins are expelled.
fn expel_joins(
    alloc: Global,
    steady: &mut Steady,
    member: u32,
    first: u32,
    end: u32,
) -> Result<(), GsFault> {
    expel(alloc, steady, member, &targets(alloc, first, end)?)
}

/// Asks that a provider is expelled twice.
fn expel_twice(alloc: Global, steady: &mut Steady, member: u32) -> Result<(), GsFault> {
    let mut out = targets(alloc, 1, 2)?;
    out.append(&mut targets(alloc, 1, 2)?)?;
    expel(alloc, steady, member, &out)
}

#[test]
fn targets_differ(rt: HostRuntime) {
    let alloc = rt.alloc();
    let mut s = sessions(alloc);
    let m = member(&rt, alloc, &mut s);
    let bad = GsFault::BadParameter(Field::Targets);
    refused(&rt, expel_joins(alloc, &mut s, m, 1, 1), bad);
    refused(&rt, expel_joins(alloc, &mut s, m, 1, 66), bad);
    refused(&rt, expel_twice(alloc, &mut s, m), bad);
    taken(&rt, expel_joins(alloc, &mut s, m, 1, 65));
    assert!(rt; first_targets(&s) == Some(64));
}

/// Asks for attributes of this time limit.
fn limit(alloc: Global, steady: &mut Steady, member: u32, limit: u16) -> Result<(), GsFault> {
    let mut attrs = Attrs::empty();
    attrs.limit = limit;
    change_attributes(alloc, steady, member, attrs)
}

#[test]
fn attributes(rt: HostRuntime) {
    let alloc = rt.alloc();
    let mut s = sessions(alloc);
    let m = member(&rt, alloc, &mut s);
    let over = GsFault::BadGroupAttributes(AttrFault::Limit(10_001));
    refused(&rt, limit(alloc, &mut s, m, 10_001), over);
    taken(&rt, limit(alloc, &mut s, m, 10_000));
    assert!(rt; first_limit(&s) == Some(10_000));
}

#[test]
fn one_request_at_a_time(rt: HostRuntime) {
    let alloc = rt.alloc();
    let mut s = sessions(alloc);
    let m = member(&rt, alloc, &mut s);
    refused(&rt, leave(alloc, &mut s, 9), GsFault::BadMemberToken);
    taken(&rt, change_state(alloc, &mut s, m, 1));
    refused(&rt, leave(alloc, &mut s, m), GsFault::Collide(2));
    end_request(&rt, &mut s);
    taken(&rt, leave(alloc, &mut s, m));
    assert!(rt; is_leaving(&s));
    assert!(rt; first_number(&s) == Some(3));
}
