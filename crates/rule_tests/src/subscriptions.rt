//! Subscriptions: each fault, beside the neighbour that is taken, and what is noted.
use crate::calls::{Steady, answered, init, letters, refused, taken};
use crate::hand::{sessions, value};
use client_callbacks::{Told, Why};
use proposal_core::GroupState;
use rsct_packet::ProviderId;
use session_state::{Field, GsFault};
use std::alloc::Global;
use std::process::Abort;
use subscribe_core::{ClientToken, SubToken};

/// Subscribes the client to a group.
fn ask(alloc: Global, steady: &mut Steady, group: &[u8], known: bool) -> Result<SubToken, GsFault> {
    steady.subscribe(alloc, ClientToken { number: 1 }, group, known)
}

/// Subscribes the client to a group with a name of so many bytes, and answers the subscription's number.
fn subscribe(alloc: Global, steady: &mut Steady, len: usize, known: bool) -> Result<u32, GsFault> {
    let group = letters(alloc, len)?;
    let token = ask(alloc, steady, group.as_slice(), known)?;
    Ok(token.number)
}

/// Ends the subscription of this number.
fn unsubscribe(steady: &mut Steady, number: u32) -> Result<(), GsFault> {
    steady.unsubscribe(ClientToken { number: 1 }, SubToken { number })
}

#[test]
fn names(rt: HostRuntime) {
    let alloc = rt.alloc();
    let mut s = sessions(alloc);
    answered(&rt, init(alloc, &mut s, b"a"), 1);
    let empty = subscribe(alloc, &mut s, 0, true);
    refused(&rt, empty, GsFault::BadParameter(Field::Name));
    refused(
        &rt,
        subscribe(alloc, &mut s, 33, true),
        GsFault::NameTooLong,
    );
    refused(
        &rt,
        subscribe(alloc, &mut s, 32, false),
        GsFault::UnknownGroup,
    );
    answered(&rt, subscribe(alloc, &mut s, 32, true), 1);
    refused(&rt, subscribe(alloc, &mut s, 32, true), GsFault::Exists);
}

/// The state of a group without members whose value is `x`.
fn with_value(rt: &impl Abort, alloc: Global) -> GroupState {
    let mut state = GroupState::empty(alloc);
    state.value = value(rt, alloc);
    state
}

/// How many subscriptions of the group `A` are noted between two states.
fn noted_between(
    rt: &impl Abort,
    alloc: Global,
    steady: &Steady,
    before: &GroupState,
    after: &GroupState,
) -> usize {
    steady
        .notes(alloc, b"A", before, after)
        .expect(rt, "memory")
        .len()
}

/// How many subscriptions of the group `A` are noted where its value becomes `x`.
fn noted(rt: &impl Abort, alloc: Global, steady: &Steady) -> usize {
    let before = GroupState::empty(alloc);
    let after = with_value(rt, alloc);
    noted_between(rt, alloc, steady, &before, &after)
}

/// Tells the client of the subscription of this number something, and answers whether it is live.
fn note(rt: &impl Abort, steady: &mut Steady, number: u32) -> bool {
    let provider = ProviderId {
        node: 1,
        inc: 1,
        instance: 7,
        join: 1,
    };
    let told = Told::Refused {
        provider,
        request: 1,
        why: Why::NotAMember,
    };
    steady.note(SubToken { number }, &told).expect(rt, "memory")
}

#[test]
fn live_subscriptions_are_noted(rt: HostRuntime) {
    let alloc = rt.alloc();
    let mut s = sessions(alloc);
    answered(&rt, init(alloc, &mut s, b"a"), 1);
    answered(&rt, subscribe(alloc, &mut s, 1, true), 1);
    assert!(rt; noted(&rt, alloc, &s) == 1);
    assert!(rt; note(&rt, &mut s, 1));
    refused(
        &rt,
        unsubscribe(&mut s, 2),
        GsFault::BadParameter(Field::Subscription),
    );
    taken(&rt, unsubscribe(&mut s, 1));
    assert!(rt; !note(&rt, &mut s, 1));
    assert!(rt; noted(&rt, alloc, &s) == 0);
}
