//! The subscriptions of a group, which of them are noted, and which are refused.
use proposal_core::GroupState;
use rsct_packet::{List, Text};
use std::alloc::Global;
use std::process::Abort;
use subscribe_core::{ClientToken, SubFault, SubToken, Subs};

/// Subscribes a client to a group, and answers the subscription's number.
fn add(
    rt: &impl Abort,
    alloc: Global,
    subs: &mut Subs,
    client: u32,
    group: &[u8],
    known: bool,
) -> Result<u32, SubFault> {
    assert!(rt; subs.last() < u32::MAX);
    let token = subs.add(alloc, ClientToken { number: client }, group, known)?;
    Ok(token.number)
}

/// The subscriptions of `db`.
fn live(rt: &impl Abort, alloc: Global, subs: &Subs) -> List<SubToken> {
    subs.tokens(alloc, b"db").expect(rt, "memory")
}

/// The state of a group without members and with this value.
fn state(rt: &impl Abort, alloc: Global, value: &[u8]) -> GroupState {
    let text = Text::of(alloc, value).expect(rt, "memory");
    let mut s = GroupState::empty(alloc);
    s.value = text.expect(rt, "a text");
    s
}

/// Those noted where the value of `db` changes from empty to this one.
fn noted(rt: &impl Abort, alloc: Global, subs: &Subs, value: &[u8]) -> List<SubToken> {
    let before = GroupState::empty(alloc);
    let after = state(rt, alloc, value);
    subs.notes(alloc, b"db", &before, &after)
        .expect(rt, "memory")
}

#[test]
fn live_tokens_are_noted(rt: HostRuntime) {
    let alloc = rt.alloc();
    let mut subs = Subs::new(alloc);
    let first = SubToken { number: 1 };
    let third = SubToken { number: 3 };
    assert!(rt; add(&rt, alloc, &mut subs, 1, b"db", true) == Ok(1));
    assert!(rt; add(&rt, alloc, &mut subs, 2, b"HostMembership", false) == Ok(2));
    assert!(rt; add(&rt, alloc, &mut subs, 2, b"db", true) == Ok(3));
    assert!(rt; live(&rt, alloc, &subs).as_slice() == [first, third].as_slice());
    assert!(rt; noted(&rt, alloc, &subs, b"").as_slice().is_empty());
    assert!(rt; subs.remove(first));
    assert!(rt; noted(&rt, alloc, &subs, b"x").as_slice() == [third].as_slice());
}

#[test]
fn unknown_group_is_refused(rt: HostRuntime) {
    let mut subs = Subs::new(rt.alloc());
    let refused = add(&rt, rt.alloc(), &mut subs, 1, b"db", false);
    assert!(rt; refused == Err(SubFault::UnknownGroup));
}
