//! The spellings of states, and the calls that take memory.
ghost use Rattle.proposal_core.specs.StateCodec.{IsState};

use crate::entries::entry_of;
use group_codec::{put_state, read_state};
use proposal_core::{Entry, GroupList, GroupState};
use rsct_packet::{ProviderId, ViewId};
use std::alloc::Global;
use std::process::Abort;

const VIEW: ViewId = ViewId {
    number: 1,
    coord: 1,
    inc: 1,
};

const FIRST: ProviderId = ProviderId {
    node: 1,
    inc: 1,
    instance: 1,
    join: 1,
};

// the member 1.1.1.1, the value `a` set at 1.1.1/1, no failed, nothing running
const IDLE: [u8; 42] = [
    1, 1, 0, 0, 0, 1, 0, 1, 0, 0, 0, 1, 0, 1, 97, 1, 0, 1, 0, 0, 1, 0, 0, 0, 0, 0, 1, 0, 0, 0, 1,
    1, 0, 0, 0, 1, 0, 0, 0, 1, 0, 0,
];

// the same with 2.1.1.1 failed, place 7 reflected, and in phase 3 the join of 2.1.1.1, begun at place 2, with the
// proposed value `b`
const RUNNING: [u8; 109] = [
    1, 1, 0, 0, 0, 1, 0, 1, 0, 0, 0, 1, 0, 1, 97, 1, 0, 1, 0, 0, 1, 0, 0, 0, 0, 1, 2, 0, 0, 0, 1,
    0, 1, 0, 0, 0, 1, 1, 0, 0, 0, 1, 1, 0, 0, 0, 1, 0, 0, 0, 1, 1, 0, 0, 0, 1, 1, 0, 0, 0, 1, 0, 0,
    0, 7, 1, 0, 0, 0, 1, 1, 0, 0, 0, 1, 0, 0, 0, 2, 0, 3, 1, 1, 2, 0, 0, 0, 1, 0, 1, 0, 0, 0, 1, 1,
    0, 1, 0, 0, 1, 0, 0, 0, 0, 0, 1, 0, 1, 98,
];

// 1.1.1.1 joins
const JOIN: [u8; 25] = [
    1, 1, 1, 1, 0, 0, 0, 1, 0, 1, 0, 0, 0, 1, 1, 0, 1, 0, 0, 1, 0, 0, 0, 0, 0,
];

// 1.1.1.1 begins to set the value `red` by its second request
const BEGIN: [u8; 22] = [
    2, 5, 1, 0, 0, 0, 1, 0, 1, 0, 0, 0, 1, 0, 0, 0, 2, 0, 3, 114, 101, 100,
];

// phase 1 of 1.1.1/1 closed with CONTINUE and the value `x`
const PHASE: [u8; 34] = [
    3, 0, 0, 0, 1, 1, 0, 0, 0, 1, 0, 0, 0, 1, 0, 1, 1, 1, 0, 0, 0, 1, 0, 1, 0, 0, 0, 1, 2, 1, 0, 1,
    120, 0,
];

// phase 2 of 1.1.1/1 closed with APPROVE
const APPROVE: [u8; 31] = [
    4, 0, 0, 0, 1, 1, 0, 0, 0, 1, 0, 0, 0, 1, 0, 2, 1, 1, 0, 0, 0, 1, 0, 1, 0, 0, 0, 1, 1, 0, 0,
];

/// The list of a group that nobody has joined.
#[tactic(auto, unfolding(proposal_core::specs::Fold::joiners_fit, proposal_core::specs::Fold::joiners_fit_at))]
fn new_list(alloc: Global) -> GroupList {
    GroupList::new(alloc, GroupState::empty(alloc))
}

/// The state at the front of these bytes.
fn state_of(rt: &impl Abort, alloc: Global, spelled: &[u8]) -> GroupState
    ensures { IsState result }
{
    let (read, _rest) = read_state(spelled).expect(rt, "a state");
    read.own(alloc).expect(rt, "memory")
}

/// Is this the whole spelling of the state at its front?
fn is_whole(spelled: &[u8]) -> bool {
    match read_state(spelled) {
        None => false,
        Some((read, _rest)) => read.bytes() == spelled,
    }
}

/// The spelling of an equal state.
fn state_bytes(rt: &impl Abort, alloc: Global, state: &GroupState) -> Vec<u8>
    requires { IsState state.now }
{
    let copy = state.copy(alloc).expect(rt, "memory");
    let mut out = Vec::new(alloc);
    put_state(alloc, &mut out, &copy).expect(rt, "memory");
    out
}

/// Is what is read of a spelling spelled so again?
fn is_state_again(rt: &impl Abort, alloc: Global, spelled: &[u8]) -> bool {
    let s = state_of(rt, alloc, spelled);
    state_bytes(rt, alloc, &s).as_slice() == spelled && is_whole(spelled)
}

#[test]
fn states_are_spelled_and_read(rt: HostRuntime) {
    let alloc = rt.alloc();
    assert!(rt; is_state_again(&rt, alloc, &IDLE));
    assert!(rt; is_state_again(&rt, alloc, &RUNNING));
}

/// The state of a group after its first entry.
#[tactic(auto, unfolding(proposal_core::specs::Fold::joiners_fit, proposal_core::specs::Fold::joiners_fit_at))]
fn first_state(rt: &impl Abort, alloc: Global, entry: &Entry) -> GroupState {
    let mut s = GroupState::empty(alloc);
    assert!(rt; s.fits(entry));
    s.apply(alloc, VIEW, 0, entry).expect(rt, "memory");
    s
}

#[test]
fn a_state_takes_an_entry(rt: HostRuntime) {
    let alloc = rt.alloc();
    let s = first_state(&rt, alloc, &entry_of(&rt, alloc, &JOIN));
    assert!(rt; s.members.as_slice() == [FIRST].as_slice());
}

/// Puts the entry of these bytes, and answers its place.
fn put(rt: &impl Abort, alloc: Global, list: &mut GroupList, spelled: &[u8]) -> u32 {
    let e = entry_of(rt, alloc, spelled);
    assert!(rt; list.state().fits(&e));
    assert!(rt; list.has_room(&e));
    list.put(alloc, VIEW, e).expect(rt, "memory")
}

/// Are these the voters of what runs at the end of the list?
fn are_voters(rt: &impl Abort, alloc: Global, list: &GroupList, providers: &[ProviderId]) -> bool {
    let voters = list.state().voters(alloc).expect(rt, "memory");
    voters.as_slice() == providers
}

/// The value at the end of the list.
fn value(list: &GroupList) -> &[u8] {
    list.state().value.bytes()
}

/// Has the list this length, and so many bytes?
fn has_counts(list: &GroupList, len: u32, bytes: u32) -> bool {
    list.len() == len && list.bytes() == bytes
}

/// Lets the entries below a place go.
fn forget_below(rt: &impl Abort, list: &mut GroupList, place: u32) {
    assert!(rt; place <= list.len());
    list.forget_below(place);
}

#[test]
fn lists_take_entries(rt: HostRuntime) {
    let alloc = rt.alloc();
    let mut list = new_list(alloc);
    assert!(rt; put(&rt, alloc, &mut list, &JOIN) == 0);
    assert!(rt; put(&rt, alloc, &mut list, &BEGIN) == 1);
    assert!(rt; are_voters(&rt, alloc, &list, &[FIRST]));
    assert!(rt; put(&rt, alloc, &mut list, &PHASE) == 2);
    assert!(rt; put(&rt, alloc, &mut list, &APPROVE) == 3);
    assert!(rt; value(&list) == b"x".as_slice());
    forget_below(&rt, &mut list, 2);
    assert!(rt; has_counts(&list, 4, 112));
}
