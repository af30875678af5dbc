//! What is due to a target of a source.
use proposal_core::GroupState;
use rsct_packet::{ProtoId, ProviderId, Providers, ViewId};
use source_target::{Due, allowed, due};
use std::alloc::Global;
use std::process::Abort;

const AT: ProtoId = ProtoId {
    view: ViewId {
        number: 1,
        coord: 1,
        inc: 1,
    },
    place: 4,
};

const MEMBER: ProviderId = ProviderId {
    node: 2,
    inc: 1,
    instance: 7,
    join: 1,
};

/// A source whose value was set.
fn with_value(alloc: Global) -> GroupState {
    let mut source = GroupState::empty(alloc);
    source.value_at = Some(AT);
    source
}

/// A group gets a member of node 2.
fn add_member(rt: &impl Abort, alloc: Global, group: &mut GroupState) {
    group.members = Providers::one(alloc, MEMBER).expect(rt, "memory");
}

/// What is due to the target of a source.
fn due_to(rt: &impl Abort, alloc: Global, target: &GroupState, source: &GroupState) -> Option<Due> {
    due(alloc, target, Some(source)).expect(rt, "memory")
}

/// Is one provider to be cast out?
fn casts_one_out(due: &Option<Due>) -> bool {
    match due {
        Some(Due::CastOut(out)) => out.len() == 1,
        _ => false,
    }
}

/// Is the value of the source to be reflected?
fn reflects(due: &Option<Due>) -> bool {
    match due {
        Some(Due::Reflect(view, place)) => *view == AT.view && *place == AT.place,
        _ => false,
    }
}

#[test]
fn cast_out_comes_first(rt: HostRuntime) {
    let alloc = rt.alloc();
    let mut target = GroupState::empty(alloc);
    add_member(&rt, alloc, &mut target);
    let mut source = with_value(alloc);
    assert!(rt; !allowed(Some(&source), 2));
    assert!(rt; casts_one_out(&due_to(&rt, alloc, &target, &source)));
    add_member(&rt, alloc, &mut source);
    assert!(rt; reflects(&due_to(&rt, alloc, &target, &source)));
    target.reflected_at = Some(AT);
    assert!(rt; due_to(&rt, alloc, &target, &source).is_none());
}
