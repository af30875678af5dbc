//! What waits, and what begins next.
use batch_rules::{Added, Chosen, Waiting};
use group_attr::Batch;
use proposal_core::Cause;
use rsct_packet::ProviderId;

fn provider(node: u8) -> ProviderId {
    ProviderId {
        node,
        inc: 1,
        instance: 7,
        join: 1,
    }
}

/// Each instance may join once.
fn joins_differ(waiting: &mut Waiting) -> bool {
    waiting.add_join(provider(1), &[provider(2)]) == Added::Queued
        && waiting.add_join(provider(2), &[provider(2)]) == Added::DuplicateInstance
}

/// A provider fails once.
fn fails_once(waiting: &mut Waiting) -> bool {
    waiting.add_failure(provider(3), Cause::Gone) && !waiting.add_failure(provider(3), Cause::Died)
}

/// Does nothing wait?
fn is_empty(waiting: &Waiting) -> bool {
    waiting.joins() + waiting.failures() == 0
}

#[test]
fn failures_come_first(rt: HostRuntime) {
    let mut waiting = Waiting::new();
    assert!(rt; joins_differ(&mut waiting));
    assert!(rt; fails_once(&mut waiting));
    assert!(rt; matches!(waiting.next(Batch::Both), Some(Chosen::Failures(_))));
    assert!(rt; matches!(waiting.next(Batch::Neither), Some(Chosen::Joins(_))));
    assert!(rt; is_empty(&waiting));
}

/// A queued instance is a duplicate, and another is none.
fn is_queued_alone(waiting: &Waiting) -> bool {
    waiting.is_duplicate(provider(1), &[]) && !waiting.is_duplicate(provider(2), &[])
}

#[test]
fn each_kind_is_taken_alone(rt: HostRuntime) {
    let mut waiting = Waiting::new();
    assert!(rt; waiting.add_join(provider(1), &[]) == Added::Queued);
    assert!(rt; is_queued_alone(&waiting));
    assert!(rt; waiting.add_failure(provider(3), Cause::Died));
    assert!(rt; waiting.next_joins(Batch::Neither).len() == 1);
    assert!(rt; waiting.next_joins(Batch::Neither).len() == 0);
    assert!(rt; waiting.next_failures(Batch::Both).len() == 1);
    assert!(rt; is_empty(&waiting));
}
