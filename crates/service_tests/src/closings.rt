//! How a phase closes.
use batch_rules::Waiting;
use group_attr::DefaultVote;
use node_state::{Led, Table};
use phase_closing::{closing_entry, is_phase};
use proposal_core::{Proposal, Running, Vote};
use rsct_packet::{List, ProtoId, ProviderId, ViewId};
use std::alloc::Global;
use std::process::Abort;
use vote_phases::Tally;

// 1.1.1.1
fn provider() -> ProviderId {
    ProviderId {
        node: 1,
        inc: 1,
        instance: 1,
        join: 1,
    }
}

// its last vote is CONTINUE
fn led(alloc: Global) -> Led {
    let mut tally = Tally::new(&[provider()], DefaultVote::Approve, 0);
    let _ = tally.cast(provider(), Vote::Continue);
    Led {
        acked: Table {
            rows: Vec::new(alloc),
        },
        waiting: Waiting::new(),
        join_attrs: List::new(alloc),
        tally: Some(tally),
        given: List::new(alloc),
        gone: List::new(alloc),
        decided: Table {
            rows: Vec::new(alloc),
        },
    }
}

// its own leave, in this phase
fn running(phase: u16) -> Running {
    Running {
        proto: ProtoId {
            view: ViewId {
                number: 1,
                coord: 1,
                inc: 1,
            },
            place: 0,
        },
        proposal: Proposal::Leave {
            provider: provider(),
            request: 2,
        },
        phase,
        proposed: None,
    }
}

/// Is the entry that closes this phase, with CONTINUE, one of a phase that goes on?
fn goes_on(rt: &impl Abort, alloc: Global, phase: u16) -> bool {
    let closed = closing_entry(alloc, &led(alloc), &Some(running(phase))).expect(rt, "memory");
    is_phase(&closed.expect(rt, "an entry"))
}

#[test]
fn last_phase_does_not_go_on(rt: HostRuntime) {
    assert!(rt; goes_on(&rt, rt.alloc(), 199));
    assert!(rt; !goes_on(&rt, rt.alloc(), 200));
}
