//! Votes, defaults and the outcome of a phase.
use group_attr::DefaultVote;
use proposal_core::{RowVote, Vote};
use rsct_packet::{NoMemory, ProviderId};
use std::alloc::Global;
use vote_phases::{Cast, Tally};

const ONE: ProviderId = ProviderId {
    node: 1,
    inc: 1,
    instance: 7,
    join: 1,
};

const TWO: ProviderId = ProviderId {
    node: 2,
    inc: 1,
    instance: 7,
    join: 1,
};

const THREE: ProviderId = ProviderId {
    node: 3,
    inc: 1,
    instance: 7,
    join: 1,
};

/// Providers 1 and 2 vote; who does not is taken to reject.
fn two_voters() -> Tally {
    Tally::new(&[ONE, TWO], DefaultVote::Reject, 1)
}

/// The first vote of a voter alone is recorded.
fn first_votes_are_recorded(tally: &mut Tally) -> bool {
    tally.cast(TWO, Vote::Continue) == Cast::Recorded
        && tally.cast(TWO, Vote::Approve) == Cast::Already(Vote::Continue)
        && tally.cast(THREE, Vote::Approve) == Cast::NotVoter
}

/// Are these the voters whose votes are missing?
fn are_open(alloc: Global, tally: &Tally, providers: &[ProviderId]) -> Result<bool, NoMemory> {
    Ok(tally.open_voters(alloc)?.as_slice() == providers)
}

/// Is the first voter late, with the default vote for it?
fn is_first_late(tally: &Tally) -> bool {
    match tally.row(0) {
        Some(row) => row.vote == RowVote::Late(DefaultVote::Reject),
        None => false,
    }
}

#[test]
fn late_voter_is_rejected(rt: HostRuntime) {
    let mut tally = two_voters();
    assert!(rt; first_votes_are_recorded(&mut tally));
    assert!(rt; tally.outcome().is_none());
    assert!(rt; are_open(rt.alloc(), &tally, &[ONE]).expect(&rt, "memory"));
    tally.tick();
    assert!(rt; is_first_late(&tally));
    assert!(rt; tally.outcome() == Some(Vote::Reject));
}
