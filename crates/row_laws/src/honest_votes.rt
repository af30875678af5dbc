//! The votes that entries record were really cast, in every run.

ghost use Rattle.row_laws.specs.honest_votes.Scenes.{RecordedVotesAreCast, SentVotesAreCast, KeptVotesAreCast, ListedVotesAreCast, CountedVotesAreCast, GatheredVotesAreCast};

/// Each vote that an entry records, where a node puts it, was cast before: by that provider, in that phase of that protocol.
#[tactic(auto, using(crate::proofs::honest_votes::Law::recorded_votes))]
pub fn recorded_votes_are_cast()
    ensures { RecordedVotesAreCast }
{}

/// So was each vote that was sent, by itself or in an entry.
#[tactic(auto, using(crate::proofs::honest_votes::Law::sent_votes))]
pub fn sent_votes_are_cast()
    ensures { SentVotesAreCast }
{}

/// So was each ballot that a node keeps.
pub fn kept_votes_are_cast()
    ensures { KeptVotesAreCast }
{}

/// So was each vote of the entries in a node's lists.
#[tactic(auto, using(crate::proofs::honest_votes::Law::listed_votes))]
pub fn listed_votes_are_cast()
    ensures { ListedVotesAreCast }
{}

/// So was each vote that a leader has counted of the phase that runs.
#[tactic(auto, using(crate::proofs::honest_votes::Law::counted_votes))]
pub fn counted_votes_are_cast()
    ensures { CountedVotesAreCast }
{}

/// So was each vote of the lists that a node gathers for a view, and of the install that it keeps.
#[tactic(auto, using(crate::proofs::honest_votes::Law::gathered_votes))]
pub fn gathered_votes_are_cast()
    ensures { GatheredVotesAreCast }
{}
