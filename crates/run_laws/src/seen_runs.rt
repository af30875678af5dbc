//! What the records of every run show by themselves, one after another.

ghost use Rattle.run_laws.specs.seen_runs.Once.{EveryRequestBeginsOnce, SafeEntriesWereAsked};
ghost use Rattle.run_laws.specs.seen_runs.Law.{EveryTraceIsSeen, EveryHeardIsFold, EveryRingIsSeen, EveryTraceIsSeenWithRings};

/// Whatever starts, stops and steps, the records show all that records alone can show of a safe run, but for its rings: they are
/// `Seen`.
#[tactic(auto, using(crate::proofs::seen_runs::Law::traces_seen))]
pub fn every_trace_is_seen()
    ensures { EveryTraceIsSeen }
{}

/// Each request of a provider is asked in one group, and at its own node it begins at one place of one view, over all groups.
#[tactic(auto, using(crate::proofs::seen_runs::Once::requests_once))]
pub fn requests_begin_once()
    ensures { EveryRequestBeginsOnce }
{}

/// Where the lines of each group are safe, as they are in every run, whoever an entry names asked in that group for what it
/// begins, at whatever node the entry is put.
pub fn entries_were_asked()
    ensures { SafeEntriesWereAsked }
{}

/// What a provider hears carries the members and the value that the records of its node make of the list up to its place: the
/// fold of the base and of the entries that the node put there.
#[tactic(auto, using(crate::proofs::seen_runs::Folds::heard_folds))]
pub fn heard_is_fold_of_records()
    ensures { EveryHeardIsFold }
{}

/// The ring records of a network whose addresses differ show themselves that its rings agree: two of one id have the same members,
/// and the node, the id's leader and the neighbour are among them.
#[tactic(auto, using(crate::proofs::seen_runs::Rings::every_ring_seen))]
pub fn every_ring_is_seen()
    ensures { EveryRingIsSeen }
{}

/// Where the addresses of every network differ, the records show all of this: they are `Seen`, and so are the rings of each network.
#[tactic(auto, using(crate::proofs::seen_runs::Rings::traces_seen_with_rings))]
pub fn every_trace_is_seen_with_rings()
    ensures { EveryTraceIsSeenWithRings }
{}
