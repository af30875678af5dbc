//! The law of gatherings.
ghost use Rattle.ring_commit.specs.Closing.{ClosesWithTheAcknowledged};

/// Whatever acknowledgements come, a gathering has exactly those that were asked and acknowledged, and the node
/// that opened it.
#[tactic(auto, using(crate::proofs::AckLaws::closes_with_acked))]
pub fn closes_with_the_acknowledged()
    ensures { ClosesWithTheAcknowledged }
{}
