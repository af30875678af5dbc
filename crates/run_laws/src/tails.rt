//! Where lists start, in every run: nothing is forgotten that a member lacks.

ghost use Rattle.run_laws.specs.tails.Tails.{EveryTailIsHeld};

/// Whatever starts, stops and steps: each member of a node's view has put what the node's list of a group lacks at its
/// front, and at the node that leads the group each other member has acknowledged it.
#[tactic(auto, using(crate::proofs::tails::Law::tails_held))]
pub fn every_tail_is_held()
    ensures { EveryTailIsHeld }
{}
