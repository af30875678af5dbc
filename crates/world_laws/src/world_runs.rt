//! The laws of worlds and of limited runs that the play of a script stands on.
//!
//! `specs/Runs` says how a limited run, its records and a play go on part by part, and `proofs/` how the parts join.

ghost use Rattle.world_laws.specs.world_runs.Laws.{QueueIsNotRead, RunsGrow};

/// What happens in a world does not depend on what waits there.
#[tactic(auto, using(crate::proofs::world_runs::Queue::same_happens))]
pub fn queue_is_not_read()
    ensures { QueueIsNotRead }
{}

/// A limited run only adds records.
#[tactic(auto, using(crate::proofs::world_runs::Traces::run_grows))]
pub fn runs_grow()
    ensures { RunsGrow }
{}
