//! Runs of worlds: which are the same, and what they come to under any answers of the clients.
#![tactic(auto)]

pub mod world_answers;
pub mod world_runs;
