//! What every run shows: that rings agree, what records tell, why each provider failed, that nothing is left out, and what is
//! forgotten.
#![tactic(auto)]

pub mod failed_causes;
pub mod gapless;
pub mod ring_runs;
pub mod seen_runs;
pub mod tails;
