//! Providers in every run: where they hear, which ballots count, who is let go, and that nothing is left to begin.
#![tactic(auto)]

pub mod attending;
pub mod leaving;
pub mod resting;
pub mod single_casts;
