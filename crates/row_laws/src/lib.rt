//! What the rules of the step do in every run: who hears what, which votes are kept, who fails.
#![tactic(auto)]

pub mod failed_rows;
pub mod hearing;
pub mod honest_votes;
