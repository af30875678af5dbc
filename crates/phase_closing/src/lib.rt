//! The tally of a phase as the leader of a group opens it, and the entry that closes the phase.
#![tactic(auto)]

mod closing;
mod tally;

pub use closing::{closing_entry, is_phase};
pub use tally::tally_for;
