//! Whom a leader gathers for a ring, and who has acknowledged.
#![tactic(auto)]

mod gather;
mod laws;

pub use gather::Gather;
pub use laws::closes_with_the_acknowledged;
