//! The tally of one phase of a protocol: who has voted, what stands for those who have not, and how the phase
//! comes out.
#![tactic(auto)]

mod orders;
mod tally;
mod voter;

pub use orders::first_votes_stand;
pub use tally::{Cast, MAX_VOTERS, Tally};
pub use voter::{Voter, vote_of_row};
