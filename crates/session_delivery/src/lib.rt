//! What an entry that is handed on makes of a node's sessions: who hears it, which ballots are kept, which requests end,
//! and who is told that a request was refused.
#![tactic(auto)]

mod delivery;
mod places;

pub use delivery::{beginners, hear, hearers, is_live, outstanding, take_telling, takes_telling};
pub use places::{client_place, place_of};
