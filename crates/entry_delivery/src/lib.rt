//! Handing an entry on to the clients of a node: they hear it and cast their ballots, and subscribers are told.
#![tactic(auto)]

mod delivery;
mod notes;

pub use delivery::hand_on;
pub use notes::subscriber_name;
