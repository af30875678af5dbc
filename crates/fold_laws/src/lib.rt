//! The fold of a group's list, in plain words: who votes, what each kind of entry changes, and how long a list gets.
#![tactic(auto)]

mod laws;
pub mod samples;

pub use laws::{entries_change_as_said, lists_have_room, voters_are_who_stays};
