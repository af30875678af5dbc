//! The inbox of a group's member: the entries of the group's list, who leads it, and what its leader tells the clients.
#![tactic(auto)]

mod entries;
mod names;
mod tells;

pub use entries::{PlacedEntry, take_entry};
pub use names::{send_name, take_lookup, take_name};
pub use tells::take_tell;
