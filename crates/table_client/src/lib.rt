//! An agreed table of a group: the client that keeps a copy of it for each of its providers, the rules by which it does,
//! and laws on the map of a group's list.
#![tactic(auto)]

mod callbacks;
mod chunks;
mod client;
mod copies;
mod following;
mod laws;
mod sharing;
#[cfg(test)]
mod tests;

pub use client::TableClient;
pub use copies::TableCopy;
pub use laws::{
    copies_are_apart, copies_are_distinct, copies_follow, maps_hold, rules_keep_the_map,
};
