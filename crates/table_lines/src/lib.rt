//! The copies of a group's table on lines, and the order of the clients that have them.
#![tactic(auto)]

mod copies;
mod names;
mod parts;
#[cfg(test)]
mod tests;

pub use copies::put_copies;
pub use names::client_names;
