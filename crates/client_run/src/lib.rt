//! A client of a daemon, on another machine: it hands on the calls of its input, and writes what it hears.
#![tactic(auto)]

mod client;
mod serving;
mod text;

pub use serving::{Usage, use_daemon};

#[cfg(test)]
mod tests;
