//! The lines in which a daemon tells of itself, written: its clients, and what it counts.
#![tactic(auto)]

mod clients;
mod counts;
mod numbers;
#[cfg(test)]
mod tests;

pub use clients::put_clients;
pub use counts::put_daemon;
