//! What a node is when it starts.
#![tactic(auto)]

mod start;

pub use start::start_core;
