//! What waits to begin in a group: joins and failures, and which of them begin together.
#![tactic(auto)]

mod queue;
mod waiting;

pub use waiting::{Added, Chosen, MAX_WAITING, Waiting};
