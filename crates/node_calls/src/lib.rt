//! What a node does at the calls of its clients.
#![tactic(auto)]

mod answers;
mod ballots;
mod calls;
mod requests;
mod sessions;

pub use calls::take_call;
pub use sessions::{take_goodbye, take_init};
