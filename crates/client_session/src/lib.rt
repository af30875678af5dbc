//! The sessions of a node with their clients as one value: the calls of clients, each with its checks, what is delivered to
//! them, and what is read of them.
#![tactic(auto)]

mod reads;
mod sessions;

pub use sessions::{PutEntry, Sessions};
