//! The lines of a node's status.
#![tactic(auto)]

mod lines;
mod status;

pub use status::{record_status, status_text};
