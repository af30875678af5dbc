//! The clients of a node: what they are handed and told, and what they answer.
#![tactic(auto)]

mod clients;
mod laws;

pub use clients::{hand_entry_on, tell_at};
pub use laws::scripted_clients_fill_their_scripts;
