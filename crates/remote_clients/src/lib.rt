//! The clients of a daemon that call from other machines: which of their lines are calls of the node, and what each
//! of them is to hear.
#![tactic(auto)]

mod clients;
mod entries;
mod laws;
mod sessions;

pub use clients::{Clients, Owner, RemoteClient};
pub use laws::entries_come_first;
pub use sessions::{Sessions, is_refused};
