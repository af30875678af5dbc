//! A status client: one question to a daemon, about what its node knows or about itself, and the receives until its answer.
#![tactic(auto)]

mod asking;
mod question;
mod waiting;

pub use asking::ask;
pub use question::{Asking, Subject};
