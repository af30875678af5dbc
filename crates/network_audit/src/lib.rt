//! What the daemons of a network log is judged as seen: a law.
#![tactic(auto)]

mod laws;

pub use laws::daemon_texts_are_seen;
