//! What clients ask for has a spelling, wherever the words of their calls have one.
#![tactic(auto)]

mod laws;
pub mod samples;

pub use laws::{every_request_is_a_line, every_request_is_spelled, requests_of_scenes_are_spelled};
