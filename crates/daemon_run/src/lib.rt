//! A daemon at work: one node over an outside, turn by turn.
#![tactic(auto)]

mod calls;
mod first;
mod hosted;
mod keeping;
mod remote;
mod running;
mod serving;
mod turns;
mod writing;

pub use calls::{Hosts, Objects};
pub use first::writes_its_start;
pub use hosted::Hosted;
pub use serving::{Outcome, Serving, serve};
