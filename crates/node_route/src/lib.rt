//! Packets that go through other nodes: reading and writing envelopes, and what a node does with one.
#![tactic(auto)]

mod envelope;
mod routing;
mod ways;

pub use envelope::{Envelope, is_carried, wrap};
pub use route_state::{Front, MAX_HOPS};
pub use routing::{course, way};
pub use ways::{Course, Way, pass};
