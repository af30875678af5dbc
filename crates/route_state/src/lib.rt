//! Packets that go through other nodes: the format of envelopes, which way one goes at a node, and which packets may be
//! in one. Definitions, worked examples and a law on the step of a node; the code is `node_route`.
#![tactic(auto)]

mod examples;
mod front;
mod laws;

pub use examples::{passes_through_the_middle, reads_no_other};
pub use front::{Front, MAX_HOPS};
pub use laws::network_is_not_read;
