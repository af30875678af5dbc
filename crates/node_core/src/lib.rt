//! A node that runs: what it is when it starts, and what it does at each event.
#![tactic(auto)]

mod events;
mod group_packets;
mod node;
mod packets;
mod sessions;
mod view_packets;

pub use events::NodeEvent;
pub use node::{Node, StepFault};
pub use packet_codec::is_packet;
