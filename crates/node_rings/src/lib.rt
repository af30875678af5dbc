//! The rings of a node: their packets and ticks, the reports that nodes send one another, and the view that these ask for.
#![tactic(auto)]

mod reports;
mod rings;
mod tick;
mod view_ask;

pub use reports::take_report;
pub use rings::take_ring_packet;
pub use tick::tick_rings;
pub use view_ask::{are_members, is_first, ring_ask};
