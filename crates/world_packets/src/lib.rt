//! The packets of a world: all that were ever sent, and those that wait to be given.
#![tactic(auto)]

mod packets;
mod pairs;
mod waiting;

pub use packets::WorldPackets;
pub use pairs::Pair;
pub use waiting::Waiting;
