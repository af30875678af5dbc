//! What a node sends: the settings that say how, and the packets.
#![tactic(auto)]

mod ballots;
mod packets;
mod settings;
mod views;

pub use ballots::{FilledBallot, send_kept_to, send_request_to, send_vote};
pub use packets::{network_to, send, send_entry, send_if_known, send_on};
pub use settings::{
    address, has_adapter, is_fixed, is_rings, shared_network, speaks_two, view_level,
};
pub use views::{coordinates, is_frozen, others};
