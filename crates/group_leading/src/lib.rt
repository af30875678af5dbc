//! What the leader of a group does: it appends entries, opens and closes phases, and begins protocols.
#![tactic(auto)]

mod entries;
mod phases;
mod protocols;
mod waiting_members;

pub use entries::{append, append_if_fits, put_and_hand};
pub use phases::{close, open_tally};
pub use protocols::begin;
