//! The attributes of a group.
#![tactic(auto)]

mod attrs;

pub use attrs::{AttrFault, Attrs, Batch, DefaultVote, HOST_MEMBERSHIP, MAX_LIMIT, Phases};
