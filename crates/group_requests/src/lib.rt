//! The inbox of a group's leader: the requests of members' clients, the votes of a phase, who is gone, and the lengths that
//! members acknowledge.
#![tactic(auto)]

mod acks;
mod goodbyes;
mod requests;
mod votes;

pub use acks::take_ack;
pub use goodbyes::take_gone;
pub use requests::take_request;
pub use votes::take_vote;
