//! What a play keeps beside its nodes: in which incarnations they started, how many bytes were sent, which nodes are cut
//! off from each other, and why a play ends early.
#![tactic(auto)]

mod cuts;
mod play_fault;
mod sent_bytes;
mod starts;
mod world_fault;

pub use cuts::Cuts;
pub use play_fault::{PlayFault, PutFault};
pub use sent_bytes::post_all;
pub use starts::{Started, Starts};
pub use world_fault::WorldFault;
