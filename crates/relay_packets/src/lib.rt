//! The datagrams of a world whose packets may go through other nodes: all that ever left a node, those that wait to be given,
//! and what leaves a node of what its step sends.
#![tactic(auto)]

mod datagrams;
mod leaving;
mod pairs;
mod parcels;
mod sending;
mod waiting;

pub use datagrams::WorldDatagrams;
pub use leaving::{Departure, departs, goes_on};
pub use pairs::Pair;
pub use parcels::KeptParcel;
pub use sending::send;
pub use waiting::Waiting;
