//! Packets of daemons as bytes: reading in place, writing, and which packets have a spelling.
#![tactic(auto)]

mod datagram;
mod groups;
mod laws;
mod packet;
mod rings;
mod views;
mod writable_entries;
mod writable_ids;
mod writable_lists;
mod writable_packets;
mod writing;

pub use datagram::Datagram;
pub use laws::packets_are_read_again;
pub use packet::{
    Answered, BodyRef, PacketRef, PlacedRef, RequestRef, TellRef, VoteRef, is_packet,
};
pub use writable_packets::is_writable;
pub use writing::{head_of, write_packet};
