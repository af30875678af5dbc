//! A map from bytes to bytes that messages write, and its encoding in pieces.
#![tactic(auto)]

mod chunks;
mod decode;
mod entries;
mod laws;
mod table;
#[cfg(test)]
mod tests;
mod writes;

pub use chunks::{Chunk, PIECE_LEN, read_chunk};
pub use laws::{chunks_are_read, messages_leave_maps};
pub use table::{MAX_ENCODING, Table};
