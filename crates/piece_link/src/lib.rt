//! Messages in pieces: a message longer than a datagram is cut into pieces, and joined where they come.
#![tactic(auto)]

mod cutting;
mod joiner;
mod kept;
pub mod laws;
mod piece;
mod slots;

pub use cutting::cut;
pub use joiner::Joiner;
pub use kept::{Kept, Parts};
pub use piece::{
    HEAD_SIZE, LONGEST_MESSAGE, MOST_PIECES, PIECE_SIZE, PieceHead, piece_count, put_piece,
    read_piece,
};
