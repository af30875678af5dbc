//! One piece: its head and its data.
ghost use Rattle.std.specs.Prelude.{◌≡◌, ◌≤◌, ◌<◌, ◌+◌, ◌-◌, ◌*◌, ◌/◌, ◌++◌, length, take, drop, OnOk, OnErr, option_map};
ghost use Rattle.rsct_packet.specs.Reading.{Gives};
ghost use Rattle.piece_link.specs.Pieces.{is_piece, fits_data, head_at, head_text, piece_at, piece_count};

use rsct_packet::{
    MAX_NODES, NoMemory, put_u8, put_u16, put_u32, put_u64, read_u8, read_u16, read_u32, read_u64,
};

/// How many bytes of its message a piece has, but for the last one.
pub const PIECE_SIZE: usize = 1176;

/// How many bytes stand before the data of a piece.
pub const HEAD_SIZE: usize = 24;

/// How many pieces a message has at most.
pub const MOST_PIECES: u32 = 60_000;

/// How many bytes a message has at most that can be cut.
pub const LONGEST_MESSAGE: usize = 70_560_000;

/// The mark that each piece begins with: the letters `RP`.
const MARK: u16 = 0x5250;

/// Which piece it is: of which message of which sender (0: a status client) in which incarnation, at which place,
/// from 0, among how many.
#[derive(Clone, Copy, Debug, PartialEq, Eq)]
pub struct PieceHead {
    pub sender: u8,
    pub incarnation: u32,
    pub number: u64,
    pub index: u32,
    pub count: u32,
}

/// May the data after a head have this length?
fn fits_data(head: &PieceHead, len: usize) -> bool
    ensures { result ≡ fits_data head.now len }
{
    let is_last = u64::from(head.index) + 1 == u64::from(head.count);
    len >= 1
        && (if is_last {
            len <= PIECE_SIZE
        } else {
            len == PIECE_SIZE
        })
}

/// May this head stand before so many bytes?
fn is_piece(head: &PieceHead, len: usize) -> bool
    ensures { result ≡ is_piece head.now len }
{
    head.sender <= MAX_NODES
        && head.index < head.count
        && head.count <= MOST_PIECES
        && fits_data(head, len)
}

#[tactic(auto, unfolding(crate::specs::Pieces::head_at))]
fn read_head(bytes: &[u8]) -> Option<(PieceHead, &[u8])>
    ensures { Gives result (head_at bytes.now) }
{
    let (mark, rest) = read_u16(bytes)?;
    let (sender, rest) = read_u8(rest)?;
    let (zero, rest) = read_u8(rest)?;
    let (incarnation, rest) = read_u32(rest)?;
    let (number, rest) = read_u64(rest)?;
    let (index, rest) = read_u32(rest)?;
    let (count, rest) = read_u32(rest)?;
    if mark != MARK || zero != 0 {
        return None;
    }
    let head = PieceHead {
        sender,
        incarnation,
        number,
        index,
        count,
    };
    Some((head, rest))
}

/// The head of the piece that a datagram is, and its data where they stand. None exactly where it is no piece.
#[tactic(auto, unfolding(crate::specs::Pieces::piece_at))]
pub fn read_piece(datagram: &[u8]) -> Option<(PieceHead, &[u8])>
    ensures { option_map (λ x. record { head = x.0; text = x.1.now }) result
        ≡ piece_at datagram.now }
{
    let (head, text) = read_head(datagram)?;
    if !is_piece(&head, text.len()) {
        return None;
    }
    Some((head, text))
}

/// How many pieces a message of so many bytes has.
#[tactic(auto, unfolding(crate::specs::Pieces::piece_count))]
pub fn piece_count(len: usize) -> u32
    requires { len ≤ 70560000 }
    ensures value { result ≡ piece_count len }
    ensures most { result ≤ 60000 }
{
    ((len + PIECE_SIZE - 1) / PIECE_SIZE) as u32
}

/// Writes a piece to the end of `out`. Where memory has run out, a part of it may stand there.
#[tactic(auto, using(crate::proofs::PieceLaws::piece_put))]
pub fn put_piece(out: &mut Vec<u8>, head: &PieceHead, text: &[u8]) -> Result<(), NoMemory>
    ensures { OnOk result (out.new.items ≡ out.old.items ++ (head_text head.now ++ text.now)) }
{
    put_u16(out, MARK)?;
    put_u8(out, head.sender)?;
    put_u8(out, 0)?;
    put_u32(out, head.incarnation)?;
    put_u64(out, head.number)?;
    put_u32(out, head.index)?;
    put_u32(out, head.count)?;
    out.extend_from_slice(text)?;
    Ok(())
}
