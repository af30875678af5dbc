//! The pieces of an encoding.
ghost use Rattle.std.specs.Prelude.{◌≡◌, IfOk};
ghost use Rattle.std.specs.Option.{option_map};
ghost use Rattle.agreed_table.specs.InPlace.{chunk_now};
ghost use Rattle.agreed_table.specs.Chunks.{piece, chunk_of, chunk_in};

use rsct_packet::{NoMemory, put_u16, read_u8, read_u16};
use std::alloc::Global;

/// How many bytes of the encoding a chunk has at most.
pub const PIECE_LEN: usize = 1_000;

/// The piece of this number.
#[tactic(auto, unfolding(crate::specs::Chunks::piece))]
fn piece(bytes: &[u8], number: u16) -> &[u8]
    ensures { result.now ≡ piece number bytes.now }
{
    let from = bytes.len().min(PIECE_LEN * number as usize);
    let to = bytes.len().min(from + PIECE_LEN);
    &bytes[from..to]
}

/// `T`, the number of the piece, how many pieces there are, and the piece.
pub(crate) fn chunk_of(
    alloc: Global,
    bytes: &[u8],
    number: u16,
    count: u16,
) -> Result<Vec<u8>, NoMemory>
    ensures { IfOk result (λ v. v.items ≡ chunk_of number count bytes.now) }
{
    let mut text = Vec::new(alloc);
    text.push(b'T')?;
    put_u16(&mut text, number)?;
    put_u16(&mut text, count)?;
    text.extend_from_slice(piece(bytes, number))?;
    Ok(text)
}

/// A chunk in place: its number, how many there are, and its piece.
#[derive(Clone, Copy)]
pub struct Chunk<'a> {
    pub number: u16,
    pub count: u16,
    pub bytes: &'a [u8],
}

/// The chunk that a message is; none where it is none.
#[tactic(auto, unfolding(crate::specs::Chunks::chunk_in))]
pub fn read_chunk(message: &[u8]) -> Option<Chunk<'_>>
    ensures { option_map chunk_now result ≡ chunk_in message.now }
{
    let (letter, rest) = read_u8(message)?;
    let (number, rest) = read_u16(rest)?;
    let (count, bytes) = read_u16(rest)?;
    if letter != b'T' {
        return None;
    }
    Some(Chunk {
        number,
        count,
        bytes,
    })
}
