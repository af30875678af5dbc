//! A message cut into pieces.
ghost use Rattle.std.specs.Prelude.{◌≡◌, ◌≤◌, ◌<◌, ◌+◌, ◌-◌, ◌*◌, ◌++◌, ◌∷◌, [], ℕ, Bool, false, length, take, drop, map, OnErr, IfOk, IsTrue};
ghost use Rattle.piece_link.specs.Pieces.{can_cut, data_of, head_text, pieces_from, pieces_of, piece_count, message_by, message_of, AddsPieces};

use crate::piece::{HEAD_SIZE, LONGEST_MESSAGE, PIECE_SIZE, PieceHead, piece_count, put_piece};
use rsct_packet::NoMemory;
use std::alloc::Global;

/// The data of the piece of this index.
#[tactic(auto, unfolding(crate::specs::Pieces::data_of), using(crate::proofs::PieceLaws::data_is))]
fn data_of(message: &[u8], index: u32) -> &[u8]
    requires { 1176 * index < length message.now }
    ensures { result.now ≡ data_of message.now index }
{
    let start = PIECE_SIZE * index as usize;
    let end = message.len().min(start + PIECE_SIZE);
    &message[start..end]
}

/// The datagram of one piece.
fn datagram(alloc: Global, head: &PieceHead, text: &[u8]) -> Result<Vec<u8>, NoMemory>
    ensures { IfOk result (λ v. v.items ≡ head_text head.now ++ text.now) }
{
    let mut out = Vec::with_capacity(alloc, text.len().saturating_add(HEAD_SIZE))?;
    put_piece(&mut out, head, text)?;
    Ok(out)
}

/// The datagrams of a message, each with a piece.
#[tactic(auto, unfolding(crate::specs::Pieces::pieces_from), using(crate::proofs::PieceLaws::within_message))]
fn pieces_of(alloc: Global, first: &PieceHead, message: &[u8]) -> Result<Vec<Vec<u8>>, NoMemory>
    requires count { first.now.count ≡ piece_count (length message.now) }
    ensures { IfOk result (λ v. map (λ d. d.items) v.items
        ≡ pieces_of (message_of first.now message.now)) }
{
    let mut pieces = Vec::with_capacity(alloc, first.count as usize)?;
    for index in 0..first.count {
        let head = PieceHead { index, ..*first };
        let piece = datagram(alloc, &head, data_of(message, index))?;
        pieces.push(piece)?;
    }
    Ok(pieces)
}

/// Adds a message's pieces to the end of `out`, each a datagram. False, adding nothing, exactly where the message is
/// empty or has more than 70,560,000 bytes. Where memory has run out, `out` is as before.
pub fn cut(
    alloc: Global,
    out: &mut Vec<Vec<u8>>,
    sender: u8,
    incarnation: u32,
    number: u64,
    message: &[u8],
) -> Result<bool, NoMemory>
    requires { sender ≤ 32 }
    ensures when { IfOk result (λ done. done ≡ can_cut message.now) }
    ensures cut { IfOk result (λ done. IsTrue done →
        AddsPieces (message_by sender incarnation number message.now)
        (map (λ d. d.items) out.old.items) (map (λ d. d.items) out.new.items)) }
    ensures not_cut { IfOk result (λ done. done ≡ false → out.new.items ≡ out.old.items) }
    ensures err { OnErr result (out.new.items ≡ out.old.items) }
{
    if message.is_empty() || message.len() > LONGEST_MESSAGE {
        return Ok(false);
    }
    let first = PieceHead {
        sender,
        incarnation,
        number,
        index: 0,
        count: piece_count(message.len()),
    };
    let mut pieces = pieces_of(alloc, &first, message)?;
    out.append(&mut pieces)?;
    Ok(true)
}
