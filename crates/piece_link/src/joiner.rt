//! Pieces joined to messages.
ghost use Rattle.std.specs.Prelude.{◌≡◌, ◌==◌, ℕ, List, [], Option, position, option_map, OnErr, IfOk};
ghost use Rattle.piece_link.specs.Joining.{joined_as, row_taken, taken};

use crate::kept::Kept;
use crate::piece::{PieceHead, read_piece};
use rsct_packet::NoMemory;
use std::alloc::Global;
use std::marker::Model;

/// Joins pieces to messages. Of each sender, 0 to 32, it keeps one message: that of the greatest incarnation and
/// number of which a piece came. So a sender can make it hold at most one message of 60,000 pieces of 1,176 bytes.
#[derive(Drop)]
pub struct Joiner {
    // None before the first piece, since `new` is handed no allocator.
    rows: Option<Vec<Kept>>,
}

impl Model for Joiner {
    ghost use Rattle.std.specs.Prelude.{List, []};
    ghost use Rattle.std.specs.Option.{option_map, unwrap_or};
    ghost use Rattle.piece_link.specs.declared.kept.Kept.{Kept};

    ghost Value = { List Kept };

    ghost view = { λ j. unwrap_or (option_map (λ v. v.items) j.rows) [] };
}

/// Where the row of the sender stands.
fn place_of(rows: &[Kept], sender: u8) -> Option<usize>
    ensures { result ≡ position (λ k. k.sender == sender) rows.now }
{
    rows.iter().position(|kept| kept.sender == sender)
}

/// Takes a piece into the row of its sender, and answers the message where it was the last missing one.
fn take_piece(
    alloc: Global,
    rows: &mut Vec<Kept>,
    head: &PieceHead,
    text: &[u8],
) -> Result<Option<Vec<u8>>, NoMemory>
    ensures ok { IfOk result (λ m. joined_as rows.new.items (option_map (λ v. v.items) m)
        ≡ row_taken rows.old.items head.now text.now) }
    ensures err { OnErr result (rows.new.items ≡ rows.old.items) }
{
    let Some(place) = place_of(rows.as_slice(), head.sender) else {
        let (kept, message) = Kept::begin(alloc, head, text)?;
        rows.push(kept)?;
        return Ok(message);
    };
    let answer = rows[place].take(alloc, head, text);
    answer
}

impl Joiner {
    /// A joiner that keeps nothing. It takes no memory.
    pub fn new() -> Joiner
        ensures { result ≡ [] }
    {
        Joiner { rows: None }
    }

    /// Takes a datagram, and answers the message whose last missing piece it is; None exactly where it is none's.
    /// Bytes that are no piece, a piece of a message before the one that is kept of its sender, of the kept one with
    /// another count, of one that was answered, and one that came already change nothing. A piece of a newer message
    /// takes the place of what was kept. Sender 0 is a status client: a message of it of one piece is answered at
    /// once, and nothing of it is kept. Where memory has run out, what is kept is as before.
    #[tactic(auto, unfolding(crate::specs::Joining::taken))]
    pub fn take(&mut self, alloc: Global, datagram: &[u8]) -> Result<Option<Vec<u8>>, NoMemory>
        ensures ok { IfOk result (λ m. joined_as self.new (option_map (λ v. v.items) m)
            ≡ taken self.old datagram.now) }
        ensures err { OnErr result (self.new ≡ self.old) }
    {
        let Some((head, text)) = read_piece(datagram) else {
            return Ok(None);
        };
        if head.sender == 0 && head.count == 1 {
            return Ok(Some(Vec::from_slice(alloc, text)?));
        }
        let mut rows = match self.rows.take() {
            Some(rows) => rows,
            None => Vec::new(alloc),
        };
        let answer = take_piece(alloc, &mut rows, &head, text);
        self.rows = Some(rows);
        answer
    }
}
