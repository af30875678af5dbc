//! The words that say how a client votes.
ghost use Rattle.std.specs.Prelude.{◌≡◌, OnOk, IfOk, option_copied};
ghost use Rattle.std.specs.List.{list_all};
ghost use Rattle.client_callbacks.specs.Votes.{vote_letter, vote_word, vote_item, with_item, votes_end, votes_byte, is_word, votes_word};
ghost use Rattle.client_callbacks.specs.Handed.{item_at};

use proposal_core::Vote;
use rsct_packet::{List, NoMemory};
use std::alloc::Global;
use value_words::text_word;

/// How a client votes in one phase: its vote, and the state value that it proposes, of any length.
#[derive(Drop)]
pub struct VoteItem {
    pub vote: Vote,
    pub value: Option<List<u8>>,
}

/// What was read of a votes word: its items up to the last comma, none where one is no item, and the piece
/// since then.
#[derive(Drop)]
struct VotesRead {
    items: Option<List<Option<VoteItem>>>,
    piece: List<u8>,
}

#[tactic(auto, unfolding(crate::specs::Votes::vote_letter))]
fn vote_letter(byte: u8) -> Option<Vote>
    ensures { result ≡ vote_letter byte }
{
    match byte {
        b'A' => Some(Vote::Approve),
        b'C' => Some(Vote::Continue),
        b'R' => Some(Vote::Reject),
        _ => None,
    }
}

/// The vote and the value of the word `A`, `C` or `R`, with `=` and a text's word after it or not; none where
/// it is none.
#[tactic(auto, unfolding(crate::specs::Votes::vote_word))]
pub fn vote_word(alloc: Global, word: &[u8]) -> Result<Option<VoteItem>, NoMemory>
    ensures { IfOk result (λ i. i ≡ vote_word word.now) }
{
    if word.len() == 0 {
        return Ok(None);
    }
    let Some(vote) = vote_letter(word[0]) else {
        return Ok(None);
    };
    if word.len() == 1 {
        return Ok(Some(VoteItem { vote, value: None }));
    }
    if word[1] != b'=' {
        return Ok(None);
    }
    match text_word(alloc, &word[2..])? {
        None => Ok(None),
        Some(value) => Ok(Some(VoteItem {
            vote,
            value: Some(value),
        })),
    }
}

/// An item of a votes word; none where it is none.
#[tactic(auto, unfolding(crate::specs::Votes::vote_item))]
fn vote_item(alloc: Global, word: &[u8]) -> Result<Option<Option<VoteItem>>, NoMemory>
    ensures { IfOk result (λ i. i ≡ vote_item word.now) }
{
    if word == b"-".as_slice() {
        return Ok(Some(None));
    }
    match vote_word(alloc, word)? {
        None => Ok(None),
        Some(i) => Ok(Some(Some(i))),
    }
}

/// Adds an item where there is one; else there are no items any more.
fn put_item(
    items: &mut Option<List<Option<VoteItem>>>,
    item: Option<Option<VoteItem>>,
) -> Result<(), NoMemory>
    ensures { OnOk result (items.new ≡ with_item items.old item) }
{
    match item {
        None => *items = None,
        Some(item) => {
            if let Some(list) = items {
                list.push(item)?;
            }
        }
    }
    Ok(())
}

impl VotesRead {
    #[tactic(auto, unfolding(crate::specs::Votes::votes_end))]
    fn end_piece(&mut self, alloc: Global) -> Result<(), NoMemory>
        ensures items { OnOk result (self.new.items ≡ votes_end self.old) }
    {
        let item = vote_item(alloc, self.piece.as_slice())?;
        put_item(&mut self.items, item)
    }

    #[tactic(auto, unfolding(crate::specs::Votes::votes_byte))]
    fn byte(&mut self, alloc: Global, byte: u8) -> Result<(), NoMemory>
        ensures { OnOk result (self.new ≡ votes_byte self.old byte) }
    {
        if byte == b',' {
            self.end_piece(alloc)?;
            self.piece = List::new(alloc);
            return Ok(());
        }
        self.piece.push(byte)
    }
}

/// Are these printable, with no space?
fn is_word(word: &[u8]) -> bool
    ensures { result ≡ is_word word.now }
{
    word.iter().all(|b| *b >= 33 && *b <= 126)
}

/// The items of a votes word, joined by commas: `-`, which is silent, or a vote's word. None where it is
/// `boxed` or no votes word.
#[tactic(auto, unfolding(crate::specs::Votes::votes_word), using(std::proofs::lemmas::List::Sums::fold_more))]
pub fn votes_word(alloc: Global, word: &[u8]) -> Result<Option<List<Option<VoteItem>>>, NoMemory>
    ensures { IfOk result (λ items. items ≡ votes_word word.now) }
{
    if !is_word(word) {
        return Ok(None);
    }
    let mut read = VotesRead {
        items: Some(List::new(alloc)),
        piece: List::new(alloc),
    };
    for b in word {
        read.byte(alloc, *b)?;
    }
    read.end_piece(alloc)?;
    Ok(read.items)
}

/// The item of a phase: that of its number, the last one for later phases; none where it is silent.
#[tactic(auto, unfolding(crate::specs::Handed::item_at))]
pub fn item_at(items: &[Option<VoteItem>], phase: u16) -> Option<&VoteItem>
    ensures { option_copied result ≡ item_at items.now phase }
{
    if items.len() == 0 {
        return None;
    }
    let wanted = if phase == 0 { 0 } else { phase as usize - 1 };
    let i = if wanted < items.len() {
        wanted
    } else {
        items.len() - 1
    };
    items[i].as_ref()
}
