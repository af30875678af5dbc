//! Entries, read from their words.
ghost use Rattle.std.specs.Prelude.{◌≡◌, codes};
ghost use Rattle.value_words.specs.Answers.{GivesWord};
ghost use Rattle.word_laws.specs.Entries.{row_word, HReject, HLate};
ghost use Rattle.record_lines.specs.Reading.{entry_said, entry_of_words, text_or_none, valued_closed};

use crate::from_word::FromWord;
use crate::ids::{proto_word, two_parts, u16_word};
use crate::items::list_word;
use crate::kinds::row_vote_word;
use crate::pieces::Pieces;
use crate::proposals::proposal_words;
use crate::values::{named_word, text_value};
use proposal_core::{Closed, Entry, Row};
use rsct_packet::Text;
use std::alloc::Global;
use value_words::{WordFault, is_word, provider_word};

/// A row: a voter, and what stands for its vote.
#[tactic(auto, unfolding(word_laws::specs::Entries::row_word, word_laws::specs::Values::two_word, word_laws::specs::Values::both_of, value_words::specs::Answers::bind_opens), using(crate::proofs::PartLaws::not_both))]
fn row_word(word: &[u8]) -> Option<Row>
    ensures { result ≡ row_word word.now }
{
    let (first, second) = two_parts(b'=', word)?;
    let provider = provider_word(first)?;
    let vote = row_vote_word(second)?;
    Some(Row { provider, vote })
}

impl FromWord for Row {
    ghost use Rattle.word_laws.specs.Entries.{row_word};

    ghost reads = { row_word };

    fn read(word: &[u8]) -> Option<Row> {
        row_word(word)
    }
}

/// A value, `-` for none.
#[tactic(auto, unfolding(record_lines::specs::Reading::text_or_none, record_lines::specs::Reading::unless))]
fn text_or_none(alloc: Global, word: &[u8]) -> Result<Option<Text>, WordFault>
    ensures { GivesWord result (text_or_none word.now) }
{
    if is_word(word, b"-") {
        return Ok(None);
    }
    let text = text_value(alloc, word)?;
    Ok(Some(text))
}

/// What closes a phase, with a value or none.
#[tactic(auto, unfolding(record_lines::specs::Reading::valued_closed, value_words::specs::Answers::bind_opens))]
fn valued_closed(alloc: Global, words: &mut Pieces<'_>) -> Result<Closed, WordFault>
    ensures { GivesWord result (valued_closed words.old) }
{
    let (proto, phase, rows, value) = words.four().ok_or(WordFault::BadWord)?;
    let proto = proto_word(proto).ok_or(WordFault::BadWord)?;
    let phase = u16_word(phase).ok_or(WordFault::BadWord)?;
    let rows = list_word::<Row>(alloc, rows)?;
    let value = text_or_none(alloc, value)?;
    Ok(Closed {
        proto,
        phase,
        rows,
        value,
        message: None,
    })
}

/// What rejects a proposal.
#[tactic(auto, unfolding(record_lines::specs::Reading::entry_said, value_words::specs::Answers::bind_opens))]
fn reject_words(alloc: Global, words: &mut Pieces<'_>) -> Result<Entry, WordFault>
    ensures { GivesWord result (entry_said HReject words.old) }
{
    let (proto, phase, rows) = words.three().ok_or(WordFault::BadWord)?;
    let proto = proto_word(proto).ok_or(WordFault::BadWord)?;
    let phase = u16_word(phase).ok_or(WordFault::BadWord)?;
    let rows = list_word::<Row>(alloc, rows)?;
    Ok(Entry::Reject(Closed {
        proto,
        phase,
        rows,
        value: None,
        message: None,
    }))
}

/// Who was late.
#[tactic(auto, unfolding(record_lines::specs::Reading::entry_said, value_words::specs::Answers::bind_opens))]
fn late_words(alloc: Global, words: &mut Pieces<'_>) -> Result<Entry, WordFault>
    ensures { GivesWord result (entry_said HLate words.old) }
{
    let (proto, phase, providers) = words.three().ok_or(WordFault::BadWord)?;
    let proto = proto_word(proto).ok_or(WordFault::BadWord)?;
    let phase = u16_word(phase).ok_or(WordFault::BadWord)?;
    let ps = named_word(alloc, providers)?;
    Ok(Entry::Late { proto, phase, ps })
}

/// An entry: the words that are left.
#[tactic(auto, unfolding(record_lines::specs::Reading::entry_of_words, record_lines::specs::Reading::entry_said, word_laws::specs::Entries::entry_head, value_words::specs::Words::chosen, value_words::specs::Answers::bind_opens))]
pub fn entry_of_words(alloc: Global, words: &mut Pieces<'_>) -> Result<Entry, WordFault>
    ensures { GivesWord result (entry_of_words words.old) }
{
    let head = words.first().ok_or(WordFault::BadWord)?;
    if is_word(b"once", head) {
        let proposal = proposal_words(alloc, words)?;
        return Ok(Entry::Once(proposal));
    }
    if is_word(b"begin", head) {
        let proposal = proposal_words(alloc, words)?;
        return Ok(Entry::Begin(proposal));
    }
    if is_word(b"phase", head) {
        let closed = valued_closed(alloc, words)?;
        return Ok(Entry::Phase(closed));
    }
    if is_word(b"approve", head) {
        let closed = valued_closed(alloc, words)?;
        return Ok(Entry::Approve(closed));
    }
    if is_word(b"reject", head) {
        return reject_words(alloc, words);
    }
    if is_word(b"late", head) {
        return late_words(alloc, words);
    }
    Err(WordFault::BadWord)
}
