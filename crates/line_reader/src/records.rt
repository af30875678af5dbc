//! What single words of a record say: what was heard, what runs, a ballot, a client.
ghost use Rattle.std.specs.Prelude.{◌≡◌, IfSome, IfNone, None, Some};
ghost use Rattle.value_words.specs.Answers.{GivesWord};
ghost use Rattle.record_lines.specs.Reading.{before_dot, after_dot, ballot_word, client_read, closing_read, open_phase_word, opened_read, valued_ballot, what_read};

use crate::from_word::{FromWord, unless};
use crate::ids::{proto_word, two_parts, u16_word};
use crate::kinds::{kind_word, vote_letter};
use crate::owned::OwnedFromWord;
use crate::values::{named_word, text_value};
use proposal_core::Vote;
use record_lines::{Ballot, ClientName, OpenPhase, What};
use rsct_packet::Providers;
use std::alloc::Global;
use value_words::{WordFault, client_word, cut_at, is_word, node_word, place_of};

/// What closed a phase, or came too late.
#[tactic(auto, unfolding(record_lines::specs::Reading::closing_read, value_words::specs::Words::chosen))]
fn closing_word(word: &[u8]) -> Option<What>
    ensures { result ≡ closing_read word.now }
{
    if is_word(b"phase", word) {
        return Some(What::Phase);
    }
    if is_word(b"approve", word) {
        return Some(What::Approve);
    }
    if is_word(b"reject", word) {
        return Some(What::Reject);
    }
    if is_word(b"late", word) {
        return Some(What::Late);
    }
    None
}

/// What took effect at once, or began to be voted on.
#[tactic(auto, unfolding(record_lines::specs::Reading::opened_read, record_lines::specs::Reading::opening_read, value_words::specs::Words::chosen, value_words::specs::Answers::bind_opens))]
fn opened_word(word: &[u8], kind: &[u8]) -> Option<What>
    ensures { result ≡ opened_read word.now kind.now }
{
    if is_word(b"once", word) {
        let kind = kind_word(kind)?;
        return Some(What::Once(kind));
    }
    if is_word(b"begin", word) {
        let kind = kind_word(kind)?;
        return Some(What::Begin(kind));
    }
    None
}

/// What was heard of an entry.
#[tactic(auto, using(crate::proofs::RecordLaws::what_alone, crate::proofs::RecordLaws::what_opened))]
fn what_word(word: &[u8]) -> Option<What>
    ensures { result ≡ what_read word.now }
{
    match cut_at(b'-', word) {
        None => closing_word(word),
        Some((first, left)) => match cut_at(b'-', left) {
            None => opened_word(first, left),
            Some(_) => None,
        },
    }
}

impl FromWord for What {
    ghost use Rattle.record_lines.specs.Reading.{what_read};

    ghost reads = { what_read };

    fn read(word: &[u8]) -> Option<What> {
        what_word(word)
    }
}

/// The phase of a protocol that runs.
#[tactic(auto, unfolding(record_lines::specs::Reading::open_phase_word, record_lines::specs::Reading::open_phase, word_laws::specs::Values::two_word, word_laws::specs::Values::both_of, value_words::specs::Answers::bind_opens), using(crate::proofs::PartLaws::not_both))]
fn open_phase_word(word: &[u8]) -> Option<OpenPhase>
    ensures { result ≡ open_phase_word word.now }
{
    let (first, second) = two_parts(b':', word)?;
    let proto = proto_word(first)?;
    let phase = u16_word(second)?;
    Some(OpenPhase { proto, phase })
}

impl FromWord for OpenPhase {
    ghost use Rattle.record_lines.specs.Reading.{open_phase_word};

    ghost reads = { open_phase_word };

    fn read(word: &[u8]) -> Option<OpenPhase> {
        open_phase_word(word)
    }
}

/// What runs, `-` for nothing.
impl FromWord for Option<OpenPhase> {
    ghost use Rattle.record_lines.specs.Reading.{open_read};

    ghost reads = { open_read };

    #[tactic(auto, unfolding(record_lines::specs::Reading::open_read))]
    fn read(word: &[u8]) -> Option<Option<OpenPhase>> {
        unless::<OpenPhase>(b"-", word)
    }
}

/// The place of a note, `-` for none.
impl FromWord for Option<u32> {
    ghost use Rattle.record_lines.specs.Reading.{place_read};

    ghost reads = { place_read };

    #[tactic(auto, unfolding(record_lines::specs::Reading::place_read))]
    fn read(word: &[u8]) -> Option<Option<u32>> {
        unless::<u32>(b"-", word)
    }
}

/// A vote, with its value where one stands behind it.
#[tactic(auto, unfolding(record_lines::specs::Reading::valued_ballot, value_words::specs::Answers::bind_opens))]
fn valued_ballot(alloc: Global, vote: Vote, value: &[u8]) -> Result<Ballot, WordFault>
    ensures { GivesWord result (valued_ballot vote value.now) }
{
    match value {
        [] => Ok(Ballot { vote, value: None }),
        [_, ..] => {
            let value = text_value(alloc, value)?;
            Ok(Ballot {
                vote,
                value: Some(value),
            })
        }
    }
}

/// What a provider cast.
#[tactic(auto, unfolding(record_lines::specs::Reading::ballot_word, value_words::specs::Answers::bind_opens))]
fn ballot_word(alloc: Global, word: &[u8]) -> Result<Ballot, WordFault>
    ensures { GivesWord result (ballot_word word.now) }
{
    match word {
        [] => Err(WordFault::BadWord),
        [letter, value @ ..] => {
            let vote = vote_letter([*letter].as_slice()).ok_or(WordFault::BadWord)?;
            valued_ballot(alloc, vote, value)
        }
    }
}

impl OwnedFromWord for Ballot {
    ghost use Rattle.record_lines.specs.Reading.{ballot_word};

    ghost reads_owned = { ballot_word };

    fn read_owned(alloc: Global, word: &[u8]) -> Result<Ballot, WordFault> {
        ballot_word(alloc, word)
    }
}

/// What stands before the first dot and behind it.
#[tactic(auto, using(crate::proofs::DotLaws::before_found, crate::proofs::DotLaws::after_found, crate::proofs::DotLaws::after_missing))]
fn dot_parts(word: &[u8]) -> Option<(&[u8], &[u8])>
    ensures before { IfSome result (λ x. before_dot word.now ≡ x.0.now) }
    ensures after { IfSome result (λ x. after_dot word.now ≡ Some x.1.now) }
    ensures missing { IfNone result (after_dot word.now ≡ None) }
{
    let i = place_of(b'.', word)?;
    Some((&word[..i], &word[i + 1..]))
}

/// A client and its node: what stands behind the first dot and before it.
#[tactic(auto, unfolding(record_lines::specs::Reading::client_read, value_words::specs::Answers::bind_opens), using(crate::proofs::DotLaws::no_client))]
fn client_name(alloc: Global, word: &[u8]) -> Result<ClientName, WordFault>
    ensures { GivesWord result (client_read word.now) }
{
    let (before, after) = dot_parts(word).ok_or(WordFault::BadWord)?;
    let node = node_word(before).ok_or(WordFault::BadWord)?;
    let name = client_word(alloc, after)?;
    Ok(ClientName { node, name })
}

impl OwnedFromWord for ClientName {
    ghost use Rattle.record_lines.specs.Reading.{client_read};

    ghost reads_owned = { client_read };

    fn read_owned(alloc: Global, word: &[u8]) -> Result<ClientName, WordFault> {
        client_name(alloc, word)
    }
}

/// Whom a phase waits for, `?` where the node does not know.
impl OwnedFromWord for Option<Providers> {
    ghost use Rattle.std.specs.Prelude.{codes};
    ghost use Rattle.record_lines.specs.Reading.{named_word, unless};

    ghost reads_owned = { unless (codes "?") named_word };

    #[tactic(auto, unfolding(record_lines::specs::Reading::unless))]
    fn read_owned(alloc: Global, word: &[u8]) -> Result<Option<Providers>, WordFault> {
        if is_word(word, b"?") {
            return Ok(None);
        }
        let providers = named_word(alloc, word)?;
        Ok(Some(providers))
    }
}

/// The leader of a group, `?` where the node does not know it.
impl FromWord for Option<u8> {
    ghost use Rattle.std.specs.Prelude.{codes};
    ghost use Rattle.value_words.specs.Words.{node_word};
    ghost use Rattle.record_lines.specs.Reading.{unless};

    ghost reads = { unless (codes "?") node_word };

    fn read(word: &[u8]) -> Option<Option<u8>> {
        unless::<u8>(b"?", word)
    }
}
