//! Proposals, read from their words.
ghost use Rattle.std.specs.Prelude.{◌≡◌, ◌==◌, ◌++◌, ◌∷◌, [], filter, not, IfOk, OnOk, true};
ghost use Rattle.std.specs.List.{list_all};
ghost use Rattle.value_words.specs.Answers.{GivesWord};
ghost use Rattle.value_words.specs.Words.{words_in};
ghost use Rattle.word_laws.specs.declared.kind.Kind.TheVariants as kind_of;
ghost use Rattle.word_laws.specs.Entries.{asker_word, failure_word, is_source_len, source_len_of};
ghost use Rattle.record_lines.specs.Reading.{asked_value, attrs_in, proposal_words, said_proposal};

use crate::from_word::FromWord;
use crate::ids::{proto_word, two_parts, u32_word};
use crate::items::list_word;
use crate::kinds::cause_word;
use crate::pieces::Pieces;
use crate::values::{named_word, text_value};
use entry_words::{after_equals, attr_words, before_equals};
use proposal_core::{Failure, Proposal};
use rsct_packet::{NoMemory, ProviderId, Text};
use std::alloc::Global;
use value_words::{WordFault, Words, is_word, provider_word, put_text};
use word_laws::Kind;

/// A provider that is let go, and why.
#[tactic(auto, unfolding(word_laws::specs::Entries::failure_word, word_laws::specs::Values::two_word, word_laws::specs::Values::both_of, value_words::specs::Answers::bind_opens), using(crate::proofs::PartLaws::not_both))]
fn failure_word(word: &[u8]) -> Option<Failure>
    ensures { result ≡ failure_word word.now }
{
    let (first, second) = two_parts(b':', word)?;
    let provider = provider_word(first)?;
    let cause = cause_word(second)?;
    Some(Failure { provider, cause })
}

impl FromWord for Failure {
    ghost use Rattle.word_laws.specs.Entries.{failure_word};

    ghost reads = { failure_word };

    fn read(word: &[u8]) -> Option<Failure> {
        failure_word(word)
    }
}

/// Who asks, and the number of its request.
#[tactic(auto, unfolding(word_laws::specs::Entries::asker_word, word_laws::specs::Values::two_word, word_laws::specs::Values::both_of, value_words::specs::Answers::bind_opens), using(crate::proofs::PartLaws::not_both))]
fn asker_word(word: &[u8]) -> Option<(ProviderId, u32)>
    ensures { result ≡ asker_word word.now }
{
    let (first, second) = two_parts(b'/', word)?;
    let provider = provider_word(first)?;
    let request = u32_word(second)?;
    Some((provider, request))
}

/// Is it the length that a join carries?
#[tactic(auto, unfolding(word_laws::specs::Entries::is_source_len))]
fn is_source_len(word: &[u8]) -> bool
    ensures { result ≡ is_source_len word.now }
{
    is_word(before_equals(word), b"src")
}

/// The first length among the words, where there is one.
#[tactic(auto, unfolding(word_laws::specs::Entries::source_len_of, value_words::specs::Answers::bind_opens))]
fn source_len(words: &mut Pieces<'_>) -> Result<Option<u32>, WordFault>
    ensures { GivesWord result (source_len_of (filter is_source_len words.old)) }
{
    while let Some(w) = words.take() {
        if is_source_len(w) {
            let value = after_equals(w).ok_or(WordFault::BadWord)?;
            let len = u32_word(value).ok_or(WordFault::BadWord)?;
            return Ok(Some(len));
        }
    }
    Ok(None)
}

/// Puts the word behind a space, unless it is a length.
#[tactic(auto, using(crate::proofs::JoinLaws::attr_put, crate::proofs::JoinLaws::attr_left))]
fn put_attr(text: &mut Vec<u8>, word: &[u8]) -> Result<(), NoMemory>
    requires { list_all (λ x. not (x == 32)) word.now ≡ true }
    ensures { OnOk result (words_in text.new.items
        ≡ words_in text.old.items ++ attrs_in (word.now ∷ [])) }
{
    if is_source_len(word) {
        return Ok(());
    }
    put_text(text, b" ")?;
    put_text(text, word)
}

/// The words that are no length, each behind a space.
#[tactic(auto, using(crate::proofs::JoinLaws::attr_next, crate::proofs::JoinLaws::attr_start, crate::proofs::JoinLaws::attr_end))]
fn attr_text(alloc: Global, words: &mut Pieces<'_>) -> Result<Vec<u8>, NoMemory>
    ensures { IfOk result (λ v. words_in v.items ≡ attrs_in words.old) }
{
    let mut text = Vec::new(alloc);
    while let Some(w) = words.take() {
        put_attr(&mut text, w)?;
    }
    Ok(text)
}

/// Who joins, with which attributes, and the length that is carried.
#[tactic(auto, unfolding(record_lines::specs::Reading::said_proposal, value_words::specs::Answers::bind_opens))]
fn join_words(alloc: Global, words: &mut Pieces<'_>) -> Result<Proposal, WordFault>
    ensures { GivesWord result (said_proposal kind_of.Join words.old) }
{
    let word = words.first().ok_or(WordFault::BadWord)?;
    let ps = named_word(alloc, word)?;
    let text = attr_text(alloc, &mut words.rest())?;
    let attrs = attr_words(alloc, &mut Words::of(text.as_slice()))?;
    let source_len = source_len(words)?;
    Ok(Proposal::Join {
        ps,
        attrs,
        source_len,
    })
}

/// Who asks, and its value.
#[tactic(auto, unfolding(record_lines::specs::Reading::asked_value, value_words::specs::Answers::bind_opens))]
fn asked_value(alloc: Global, words: &mut Pieces<'_>) -> Result<(ProviderId, u32, Text), WordFault>
    ensures { GivesWord result (asked_value words.old) }
{
    let (asker, value) = words.two().ok_or(WordFault::BadWord)?;
    let (provider, request) = asker_word(asker).ok_or(WordFault::BadWord)?;
    let value = text_value(alloc, value)?;
    Ok((provider, request, value))
}

/// A provider that leaves.
#[tactic(auto, unfolding(record_lines::specs::Reading::said_proposal, value_words::specs::Answers::bind_opens))]
fn leave_words(words: &mut Pieces<'_>) -> Result<Proposal, WordFault>
    ensures { GivesWord result (said_proposal kind_of.Leave words.old) }
{
    let asker = words.one().ok_or(WordFault::BadWord)?;
    let (provider, request) = asker_word(asker).ok_or(WordFault::BadWord)?;
    Ok(Proposal::Leave { provider, request })
}

/// Those that are let go.
#[tactic(auto, unfolding(record_lines::specs::Reading::said_proposal, value_words::specs::Answers::bind_opens))]
fn fail_words(alloc: Global, words: &mut Pieces<'_>) -> Result<Proposal, WordFault>
    ensures { GivesWord result (said_proposal kind_of.Fail words.old) }
{
    let word = words.one().ok_or(WordFault::BadWord)?;
    let out = list_word::<Failure>(alloc, word)?;
    Ok(Proposal::Fail { out })
}

/// Those that are expelled.
#[tactic(auto, unfolding(record_lines::specs::Reading::said_proposal, value_words::specs::Answers::bind_opens))]
fn expel_words(alloc: Global, words: &mut Pieces<'_>) -> Result<Proposal, WordFault>
    ensures { GivesWord result (said_proposal kind_of.Expel words.old) }
{
    let (asker, targets) = words.two().ok_or(WordFault::BadWord)?;
    let (provider, request) = asker_word(asker).ok_or(WordFault::BadWord)?;
    let out = named_word(alloc, targets)?;
    Ok(Proposal::Expel {
        provider,
        request,
        out,
    })
}

/// A change of attributes.
#[tactic(auto, unfolding(record_lines::specs::Reading::said_proposal, value_words::specs::Answers::bind_opens))]
fn attributes_words(alloc: Global, words: &mut Pieces<'_>) -> Result<Proposal, WordFault>
    ensures { GivesWord result (said_proposal kind_of.Attributes words.old) }
{
    let asker = words.first().ok_or(WordFault::BadWord)?;
    let (provider, request) = asker_word(asker).ok_or(WordFault::BadWord)?;
    let attrs = attr_words(alloc, &mut words.filled())?;
    Ok(Proposal::Attributes {
        provider,
        request,
        attrs,
    })
}

/// A value that is reflected.
#[tactic(auto, unfolding(record_lines::specs::Reading::said_proposal, value_words::specs::Answers::bind_opens))]
fn reflect_words(alloc: Global, words: &mut Pieces<'_>) -> Result<Proposal, WordFault>
    ensures { GivesWord result (said_proposal kind_of.Reflect words.old) }
{
    let (from, value) = words.two().ok_or(WordFault::BadWord)?;
    let from = proto_word(from).ok_or(WordFault::BadWord)?;
    let value = text_value(alloc, value)?;
    Ok(Proposal::Reflect {
        view: from.view,
        place: from.place,
        value,
    })
}

/// A proposal of this kind: the words that are left.
#[tactic(auto, unfolding(record_lines::specs::Reading::said_proposal, value_words::specs::Answers::bind_opens))]
fn proposed_words(alloc: Global, kind: Kind, words: &mut Pieces<'_>) -> Result<Proposal, WordFault>
    ensures { GivesWord result (said_proposal kind words.old) }
{
    match kind {
        Kind::Join => join_words(alloc, words),
        Kind::Leave => leave_words(words),
        Kind::Fail => fail_words(alloc, words),
        Kind::Expel => expel_words(alloc, words),
        Kind::State => {
            let (provider, request, value) = asked_value(alloc, words)?;
            Ok(Proposal::State {
                provider,
                request,
                value,
            })
        }
        Kind::Message => {
            let (provider, request, bytes) = asked_value(alloc, words)?;
            Ok(Proposal::Message {
                provider,
                request,
                bytes,
            })
        }
        Kind::Attributes => attributes_words(alloc, words),
        Kind::Reflect => reflect_words(alloc, words),
    }
}

/// A proposal: the words that are left.
#[tactic(auto, unfolding(record_lines::specs::Reading::proposal_words, value_words::specs::Answers::bind_opens))]
pub fn proposal_words(alloc: Global, words: &mut Pieces<'_>) -> Result<Proposal, WordFault>
    ensures { GivesWord result (proposal_words words.old) }
{
    let kind = words.next::<Kind>()?;
    proposed_words(alloc, kind, words)
}
