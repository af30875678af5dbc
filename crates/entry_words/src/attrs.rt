//! The attributes of a group: written, and read word by word.
ghost use Rattle.std.specs.Prelude.{◌≡◌, ◌==◌, ◌++◌, IfErr, OnOk, codes};
ghost use Rattle.std.specs.Option.{option_map};
ghost use Rattle.std.specs.List.{list_any};
ghost use Rattle.entry_words.specs.Words.{phases_value, batch_value, default_value, limit_value, attr_row, key_number, key_word, before_equals, after_equals, attr_words};
ghost use Rattle.value_words.specs.Answers.{FailsWord, GivesWord};
ghost use Rattle.entry_words.specs.Attrs.{new_key, attr_step};
ghost use Rattle.entry_words.specs.Wording.{attr_value_text, attr_text, attrs_text};

use crate::choices::{batch_word, default_word, phases_word};
use group_attr::{Attrs, Batch, DefaultVote, Phases};
use rsct_packet::{List, NoMemory};
use std::alloc::Global;
use value_words::{
    WordFault, Words, is_word, place_of, put_number, put_text, short_word, source_word,
};

/// The word of the value, none where it is that of the empty state; and likewise below.
#[tactic(auto, unfolding(crate::specs::Words::phases_value))]
fn phases_value(phases: Phases) -> Option<&'static [u8]>
    ensures { option_map (λ x. x.now) result ≡ phases_value phases }
{
    match phases {
        Phases::One => None,
        Phases::Many => Some(b"n"),
    }
}

#[tactic(auto, unfolding(crate::specs::Words::batch_value))]
fn batch_value(batch: Batch) -> Option<&'static [u8]>
    ensures { option_map (λ x. x.now) result ≡ batch_value batch }
{
    match batch {
        Batch::Neither => None,
        Batch::Joins => Some(b"joins"),
        Batch::Failures => Some(b"failures"),
        Batch::Both => Some(b"both"),
    }
}

#[tactic(auto, unfolding(crate::specs::Words::default_value))]
fn default_value(vote: DefaultVote) -> Option<&'static [u8]>
    ensures { option_map (λ x. x.now) result ≡ default_value vote }
{
    match vote {
        DefaultVote::Approve => None,
        DefaultVote::Reject => Some(b"reject"),
    }
}

/// An attribute that a word sets. A new one is a line here, one in `ALL`, one in `word`, one in `set` and one in
/// `put`.
// Public, though no code outside this file has it: a law of `word_laws` goes through its rows.
#[derive(Clone, Copy)]
pub enum AttrKey {
    Phases,
    Batch,
    Default,
    Limit,
    Source,
    SourcePhases,
    SourceLimit,
}

impl AttrKey {
    /// Every attribute, in the order in which they are written.
    const ALL: [AttrKey; 7] = [
        AttrKey::Phases,
        AttrKey::Batch,
        AttrKey::Default,
        AttrKey::Limit,
        AttrKey::Source,
        AttrKey::SourcePhases,
        AttrKey::SourceLimit,
    ];

    /// The word before the `=`.
    #[tactic(auto, unfolding(crate::specs::Words::attr_row))]
    fn word(self) -> &'static [u8]
        ensures { result.now ≡ (attr_row self).word }
    {
        match self {
            AttrKey::Phases => b"phases",
            AttrKey::Batch => b"batch",
            AttrKey::Default => b"default",
            AttrKey::Limit => b"limit",
            AttrKey::Source => b"source",
            AttrKey::SourcePhases => b"sphases",
            AttrKey::SourceLimit => b"slimit",
        }
    }

    /// The attribute of this word; none where no attribute has it.
    #[tactic(auto, unfolding(crate::specs::Words::key_word))]
    fn of_word(word: &[u8]) -> Option<AttrKey>
        ensures { result ≡ key_word word.now }
    {
        AttrKey::ALL
            .iter()
            .copied()
            .find(|key| is_word(key.word(), word))
    }

    /// Its place among them all.
    fn number(self) -> u8
        ensures { result ≡ key_number self }
    {
        self as u8
    }

    /// Sets the attribute as the word says.
    #[tactic(auto, unfolding(crate::specs::Words::attr_row))]
    fn set(self, alloc: Global, attrs: &mut Attrs, word: &[u8]) -> Result<(), WordFault>
        ensures set { OnOk result ((attr_row self).set attrs.old word.now ≡ Some attrs.new) }
        ensures refused { IfErr result (λ e.
            FailsWord e ((attr_row self).set attrs.old word.now)) }
    {
        match self {
            AttrKey::Phases => attrs.phases = phases_word(word).ok_or(WordFault::BadWord)?,
            AttrKey::Batch => attrs.batch = batch_word(word).ok_or(WordFault::BadWord)?,
            AttrKey::Default => {
                attrs.default_vote = default_word(word).ok_or(WordFault::BadWord)?;
            }
            AttrKey::Limit => {
                attrs.limit = short_word(0, u16::MAX, word).ok_or(WordFault::BadWord)?;
            }
            AttrKey::Source => attrs.source = Some(source_word(alloc, word)?),
            AttrKey::SourcePhases => {
                attrs.source_phases = phases_word(word).ok_or(WordFault::BadWord)?;
            }
            AttrKey::SourceLimit => {
                attrs.source_limit = short_word(0, u16::MAX, word).ok_or(WordFault::BadWord)?;
            }
        }
        Ok(())
    }

    /// A space, its word and `=`.
    fn put_word(self, out: &mut Vec<u8>) -> Result<(), NoMemory>
        ensures { OnOk result (out.new.items ≡ out.old.items
            ++ (codes " " ++ (attr_row self).word ++ codes "=")) }
    {
        put_text(out, b" ")?;
        put_text(out, self.word())?;
        put_text(out, b"=")
    }

    /// The attribute with this value; nothing without one.
    fn put_value(self, out: &mut Vec<u8>, value: Option<&[u8]>) -> Result<(), NoMemory>
        ensures { OnOk result (out.new.items ≡ out.old.items
            ++ attr_value_text self (option_map (λ x. x.now) value.entry)) }
    {
        match value {
            None => Ok(()),
            Some(value) => {
                self.put_word(out)?;
                put_text(out, value)
            }
        }
    }

    /// The attribute with this limit; nothing where it is 0.
    #[tactic(auto, unfolding(crate::specs::Words::limit_value))]
    fn put_limit(self, out: &mut Vec<u8>, limit: u16) -> Result<(), NoMemory>
        ensures { OnOk result (out.new.items ≡ out.old.items
            ++ attr_value_text self (limit_value limit)) }
    {
        if limit == 0 {
            return Ok(());
        }
        self.put_word(out)?;
        put_number(out, u32::from(limit))
    }

    /// The attribute behind a space, where it is not that of the empty state.
    #[tactic(auto, unfolding(crate::specs::Wording::attr_text, crate::specs::Words::attr_row))]
    fn put(self, out: &mut Vec<u8>, attrs: &Attrs) -> Result<(), NoMemory>
        ensures { OnOk result (out.new.items ≡ out.old.items ++ attr_text attrs.now self) }
    {
        match self {
            AttrKey::Phases => self.put_value(out, phases_value(attrs.phases)),
            AttrKey::Batch => self.put_value(out, batch_value(attrs.batch)),
            AttrKey::Default => self.put_value(out, default_value(attrs.default_vote)),
            AttrKey::Limit => self.put_limit(out, attrs.limit),
            AttrKey::Source => self.put_value(out, attrs.source.as_ref().map(|name| name.bytes())),
            AttrKey::SourcePhases => self.put_value(out, phases_value(attrs.source_phases)),
            AttrKey::SourceLimit => self.put_limit(out, attrs.source_limit),
        }
    }
}

/// The attributes that are not those of the empty state, each behind a space.
#[tactic(auto, unfolding(crate::specs::Wording::attrs_text), using(crate::proofs::AttrLaws::none_written, crate::proofs::AttrLaws::all_written))]
pub fn put_attrs(out: &mut Vec<u8>, attrs: &Attrs) -> Result<(), NoMemory>
    ensures { OnOk result (out.new.items ≡ out.old.items ++ attrs_text attrs.now) }
{
    for key in AttrKey::ALL.iter() {
        key.put(out, attrs)?;
    }
    Ok(())
}

/// What stands before the first `=` of a word, all of it where there is none.
#[tactic(auto, using(crate::proofs::EqualsLaws::before_found, crate::proofs::EqualsLaws::before_missing))]
pub fn before_equals(word: &[u8]) -> &[u8]
    ensures { result.now ≡ before_equals word.now }
{
    match place_of(b'=', word) {
        None => word,
        Some(i) => &word[..i],
    }
}

/// What stands behind the first `=` of a word; `None` where there is none.
#[tactic(auto, using(crate::proofs::EqualsLaws::after_found, crate::proofs::EqualsLaws::after_missing))]
pub fn after_equals(word: &[u8]) -> Option<&[u8]>
    ensures { option_map (λ x. x.now) result ≡ after_equals word.now }
{
    let i = place_of(b'=', word)?;
    Some(&word[i + 1..])
}

/// The attributes that words set, and the numbers of those that are given.
#[derive(Drop)]
pub struct AttrsRead {
    attrs: Attrs,
    seen: List<u8>,
}

fn has_number(seen: &[u8], number: u8) -> bool
    ensures { result ≡ list_any (λ n. n == number) seen.now }
{
    seen.iter().any(|n| *n == number)
}

fn is_seen(seen: &[u8], key: AttrKey) -> bool
    ensures { result ≡ list_any (λ n. n == key_number key) seen.now }
{
    has_number(seen, key.number())
}

/// What the word sets, where it is not set yet.
#[tactic(auto, unfolding(crate::specs::Attrs::new_key, value_words::specs::Answers::bind_opens))]
fn new_key(seen: &[u8], word: &[u8]) -> Option<AttrKey>
    ensures { result ≡ new_key seen.now word.now }
{
    let key = AttrKey::of_word(before_equals(word))?;
    if is_seen(seen, key) { None } else { Some(key) }
}

/// Takes in the attribute of one word more.
#[tactic(auto, unfolding(crate::specs::Attrs::attr_step, value_words::specs::Answers::bind_opens))]
fn take_word(alloc: Global, read: &mut AttrsRead, word: &[u8]) -> Result<(), WordFault>
    ensures taken { OnOk result (attr_step read.old word.now ≡ Some read.new) }
    ensures refused { IfErr result (λ e. FailsWord e (attr_step read.old word.now)) }
{
    let key = new_key(read.seen.as_slice(), word).ok_or(WordFault::BadWord)?;
    let value = after_equals(word).ok_or(WordFault::BadWord)?;
    key.set(alloc, &mut read.attrs, value)?;
    read.seen.push(key.number())?;
    Ok(())
}

/// The attributes that the words set, each at most once; those that no word sets are as in a group that nobody
/// has joined.
#[tactic(auto, unfolding(crate::specs::Words::attr_words), using(crate::proofs::AttrLaws::attr_more, crate::proofs::AttrLaws::attr_fails, crate::proofs::AttrLaws::attr_done))]
pub fn attr_words(alloc: Global, words: &mut Words<'_>) -> Result<Attrs, WordFault>
    ensures { GivesWord result (attr_words words.old) }
{
    let mut read = AttrsRead {
        attrs: Attrs::empty(),
        seen: List::new(alloc),
    };
    while let Some(w) = words.take() {
        take_word(alloc, &mut read, w)?;
    }
    Ok(read.attrs)
}
