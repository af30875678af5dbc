//! Names, values and lists as the types of a line hold them.
ghost use Rattle.std.specs.Prelude.{◌≡◌, IfOk, Some, None};
ghost use Rattle.rsct_packet.specs.Providers.{differ, are_providers};
ghost use Rattle.value_words.specs.Answers.{GivesWord};
ghost use Rattle.value_words.specs.Escapes.{text_of};
ghost use Rattle.value_words.specs.Words.{when_true};
ghost use Rattle.word_laws.specs.Values.{value_word, value_or_none};
ghost use Rattle.record_lines.specs.Fits.{fits_text};
ghost use Rattle.record_lines.specs.Reading.{group_name, kept_text, named_word};

use crate::items::list_word;
use rsct_packet::{List, MAX_PROVIDERS, Name, NoMemory, ProviderId, Providers, Text, is_among};
use std::alloc::Global;
use value_words::{WordFault, is_word, source_word, text_word};

/// The name of a group.
#[tactic(auto, unfolding(record_lines::specs::Reading::group_name))]
pub fn group_name(alloc: Global, word: &[u8]) -> Result<Name, WordFault>
    ensures { GivesWord result (group_name word.now) }
{
    source_word(alloc, word)
}

/// The bytes that are escaped in the word; none where it is none of bytes. An empty word is none of a script's texts, and
/// `~` is the empty one there.
#[tactic(auto, unfolding(value_words::specs::Escapes::escapes_open))]
fn text_of(alloc: Global, word: &[u8]) -> Result<Option<List<u8>>, NoMemory>
    ensures { IfOk result (λ t. t ≡ text_of word.now) }
{
    if word.len() == 0 {
        return Ok(Some(List::new(alloc)));
    }
    if is_word(word, b"~") {
        return Ok(Some(List::of(alloc, b"~")?));
    }
    text_word(alloc, word)
}

/// The text of bytes, where they are not too many.
#[tactic(auto, unfolding(record_lines::specs::Reading::kept_text, record_lines::specs::Fits::fits_text, value_words::specs::Words::when_true, value_words::specs::Answers::bind_opens))]
fn kept_text(alloc: Global, bytes: Option<List<u8>>) -> Result<Text, WordFault>
    ensures { GivesWord result (kept_text bytes) }
{
    let Some(bytes) = bytes else {
        return Err(WordFault::BadWord);
    };
    match Text::of(alloc, bytes.as_slice())? {
        None => Err(WordFault::BadWord),
        Some(text) => Ok(text),
    }
}

/// The text that is escaped in the word.
pub fn escaped_text(alloc: Global, word: &[u8]) -> Result<Text, WordFault>
    ensures { GivesWord result (kept_text (text_of word.now)) }
{
    let bytes = text_of(alloc, word)?;
    kept_text(alloc, bytes)
}

/// The text of a value: what is escaped behind a `=`.
#[tactic(auto, unfolding(word_laws::specs::Values::value_word, record_lines::specs::Reading::kept_text, value_words::specs::Answers::bind_opens))]
pub fn text_value(alloc: Global, word: &[u8]) -> Result<Text, WordFault>
    ensures { GivesWord result (kept_text (value_word word.now)) }
{
    match word {
        [b'=', bytes @ ..] => escaped_text(alloc, bytes),
        _ => Err(WordFault::BadWord),
    }
}

/// Is each of these another one?
fn differ(providers: &[ProviderId]) -> bool
    ensures { result ≡ differ providers.now }
{
    match providers {
        [] => true,
        [first, others @ ..] => !is_among(others, *first) && differ(others),
    }
}

/// Are these at most 64 that differ?
fn are_providers(providers: &[ProviderId]) -> bool
    ensures { result ≡ are_providers providers.now }
{
    providers.len() <= MAX_PROVIDERS && differ(providers)
}

/// At most 64 providers that differ.
#[tactic(auto, unfolding(value_words::specs::Words::when_true))]
pub fn kept_providers(alloc: Global, providers: &[ProviderId]) -> Result<Providers, WordFault>
    ensures { GivesWord result (when_true (Some providers.now) (are_providers providers.now)) }
{
    if are_providers(providers) {
        Ok(Providers::of(alloc, providers)?)
    } else {
        Err(WordFault::BadWord)
    }
}

/// The providers of a list.
#[tactic(auto, unfolding(record_lines::specs::Reading::named_word, value_words::specs::Words::when_true, value_words::specs::Answers::bind_opens))]
pub fn named_word(alloc: Global, word: &[u8]) -> Result<Providers, WordFault>
    ensures { GivesWord result (named_word word.now) }
{
    let providers = list_word::<ProviderId>(alloc, word)?;
    kept_providers(alloc, providers.as_slice())
}
