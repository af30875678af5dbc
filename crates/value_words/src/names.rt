//! Names of a script.
ghost use Rattle.std.specs.Prelude.{◌≡◌};
ghost use Rattle.value_words.specs.Words.{name_word, client_word, group_word};
ghost use Rattle.value_words.specs.Answers.{GivesWord};

use crate::faults::WordFault;
use rsct_packet::{List, MAX_CLIENT_NAME, Name, are_name_bytes};
use std::alloc::Global;

/// How many bytes the name of a group has at most in a script; a session refuses those of more than 32.
const MAX_GROUP: usize = 64;

/// The name of 1 to `most` bytes.
#[tactic(auto, unfolding(crate::specs::Words::name_word, crate::specs::Words::when_true))]
fn name_word(alloc: Global, most: usize, word: &[u8]) -> Result<List<u8>, WordFault>
    ensures { GivesWord result (name_word most word.now) }
{
    if word.len() < 1 || word.len() > most || !are_name_bytes(word) {
        return Err(WordFault::BadWord);
    }
    Ok(List::of(alloc, word)?)
}

/// The name of a client: 1 to 16 bytes.
#[tactic(auto, unfolding(crate::specs::Words::client_word))]
pub fn client_word(alloc: Global, word: &[u8]) -> Result<List<u8>, WordFault>
    ensures { GivesWord result (client_word word.now) }
{
    name_word(alloc, MAX_CLIENT_NAME, word)
}

/// The name of a group, which may be too long to be one: 1 to 64 bytes.
#[tactic(auto, unfolding(crate::specs::Words::group_word))]
pub fn group_word(alloc: Global, word: &[u8]) -> Result<List<u8>, WordFault>
    ensures { GivesWord result (group_word word.now) }
{
    name_word(alloc, MAX_GROUP, word)
}

/// The name of a source group: 1 to 32 bytes.
#[tactic(auto, using(crate::proofs::NameLaws::name_is_word, crate::proofs::NameLaws::no_name_is_none))]
pub fn source_word(alloc: Global, word: &[u8]) -> Result<Name, WordFault>
    ensures { GivesWord result (name_word 32 word.now) }
{
    match Name::of(alloc, word)? {
        None => Err(WordFault::BadWord),
        Some(name) => Ok(name),
    }
}
