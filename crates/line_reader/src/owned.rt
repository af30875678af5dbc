//! What one word says, where it takes memory.
ghost use Rattle.std.specs.Prelude.{◌≡◌};
ghost use Rattle.value_words.specs.Answers.{GivesWord};

use crate::from_word::FromWord;
use crate::items::list_word;
use crate::values::{group_name, named_word, text_value};
use rsct_packet::{List, Name, Providers, Text};
use std::alloc::Global;
use value_words::WordFault;

/// What one word says, and takes memory.
pub trait OwnedFromWord: Sized + Drop {
    ghost use Rattle.std.specs.Prelude.{List, Option, ℕ};

    ghost reads_owned: { List ℕ → Option Self };

    /// What the word says. An error is that it says no such thing, or that memory has run out.
    fn read_owned(alloc: Global, word: &[u8]) -> Result<Self, WordFault>
        ensures { GivesWord result (reads_owned word.now) };
}

/// A group.
impl OwnedFromWord for Name {
    ghost use Rattle.record_lines.specs.Reading.{group_name};

    ghost reads_owned = { group_name };

    fn read_owned(alloc: Global, word: &[u8]) -> Result<Name, WordFault> {
        group_name(alloc, word)
    }
}

/// A value.
impl OwnedFromWord for Text {
    ghost use Rattle.word_laws.specs.Values.{value_word};
    ghost use Rattle.record_lines.specs.Reading.{kept_text};

    ghost reads_owned = { λ w. kept_text (value_word w) };

    fn read_owned(alloc: Global, word: &[u8]) -> Result<Text, WordFault> {
        text_value(alloc, word)
    }
}

impl OwnedFromWord for Providers {
    ghost use Rattle.record_lines.specs.Reading.{named_word};

    ghost reads_owned = { named_word };

    fn read_owned(alloc: Global, word: &[u8]) -> Result<Providers, WordFault> {
        named_word(alloc, word)
    }
}

impl<T: FromWord> OwnedFromWord for List<T> {
    ghost use Rattle.word_laws.specs.Values.{list_word};

    ghost reads_owned = { list_word T.reads };

    fn read_owned(alloc: Global, word: &[u8]) -> Result<List<T>, WordFault> {
        list_word(alloc, word)
    }
}
