//! The words of a line: what stands between its spaces.
ghost use Rattle.std.specs.List.{list_all};
ghost use Rattle.std.specs.Prelude.{◌≡◌, ◌==◌, ◌∷◌, [], not, true, IfSome, IfNone, IfOk, IfErr, Some, None};
ghost use Rattle.std.specs.Option.{option_map};
ghost use Rattle.rsct_packet.specs.Lists.{is_empty};
ghost use Rattle.value_words.specs.Counted.{first_of, one_of, two_of, three_of, four_of};
ghost use Rattle.value_words.specs.Answers.{FailsWord, GivesWord};
ghost use Rattle.value_words.specs.Words.{split_on, network_word};
ghost use Rattle.entry_words.specs.Words.{after_equals};
ghost use Rattle.record_lines.specs.Reading.{ended, filled, labelled, next};

use crate::from_word::FromWord;
use crate::owned::OwnedFromWord;
use entry_words::after_equals;
use std::alloc::Global;
use std::marker::Model;
use value_words::{WordFault, Words, cut_at, network_word};

/// The words that are still to be read of a line, in which a space stands between each two. Unlike those of a script's
/// line, a word may have no byte.
#[derive(Drop)]
pub struct Pieces<'a> {
    left: &'a [u8],
    is_at_end: bool,
}

impl<'a> Model for Pieces<'a> {
    ghost use Rattle.std.specs.Prelude.{List, ℕ};
    ghost use Rattle.line_reader.specs.Pieces.{pieces_left};

    ghost Value = { List (List ℕ) };

    ghost view = { λ p. pieces_left p.left.now p.is_at_end };
}

impl<'a> Pieces<'a> {
    /// The words of a line.
    #[tactic(auto, unfolding(crate::specs::Pieces::pieces_left))]
    pub fn of(line: &'a [u8]) -> Pieces<'a>
        ensures { result ≡ split_on 32 line.entry.now }
    {
        Pieces {
            left: line,
            is_at_end: false,
        }
    }

    /// Takes the next word off.
    #[tactic(auto, unfolding(crate::specs::Pieces::pieces_left), using(crate::proofs::JoinLaws::piece_clear))]
    pub fn take(&mut self) -> Option<&'a [u8]>
        ensures clear { IfSome result (λ w. list_all (λ x. not (x == 32)) w.now ≡ true) }
        ensures found { IfSome result (λ w. self.old ≡ w.now ∷ self.new) }
        ensures missing { IfNone result ((self.old ≡ []) × (self.new ≡ [])) }
    {
        if self.is_at_end {
            return None;
        }
        match cut_at(b' ', self.left) {
            None => {
                self.is_at_end = true;
                Some(self.left)
            }
            Some((word, after)) => {
                self.left = after;
                Some(word)
            }
        }
    }

    /// The same words, to be read a second time.
    pub fn rest(&self) -> Pieces<'a>
        ensures { result ≡ self.now }
    {
        Pieces {
            left: self.left,
            is_at_end: self.is_at_end,
        }
    }

    /// The words that have a byte.
    #[tactic(auto, unfolding(crate::specs::Pieces::pieces_left), using(crate::proofs::JoinLaws::left_words, crate::proofs::JoinLaws::no_words))]
    pub fn filled(&self) -> Words<'a>
        ensures { result ≡ filled self.now }
    {
        if self.is_at_end {
            Words::of(b"".as_slice())
        } else {
            Words::of(self.left)
        }
    }

    /// Is no word left?
    #[tactic(auto, using(crate::proofs::PartLaws::end_is))]
    pub fn is_empty(&self) -> bool
        ensures { result ≡ is_empty self.now }
    {
        self.is_at_end
    }

    /// Takes the first word off.
    #[tactic(auto, unfolding(value_words::specs::Counted::first_of))]
    pub fn first(&mut self) -> Option<&'a [u8]>
        ensures found { IfSome result (λ w. first_of self.old ≡ Some (w.now, self.new)) }
        ensures missing { IfNone result (first_of self.old ≡ None) }
    {
        self.take()
    }

    /// The word, where there is just one.
    #[tactic(auto, unfolding(value_words::specs::Counted::one_of, value_words::specs::Words::when_true, value_words::specs::Answers::bind_opens))]
    pub fn one(&mut self) -> Option<&'a [u8]>
        ensures { option_map (λ x. x.now) result ≡ one_of self.old }
    {
        let a = self.first()?;
        if self.is_empty() { Some(a) } else { None }
    }

    /// The words, where there are just two.
    #[tactic(auto, unfolding(value_words::specs::Counted::two_of, value_words::specs::Answers::bind_opens))]
    pub fn two(&mut self) -> Option<(&'a [u8], &'a [u8])>
        ensures { option_map (λ x. (x.0.now, x.1.now)) result ≡ two_of self.old }
    {
        let a = self.first()?;
        let b = self.one()?;
        Some((a, b))
    }

    /// The words, where there are just three.
    #[tactic(auto, unfolding(value_words::specs::Counted::three_of, value_words::specs::Answers::bind_opens))]
    pub fn three(&mut self) -> Option<(&'a [u8], &'a [u8], &'a [u8])>
        ensures { option_map (λ x. (x.0.now, x.1.now, x.2.now)) result ≡ three_of self.old }
    {
        let a = self.first()?;
        let b = self.first()?;
        let c = self.one()?;
        Some((a, b, c))
    }

    /// The words, where there are just four.
    #[tactic(auto, unfolding(value_words::specs::Counted::four_of, value_words::specs::Answers::bind_opens))]
    pub fn four(&mut self) -> Option<(&'a [u8], &'a [u8], &'a [u8], &'a [u8])>
        ensures { option_map (λ x. (x.0.now, x.1.now, x.2.now, x.3.now)) result
            ≡ four_of self.old }
    {
        let a = self.first()?;
        let b = self.first()?;
        let c = self.first()?;
        let d = self.one()?;
        Some((a, b, c, d))
    }

    /// What the next word says, of which the reader is given.
    #[tactic(auto, unfolding(record_lines::specs::Reading::next, value_words::specs::Answers::bind_opens))]
    pub fn next<T: FromWord>(&mut self) -> Result<T, WordFault>
        ensures found { IfOk result (λ x. next T.reads self.old ≡ Some (x, self.new)) }
        ensures refused { IfErr result (λ e. FailsWord e (next T.reads self.old)) }
    {
        let word = self.take().ok_or(WordFault::BadWord)?;
        T::read(word).ok_or(WordFault::BadWord)
    }

    /// The same where it takes memory.
    #[tactic(auto, unfolding(record_lines::specs::Reading::next, value_words::specs::Answers::bind_opens))]
    pub fn next_owned<T: OwnedFromWord>(&mut self, alloc: Global) -> Result<T, WordFault>
        ensures found { IfOk result (λ x. next T.reads_owned self.old ≡ Some (x, self.new)) }
        ensures refused { IfErr result (λ e. FailsWord e (next T.reads_owned self.old)) }
    {
        let word = self.take().ok_or(WordFault::BadWord)?;
        T::read_owned(alloc, word)
    }

    /// A network.
    #[tactic(auto, unfolding(record_lines::specs::Reading::next, value_words::specs::Answers::bind_opens))]
    pub fn network(&mut self) -> Result<u8, WordFault>
        ensures found { IfOk result (λ x. next network_word self.old ≡ Some (x, self.new)) }
        ensures refused { IfErr result (λ e. FailsWord e (next network_word self.old)) }
    {
        let word = self.take().ok_or(WordFault::BadWord)?;
        network_word(word).ok_or(WordFault::BadWord)
    }

    /// What stands behind the next word's first `=`.
    #[tactic(auto, unfolding(record_lines::specs::Reading::next, value_words::specs::Answers::bind_opens))]
    pub fn value(&mut self) -> Result<&'a [u8], WordFault>
        ensures found { IfOk result (λ x. next after_equals self.old ≡ Some (x.now, self.new)) }
        ensures refused { IfErr result (λ e. FailsWord e (next after_equals self.old)) }
    {
        let word = self.take().ok_or(WordFault::BadWord)?;
        after_equals(word).ok_or(WordFault::BadWord)
    }

    /// What stands behind the next word's first `=`, read.
    #[tactic(auto, unfolding(record_lines::specs::Reading::next, record_lines::specs::Reading::labelled, value_words::specs::Answers::bind_opens))]
    pub fn labelled<T: FromWord>(&mut self) -> Result<T, WordFault>
        ensures found { IfOk result (λ x. next (labelled T.reads) self.old
            ≡ Some (x, self.new)) }
        ensures refused { IfErr result (λ e. FailsWord e (next (labelled T.reads) self.old)) }
    {
        let value = self.value()?;
        T::read(value).ok_or(WordFault::BadWord)
    }

    /// The same where it takes memory.
    #[tactic(auto, unfolding(record_lines::specs::Reading::next, record_lines::specs::Reading::labelled, value_words::specs::Answers::bind_opens))]
    pub fn labelled_owned<T: OwnedFromWord>(&mut self, alloc: Global) -> Result<T, WordFault>
        ensures found { IfOk result (λ x. next (labelled T.reads_owned) self.old
            ≡ Some (x, self.new)) }
        ensures refused { IfErr result (λ e. FailsWord e
            (next (labelled T.reads_owned) self.old)) }
    {
        let value = self.value()?;
        T::read_owned(alloc, value)
    }

    /// That no word stands behind what was read.
    #[tactic(auto, unfolding(record_lines::specs::Reading::ended, value_words::specs::Words::when_true))]
    pub fn ended<T: Drop>(&self, read: T) -> Result<T, WordFault>
        ensures { GivesWord result (ended read self.now) }
    {
        if self.is_empty() {
            Ok(read)
        } else {
            Err(WordFault::BadWord)
        }
    }
}
