//! What stands between marks, and the words of a line.
ghost use Rattle.std.specs.Prelude.{◌≡◌, ◌==◌, ◌<◌, ◌+◌, ◌∷◌, [], length, IfSome, IfNone, Some, None, false};
ghost use Rattle.std.specs.Option.{option_map};
ghost use Rattle.value_words.specs.Counted.{first_of, one_of, two_of, three_of, four_of};
ghost use Rattle.std.specs.List.{position};
ghost use Rattle.std.specs.Str.{bytes_eq};
ghost use Rattle.rsct_packet.specs.Lists.{is_empty};
ghost use Rattle.value_words.specs.Words.{split_on, words_in};

use std::marker::Model;

/// Is there no byte?
pub fn is_empty(bytes: &[u8]) -> bool
    ensures { result ≡ is_empty bytes.now }
{
    match bytes {
        [] => true,
        _ => false,
    }
}

/// Is it this word?
pub fn is_word(word: &[u8], text: &[u8]) -> bool
    ensures { result ≡ bytes_eq word.now text.now }
{
    word == text
}

/// Where the first such byte stands.
pub fn place_of(mark: u8, bytes: &[u8]) -> Option<usize>
    ensures { result ≡ position (λ x. x == mark) bytes.now }
{
    bytes.iter().position(|x| *x == mark)
}

/// Cuts at the first such byte, and leaves it out.
#[tactic(auto, using(crate::proofs::SplitLaws::cut_found, crate::proofs::SplitLaws::cut_missing, crate::proofs::SplitLaws::some_piece, std::proofs::lemmas::Grind::common_steps))]
pub fn cut_at(mark: u8, bytes: &[u8]) -> Option<(&[u8], &[u8])>
    ensures found { IfSome result (λ x. split_on mark bytes.now ≡ x.0.now ∷ split_on mark x.1.now) }
    ensures more { IfSome result (λ x. is_empty (split_on mark x.1.now) ≡ false) }
    ensures lengths { IfSome result (λ x. length bytes.now ≡ length x.0.now + 1 + length x.1.now) }
    ensures missing { IfNone result (split_on mark bytes.now ≡ bytes.now ∷ []) }
{
    let i = place_of(mark, bytes)?;
    Some((&bytes[..i], &bytes[i + 1..]))
}

/// The first word of a line, and what stands behind it.
#[tactic(auto, unfolding(crate::specs::Words::words_in))]
fn next_word(line: &[u8]) -> Option<(&[u8], &[u8])>
    ensures found { IfSome result (λ x. words_in line.now ≡ x.0.now ∷ words_in x.1.now) }
    ensures shorter { IfSome result (λ x. length x.1.now < length line.now) }
    ensures missing { IfNone result (words_in line.now ≡ []) }
{
    let mut left = line;
    while let Some((word, after)) = cut_at(b' ', left) {
        if !is_empty(word) {
            return Some((word, after));
        }
        left = after;
    }
    if is_empty(left) {
        return None;
    }
    Some((left, b"".as_slice()))
}

/// Words that are still to be read, in their line.
#[derive(Drop)]
pub struct Words<'a> {
    left: &'a [u8],
}

impl<'a> Model for Words<'a> {
    ghost use Rattle.std.specs.Prelude.{List, ℕ};
    ghost use Rattle.value_words.specs.Words.{words_in};

    ghost Value = { List (List ℕ) };

    ghost view = { λ w. words_in w.left.now };
}

impl<'a> Words<'a> {
    /// The words of a line.
    pub fn of(line: &'a [u8]) -> Words<'a>
        ensures { result ≡ words_in line.entry.now }
    {
        Words { left: line }
    }

    /// Takes the next word off.
    pub fn take(&mut self) -> Option<&'a [u8]>
        ensures found { IfSome result (λ w. self.old ≡ w.now ∷ self.new) }
        ensures missing { IfNone result ((self.old ≡ []) × (self.new ≡ [])) }
    {
        let (word, left) = next_word(self.left)?;
        self.left = left;
        Some(word)
    }

    /// How many they are.
    pub fn len(&self) -> usize
        ensures { result ≡ length self.now }
    {
        let mut left = self.left;
        let mut n = 0;
        while let Some((_, after)) = next_word(left) {
            n += 1;
            left = after;
        }
        n
    }

    /// Is there none?
    pub fn is_empty(&self) -> bool
        ensures { result ≡ is_empty self.now }
    {
        next_word(self.left).is_none()
    }

    /// Takes the first one off.
    #[tactic(auto, unfolding(crate::specs::Counted::first_of))]
    pub fn first(&mut self) -> Option<&'a [u8]>
        ensures found { IfSome result (λ w. first_of self.old ≡ Some (w.now, self.new)) }
        ensures missing { IfNone result (first_of self.old ≡ None) }
    {
        self.take()
    }

    /// The word, where there is just one.
    #[tactic(auto, unfolding(crate::specs::Counted::one_of, crate::specs::Words::when_true, crate::specs::Answers::bind_opens))]
    pub fn one(&mut self) -> Option<&'a [u8]>
        ensures { option_map (λ x. x.now) result ≡ one_of self.old }
    {
        let a = self.first()?;
        if self.is_empty() { Some(a) } else { None }
    }

    /// The words, where there are just two.
    #[tactic(auto, unfolding(crate::specs::Counted::two_of, crate::specs::Answers::bind_opens))]
    pub fn two(&mut self) -> Option<(&'a [u8], &'a [u8])>
        ensures { option_map (λ x. (x.0.now, x.1.now)) result ≡ two_of self.old }
    {
        let a = self.first()?;
        let b = self.one()?;
        Some((a, b))
    }

    /// The words, where there are just three.
    #[tactic(auto, unfolding(crate::specs::Counted::three_of, crate::specs::Answers::bind_opens))]
    pub fn three(&mut self) -> Option<(&'a [u8], &'a [u8], &'a [u8])>
        ensures { option_map (λ x. (x.0.now, x.1.now, x.2.now)) result ≡ three_of self.old }
    {
        let a = self.first()?;
        let b = self.first()?;
        let c = self.one()?;
        Some((a, b, c))
    }

    /// The words, where there are just four.
    #[tactic(auto, unfolding(crate::specs::Counted::four_of, crate::specs::Answers::bind_opens))]
    pub fn four(&mut self) -> Option<(&'a [u8], &'a [u8], &'a [u8], &'a [u8])>
        ensures { option_map (λ x. (x.0.now, x.1.now, x.2.now, x.3.now)) result ≡ four_of self.old }
    {
        let a = self.first()?;
        let b = self.first()?;
        let c = self.first()?;
        let d = self.one()?;
        Some((a, b, c, d))
    }
}
