//! Words of which there are few.
ghost use Rattle.std.specs.Prelude.{◌≡◌};
ghost use Rattle.entry_words.specs.Words.{phases_word, batch_word, default_word};

use group_attr::{Batch, DefaultVote, Phases};
use value_words::is_word;

/// `1` or `n`.
#[tactic(auto, unfolding(crate::specs::Words::phases_word, value_words::specs::Words::chosen))]
pub fn phases_word(word: &[u8]) -> Option<Phases>
    ensures { result ≡ phases_word word.now }
{
    if is_word(b"1", word) {
        return Some(Phases::One);
    }
    if is_word(b"n", word) {
        return Some(Phases::Many);
    }
    None
}

/// `none`, `joins`, `failures` or `both`.
#[tactic(auto, unfolding(crate::specs::Words::batch_word, value_words::specs::Words::chosen))]
pub fn batch_word(word: &[u8]) -> Option<Batch>
    ensures { result ≡ batch_word word.now }
{
    if is_word(b"none", word) {
        return Some(Batch::Neither);
    }
    if is_word(b"joins", word) {
        return Some(Batch::Joins);
    }
    if is_word(b"failures", word) {
        return Some(Batch::Failures);
    }
    if is_word(b"both", word) {
        return Some(Batch::Both);
    }
    None
}

/// `approve` or `reject`.
#[tactic(auto, unfolding(crate::specs::Words::default_word, value_words::specs::Words::chosen))]
pub fn default_word(word: &[u8]) -> Option<DefaultVote>
    ensures { result ≡ default_word word.now }
{
    if is_word(b"approve", word) {
        return Some(DefaultVote::Approve);
    }
    if is_word(b"reject", word) {
        return Some(DefaultVote::Reject);
    }
    None
}
