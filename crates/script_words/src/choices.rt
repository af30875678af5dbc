//! Words of which there are few.
ghost use Rattle.std.specs.Prelude.{◌≡◌};
ghost use Rattle.world_model.specs.Words.{mode_word, what_word};

use node_state::{Mode, What};
use value_words::is_word;

/// `fixed`, `asked` or `rings`.
#[tactic(auto, unfolding(world_model::specs::Words::mode_word, value_words::specs::Words::chosen))]
pub fn mode_word(word: &[u8]) -> Option<Mode>
    ensures { result ≡ mode_word word.now }
{
    if is_word(b"fixed", word) {
        return Some(Mode::Fixed);
    }
    if is_word(b"asked", word) {
        return Some(Mode::Asked);
    }
    if is_word(b"rings", word) {
        return Some(Mode::Rings);
    }
    None
}

/// `hats`, `hagsns`, `hagsgr` or `hagsvote`.
#[tactic(auto, unfolding(world_model::specs::Words::what_word, value_words::specs::Words::chosen))]
pub fn what_word(word: &[u8]) -> Option<What>
    ensures { result ≡ what_word word.now }
{
    if is_word(b"hats", word) {
        return Some(What::Hats);
    }
    if is_word(b"hagsns", word) {
        return Some(What::Hagsns);
    }
    if is_word(b"hagsgr", word) {
        return Some(What::Hagsgr);
    }
    if is_word(b"hagsvote", word) {
        return Some(What::Hagsvote);
    }
    None
}
