//! Lists: items between commas, `-` for none.
ghost use Rattle.std.specs.Prelude.{◌≡◌};
ghost use Rattle.value_words.specs.Answers.{GivesWord};
ghost use Rattle.value_words.specs.Words.{split_on, each_read};
ghost use Rattle.word_laws.specs.Values.{list_word};

use crate::from_word::FromWord;
use rsct_packet::List;
use std::alloc::Global;
use value_words::{WordFault, cut_at, is_word};

/// The items between commas.
#[tactic(auto, using(crate::proofs::PartLaws::each_more, crate::proofs::PartLaws::each_fails, crate::proofs::PartLaws::each_done, crate::proofs::PartLaws::onto_none))]
fn items<T: FromWord>(alloc: Global, word: &[u8]) -> Result<List<T>, WordFault>
    ensures { GivesWord result (each_read T.reads (split_on 44 word.now)) }
{
    let mut items = List::new(alloc);
    let mut left = word;
    while let Some((item, after)) = cut_at(b',', left) {
        items.push(T::read(item).ok_or(WordFault::BadWord)?)?;
        left = after;
    }
    items.push(T::read(left).ok_or(WordFault::BadWord)?)?;
    Ok(items)
}

/// The items of a list.
#[tactic(auto, unfolding(word_laws::specs::Values::list_word))]
pub fn list_word<T: FromWord>(alloc: Global, word: &[u8]) -> Result<List<T>, WordFault>
    ensures { GivesWord result (list_word T.reads word.now) }
{
    if is_word(word, b"-") {
        return Ok(List::new(alloc));
    }
    items(alloc, word)
}
