//! Addresses: four numbers joined by dots.
ghost use Rattle.std.specs.Prelude.{◌≡◌};
ghost use Rattle.world_model.specs.Words.{address_word};

use value_words::{four_parts, number_word};

/// The address, which is not 0.0.0.0.
#[tactic(auto, unfolding(world_model::specs::Words::address_word, world_model::specs::Words::address_of, value_words::specs::Words::in_range, value_words::specs::Words::when_true, value_words::specs::Answers::bind_opens), using(crate::proofs::FourLaws::not_address))]
pub fn address_word(word: &[u8]) -> Option<u32>
    ensures { result ≡ address_word word.now }
{
    let parts = four_parts(word)?;
    let x = number_word(0, 255, parts.first)?;
    let y = number_word(0, 255, parts.second)?;
    let z = number_word(0, 255, parts.third)?;
    let u = number_word(0, 255, parts.fourth)?;
    let address = ((x * 256 + y) * 256 + z) * 256 + u;
    if address >= 1 { Some(address) } else { None }
}
