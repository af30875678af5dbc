//! Bytes in pairs of hex digits.
ghost use Rattle.std.specs.Prelude.{◌≡◌, ◌<◌, IfSome};
ghost use Rattle.value_words.specs.Words.{hex_value, hex_pair, hex_word};
ghost use Rattle.value_words.specs.Wording.{hex_digit};
ghost use Rattle.value_words.specs.Answers.{GivesWord};

use crate::faults::WordFault;
use rsct_packet::List;
use std::alloc::Global;

/// A digit of a number below 16.
#[tactic(auto, unfolding(crate::specs::Wording::hex_digit))]
pub fn hex_digit(value: u8) -> u8
    requires { value < 16 }
    ensures { result ≡ hex_digit value }
{
    if value < 10 { 48 + value } else { 55 + value }
}

/// The value of a hex digit of either case; `None` for any other byte.
#[tactic(auto, unfolding(crate::specs::Words::hex_value))]
pub fn hex_value(byte: u8) -> Option<u8>
    ensures value { result ≡ hex_value byte }
    ensures small { IfSome result (λ x. x < 16) }
{
    match byte {
        b'0'..=b'9' => Some(byte - b'0'),
        b'A'..=b'F' => Some(byte - b'A' + 10),
        b'a'..=b'f' => Some(byte - b'a' + 10),
        _ => None,
    }
}

/// The byte of two hex digits.
#[tactic(auto, unfolding(crate::specs::Words::hex_pair, crate::specs::Answers::bind_opens))]
pub fn hex_pair(first: u8, second: u8) -> Option<u8>
    ensures { result ≡ hex_pair first second }
{
    let high = hex_value(first)?;
    let low = hex_value(second)?;
    Some(16 * high + low)
}

/// The bytes that pairs of hex digits spell, of either case; none for none.
#[tactic(auto, using(crate::proofs::HexLaws::hex_start, crate::proofs::HexLaws::hex_more, crate::proofs::HexLaws::hex_fails, crate::proofs::HexLaws::hex_done, crate::proofs::HexLaws::hex_odd, std::proofs::lemmas::Grind::common_steps))]
pub fn hex_word(alloc: Global, word: &[u8]) -> Result<List<u8>, WordFault>
    ensures { GivesWord result (hex_word word.now) }
{
    let mut bytes = List::new(alloc);
    let mut left = word;
    while left.len() >= 2 {
        let Some(byte) = hex_pair(left[0], left[1]) else {
            return Err(WordFault::BadWord);
        };
        bytes.push(byte)?;
        left = &left[2..];
    }
    if left.len() > 0 {
        return Err(WordFault::BadWord);
    }
    Ok(bytes)
}
