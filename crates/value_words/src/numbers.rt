//! Numbers: decimal digits without a needless zero, within a range.
ghost use Rattle.std.specs.Prelude.{◌≡◌, ◌≤◌, ◌++◌, IfSome, OnOk, codes, decimal};
ghost use Rattle.std.specs.List.{list_all};
ghost use Rattle.value_words.specs.Wording.{word};
ghost use Rattle.value_words.specs.Words.{is_digit, has_needless_zero, number_from, in_range, number_word, node_word, network_word};

use crate::words::is_empty;
use crate::writing::{put_text, put_word};
use itoa::Buffer;
use rsct_packet::NoMemory;

/// How many digits a number has at most.
const MAX_DIGITS: usize = 20;

#[tactic(auto, unfolding(crate::specs::Words::is_digit))]
fn is_digit(byte: u8) -> bool
    ensures { result ≡ is_digit byte }
{
    byte.is_ascii_digit()
}

fn are_digits(word: &[u8]) -> bool
    ensures { result ≡ list_all is_digit word.now }
{
    word.iter().all(|b| is_digit(*b))
}

#[tactic(auto, unfolding(crate::specs::Words::has_needless_zero))]
fn has_needless_zero(word: &[u8]) -> bool
    ensures { result ≡ has_needless_zero word.now }
{
    match word {
        [first, _, ..] => *first == b'0',
        _ => false,
    }
}

#[tactic(auto, unfolding(crate::specs::Words::in_range, crate::specs::Words::when_true))]
fn in_range(low: u32, high: u32, number: u32) -> Option<u32>
    ensures value { result ≡ in_range low high number }
    ensures within { IfSome result (λ n. (low ≤ n) × (n ≤ high)) }
{
    if low <= number && number <= high {
        Some(number)
    } else {
        None
    }
}

/// The number of these digits, within the range.
#[tactic(auto, using(crate::proofs::NumberLaws::number_more, crate::proofs::NumberLaws::number_done, crate::proofs::NumberLaws::number_past, std::proofs::lemmas::Grind::common_steps))]
fn value_of(low: u32, high: u32, digits: &[u8]) -> Option<u32>
    ensures value { result ≡ in_range low high (number_from 0 digits.now) }
    ensures within { IfSome result (λ n. (low ≤ n) × (n ≤ high)) }
{
    let mut value = 0u64;
    for d in digits {
        value = 10 * value + u64::from(d.saturating_sub(b'0'));
        if value > u64::from(high) {
            return None;
        }
    }
    in_range(low, high, value as u32)
}

/// The number that the word spells, from `low` to `high`.
#[tactic(auto, unfolding(crate::specs::Words::number_word))]
pub fn number_word(low: u32, high: u32, word: &[u8]) -> Option<u32>
    ensures value { result ≡ number_word low high word.now }
    ensures within { IfSome result (λ n. (low ≤ n) × (n ≤ high)) }
{
    if is_empty(word) || !are_digits(word) || has_needless_zero(word) || word.len() > MAX_DIGITS {
        return None;
    }
    value_of(low, high, word)
}

/// The same of 16 bits.
pub fn short_word(low: u16, high: u16, word: &[u8]) -> Option<u16>
    ensures value { result ≡ number_word low high word.now }
    ensures within { IfSome result (λ n. (low ≤ n) × (n ≤ high)) }
{
    let n = number_word(u32::from(low), u32::from(high), word)?;
    Some(n as u16)
}

/// The same of 8 bits.
pub fn byte_word(low: u8, high: u8, word: &[u8]) -> Option<u8>
    ensures value { result ≡ number_word low high word.now }
    ensures within { IfSome result (λ n. (low ≤ n) × (n ≤ high)) }
{
    let n = number_word(u32::from(low), u32::from(high), word)?;
    Some(n as u8)
}

/// The number of a node, from 1 to 32.
#[tactic(auto, unfolding(crate::specs::Words::node_word))]
pub fn node_word(word: &[u8]) -> Option<u8>
    ensures value { result ≡ node_word word.now }
    ensures within { IfSome result (λ n. (1 ≤ n) × (n ≤ 32)) }
{
    byte_word(1, 32, word)
}

/// The number of a network, from 1 to 4.
#[tactic(auto, unfolding(crate::specs::Words::network_word))]
pub fn network_word(word: &[u8]) -> Option<u8>
    ensures value { result ≡ network_word word.now }
    ensures within { IfSome result (λ n. (1 ≤ n) × (n ≤ 4)) }
{
    byte_word(1, 4, word)
}

/// The digits of a number, which are made on the stack: a line of many members has many numbers.
pub fn put_number(out: &mut Vec<u8>, number: u32) -> Result<(), NoMemory>
    ensures { OnOk result (out.new.items ≡ out.old.items ++ decimal number) }
{
    let mut digits = Buffer::new();
    put_text(out, digits.format(number).as_bytes())
}

#[tactic(auto, unfolding(crate::specs::Wording::word))]
pub fn put_number_word(out: &mut Vec<u8>, number: u32) -> Result<(), NoMemory>
    ensures { OnOk result (out.new.items ≡ out.old.items ++ word (decimal number)) }
{
    put_number(out, number)?;
    put_text(out, b" ")
}

/// A count and a space.
#[tactic(auto, unfolding(crate::specs::Wording::word))]
pub fn put_count_word(out: &mut Vec<u8>, count: usize) -> Result<(), NoMemory>
    ensures { OnOk result (out.new.items ≡ out.old.items ++ word (decimal count)) }
{
    let mut digits = Buffer::new();
    put_word(out, digits.format(count).as_bytes())
}

/// A label, and a number behind it.
pub fn put_counted(out: &mut Vec<u8>, label: &[u8], number: u32) -> Result<(), NoMemory>
    ensures { OnOk result (out.new.items ≡ out.old.items ++ (label.now ++ decimal number)) }
{
    put_text(out, label)?;
    put_number(out, number)
}

/// A number and a dot.
pub fn put_number_dot(out: &mut Vec<u8>, number: u32) -> Result<(), NoMemory>
    ensures { OnOk result (out.new.items ≡ out.old.items ++ (decimal number ++ codes ".")) }
{
    put_number(out, number)?;
    put_text(out, b".")
}
