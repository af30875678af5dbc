//! Numbers of the lines.
ghost use Rattle.std.specs.Prelude.{◌≡◌, ◌++◌, ◌<◌, OnOk, decimal, flat_map};
ghost use Rattle.value_words.specs.Wording.{word};
ghost use Rattle.daemon_model.specs.SelfLines.{number_or_none, low_digit, byte_digits, digest_text};

use itoa::Buffer;
use rsct_packet::NoMemory;
use value_words::{put_number_word, put_text, put_word};

/// A number of 64 bits and a space.
pub(crate) fn put_long_word(out: &mut Vec<u8>, number: u64) -> Result<(), NoMemory>
    ensures { OnOk result (out.new.items ≡ out.old.items ++ word (decimal number)) }
{
    let mut digits = Buffer::new();
    put_word(out, digits.format(number).as_bytes())
}

/// A number, or `-` where there is none, and a space.
pub(crate) fn put_optional_word(out: &mut Vec<u8>, number: Option<u32>) -> Result<(), NoMemory>
    ensures { OnOk result (out.new.items ≡ out.old.items ++ word (number_or_none number)) }
{
    match number {
        None => put_word(out, b"-"),
        Some(number) => put_number_word(out, number),
    }
}

/// A digit of a number below 16.
#[tactic(auto, unfolding(daemon_model::specs::SelfLines::low_digit))]
fn low_digit(value: u8) -> u8
    requires { value < 16 }
    ensures { result ≡ low_digit value }
{
    if value < 10 { 48 + value } else { 87 + value }
}

/// A byte in two digits.
fn put_byte_digits(out: &mut Vec<u8>, byte: u8) -> Result<(), NoMemory>
    ensures { OnOk result (out.new.items ≡ out.old.items ++ byte_digits byte) }
{
    out.push(low_digit(byte / 16))?;
    out.push(low_digit(byte % 16))?;
    Ok(())
}

#[tactic(auto, using(value_words::proofs::TextLaws::item_on))]
fn put_digits(out: &mut Vec<u8>, bytes: &[u8]) -> Result<(), NoMemory>
    ensures { OnOk result (out.new.items ≡ out.old.items ++ flat_map byte_digits bytes.now) }
{
    for b in bytes {
        put_byte_digits(out, *b)?;
    }
    Ok(())
}

/// Sixteen digits and a space.
#[tactic(auto, unfolding(daemon_model::specs::SelfLines::digest_text, value_words::specs::Wording::word, rsct_packet::specs::Fields::u64_text))]
pub(crate) fn put_digest_word(out: &mut Vec<u8>, number: u64) -> Result<(), NoMemory>
    ensures { OnOk result (out.new.items ≡ out.old.items ++ word (digest_text number)) }
{
    put_digits(out, &number.to_be_bytes())?;
    put_text(out, b" ")
}
