//! Values: bytes, of which `%XX` stands for one that is none of a word; and texts, where `%XX` may stand for any
//! byte, and `~` alone for the empty text.
ghost use Rattle.std.specs.Prelude.{◌≡◌, ◌++◌, ◌<◌, OnOk, IfOk, None, Some};
ghost use Rattle.value_words.specs.Wording.{word, hex_digit, byte_text, escaped, value_text};
ghost use Rattle.value_words.specs.Escapes.{with_byte, text_byte, text_end, text_of, text_word};

use crate::hex::{hex_digit, hex_pair};
use crate::writing::put_text;
use rsct_packet::{List, NoMemory};
use std::alloc::Global;

/// A byte of a value: itself, or `%` and two digits.
#[tactic(auto, unfolding(crate::specs::Wording::byte_text))]
fn put_byte(out: &mut Vec<u8>, byte: u8) -> Result<(), NoMemory>
    ensures { OnOk result (out.new.items ≡ out.old.items ++ byte_text byte) }
{
    if byte < 0x21 || byte > 0x7e || byte == b'%' {
        out.push(b'%')?;
        out.push(hex_digit(byte / 16))?;
        out.push(hex_digit(byte % 16))?;
    } else {
        out.push(byte)?;
    }
    Ok(())
}

#[tactic(auto, unfolding(crate::specs::Wording::escaped))]
pub fn put_escaped(out: &mut Vec<u8>, bytes: &[u8]) -> Result<(), NoMemory>
    ensures { OnOk result (out.new.items ≡ out.old.items ++ escaped bytes.now) }
{
    for b in bytes {
        put_byte(out, *b)?;
    }
    Ok(())
}

#[tactic(auto, unfolding(crate::specs::Wording::value_text))]
pub fn put_value(out: &mut Vec<u8>, bytes: &[u8]) -> Result<(), NoMemory>
    ensures { OnOk result (out.new.items ≡ out.old.items ++ value_text bytes.now) }
{
    put_text(out, b"=")?;
    put_escaped(out, bytes)
}

/// How far the `%XX` of a byte has been read.
#[derive(Clone, Copy)]
enum Escape {
    Plain,
    Percent,
    Digit(u8),
}

/// What was read of a text: no bytes where it is none.
#[derive(Drop)]
struct TextRead {
    bytes: Option<List<u8>>,
    escape: Escape,
}

/// Adds a byte where there is one; else there are no bytes any more.
fn add_byte(bytes: &mut Option<List<u8>>, byte: Option<u8>) -> Result<(), NoMemory>
    ensures { OnOk result (bytes.new ≡ with_byte bytes.old byte) }
{
    match byte {
        None => *bytes = None,
        Some(byte) => {
            if let Some(list) = bytes {
                list.push(byte)?;
            }
        }
    }
    Ok(())
}

impl TextRead {
    #[tactic(auto, unfolding(crate::specs::Escapes::text_byte))]
    fn byte(&mut self, byte: u8) -> Result<(), NoMemory>
        ensures { OnOk result (self.new ≡ text_byte self.old byte) }
    {
        match self.escape {
            Escape::Plain => {
                if byte == b'%' {
                    self.escape = Escape::Percent;
                    Ok(())
                } else {
                    add_byte(&mut self.bytes, Some(byte))
                }
            }
            Escape::Percent => {
                self.escape = Escape::Digit(byte);
                Ok(())
            }
            Escape::Digit(a) => {
                self.escape = Escape::Plain;
                add_byte(&mut self.bytes, hex_pair(a, byte))
            }
        }
    }

    #[tactic(auto, unfolding(crate::specs::Escapes::text_end))]
    fn end(self) -> Option<List<u8>>
        ensures { result ≡ text_end self }
    {
        match self.escape {
            Escape::Plain => self.bytes,
            Escape::Percent => None,
            Escape::Digit(_) => None,
        }
    }
}

#[tactic(auto, unfolding(crate::specs::Escapes::text_of), using(std::proofs::lemmas::List::Sums::fold_more))]
fn text_of(alloc: Global, word: &[u8]) -> Result<Option<List<u8>>, NoMemory>
    ensures { IfOk result (λ t. t ≡ text_of word.now) }
{
    let mut read = TextRead {
        bytes: Some(List::new(alloc)),
        escape: Escape::Plain,
    };
    for b in word {
        read.byte(*b)?;
    }
    Ok(read.end())
}

/// The bytes of a text's word; none where it is none.
#[tactic(auto, unfolding(crate::specs::Escapes::text_word))]
pub fn text_word(alloc: Global, word: &[u8]) -> Result<Option<List<u8>>, NoMemory>
    ensures { IfOk result (λ t. t ≡ text_word word.now) }
{
    if word.len() == 0 {
        return Ok(None);
    }
    if word == b"~".as_slice() {
        return Ok(Some(List::new(alloc)));
    }
    text_of(alloc, word)
}
