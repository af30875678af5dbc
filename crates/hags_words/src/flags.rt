//! The flags among the words after a command: `--remote`, `--lasting` and `--entries`, which have no value.
ghost use Rattle.std.specs.Prelude.{◌≡◌, ◌==◌, IfOk, OnOk, Some, None, map, string_bytes, option_map, if◌then◌else◌};
ghost use Rattle.std.specs.List.{list_any};
ghost use Rattle.hags_words.specs.Flags.{no_flags, has_flag, with_flag, flag_named, is_long, waits, kept, after_flag, flag_of};
ghost use Rattle.hags_words.specs.Splits.{split_seen};

use crate::options::is_end;
use rsct_packet::NoMemory;
use std::alloc::Global;

/// A flag: an option without a value.
#[derive(Clone, Copy, Debug, PartialEq, Eq)]
pub enum Flag {
    Remote,
    Lasting,
    Entries,
}

/// Which flags there are.
#[derive(Clone, Copy, Debug, PartialEq, Eq)]
pub struct Flags {
    pub remote: bool,
    pub lasting: bool,
    pub entries: bool,
}

/// Words without the flags: which of these were among them, whether the last of them is an option whose value is the next
/// one, and whether `--` is among them.
#[derive(Drop)]
pub struct Split {
    pub flags: Flags,
    pub waiting: bool,
    pub ended: bool,
    pub left: Vec<String>,
}

/// The flag that a word is.
#[tactic(auto, unfolding(crate::specs::Flags::flag_named))]
fn flag_named(word: &[u8]) -> Option<Flag>
    ensures { result ≡ flag_named word.now }
{
    if word == b"--remote".as_slice() {
        Some(Flag::Remote)
    } else if word == b"--lasting".as_slice() {
        Some(Flag::Lasting)
    } else if word == b"--entries".as_slice() {
        Some(Flag::Entries)
    } else {
        None
    }
}

/// Does it begin with two hyphens, and have more behind them?
fn is_long(word: &[u8]) -> bool
    ensures { result ≡ is_long word.now }
{
    match word {
        [first, second, _, ..] => *first == b'-' && *second == b'-',
        _ => false,
    }
}

fn has_equals(word: &[u8]) -> bool
    ensures { result ≡ list_any (λ b. b == 61) word.now }
{
    word.iter().any(|b| *b == b'=')
}

/// Is it an option without its value, which is to be the next word?
#[tactic(auto, unfolding(crate::specs::Flags::waits))]
fn waits(word: &[u8]) -> bool
    ensures { result ≡ waits word.now }
{
    is_long(word) && !has_equals(word)
}

impl Flags {
    pub fn none() -> Flags
        ensures { result ≡ no_flags }
    {
        Flags {
            remote: false,
            lasting: false,
            entries: false,
        }
    }

    fn has(self, flag: Flag) -> bool
        ensures { result ≡ has_flag self flag }
    {
        match flag {
            Flag::Remote => self.remote,
            Flag::Lasting => self.lasting,
            Flag::Entries => self.entries,
        }
    }

    fn with(self, flag: Flag) -> Flags
        ensures { result ≡ with_flag self flag }
    {
        match flag {
            Flag::Remote => Flags {
                remote: true,
                ..self
            },
            Flag::Lasting => Flags {
                lasting: true,
                ..self
            },
            Flag::Entries => Flags {
                entries: true,
                ..self
            },
        }
    }
}

impl Split {
    /// A word that is no flag.
    fn keep(&mut self, word: &String) -> Result<(), NoMemory>
        ensures { OnOk result (split_seen self.new
            ≡ kept (split_seen self.old) (string_bytes word.now)) }
    {
        let bytes = word.as_bytes();
        self.waiting = waits(bytes);
        self.ended = self.ended || is_end(bytes);
        self.left.push(word.clone()?)?;
        Ok(())
    }

    /// The next word; false where it is a flag and has no place here.
    #[tactic(auto, unfolding(crate::specs::Flags::after_flag))]
    fn take(&mut self, word: &String) -> Result<bool, NoMemory>
        ensures { IfOk result (λ placed. after_flag (split_seen self.old) (string_bytes word.now)
            ≡ (if placed then Some (split_seen self.new) else None)) }
    {
        if self.ended {
            self.keep(word)?;
            return Ok(true);
        }
        match flag_named(word.as_bytes()) {
            None => self.keep(word)?,
            Some(flag) => {
                if self.flags.has(flag) || self.waiting {
                    return Ok(false);
                }
                self.flags = self.flags.with(flag);
            }
        }
        Ok(true)
    }
}

/// Takes the flags out of the words before `--`; none where one is there twice, or where a value is to stand.
pub fn take_flags(alloc: Global, words: &[String]) -> Result<Option<Split>, NoMemory>
    ensures { IfOk result (λ split. option_map split_seen split
        ≡ flag_of (map string_bytes words.now)) }
{
    let mut split = Split {
        flags: Flags::none(),
        waiting: false,
        ended: false,
        left: Vec::new(alloc),
    };
    for word in words {
        if !split.take(word)? {
            return Ok(None);
        }
    }
    Ok(Some(split))
}
