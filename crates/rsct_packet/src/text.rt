//! Names and texts.
ghost use Rattle.std.specs.Prelude.{◌≡◌, [], ◌<◌, ◌≤◌, ◌^◌, ◌↔◌, IsTrue, length, IfOk, MatchOption};
ghost use Rattle.std.specs.List.{list_all};
ghost use Rattle.rsct_packet.specs.Text.{IsName, is_name_of, name_byte};

use crate::ids::NoMemory;
use std::alloc::Global;
use std::marker::Model;

/// How many bytes a group name has at most.
pub const MAX_NAME: usize = 32;

/// How many bytes the name of a client has at most.
pub const MAX_CLIENT_NAME: usize = 16;

/// How many bytes a text has at most.
pub const MAX_TEXT: usize = 65535;

/// A state value, a message or another text of at most 65,535 bytes.
#[derive(Drop)]
pub struct Text {
    bytes: Vec<u8>,
}

impl Model for Text {
    ghost use Rattle.std.specs.Prelude.{List, ℕ, ◌<◌, ◌^◌, length};

    ghost Value = { List ℕ };

    ghost view = { λ t. t.bytes.items };

    ghost invariant = { λ t. length t.bytes.items < 2 ^ 16 };
}

impl Text {
    /// The empty text.
    pub fn new(alloc: Global) -> Text
        ensures { result ≡ [] }
    {
        Text {
            bytes: Vec::new(alloc),
        }
    }

    /// The text of these bytes; `Ok(None)` exactly where they are more than 65,535.
    pub fn of(alloc: Global, bytes: &[u8]) -> Result<Option<Text>, NoMemory>
        ensures { IfOk result (λ o. MatchOption o (2 ^ 16 ≤ length bytes.now)
            (λ t. (length bytes.now < 2 ^ 16) × (t ≡ bytes.now))) }
    {
        if bytes.len() > MAX_TEXT {
            return Ok(None);
        }
        Ok(Some(Text {
            bytes: Vec::from_slice(alloc, bytes)?,
        }))
    }

    pub fn bytes(&self) -> &[u8]
        ensures value { result.now ≡ self.now }
        ensures short { length self.now < 2 ^ 16 }
    {
        self.bytes.as_slice()
    }

    pub fn copy(&self, alloc: Global) -> Result<Text, NoMemory>
        ensures { IfOk result (λ t. t ≡ self.now) }
    {
        Ok(Text {
            bytes: Vec::from_slice(alloc, self.bytes.as_slice())?,
        })
    }
}

/// A group name: 1 to 32 letters, digits, `_`, `-` and `.`.
#[derive(Drop)]
pub struct Name {
    bytes: Vec<u8>,
}

impl Model for Name {
    ghost use Rattle.std.specs.Prelude.{List, ℕ};
    ghost use Rattle.rsct_packet.specs.Text.{IsName, name_byte};

    ghost Value = { List ℕ };

    ghost view = { λ t. t.bytes.items };

    ghost invariant = { λ t. IsName t.bytes.items };
}

/// Is this a byte of a name?
fn is_name_byte(byte: u8) -> bool
    ensures { result ≡ name_byte byte }
{
    byte.is_ascii_alphanumeric() || byte == b'_' || byte == b'-' || byte == b'.'
}

/// Is each of these a byte of a name: a letter, a digit, `_`, `-` or `.`?
pub fn are_name_bytes(bytes: &[u8]) -> bool
    ensures { result ≡ list_all name_byte bytes.now }
{
    bytes.iter().all(|x| is_name_byte(*x))
}

/// Is this a group name?
pub fn is_name(bytes: &[u8]) -> bool
    ensures { result ≡ is_name_of bytes.now }
{
    bytes.len() >= 1 && bytes.len() <= MAX_NAME && are_name_bytes(bytes)
}

impl Name {
    /// The name of these bytes; `Ok(None)` exactly where they are no group name.
    pub fn of(alloc: Global, bytes: &[u8]) -> Result<Option<Name>, NoMemory>
        ensures { IfOk result (λ o. MatchOption o (¬ IsName bytes.now) (λ t. IsName bytes.now
            × (t ≡ bytes.now))) }
    {
        if !is_name(bytes) {
            return Ok(None);
        }
        Ok(Some(Name::of_name(alloc, bytes)?))
    }

    /// The name of bytes that are one.
    pub fn of_name(alloc: Global, bytes: &[u8]) -> Result<Name, NoMemory>
        requires { IsName bytes.now }
        ensures { IfOk result (λ n. n ≡ bytes.now) }
    {
        Ok(Name {
            bytes: Vec::from_slice(alloc, bytes)?,
        })
    }

    pub fn bytes(&self) -> &[u8]
        ensures value { result.now ≡ self.now }
        ensures name { IsName self.now }
    {
        self.bytes.as_slice()
    }

    pub fn copy(&self, alloc: Global) -> Result<Name, NoMemory>
        ensures { IfOk result (λ t. t ≡ self.now) }
    {
        Name::of_name(alloc, self.bytes())
    }
}
