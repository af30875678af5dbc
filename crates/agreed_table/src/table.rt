//! A table: a map from bytes to bytes.
ghost use Rattle.std.specs.Prelude.{◌≡◌, ◌≢◌, ◌↔◌, ◌≤◌, [], ◌++◌, nat_lt, slice_get, IfOk, IfSome, OnOk, OnErr, IsTrue, Some, option_copied, if◌then◌else◌};
ghost use Rattle.std.specs.Option.{option_map};
ghost use Rattle.rsct_packet.specs.Fields.{AreShort};
ghost use Rattle.agreed_table.specs.Pairs.{Pairs, IsTable, value_of, written, pairs_of, encoding, decoded};
ghost use Rattle.agreed_table.specs.Chunks.{chunk_count, chunk_text};

use crate::chunks::{PIECE_LEN, chunk_of};
use crate::decode::read_entries;
use crate::entries::{Entries, nth, put_encoding, value};
use crate::writes::write;
use rsct_packet::NoMemory;
use std::alloc::Global;
use std::collections::BTreeMap;
use std::collections::btree_map::Iter;
use std::marker::Model;

/// How many bytes the encoding of a table has at most.
pub const MAX_ENCODING: usize = 131_072;

/// A map from keys to values, both bytes, which messages write.
#[derive(Drop)]
pub struct Table {
    entries: Entries,
    size: usize,
}

impl Model for Table {
    ghost use Rattle.std.specs.Prelude.{◌≡◌, length};
    ghost use Rattle.agreed_table.specs.Pairs.{Pairs, IsTable, pairs_of, encoding};

    ghost Value = { Pairs };

    ghost view = { λ t. pairs_of t.entries.entries };

    ghost invariant = { λ t. IsTable (pairs_of t.entries.entries)
        × (t.size ≡ length (encoding (pairs_of t.entries.entries))) };
}

impl Table {
    /// The empty table.
    pub fn new(alloc: Global) -> Table
        ensures { result ≡ [] }
    {
        Table {
            entries: BTreeMap::new(alloc),
            size: 0,
        }
    }

    /// The value of a key.
    pub fn get(&self, key: &[u8]) -> Option<&[u8]>
        ensures value { option_copied result ≡ value_of key.now self.now }
        ensures table { IsTable self.now }
    {
        value(&self.entries, key)
    }

    /// The pair at a place, in ascending order of keys.
    pub fn pair(&self, place: usize) -> Option<(&[u8], &[u8])>
        ensures { option_map (λ p. (p.0.now, p.1.now)) result ≡ slice_get self.now place }
    {
        nth(&self.entries, place)
    }

    /// The pairs, in ascending order of keys.
    pub fn pairs(&self) -> Iter<'_, Vec<u8>, Vec<u8>>
        ensures { pairs_of result ≡ self.now }
    {
        self.entries.iter()
    }

    /// How many pieces of 1,000 bytes the encoding has: at least 1, and at most 132.
    #[tactic(auto, unfolding(crate::specs::Chunks::chunk_count))]
    pub fn chunks(&self) -> u16
        ensures count { result ≡ chunk_count self.now }
        ensures most { result ≤ 132 }
    {
        ((self.size + PIECE_LEN - 1) / PIECE_LEN).max(1) as u16
    }

    /// Appends the chunk of this number, from 0: `T`, the number, how many chunks there are, and that piece of the
    /// encoding. It answers false, and appends nothing, where there is no such piece or memory has run out.
    #[tactic(auto, unfolding(crate::specs::Chunks::chunk_text))]
    pub fn chunk(&self, alloc: Global, number: u16, out: &mut Vec<u8>) -> Result<bool, NoMemory>
        ensures answer { IfOk result (λ added. added ≡ nat_lt number (chunk_count self.now)) }
        ensures added { IfOk result (λ added. out.new.items
            ≡ (if added then out.old.items ++ chunk_text number self.now else out.old.items)) }
        ensures err { OnErr result (out.new.items ≡ out.old.items) }
    {
        let count = self.chunks();
        if number >= count {
            return Ok(false);
        }
        let mut bytes = Vec::new(alloc);
        put_encoding(&mut bytes, &self.entries)?;
        let text = chunk_of(alloc, bytes.as_slice(), number, count)?;
        out.extend_from_slice(text.as_slice())?;
        Ok(true)
    }

    /// The table whose encoding these bytes are; `Ok(None)` exactly where they are no encoding of at most 131,072 bytes
    /// whose keys ascend and are not empty.
    pub fn of_chunks(alloc: Global, bytes: &[u8]) -> Result<Option<Table>, NoMemory>
        ensures value { IfOk result (λ table. table ≡ decoded bytes.now) }
        ensures found { IfOk result (λ table. IfSome table
            (λ pairs. IsTable pairs × (bytes.now ≡ encoding pairs))) }
        ensures only { IfOk result (λ table. (pairs : Pairs) → IsTable pairs
            → bytes.now ≡ encoding pairs → table ≡ Some pairs) }
    {
        if bytes.len() > MAX_ENCODING {
            return Ok(None);
        }
        match read_entries(alloc, bytes)? {
            None => Ok(None),
            Some(entries) => Ok(Some(Table {
                entries,
                size: bytes.len(),
            })),
        }
    }

    /// Writes a message. The bytes up to the first `=` are a key, and the rest is its value, which is put, where the
    /// encoding stays within its limit; a message without `=` removes its key; one with an empty key changes nothing.
    /// It answers whether anything changed.
    pub fn write(&mut self, alloc: Global, message: &[u8]) -> Result<bool, NoMemory>
        requires { AreShort message.now }
        ensures ok { OnOk result (self.new ≡ written message.now self.old) }
        ensures changed { IfOk result (λ changed. IsTrue changed ↔ (self.new ≢ self.old)) }
        ensures err { OnErr result (self.new ≡ self.old) }
    {
        match write(&mut self.entries, alloc, self.size, message)? {
            None => Ok(false),
            Some(size) => {
                self.size = size;
                Ok(true)
            }
        }
    }
}
