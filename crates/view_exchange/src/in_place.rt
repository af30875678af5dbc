//! Group parts as they stand in a datagram.
ghost use Rattle.std.specs.Prelude.{◌≡◌, ◌++◌, ◌∷◌, [], length, IfOk, IfNone, IfSome, slice_get, option_copied};
ghost use Rattle.std.specs.Option.{option_map};
ghost use Rattle.rsct_packet.specs.Reading.{Gives, many_at, guarded_at};
ghost use Rattle.rsct_packet.specs.Text.{IsName};
ghost use Rattle.proposal_core.specs.EntryCodec.{IsEntry};
ghost use Rattle.group_codec.specs.InPlace.{entry_in};
ghost use Rattle.view_state.specs.Codec.{sized_entry_at, group_part_at, IsPart, names_ascend, parts_at};
ghost use Rattle.view_state.specs.Parts.{part_len, entry_of};
ghost use Rattle.view_exchange.specs.InPlace.{part_in};

use group_codec::{EntryRef, StateRef, read_entry, read_state};
use proposal_core::Entry;
use rsct_packet::{List, Name, NoMemory, known, read_name, read_part, read_u8, read_u32};
use std::alloc::Global;
use std::marker::Model;
use view_state::{Part, Parts, is_after};

/// Entries in place, each behind its length.
#[derive(Drop)]
pub struct EntriesRef<'a> {
    count: usize,
    bytes: &'a [u8],
}

impl<'a> Model for EntriesRef<'a> {
    ghost use Rattle.std.specs.Prelude.{List, IsSome};
    ghost use Rattle.rsct_packet.specs.Reading.{many_at};
    ghost use Rattle.rsct_packet.specs.Listed.{items_in};
    ghost use Rattle.proposal_core.specs.declared.entry.Entry.{Entry};
    ghost use Rattle.view_state.specs.Codec.{sized_entry_at};

    ghost Value = { List Entry };

    ghost view = { λ s. items_in (many_at sized_entry_at s.count s.bytes.now) };

    ghost invariant = { λ s. IsSome (many_at sized_entry_at s.count s.bytes.now) };
}

/// A group part in place: the group's name, the place of its first entry, the state at the list's end, and the
/// entries from `start` on.
#[derive(Drop)]
pub struct PartRef<'a> {
    pub name: &'a [u8],
    pub start: u32,
    pub state: StateRef<'a>,
    pub entries: EntriesRef<'a>,
}

/// Group parts in place.
#[derive(Drop)]
pub struct PartsRef<'a> {
    count: usize,
    bytes: &'a [u8],
}

impl<'a> Model for PartsRef<'a> {
    ghost use Rattle.std.specs.Prelude.{List, IsSome};
    ghost use Rattle.rsct_packet.specs.Reading.{many_at};
    ghost use Rattle.rsct_packet.specs.Listed.{items_in};
    ghost use Rattle.view_state.specs.declared.install.Part.{Part};
    ghost use Rattle.view_state.specs.Codec.{group_part_at};

    ghost Value = { List Part };

    ghost view = { λ s. items_in (many_at group_part_at s.count s.bytes.now) };

    ghost invariant = { λ s. IsSome (many_at group_part_at s.count s.bytes.now) };
}

/// An entry behind its length.
#[tactic(auto, unfolding(view_state::specs::Codec::sized_entry_at))]
fn read_sized_entry(bytes: &[u8]) -> Option<(EntryRef<'_>, &[u8])>
    ensures value { option_map (λ x. (entry_in x.0, x.1.now)) result ≡ sized_entry_at bytes.now }
    ensures entry { IfSome result (λ x. IsEntry (entry_in x.0)) }
{
    let (n, bytes) = read_u32(bytes)?;
    let (text, bytes) = read_part(n as usize, bytes)?;
    let entry = read_entry(text)?;
    Some((entry, bytes))
}

/// So many entries, left where they stand.
#[tactic(auto, using(rsct_packet::proofs::ListedLaws::skip_search))]
fn read_entries(count: usize, bytes: &[u8]) -> Option<(EntriesRef<'_>, &[u8])>
    ensures { Gives result (many_at sized_entry_at count bytes.now) }
{
    let mut rest = bytes;
    for _i in 0..count {
        match read_sized_entry(rest) {
            None => return None,
            Some((_entry, after)) => rest = after,
        }
    }
    Some((EntriesRef { count, bytes }, rest))
}

impl<'a> EntriesRef<'a> {
    pub fn len(&self) -> usize
        ensures { result ≡ length self.now }
    {
        self.count
    }

    /// The same entries.
    fn copy(&self) -> EntriesRef<'a>
        ensures { result ≡ self.now }
    {
        EntriesRef {
            count: self.count,
            bytes: self.bytes,
        }
    }

    /// Takes the first one off.
    fn take_first(&mut self) -> Option<EntryRef<'a>>
        ensures none { IfNone result ((self.old ≡ []) × (self.new ≡ [])) }
        ensures some { IfSome result (λ e. self.old ≡ entry_in e ∷ self.new) }
        ensures entry { IfSome result (λ e. IsEntry (entry_in e)) }
    {
        if self.count == 0 {
            return None;
        }
        let (entry, rest) = read_sized_entry(self.bytes)?;
        self.count -= 1;
        self.bytes = rest;
        Some(entry)
    }

    /// The entry at this place, of which nothing is copied.
    #[tactic(auto, using(crate::proofs::Drops::dropped_one, crate::proofs::Drops::dropped_all, crate::proofs::Drops::got_one, crate::proofs::Drops::got_none))]
    pub fn get(&self, place: usize) -> Option<EntryRef<'a>>
        ensures { option_map (λ e. entry_in e) result ≡ slice_get self.now place }
    {
        let mut left = self.copy();
        for _k in 0..place {
            match left.take_first() {
                None => return None,
                Some(_entry) => {}
            }
        }
        left.take_first()
    }

    /// Entries of their own.
    pub fn own(&self, alloc: Global) -> Result<List<Entry>, NoMemory>
        ensures { IfOk result (λ l. l ≡ self.now) }
    {
        let mut out = List::new(alloc);
        let mut left = self.copy();
        while let Some(x) = left.take_first() {
            out.push(x.own(alloc)?)?;
        }
        Ok(out)
    }
}

#[tactic(auto, unfolding(view_state::specs::Codec::group_part_at))]
fn group_part_alone(bytes: &[u8]) -> Option<(PartRef<'_>, &[u8])>
    ensures { option_map (λ x. (part_in x.0, x.1.now)) result ≡ group_part_at bytes.now }
{
    let (name, bytes) = read_name(bytes)?;
    let (start, bytes) = read_u32(bytes)?;
    let (state, bytes) = read_state(bytes)?;
    let (count, bytes) = read_u32(bytes)?;
    let (entries, bytes) = read_entries(count as usize, bytes)?;
    if entries.len() > (u32::MAX - start) as usize {
        return None;
    }
    Some((
        PartRef {
            name,
            start,
            state,
            entries,
        },
        bytes,
    ))
}

/// A group part off the front of bytes, with the bytes after it.
#[tactic(auto, using(crate::proofs::Formats::part_fits))]
fn read_group_part(bytes: &[u8]) -> Option<(PartRef<'_>, &[u8])>
    ensures value { option_map (λ x. (part_in x.0, x.1.now)) result ≡ group_part_at bytes.now }
    ensures part { IfSome result (λ x. IsPart (part_in x.0)) }
{
    group_part_alone(known(bytes))
}

impl<'a> PartRef<'a> {
    /// The length of the list that it is of.
    pub fn len(&self) -> u128
        ensures { result ≡ part_len (part_in self.now) }
    {
        self.start as u128 + self.entries.len() as u128
    }

    /// The entry at a place of the list; None exactly where that is below `start` or not below the length. Nothing
    /// is copied.
    #[tactic(auto, unfolding(view_state::specs::Parts::entry_of))]
    pub fn entry(&self, place: u32) -> Option<EntryRef<'a>>
        ensures { option_map (λ e. entry_in e) result ≡ entry_of (part_in self.now) place }
    {
        if place < self.start {
            return None;
        }
        self.entries.get((place - self.start) as usize)
    }

    /// A part of its own.
    pub fn own(&self, alloc: Global) -> Result<Part, NoMemory>
        requires { IsName self.now.name.now }
        ensures { IfOk result (λ p. p ≡ part_in self.now) }
    {
        Ok(Part {
            name: Name::of_name(alloc, self.name)?,
            start: self.start,
            entries: self.entries.own(alloc)?,
            state: self.state.own(alloc)?,
        })
    }
}

/// So many group parts whose names ascend, left where they stand. Each is read once.
#[tactic(auto, using(crate::proofs::InOrder::leads_none))]
fn read_group_parts(count: usize, bytes: &[u8]) -> Option<(PartsRef<'_>, &[u8])>
    ensures { Gives result (guarded_at names_ascend (many_at group_part_at count) bytes.now) }
{
    let mut rest = bytes;
    let mut last: Option<&[u8]> = None;
    for _i in 0..count {
        let (part, after) = read_group_part(rest)?;
        if !is_after(last, part.name) {
            return None;
        }
        last = Some(part.name);
        rest = after;
    }
    Some((PartsRef { count, bytes }, rest))
}

impl<'a> PartsRef<'a> {
    pub fn len(&self) -> usize
        ensures { result ≡ length self.now }
    {
        self.count
    }

    /// The same parts.
    pub fn copy(&self) -> PartsRef<'a>
        ensures { result ≡ self.now }
    {
        PartsRef {
            count: self.count,
            bytes: self.bytes,
        }
    }

    /// Takes the first one off. Nothing is copied.
    pub fn take_first(&mut self) -> Option<PartRef<'a>>
        ensures none { IfNone result ((self.old ≡ []) × (self.new ≡ [])) }
        ensures some { IfSome result (λ p. self.old ≡ part_in p ∷ self.new) }
        ensures part { IfSome result (λ p. IsPart (part_in p)) }
    {
        if self.count == 0 {
            return None;
        }
        let (part, rest) = read_group_part(self.bytes)?;
        self.count -= 1;
        self.bytes = rest;
        Some(part)
    }

    /// Parts of their own.
    pub fn own(&self, alloc: Global) -> Result<Parts, NoMemory>
        ensures { IfOk result (λ l. l ≡ self.now) }
    {
        let mut out = List::new(alloc);
        let mut left = self.copy();
        while let Some(x) = left.take_first() {
            out.push(x.own(alloc)?)?;
        }
        Ok(out)
    }
}

/// Group parts in name order, off the front of bytes, with the bytes after them.
#[tactic(auto, unfolding(view_state::specs::Codec::parts_at))]
pub fn read_parts(bytes: &[u8]) -> Option<(PartsRef<'_>, &[u8])>
    ensures { Gives result (parts_at bytes.now) }
{
    let (count, bytes) = read_u8(bytes)?;
    read_group_parts(count as usize, bytes)
}
