//! What a joiner keeps of one sender: the newest message that came, as far as it came.
ghost use Rattle.std.specs.Prelude.{◌≡◌, ◌≤◌, ℕ, List, [], length, false, None, Some, OnOk, OnErr, IfOk, option_map};
ghost use Rattle.piece_link.specs.Joining.{first_taken, has_part, is_newer, is_same, kept_taken, opened, whole_of, with_part, with_piece};

use crate::piece::PieceHead;
use crate::slots::{Place, Slots};
use rsct_packet::NoMemory;
use std::alloc::Global;
use std::marker::Model;
use std::mem;

/// The data of the pieces that came, by their indices. They stand one after the other as they came, each copied once,
/// and the slot of its index says where. Memory is taken as they come: what a piece claims of the count of its
/// message's pieces costs nothing, and its own index at most a page of slots and a row for each page before it, 12 KiB
/// in all.
#[derive(Drop)]
pub struct Parts {
    slots: Slots,
    bytes: Vec<u8>,
    len: usize,
    // One past the greatest index that came.
    end: usize,
    // Came each after all that are of lesser indices?
    in_order: bool,
}

impl Model for Parts {
    ghost use Rattle.std.specs.Prelude.{ℕ, List};

    ghost Value = { List (ℕ × List ℕ) };

    ghost use Rattle.piece_link.specs.Slots.{parts_below, text_at, AreHeld};

    ghost view = { λ p. parts_below p.end (text_at p.slots p.bytes.items) };

    ghost invariant = { λ p. AreHeld p.slots p.bytes.items p.len p.end p.in_order };
}

impl Parts {
    #[tactic(auto, unfolding(crate::specs::Slots::parts_below, crate::specs::Slots::joined_below))]
    fn new(alloc: Global) -> Parts
        ensures { result ≡ [] }
    {
        Parts {
            slots: Slots::new(alloc),
            bytes: Vec::new(alloc),
            len: 0,
            end: 0,
            in_order: true,
        }
    }

    fn len(&self) -> usize
        ensures value { result ≡ length self.now }
        ensures most { result ≤ 4294967296 }
    {
        self.len
    }

    /// Did the piece of this index come?
    fn has(&self, index: u32) -> bool
        ensures { result ≡ has_part self.now index }
    {
        let at = index as usize;
        at < self.end && self.slots.get(at).is_some()
    }

    /// Adds the data of a piece that had not come.
    fn insert(&mut self, alloc: Global, index: u32, text: &[u8]) -> Result<(), NoMemory>
        requires { has_part self.old index ≡ false }
        ensures ok { OnOk result (self.new ≡ with_part self.old index text.now) }
        ensures err { OnErr result (self.new ≡ self.old) }
    {
        let at = index as usize;
        self.slots.make(alloc, at)?;
        let start = self.bytes.len();
        self.bytes.extend_from_slice(text)?;
        let end = self.bytes.len();
        self.slots.put(at, Place { start, end });
        self.in_order = self.in_order && self.end <= at;
        self.end = self.end.max(at + 1);
        self.len += 1;
        Ok(())
    }

    /// The message, whose last missing piece has these data. Where the pieces came in the order of their indices their
    /// data are handed over as they stand, and nothing is kept; else they are put together.
    fn finish(&mut self, alloc: Global, index: u32, text: &[u8]) -> Result<Vec<u8>, NoMemory>
        requires { has_part self.old index ≡ false }
        ensures ok { IfOk result (λ m. m.items ≡ whole_of (with_part self.old index text.now)) }
        ensures err { OnErr result (self.new ≡ self.old) }
    {
        let at = index as usize;
        if !self.in_order || at < self.end {
            return self.put_together(alloc, index, text);
        }
        self.bytes.extend_from_slice(text)?;
        let message = mem::replace(&mut self.bytes, Vec::new(alloc));
        *self = Parts::new(alloc);
        Ok(message)
    }

    /// All data in the order of the indices, with these of a piece that had not come.
    fn put_together(&self, alloc: Global, index: u32, text: &[u8]) -> Result<Vec<u8>, NoMemory>
        requires { has_part self.now index ≡ false }
        ensures { IfOk result (λ m. m.items ≡ whole_of (with_part self.now index text.now)) }
    {
        let at = index as usize;
        let room = self.bytes.len().saturating_add(text.len());
        let mut message = Vec::with_capacity(alloc, room)?;
        for i in 0..self.end.max(at + 1) {
            if i == at {
                message.extend_from_slice(text)?;
            } else if let Some(place) = self.slots.get(i) {
                message.extend_from_slice(&self.bytes[place.start..place.end])?;
            }
        }
        Ok(message)
    }
}

/// A sender's newest message: which it is, how many pieces it has, and those that came; None once it was answered.
#[derive(Drop)]
pub struct Kept {
    pub sender: u8,
    pub incarnation: u32,
    pub number: u64,
    pub count: u32,
    pub parts: Option<Parts>,
}

impl Kept {
    /// A message of which nothing came.
    fn open(alloc: Global, head: &PieceHead) -> Kept
        ensures { result ≡ opened head.now }
    {
        Kept {
            sender: head.sender,
            incarnation: head.incarnation,
            number: head.number,
            count: head.count,
            parts: Some(Parts::new(alloc)),
        }
    }

    /// What is kept once this piece came first, and the message, where it is the only piece: that one is copied once.
    #[tactic(auto, using(crate::proofs::PartLaws::only_piece))]
    pub(crate) fn begin(
        alloc: Global,
        head: &PieceHead,
        text: &[u8],
    ) -> Result<(Kept, Option<Vec<u8>>), NoMemory>
        ensures { IfOk result (λ x.
            (x.0, option_map (λ v. v.items) x.1) ≡ first_taken head.now text.now) }
    {
        let mut kept = Kept::open(alloc, head);
        if head.count == 1 {
            let message = Vec::from_slice(alloc, text)?;
            kept.parts = None;
            return Ok((kept, Some(message)));
        }
        let message = kept.put(alloc, head.index, text)?;
        Ok((kept, message))
    }

    /// Takes the data of one more piece, and answers the message where it was the last missing one.
    fn put(&mut self, alloc: Global, index: u32, text: &[u8]) -> Result<Option<Vec<u8>>, NoMemory>
        ensures ok { IfOk result (λ m.
            (self.new, option_map (λ v. v.items) m) ≡ with_piece self.old index text.now) }
        ensures err { OnErr result (self.new ≡ self.old) }
    {
        let Some(parts) = &mut self.parts else {
            return Ok(None);
        };
        if parts.has(index) {
            return Ok(None);
        }
        if parts.len() + 1 != self.count as usize {
            parts.insert(alloc, index, text)?;
            return Ok(None);
        }
        let message = parts.finish(alloc, index, text)?;
        self.parts = None;
        Ok(Some(message))
    }

    /// Takes a piece of the sender: of a newer message it takes the place of what was kept, of the kept one it is one
    /// more, and any other changes nothing. Answers the message where it was the last missing one.
    pub(crate) fn take(
        &mut self,
        alloc: Global,
        head: &PieceHead,
        text: &[u8],
    ) -> Result<Option<Vec<u8>>, NoMemory>
        ensures ok { IfOk result (λ m.
            (self.new, option_map (λ v. v.items) m) ≡ kept_taken self.old head.now text.now) }
        ensures err { OnErr result (self.new ≡ self.old) }
    {
        if self.is_before(head) {
            let (newer, message) = Kept::begin(alloc, head, text)?;
            *self = newer;
            return Ok(message);
        }
        if self.is_of(head) {
            return self.put(alloc, head.index, text);
        }
        Ok(None)
    }

    /// Is the piece of a message after this one?
    fn is_before(&self, head: &PieceHead) -> bool
        ensures { result ≡ is_newer head.now self.now }
    {
        self.incarnation < head.incarnation
            || self.incarnation == head.incarnation && self.number < head.number
    }

    /// Is the piece of this message, and of as many pieces?
    fn is_of(&self, head: &PieceHead) -> bool
        ensures { result ≡ is_same head.now self.now }
    {
        self.incarnation == head.incarnation
            && self.number == head.number
            && self.count == head.count
    }
}
