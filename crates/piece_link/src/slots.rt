//! Where the data of pieces stand: a slot for each index, in pages that grow to the slots that are filled.
ghost use Rattle.std.specs.Prelude.{◌≡◌, ◌≢◌, ℕ, OnOk, None, Some};
ghost use Rattle.piece_link.specs.Slots.{slot_at, HasSlot};

use rsct_packet::NoMemory;
use std::alloc::Global;

/// How many slots a page has at most: 6 KiB of them.
const PAGE_SIZE: usize = 256;

/// Data from `start` up to `end`, which is past their last byte.
#[derive(Clone, Copy)]
pub struct Place {
    pub start: usize,
    pub end: usize,
}

/// Slots by index, each empty or with a place. A page has slots as far as one of it was made; past its end they are
/// empty.
#[derive(Drop)]
pub struct Slots {
    pages: Vec<Vec<Option<Place>>>,
}

impl Slots {
    #[tactic(auto, unfolding(crate::specs::Slots::slot_at))]
    pub(crate) fn new(alloc: Global) -> Slots
        ensures { (i : ℕ) → slot_at result i ≡ None }
    {
        Slots {
            pages: Vec::new(alloc),
        }
    }

    /// The place in the slot.
    pub(crate) fn get(&self, index: usize) -> Option<Place>
        ensures { result ≡ slot_at self.now index }
    {
        let page = self.pages.get(index / PAGE_SIZE)?;
        let slot = page.get(index % PAGE_SIZE)?;
        *slot
    }

    /// Makes the slot, where it was not made. Where memory has run out, no slot has changed.
    pub(crate) fn make(&mut self, alloc: Global, index: usize) -> Result<(), NoMemory>
        ensures made { OnOk result (HasSlot self.new index) }
        ensures same { (i : ℕ) → slot_at self.new i ≡ slot_at self.old i }
    {
        let at = index / PAGE_SIZE;
        for _ in self.pages.len()..at + 1 {
            self.pages.push(Vec::new(alloc))?;
        }
        let page = &mut self.pages[at];
        let room = index % PAGE_SIZE + 1;
        if page.len() < room {
            page.resize(room, None)?;
        }
        Ok(())
    }

    /// Puts a place into a slot that was made.
    pub(crate) fn put(&mut self, index: usize, place: Place)
        requires { HasSlot self.old index }
        ensures put { slot_at self.new index ≡ Some place }
        ensures others { (i : ℕ) → i ≢ index → slot_at self.new i ≡ slot_at self.old i }
    {
        let page = &mut self.pages[index / PAGE_SIZE];
        page[index % PAGE_SIZE] = Some(place);
    }
}
