//! A group's list.
ghost use Rattle.std.specs.Prelude.{◌≡◌, ◌≤◌, ◌<◌, ◌↔◌, ◌+◌, IfOk, OnErr, IsSome, IsTrue, drop, option_copied};
ghost use Rattle.proposal_core.specs.Fold.{fits, joiners_fit};
ghost use Rattle.proposal_core.specs.GroupView.{new_list};
ghost use Rattle.proposal_core.specs.Lists.{has_room, with_entry, forgotten, entry_at};

use crate::entry::Entry;
use crate::group_state::GroupState;
use rsct_packet::{NoMemory, ViewId};
use std::alloc::Global;
use std::collections::VecDeque;
use std::marker::Model;

/// A group's list in one view: the entries from `start` on, and the state at its end. `len` and `bytes` count
/// the forgotten entries as well.
pub struct GroupList {
    start: u32,
    bytes: u32,
    entries: VecDeque<Entry>,
    state: GroupState,
}

impl Model for GroupList {
    ghost use Rattle.std.specs.Prelude.{◌+◌, ◌<◌, ◌^◌, IsTrue, length};
    ghost use Rattle.proposal_core.specs.Fold.{joiners_fit};
    ghost use Rattle.proposal_core.specs.GroupView.{GroupView};

    ghost Value = { GroupView };

    ghost view = { λ g. record { start = g.start; len = g.start + length g.entries.items; bytes = g.bytes; state = g.state; entries = g.entries.items } };

    ghost invariant = { λ g. (g.start + length g.entries.items < 2 ^ 32) × IsTrue (joiners_fit g.state) };
}

// Written out: a drop is one call then, whose proof is made once.
impl Drop for GroupList {
    fn drop(self) {
        let GroupList {
            start: _,
            bytes: _,
            entries: _entries,
            state: _state,
        } = self;
    }
}

/// Lets the first entries go.
fn drop_front(entries: &mut VecDeque<Entry>, count: u32)
    ensures { entries.new.items ≡ drop count entries.old.items }
{
    for i in 0..count {
        let _ = entries.pop_front();
    }
}

impl GroupList {
    /// The list that begins at this base, at the start of a view.
    pub fn new(alloc: Global, base: GroupState) -> GroupList
        requires { IsTrue (joiners_fit base) }
        ensures { result ≡ new_list base }
    {
        GroupList {
            start: 0,
            bytes: 0,
            entries: VecDeque::new(alloc),
            state: base,
        }
    }

    /// How many entries were put, the forgotten ones included.
    pub fn len(&self) -> u32
        ensures { result ≡ self.now.len }
    {
        self.start + self.entries.len() as u32
    }

    /// The place of the first entry that is kept.
    pub fn start(&self) -> u32
        ensures value { result ≡ self.now.start }
        ensures within { result ≤ self.now.len }
    {
        self.start
    }

    /// How many bytes the spellings of all entries have that were put.
    pub fn bytes(&self) -> u32
        ensures { result ≡ self.now.bytes }
    {
        self.bytes
    }

    /// The state at the end of the list.
    pub fn state(&self) -> &GroupState
        ensures value { result.now ≡ self.now.state }
        ensures joiners { IsTrue (joiners_fit self.now.state) }
    {
        &self.state
    }

    /// The entry at a place; None exactly where that is below `start` or not below `len`.
    #[tactic(auto, unfolding(crate::specs::Lists::entry_at))]
    pub fn get(&self, place: u32) -> Option<&Entry>
        ensures value { option_copied result ≡ entry_at self.now place }
        ensures some { IsSome result ↔ ((self.now.start ≤ place) × (place < self.now.len)) }
    {
        if place < self.start {
            return None;
        }
        self.entries.get((place - self.start) as usize)
    }

    /// Do the counts stay within their types with this entry?
    #[tactic(auto, unfolding(crate::specs::Lists::has_room))]
    pub fn has_room(&self, entry: &Entry) -> bool
        ensures { result ≡ has_room self.now entry.now }
    {
        match entry.len() {
            None => false,
            Some(n) => self.len() < u32::MAX && n <= u32::MAX - self.bytes,
        }
    }

    /// Puts an entry at the end and answers its place. Of the list and of its state nothing is copied. Want
    /// of memory leaves all as it was.
    #[tactic(auto, unfolding(crate::specs::Lists::has_room, crate::specs::Lists::with_entry), using(crate::proofs::ListLaws::after_fits, std::proofs::lemmas::Grind::common_steps))]
    pub fn put(&mut self, alloc: Global, view: ViewId, entry: Entry) -> Result<u32, NoMemory>
        requires fits { IsTrue (fits self.old.state entry) }
        requires room { IsTrue (has_room self.old entry) }
        ensures place { IfOk result (λ i. i ≡ self.old.len) }
        ensures ok { IfOk result (λ _. self.new ≡ with_entry self.old view entry) }
        ensures err { OnErr result (self.new ≡ self.old) }
    {
        let place = self.start + self.entries.len() as u32;
        let bytes = self.bytes + entry.len().unwrap();
        self.entries.reserve(1)?;
        self.state.apply(alloc, view, place, &entry)?;
        self.entries.push_back_reserved(entry);
        self.bytes = bytes;
        Ok(place)
    }

    /// Lets the entries below a place go. The length, the bytes and the state stay.
    #[tactic(auto, unfolding(crate::specs::Lists::forgotten))]
    pub fn forget_below(&mut self, place: u32)
        requires { place ≤ self.old.len }
        ensures { self.new ≡ forgotten self.old place }
    {
        if place > self.start {
            drop_front(&mut self.entries, place - self.start);
            self.start = place;
        }
    }
}
