//! What a coordinator installs.
ghost use Rattle.std.specs.Prelude.{◌≡◌};
ghost use Rattle.view_state.specs.Parts.{part_len};

use proposal_core::{Entry, GroupState};
use rsct_packet::{List, Mask, Members, Name, ViewId};

/// A group's list as one node has it: the entries from `start` on, and the state at the list's end.
pub struct Part {
    pub name: Name,
    pub start: u32,
    pub state: GroupState,
    pub entries: List<Entry>,
}

// Written out: a drop is one call then, whose proof is made once.
impl Drop for Part {
    fn drop(self) {
        let Part {
            name: _name,
            start: _,
            state: _state,
            entries: _entries,
        } = self;
    }
}

impl Part {
    /// The length of the list that it is of.
    pub fn len(&self) -> u128
        ensures { result ≡ part_len self.now }
    {
        self.start as u128 + self.entries.len() as u128
    }
}

/// Parts in name order, whose names differ.
pub type Parts = List<Part>;

/// The nodes that come from one old view, and the longest list of each group among theirs.
pub struct Source {
    pub view: ViewId,
    pub nodes: Mask,
    pub parts: Parts,
}

impl Drop for Source {
    fn drop(self) {
        let Source {
            view: _,
            nodes: _,
            parts: _parts,
        } = self;
    }
}

/// Sources ascending by view.
pub type Sources = List<Source>;

/// A view that is to be entered: its members, and the lists that they bring.
pub struct Install {
    pub view: ViewId,
    pub members: Members,
    pub sources: Sources,
}

impl Drop for Install {
    fn drop(self) {
        let Install {
            view: _,
            members: _members,
            sources: _sources,
        } = self;
    }
}

/// What a group begins with in a new view: the state that its winning side brings, the view and the length of that
/// side's list, and the node that leads it.
pub struct Base {
    pub name: Name,
    pub state: GroupState,
    pub from: ViewId,
    pub len: u32,
    pub leader: u8,
}

impl Drop for Base {
    fn drop(self) {
        let Base {
            name: _name,
            state: _state,
            from: _,
            len: _,
            leader: _,
        } = self;
    }
}
