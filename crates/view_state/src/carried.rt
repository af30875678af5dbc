//! What an install tells of itself.
ghost use Rattle.std.specs.Prelude.{◌≡◌, find, option_copied};
ghost use Rattle.rsct_packet.specs.Mask.{has_node};
ghost use Rattle.rsct_packet.specs.Ids.{is_member};
ghost use Rattle.view_state.specs.Answers.{is_spelled, is_source_spelled};
ghost use Rattle.view_state.specs.Parts.{entry_of};
ghost use Rattle.view_state.specs.Carried.{carried_at, carried_len, carried_entry, came_from};
ghost use Rattle.view_state.specs.Codec.{has_member};
ghost use Rattle.view_state.specs.Bases.{source_at};

use crate::install::{Install, Part, Source};
use proposal_core::Entry;
use rsct_packet::{Members, ViewId};

/// How many parts an answer or a source has at most, and how many members or sources an install.
pub const MAX_PARTS: usize = 255;

impl Source {
    fn is_spelled(&self) -> bool
        ensures { result ≡ is_source_spelled self.now }
    {
        self.parts.len() <= MAX_PARTS
    }
}

impl Part {
    /// The entry of the list at a place; none below the start, and none from the length on.
    #[tactic(auto, unfolding(crate::specs::Parts::entry_of))]
    pub fn entry(&self, place: u32) -> Option<&Entry>
        ensures { option_copied result ≡ entry_of self.now place }
    {
        if place < self.start {
            return None;
        }
        self.entries.get((place - self.start) as usize)
    }
}

impl Install {
    /// The view that is to be entered.
    pub fn view(&self) -> ViewId
        ensures { result ≡ self.now.view }
    {
        self.view
    }

    pub fn members(&self) -> &Members
        ensures { result.now ≡ self.now.members }
    {
        &self.members
    }

    /// Is the node with this incarnation a member?
    pub fn has_member(&self, node: u8, inc: u32) -> bool
        ensures { result ≡ is_member self.now.members node inc }
    {
        self.members
            .as_slice()
            .iter()
            .any(|m| m.node == node && m.inc == inc)
    }

    /// Has each source at most 255 parts? An install with more has no spelling.
    #[tactic(auto, unfolding(crate::specs::Answers::is_spelled))]
    pub fn is_spelled(&self) -> bool
        ensures { result ≡ is_spelled self.now }
    {
        self.sources.as_slice().iter().all(|s| s.is_spelled())
    }

    #[tactic(auto, unfolding(crate::specs::Bases::source_at))]
    fn source(&self, view: ViewId) -> Option<&Source>
        ensures { option_copied result ≡ source_at self.now.sources view }
    {
        self.sources.as_slice().iter().find(|s| s.view == view)
    }

    /// The list of a group that is carried of an old view.
    #[tactic(auto, unfolding(crate::specs::Carried::carried_at, crate::specs::Bases::parts_from))]
    pub fn part(&self, view: ViewId, group: &[u8]) -> Option<&Part>
        ensures { option_copied result ≡ carried_at self.now view group.now }
    {
        let source = self.source(view)?;
        source
            .parts
            .as_slice()
            .iter()
            .find(|p| p.name.bytes() == group)
    }

    /// The length of the list of a group that is carried of an old view; none exactly where none is carried.
    #[tactic(auto, unfolding(crate::specs::Carried::carried_len))]
    pub fn len(&self, view: ViewId, group: &[u8]) -> Option<u128>
        ensures { result ≡ carried_len self.now view group.now }
    {
        Some(self.part(view, group)?.len())
    }

    /// The entry of that list at a place; none exactly where the install has none there.
    #[tactic(auto, unfolding(crate::specs::Carried::carried_entry))]
    pub fn entry(&self, view: ViewId, group: &[u8], place: u32) -> Option<&Entry>
        ensures { option_copied result ≡ carried_entry self.now view group.now place }
    {
        self.part(view, group)?.entry(place)
    }

    fn is_node(&self, node: u8) -> bool
        ensures { result ≡ has_member self.now.members node }
    {
        self.members.as_slice().iter().any(|m| m.node == node)
    }

    fn source_of(&self, node: u8) -> Option<&Source>
        ensures { option_copied result ≡ find (λ s. has_node s.nodes node) self.now.sources }
    {
        self.sources.as_slice().iter().find(|s| s.nodes.has(node))
    }

    /// The old view of a member; none of a node that is no member.
    #[tactic(auto, unfolding(crate::specs::Carried::came_from))]
    pub fn came_from(&self, node: u8) -> Option<ViewId>
        ensures { result ≡ came_from self.now node }
    {
        if !self.is_node(node) {
            return None;
        }
        match self.source_of(node) {
            None => None,
            Some(source) => Some(source.view),
        }
    }
}
