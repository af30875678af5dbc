//! What a node knows of views.
ghost use Rattle.std.specs.Prelude.{◌≡◌, ◌++◌, ◌∷◌, [], drop, OnOk};
ghost use Rattle.view_state.specs.Views.{is_frozen, is_coordinator, is_stuck, views_new, views_entered};

use crate::exchange::Exchange;
use crate::install::Install;
use crate::packet::ViewSends;
use rsct_packet::{List, Mask, Members, NoMemory, ViewId};
use std::alloc::Global;

/// What a node of this number and incarnation knows of views: the one that it is in and its members; the one that
/// it promised, which is never less; the greatest number refused to it; the gathering for a view of its own, if
/// one is under way; the install of the view where the node is its coordinator, and who has taken it; and whether
/// the node was stuck at each of the last three ticks, the latest last.
pub struct Views {
    pub me: u8,
    pub inc: u32,
    pub view: ViewId,
    pub members: Members,
    pub promise: ViewId,
    pub floor: u32,
    pub gathering: Option<Exchange>,
    pub install: Option<Install>,
    pub taken: Mask,
    pub stuck: [bool; 3],
}

// Written out: a drop is one call then, whose proof is made once.
impl Drop for Views {
    fn drop(self) {
        let Views {
            me: _,
            inc: _,
            view: _,
            members: _members,
            promise: _,
            floor: _,
            gathering: _gathering,
            install: _install,
            taken: _,
            stuck: _stuck,
        } = self;
    }
}

impl Views {
    /// A node of this number and incarnation that starts in a view with these members.
    #[tactic(auto, unfolding(crate::specs::Views::views_new))]
    pub fn new(me: u8, inc: u32, view: ViewId, members: Members) -> Views
        ensures { result ≡ views_new me inc view members }
    {
        Views {
            me,
            inc,
            view,
            members,
            promise: view,
            floor: 0,
            gathering: None,
            install: None,
            taken: Mask::empty(),
            stuck: [false, false, false],
        }
    }

    /// The view that the node is in.
    pub fn current(&self) -> ViewId
        ensures { result ≡ self.now.view }
    {
        self.view
    }

    pub fn members(&self) -> &Members
        ensures { result.now ≡ self.now.members }
    {
        &self.members
    }

    /// The greatest view that the node has promised.
    pub fn promise(&self) -> ViewId
        ensures { result ≡ self.now.promise }
    {
        self.promise
    }

    /// Is a view promised that the node has not entered?
    #[tactic(auto, unfolding(crate::specs::Views::is_frozen))]
    pub fn frozen(&self) -> bool
        ensures { result ≡ is_frozen self.now }
    {
        self.promise != self.view
    }

    /// Is it frozen without a gathering?
    #[tactic(auto, unfolding(crate::specs::Views::is_stuck))]
    pub fn is_stuck(&self) -> bool
        ensures { result ≡ is_stuck self.now }
    {
        self.frozen() && self.gathering.is_none()
    }

    /// Notes for this tick whether it is stuck, and forgets it of the tick three before.
    pub fn note_stuck(&mut self)
        ensures { self.new ≡ record self.old {
          stuck = drop 1 self.old.stuck
              ++ is_stuck self.old ∷ [];
        } }
    {
        let stuck = self.is_stuck();
        let [_, second, third] = self.stuck;
        self.stuck = [second, third, stuck];
    }

    #[tactic(auto, unfolding(crate::specs::Views::is_coordinator))]
    pub fn is_coordinator(&self) -> bool
        ensures { result ≡ is_coordinator self.now }
    {
        self.view.coord == self.me && self.view.inc == self.inc
    }

    /// Enters the view of an install. Its coordinator keeps the install, and has taken it.
    #[tactic(auto, unfolding(crate::specs::Views::views_entered, crate::specs::Views::own_install))]
    pub fn enter(&mut self, alloc: Global, install: Install) -> Result<(), NoMemory>
        ensures { OnOk result (self.new ≡ views_entered self.old install) }
    {
        self.members = List::of(alloc, install.members.as_slice())?;
        self.view = install.view;
        self.promise = install.view;
        self.gathering = None;
        self.taken = Mask::empty().with(self.me);
        self.install = if install.view.coord == self.me && install.view.inc == self.inc {
            Some(install)
        } else {
            None
        };
        Ok(())
    }
}

/// What a tick says of the rings: the nodes reached, whether the node is the least of them, and whether a view of
/// them is due, since they are not the members or a list is long.
#[derive(Clone, Copy, Debug, PartialEq, Eq)]
pub struct RingAsk {
    pub mask: Mask,
    pub is_least: bool,
    pub is_due: bool,
}

/// Views in the middle of a step, with what was sent, and the install that is to be applied, if any.
#[derive(Drop)]
pub struct ViewWork {
    pub views: Views,
    pub sends: ViewSends,
    pub install: Option<Install>,
}
