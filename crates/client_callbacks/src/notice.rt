//! Notices and callbacks.
ghost use Rattle.std.specs.Prelude.{◌≡◌, ◌++◌, ◌∷◌, [], List, Option, None, OnOk, IfOk, MatchOption};
ghost use Rattle.std.specs.Option.{ForSome};
ghost use Rattle.client_callbacks.specs.declared.votes.VoteItem.{VoteItem};
ghost use Rattle.client_callbacks.specs.Ballots.{new_ballot};
ghost use Rattle.client_callbacks.specs.Handed.{Handed, Notified, Informed, notice_of, Fills};
ghost use Rattle.client_callbacks.specs.Votes.{votes_word};

use crate::ballot::Ballot;
use crate::told::Told;
use proposal_core::{Entry, GroupState};
use rsct_packet::{NoMemory, ProviderId, ViewId};
use std::alloc::Global;

/// What a client is handed for its provider `p`: an entry of the group's list at this place of this view, the
/// state after it, and whether the provider may vote now.
#[derive(Clone, Copy)]
pub struct Notice<'a> {
    pub provider: ProviderId,
    pub view: ViewId,
    pub group: &'a [u8],
    pub place: u32,
    pub entry: &'a Entry,
    pub after: &'a GroupState,
    pub votes: bool,
}

/// A client: an object that is handed notices, which it may answer with a vote, and that is told what becomes
/// of its requests and subscriptions. After `NoMemory` nothing is said of the object.
pub trait Callbacks: Drop {
    /// It was handed these, in this order, and filled these ballots. An object need not keep them.
    ghost stands_for: { Self → List Handed → Type 0 };

    /// The items that say how it votes in each phase, where it votes by such items.
    ghost script: { Self → Option (List (Option VoteItem)) };

    /// Hands it a notice, with a ballot to fill. What it stands for then tells the notice with what the ballot is
    /// filled with, or that it is not filled. That is promised of a new ballot alone, which asks for a vote where the
    /// notice has `votes` true: who hands a filled one on is promised nothing of what the object stands for.
    fn notice(&mut self, notice: &Notice<'_>, ballot: &mut Ballot) -> Result<(), NoMemory>
        ensures stands { (h : List Handed) → stands_for self.old h
            → (ballot.old ≡ new_ballot notice.now.votes ballot.old.level)
            → OnOk result (stands_for self.new (h ++ Notified (notice_of notice.now)
            ballot.new.filled ∷ [])) }
        ensures script { OnOk result (script self.new ≡ script self.old) }
        ensures fills { OnOk result
            (Fills (script self.old) notice.now.after.now ballot.old ballot.new) }
        ensures ballot { (ballot.new.votes ≡ ballot.old.votes)
            × (ballot.new.level ≡ ballot.old.level) };

    /// Tells it something.
    fn told(&mut self, told: &Told) -> Result<(), NoMemory>
        ensures stands { (h : List Handed) → stands_for self.old h
            → OnOk result (stands_for self.new (h ++ Informed told.now ∷ [])) }
        ensures script { OnOk result (script self.new ≡ script self.old) };
}

/// Clients that are made of a votes word.
pub trait Made: Callbacks + Sized {
    /// The items by which the client votes that is made of these.
    ghost script_of: { List (Option VoteItem) → Option (List (Option VoteItem)) };

    /// A client of this votes word, which was handed nothing; `Ok(None)` exactly where it is `boxed` or no votes
    /// word.
    fn made(alloc: Global, votes: &[u8]) -> Result<Option<Self>, NoMemory>
        ensures { IfOk result (λ o. MatchOption o (votes_word votes.now ≡ None)
            (λ c. Self.stands_for c [] × ForSome (votes_word votes.now)
            (λ items. Self.script c ≡ script_of items))) };
}
