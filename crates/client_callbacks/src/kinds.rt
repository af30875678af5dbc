//! Kinds of clients.
ghost use Rattle.std.specs.Prelude.{◌≡◌, ◌∷◌, ◌++◌, [], List, Option, Some, None, true, false, is_none, OnOk, IfOk};
ghost use Rattle.std.specs.Option.{option_map};
ghost use Rattle.proposal_core.specs.declared.entry.Vote.TheVariants.{Approve};
ghost use Rattle.client_callbacks.specs.declared.votes.VoteItem.{VoteItem};
ghost use Rattle.client_callbacks.specs.Handed.{Handed, steady_items, phase_in};
ghost use Rattle.client_callbacks.specs.Votes.{votes_word};
ghost use Rattle.client_callbacks.specs.Kinds.{ForDaemon, script_in};

use crate::ballot::Ballot;
use crate::notice::{Callbacks, Made, Notice};
use crate::told::Told;
use crate::votes::{VoteItem, item_at, votes_word};
use proposal_core::{GroupState, Vote};
use rsct_packet::{List, NoMemory};
use std::alloc::Global;

/// The phase that runs, 0 where nothing does.
fn phase_of(after: &GroupState) -> u16
    ensures { result ≡ phase_in after.now.running }
{
    match &after.running {
        None => 0,
        Some(run) => run.phase,
    }
}

/// A client that votes as a votes word says.
#[derive(Drop)]
pub struct ScriptClient {
    alloc: Global,
    items: List<Option<VoteItem>>,
}

impl ScriptClient {
    /// The client of a votes word; `Ok(None)` exactly where it is `boxed` or no votes word.
    pub fn new(alloc: Global, votes: &[u8]) -> Result<Option<ScriptClient>, NoMemory>
        ensures { IfOk result (λ c. option_map (λ c. c.items) c ≡ votes_word votes.now) }
    {
        match votes_word(alloc, votes)? {
            None => Ok(None),
            Some(items) => Ok(Some(ScriptClient { alloc, items })),
        }
    }
}

impl Callbacks for ScriptClient {
    ghost stands_for = { λ c h. Unit {0} };

    ghost script = { λ c. Some c.items };

    #[tactic(auto, unfolding(crate::specs::Handed::voted_by, crate::specs::Handed::filled_by))]
    fn notice(&mut self, notice: &Notice<'_>, ballot: &mut Ballot) -> Result<(), NoMemory> {
        if let Some(i) = item_at(self.items.as_slice(), phase_of(notice.after)) {
            let value = i.value.as_ref().map(|v| v.as_slice());
            ballot.set(self.alloc, i.vote, value, None)?;
        }
        Ok(())
    }

    fn told(&mut self, _t: &Told) -> Result<(), NoMemory> {
        Ok(())
    }
}

impl Made for ScriptClient {
    ghost script_of = { λ items. Some items };

    fn made(alloc: Global, votes: &[u8]) -> Result<Option<ScriptClient>, NoMemory> {
        ScriptClient::new(alloc, votes)
    }
}

/// A client that approves wherever a vote is asked for.
#[derive(Drop)]
pub struct SteadyClient {
    pub alloc: Global,
}

impl Callbacks for SteadyClient {
    ghost stands_for = { λ c h. Unit {0} };

    ghost script = { λ c. Some steady_items };

    #[tactic(auto, unfolding(crate::specs::Handed::voted_by, crate::specs::Handed::filled_by, crate::specs::Handed::item_at))]
    fn notice(&mut self, _n: &Notice<'_>, ballot: &mut Ballot) -> Result<(), NoMemory> {
        ballot.set(self.alloc, Vote::Approve, None, None)?;
        Ok(())
    }

    fn told(&mut self, _t: &Told) -> Result<(), NoMemory> {
        Ok(())
    }
}

/// A client that is an object of someone else's.
#[derive(Drop)]
pub struct BoxedClient {
    pub inner: Box<dyn Callbacks>,
}

impl Callbacks for BoxedClient {
    ghost stands_for = { λ b h. (Callbacks-box b.inner).stands_for b.inner.value h };

    ghost script = { λ b. (Callbacks-box b.inner).script b.inner.value };

    fn notice(&mut self, notice: &Notice<'_>, ballot: &mut Ballot) -> Result<(), NoMemory> {
        self.inner.notice(notice, ballot)
    }

    fn told(&mut self, told: &Told) -> Result<(), NoMemory> {
        self.inner.told(told)
    }
}

/// A client of a daemon: one that a votes word says, or an object that was handed in. Its script is none exactly at
/// an object: since no call changes the script, no call makes the one kind of client into the other.
#[derive(Drop)]
pub enum DaemonClient {
    Script(ScriptClient),
    Boxed(BoxedClient),
}

impl DaemonClient {
    /// Is it an object that was handed in?
    pub fn is_boxed(&self) -> bool
        ensures value { result ≡ script_in (λ (c : _). false) (λ (b : _). true) self.now }
        ensures script { result ≡ is_none (script_in (λ (c : _). Some c.items) (λ (b : _). None)
            self.now) }
    {
        match self {
            DaemonClient::Script(_) => false,
            DaemonClient::Boxed(_) => true,
        }
    }
}

impl Callbacks for DaemonClient {
    ghost stands_for = { λ d h. ForDaemon (λ (c : _). Unit {0}) (λ (b : _). (Callbacks-box b.inner).stands_for b.inner.value h) d };

    ghost script = { λ d. script_in (λ (c : _). Some c.items) (λ (b : _). None) d };

    fn notice(&mut self, notice: &Notice<'_>, ballot: &mut Ballot) -> Result<(), NoMemory> {
        match self {
            DaemonClient::Script(c) => c.notice(notice, ballot),
            DaemonClient::Boxed(x) => x.notice(notice, ballot),
        }
    }

    fn told(&mut self, told: &Told) -> Result<(), NoMemory> {
        match self {
            DaemonClient::Script(c) => c.told(told),
            DaemonClient::Boxed(x) => x.told(told),
        }
    }
}
