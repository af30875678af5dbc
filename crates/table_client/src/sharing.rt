//! How a client votes, and what it hands on with its vote.
ghost use Rattle.std.specs.Prelude.{◌≡◌, ◌-◌, IfOk, OnOk, None, option_copied};
ghost use Rattle.proposal_core.specs.declared.entry.Vote.TheVariants.{Approve};
ghost use Rattle.client_callbacks.specs.Ballots.{new_ballot};
ghost use Rattle.client_callbacks.specs.Handed.{notice_of, phase_in};
ghost use Rattle.table_client.specs.Rules.{filling, others_join, sharing, vote_for, filled_from};

use crate::copies::Kept;
use agreed_table::Table;
use client_callbacks::{Ballot, Notice};
use proposal_core::{Running, Vote};
use rsct_packet::{NoMemory, ProviderId, is_among};
use std::alloc::Global;
use std::marker::Model;

/// A vote, and the message that goes with it.
#[derive(Drop)]
struct Answer {
    vote: Vote,
    message: Option<Vec<u8>>,
}

impl Model for Answer {
    ghost use Rattle.std.specs.Option.{option_map};
    ghost use Rattle.client_callbacks.specs.declared.ballot.Filled.{Filled};
    ghost use Rattle.table_client.specs.Rules.{filling};

    ghost Value = { Filled };

    ghost view = { λ a. filling a.vote (option_map (λ m. m.items) a.message) };
}

impl Answer {
    /// Approves, and says nothing.
    fn plain() -> Answer
        ensures { result ≡ filling Approve None }
    {
        Answer {
            vote: Vote::Approve,
            message: None,
        }
    }

    fn vote(&self) -> Vote
        ensures { result ≡ self.now.vote }
    {
        self.vote
    }

    fn message(&self) -> Option<&[u8]>
        ensures message { option_copied result ≡ self.now.message }
        ensures value { self.now.value ≡ None }
    {
        match &self.message {
            None => None,
            Some(message) => Some(message.as_slice()),
        }
    }
}

/// Does a join of others run?
fn do_others_join(provider: ProviderId, running: &Option<Running>) -> bool
    ensures { result ≡ others_join provider running.now }
{
    match running {
        None => false,
        Some(run) => {
            let joiners = run.proposal.joiners();
            !joiners.is_empty() && !is_among(joiners, provider)
        }
    }
}

/// The phase that runs, counted from 0; 0 too where nothing does.
fn phase_from_zero(running: &Option<Running>) -> u16
    ensures { result ≡ phase_in running.now - 1 }
{
    match running {
        None => 0,
        Some(run) => run.phase.saturating_sub(1),
    }
}

/// The chunk of this number of a whole map, with a vote that goes on where there is a chunk after it.
fn share(alloc: Global, number: u16, map: &Option<Table>) -> Result<Answer, NoMemory>
    ensures { IfOk result (λ answer. answer ≡ sharing number map.now) }
{
    let Some(map) = map else {
        return Ok(Answer::plain());
    };
    let count = map.chunks();
    if number >= count {
        return Ok(Answer::plain());
    }
    let mut chunk = Vec::new(alloc);
    map.chunk(alloc, number, &mut chunk)?;
    let vote = if number + 1 < count {
        Vote::Continue
    } else {
        Vote::Approve
    };
    Ok(Answer {
        vote,
        message: Some(chunk),
    })
}

/// How a client with this copy votes.
fn vote_for(alloc: Global, kept: &Kept, notice: &Notice<'_>) -> Result<Answer, NoMemory>
    ensures { IfOk result (λ answer. answer ≡ vote_for (notice_of notice.now) kept.now) }
{
    let running = &notice.after.running;
    if do_others_join(notice.provider, running) {
        share(alloc, phase_from_zero(running), &kept.copy.map)
    } else {
        Ok(Answer::plain())
    }
}

/// Fills a new ballot where a vote is asked for, by the copy before the notice.
pub(crate) fn fill(
    alloc: Global,
    kept: &Kept,
    notice: &Notice<'_>,
    ballot: &mut Ballot,
) -> Result<(), NoMemory>
    ensures filled { ballot.old ≡ new_ballot notice.now.votes ballot.old.level
        → OnOk result (ballot.new.filled ≡ filled_from (notice_of notice.now) kept.now) }
    ensures same { (ballot.new.votes ≡ ballot.old.votes)
        × (ballot.new.level ≡ ballot.old.level) }
{
    if notice.votes {
        let answer = vote_for(alloc, kept, notice)?;
        ballot.set(alloc, answer.vote(), None, answer.message())?;
    }
    Ok(())
}
