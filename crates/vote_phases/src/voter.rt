//! Voters, and what stands for them.
ghost use Rattle.std.specs.Prelude.{◌≡◌, map, filter, find, option_copied, Some, IfOk};
ghost use Rattle.std.specs.List.{list_any};
ghost use Rattle.vote_phases.specs.Tally.{given, given_to, is_voter, is_open, vote_of_default, vote_of_row as vote_of_row_of, row_in, answer_of, voter_stands, is_reject, is_continue};

use crate::tally::Cast;
use group_attr::DefaultVote;
use proposal_core::{Row, RowVote, Vote};
use rsct_packet::{NoMemory, ProviderId};
use std::alloc::Global;

/// A voter and what stands for it: none while it may still vote.
#[derive(Clone, Copy, Debug, Default, PartialEq, Eq)]
pub struct Voter {
    pub provider: ProviderId,
    pub vote: Option<RowVote>,
}

impl Voter {
    /// With a row, unless it has one.
    pub(crate) fn given(self, vote: RowVote) -> Voter
        ensures { result ≡ given vote self }
    {
        Voter {
            provider: self.provider,
            vote: self.vote.or(Some(vote)),
        }
    }

    /// With a row, if it is this provider and has none.
    fn given_to(self, provider: ProviderId, vote: RowVote) -> Voter
        ensures { result ≡ given_to provider vote self }
    {
        if self.provider == provider {
            self.given(vote)
        } else {
            self
        }
    }

    fn is_open(&self) -> bool
        ensures { result ≡ is_open self.now }
    {
        self.vote.is_none()
    }

    /// Its row, none while it has none.
    pub(crate) fn row(&self) -> Option<Row>
        ensures { result ≡ row_in (Some self.now) }
    {
        match self.vote {
            None => None,
            Some(vote) => Some(Row {
                provider: self.provider,
                vote,
            }),
        }
    }

    /// What becomes of a vote that it casts.
    pub(crate) fn answer(&self) -> Cast
        ensures { result ≡ answer_of (Some self.now) }
    {
        match self.vote {
            None => Cast::Recorded,
            Some(row) => Cast::Already(vote_of_row(row)),
        }
    }

    fn rejects(&self) -> bool
        ensures { result ≡ voter_stands is_reject self.now }
    {
        match self.vote {
            None => false,
            Some(row) => matches!(vote_of_row(row), Vote::Reject),
        }
    }

    fn continues(&self) -> bool
        ensures { result ≡ voter_stands is_continue self.now }
    {
        match self.vote {
            None => false,
            Some(row) => matches!(vote_of_row(row), Vote::Continue),
        }
    }
}

fn vote_of_default(default: DefaultVote) -> Vote
    ensures { result ≡ vote_of_default default }
{
    match default {
        DefaultVote::Approve => Vote::Approve,
        DefaultVote::Reject => Vote::Reject,
    }
}

/// The vote that a row stands for.
pub fn vote_of_row(row: RowVote) -> Vote
    ensures { result ≡ vote_of_row_of row }
{
    match row {
        RowVote::Cast(vote) => vote,
        RowVote::Late(default) | RowVote::Failed(default) => vote_of_default(default),
    }
}

/// Gives a provider a row, unless it has one.
pub(crate) fn give(voters: &mut [Voter], provider: ProviderId, vote: RowVote)
    ensures { voters.new ≡ map (given_to provider vote) voters.old }
{
    for i in 0..voters.len() {
        voters[i] = voters[i].given_to(provider, vote);
    }
}

/// Gives each voter a row, unless it has one.
pub(crate) fn give_all(voters: &mut [Voter], vote: RowVote)
    ensures { voters.new ≡ map (given vote) voters.old }
{
    for i in 0..voters.len() {
        voters[i] = voters[i].given(vote);
    }
}

/// The voter that is this provider.
pub(crate) fn voter_of(voters: &[Voter], provider: ProviderId) -> Option<&Voter>
    ensures { option_copied result ≡ find (is_voter provider) voters.now }
{
    voters.iter().find(|x| x.provider == provider)
}

/// Is there a voter without a row?
pub(crate) fn is_one_open(voters: &[Voter]) -> bool
    ensures { result ≡ list_any is_open voters.now }
{
    voters.iter().any(|x| x.is_open())
}

/// The voters without a row, in order.
pub(crate) fn open_among(alloc: Global, voters: &[Voter]) -> Result<Vec<ProviderId>, NoMemory>
    ensures { IfOk result (λ v. v.items ≡ map (λ x. x.provider) (filter is_open voters.now)) }
{
    Ok(
        voters
            .iter()
            .filter(|x| x.is_open())
            .map(|x| x.provider)
            .collect(alloc)?,
    )
}

/// Does any row stand for a rejection?
pub(crate) fn one_rejects(voters: &[Voter]) -> bool
    ensures { result ≡ list_any (voter_stands is_reject) voters.now }
{
    voters.iter().any(|x| x.rejects())
}

/// Does any row stand for one more phase?
pub(crate) fn one_continues(voters: &[Voter]) -> bool
    ensures { result ≡ list_any (voter_stands is_continue) voters.now }
{
    voters.iter().any(|x| x.continues())
}
