//! The tally of one phase.
ghost use Rattle.std.specs.Prelude.{◌≡◌, ◌≤◌, map, length, Some, None, IfOk};
ghost use Rattle.rsct_packet.specs.Providers.{AreProviders};
ghost use Rattle.vote_phases.specs.Tally.{no_vote, tally_new, tally_cast, tally_fail, tally_tick, passes, counted, cast_answer, row_at, expires, open_voters, outcome};

use crate::voter::{
    Voter, give, give_all, is_one_open, one_continues, one_rejects, open_among, voter_of,
};
use arrayvec::ArrayVec;
use group_attr::DefaultVote;
use proposal_core::{Row, RowVote, Vote};
use rsct_packet::{NoMemory, ProviderId, Providers};
use std::alloc::Global;
use std::marker::Model;

/// How many voters a phase has at most.
pub const MAX_VOTERS: usize = 64;

/// What became of a vote that was cast: it is recorded, its provider does not vote in this phase, or a row
/// stands for the provider already, for the vote that this carries.
#[derive(Clone, Copy, Debug, PartialEq, Eq)]
pub enum Cast {
    Recorded,
    NotVoter,
    Already(Vote),
}

/// The tally of one phase: its voters with what stands for each, the default vote, the time limit in ticks
/// (0: none), and how many ticks it has counted. The voters differ.
///
/// It takes no memory and cannot fail, so it keeps votes alone. Whoever leads keeps the values and messages
/// of the ballots beside it, one for each vote that was `Recorded`, and takes the first of them in the order of
/// the voters when the phase closes.
#[derive(Drop)]
pub struct Tally {
    voters: ArrayVec<Voter, MAX_VOTERS>,
    default: DefaultVote,
    limit: u16,
    count: u32,
}

impl Model for Tally {
    ghost use Rattle.vote_phases.specs.Tally.{TallyView, AreVoters};

    ghost Value = { TallyView };

    ghost view = { λ t. record { voters = t.voters.items; default_vote = t.default; limit = t.limit; count = t.count } };

    ghost invariant = { λ t. AreVoters t.voters.items };
}

/// Providers that have not voted, in order.
#[tactic(auto, using(std::proofs::lemmas::List::map_more, std::proofs::lemmas::Grind::common_steps))]
fn without_rows(providers: &[ProviderId]) -> ArrayVec<Voter, MAX_VOTERS>
    requires { length providers.now ≤ 64 }
    ensures { result.items ≡ map no_vote providers.now }
{
    let mut voters = ArrayVec::new();
    for p in providers {
        voters.push(Voter {
            provider: *p,
            vote: None,
        });
    }
    voters
}

/// Does a tick after this many bring the count to the limit?
fn passes(limit: u16, count: u32) -> bool
    ensures { result ≡ passes limit count }
{
    limit > 0 && count.saturating_add(1) == u32::from(limit)
}

impl Tally {
    /// The tally of these voters, at most 64 that differ, none of whom has voted.
    #[tactic(auto, using(crate::proofs::VoterLaws::are_new, std::proofs::lemmas::Grind::common_steps))]
    pub fn new(voters: &[ProviderId], default: DefaultVote, limit: u16) -> Tally
        requires { AreProviders voters.now }
        ensures { result ≡ tally_new voters.now default limit }
    {
        Tally {
            voters: without_rows(voters),
            default,
            limit,
            count: 0,
        }
    }

    /// The voters in order, with what stands for each.
    pub fn voters(&self) -> &[Voter]
        ensures value { result.now ≡ self.now.voters }
        ensures few { length result.now ≤ 64 }
    {
        self.voters.as_slice()
    }

    /// Takes a vote, unless its provider does not vote or a row stands for it already.
    #[tactic(auto, using(crate::proofs::VoterLaws::are_given_to, std::proofs::lemmas::Grind::common_steps))]
    pub fn cast(&mut self, provider: ProviderId, vote: Vote) -> Cast
        ensures tally { self.new ≡ tally_cast provider vote self.old }
        ensures answer { result ≡ cast_answer provider self.old }
    {
        let answer = match voter_of(self.voters.as_slice(), provider) {
            None => Cast::NotVoter,
            Some(voter) => voter.answer(),
        };
        give(self.voters.as_mut_slice(), provider, RowVote::Cast(vote));
        answer
    }

    /// The default vote stands for a provider that failed, unless it has voted.
    #[tactic(auto, using(crate::proofs::VoterLaws::are_given_to, std::proofs::lemmas::Grind::common_steps))]
    pub fn fail(&mut self, provider: ProviderId)
        ensures { self.new ≡ tally_fail provider self.old }
    {
        let row = RowVote::Failed(self.default);
        give(self.voters.as_mut_slice(), provider, row);
    }

    /// Counts a tick. The one that brings the count to the limit has the default vote stand for each voter
    /// that has not voted.
    #[tactic(auto, using(crate::proofs::VoterLaws::are_given, std::proofs::lemmas::Grind::common_steps))]
    pub fn tick(&mut self)
        ensures { self.new ≡ tally_tick self.old }
    {
        if passes(self.limit, self.count) {
            let row = RowVote::Late(self.default);
            give_all(self.voters.as_mut_slice(), row);
        }
        self.count = self.count.saturating_add(1);
    }

    /// Is there a voter that has not voted, and for whom the next tick passes the limit?
    pub fn expires(&self) -> bool
        ensures { result ≡ expires self.now }
    {
        passes(self.limit, self.count) && is_one_open(self.voters.as_slice())
    }

    /// The voters that have not voted, in order.
    pub fn open_voters(&self, alloc: Global) -> Result<Providers, NoMemory>
        ensures { IfOk result (λ ps. ps ≡ open_voters self.now) }
    {
        let open = open_among(alloc, self.voters.as_slice())?;
        Providers::of(alloc, open.as_slice())
    }

    /// The row of the voter at this place; none while it has none, and where no voter stands there.
    pub fn row(&self, place: usize) -> Option<Row>
        ensures { result ≡ row_at place self.now }
    {
        match self.voters.as_slice().get(place) {
            None => None,
            Some(voter) => voter.row(),
        }
    }

    /// How the phase comes out: none while a voter has no row; else the tally of the rows.
    #[tactic(auto, using(crate::proofs::TallyLaws::rows_stand, std::proofs::lemmas::Grind::common_steps))]
    pub fn outcome(&self) -> Option<Vote>
        ensures { result ≡ outcome self.now }
    {
        let voters = self.voters.as_slice();
        if is_one_open(voters) {
            None
        } else if one_rejects(voters) {
            Some(Vote::Reject)
        } else if one_continues(voters) {
            Some(Vote::Continue)
        } else {
            Some(Vote::Approve)
        }
    }
}
