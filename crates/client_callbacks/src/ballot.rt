//! Ballots.
ghost use Rattle.std.specs.Prelude.{◌≡◌, ◌≤◌, OnOk, OnErr, IfOk, IsTrue, option_copied};
ghost use Rattle.std.specs.Option.{option_map};
ghost use Rattle.client_callbacks.specs.Ballots.{is_ballot, new_ballot, value_limit, is_within, filling, can_fill, filled_with, message_limit};

use proposal_core::Vote;
use rsct_packet::{NoMemory, Text};
use std::alloc::Global;
use std::marker::Model;

/// How many bytes a message has at most.
pub const MAX_MESSAGE: usize = 1024;

/// How many bytes a state value has at most, at level 1 and from level 2 on.
pub fn value_limit(level: u8) -> usize
    ensures value { result ≡ value_limit level }
    ensures most { result ≤ 1024 }
{
    if level == 1 { 256 } else { 1024 }
}

/// What a ballot is filled with: a vote, a proposed state value and a message.
#[derive(Drop)]
pub struct Filled {
    pub vote: Vote,
    pub value: Option<Text>,
    pub message: Option<Text>,
}

/// An equal text.
fn copy_of(alloc: Global, text: &Option<Text>) -> Result<Option<Text>, NoMemory>
    ensures { IfOk result (λ t. t ≡ text.now) }
{
    match text {
        None => Ok(None),
        Some(t) => Ok(Some(t.copy(alloc)?)),
    }
}

impl Filled {
    /// An equal one.
    pub fn copy(&self, alloc: Global) -> Result<Filled, NoMemory>
        ensures { IfOk result (λ f. f ≡ self.now) }
    {
        Ok(Filled {
            vote: self.vote,
            value: copy_of(alloc, &self.value)?,
            message: copy_of(alloc, &self.message)?,
        })
    }
}

/// The ballot that is handed with a notice. It can be filled, once, where a vote is asked for.
#[derive(Drop)]
pub struct Ballot {
    votes: bool,
    level: u8,
    filled: Option<Filled>,
}

impl Model for Ballot {
    ghost use Rattle.std.specs.Prelude.{IsTrue};
    ghost use Rattle.client_callbacks.specs.Ballots.{BallotView, is_ballot};

    ghost Value = { BallotView };

    ghost view = { λ b. record { votes = b.votes; level = b.level; filled = b.filled } };

    ghost invariant = { λ b. IsTrue (is_ballot (record { votes = b.votes; level = b.level; filled = b.filled })) };
}

/// Are there at most so many bytes?
fn is_within(most: usize, bytes: Option<&[u8]>) -> bool
    ensures { result ≡ is_within most (option_copied bytes.entry) }
{
    match bytes {
        None => true,
        Some(b) => b.len() <= most,
    }
}

/// The text of these bytes.
fn text_within(alloc: Global, most: usize, bytes: Option<&[u8]>) -> Result<Option<Text>, NoMemory>
    requires few { most ≤ message_limit }
    requires within { IsTrue (is_within most (option_copied bytes)) }
    ensures { IfOk result (λ t. t ≡ option_copied bytes.entry) }
{
    match bytes {
        None => Ok(None),
        Some(b) => Text::of(alloc, b),
    }
}

impl Ballot {
    /// An empty ballot, which can be filled where `votes` is true. Values are limited by the level, 1 or 2.
    pub fn new(votes: bool, level: u8) -> Ballot
        requires low { 1 ≤ level }
        requires high { level ≤ 2 }
        ensures { result ≡ new_ballot votes level }
    {
        Ballot {
            votes,
            level,
            filled: None,
        }
    }

    /// Can it be filled with these?
    #[tactic(auto, unfolding(crate::specs::Ballots::can_fill))]
    fn takes(&self, vote: Vote, value: Option<&[u8]>, message: Option<&[u8]>) -> bool
        ensures { result ≡ can_fill self.now (filling vote (option_copied value.entry)
            (option_copied message.entry)) }
    {
        self.votes
            && self.filled.is_none()
            && is_within(value_limit(self.level), value)
            && is_within(MAX_MESSAGE, message)
    }

    /// Fills it. It answers false, and changes nothing, exactly where no vote is asked for, it is filled
    /// already, the value is over the limit of its level, or the message is over 1,024 bytes.
    #[tactic(auto, unfolding(crate::specs::Ballots::can_fill, crate::specs::Ballots::filled_with))]
    pub fn set(
        &mut self,
        alloc: Global,
        vote: Vote,
        value: Option<&[u8]>,
        message: Option<&[u8]>,
    ) -> Result<bool, NoMemory>
        ensures answer { IfOk result (λ b. b ≡ can_fill self.old
            (filling vote (option_copied value.entry) (option_copied message.entry))) }
        ensures ok { OnOk result (self.new ≡ filled_with self.old
            (filling vote (option_copied value.entry) (option_copied message.entry))) }
        ensures err { OnErr result (self.new ≡ self.old) }
        ensures same { (self.new.votes ≡ self.old.votes) × (self.new.level ≡ self.old.level) }
    {
        if !self.takes(vote, value, message) {
            return Ok(false);
        }
        self.filled = Some(Filled {
            vote,
            value: text_within(alloc, value_limit(self.level), value)?,
            message: text_within(alloc, MAX_MESSAGE, message)?,
        });
        Ok(true)
    }

    /// Is a vote asked for? A ballot is filled only there, and within the limits.
    pub fn asks(&self) -> bool
        ensures value { result ≡ self.now.votes }
        ensures holds { IsTrue (is_ballot self.now) }
    {
        self.votes
    }

    /// What it is filled with; none where it is not filled.
    pub fn filled(&self) -> Option<&Filled>
        ensures { option_copied result ≡ self.now.filled }
    {
        self.filled.as_ref()
    }

    /// The vote, the value and the message that it is filled with; none where it is not filled.
    pub fn get(&self) -> Option<(Vote, Option<&[u8]>, Option<&[u8]>)>
        ensures { option_map (λ x. filling x.0 (option_copied x.1) (option_copied x.2)) result
            ≡ self.now.filled }
    {
        let f = self.filled.as_ref()?;
        Some((
            f.vote,
            f.value.as_ref().map(|t| t.bytes()),
            f.message.as_ref().map(|t| t.bytes()),
        ))
    }

    /// An equal ballot.
    pub fn copy(&self, alloc: Global) -> Result<Ballot, NoMemory>
        ensures { IfOk result (λ b. b ≡ self.now) }
    {
        let filled = match &self.filled {
            None => None,
            Some(f) => Some(f.copy(alloc)?),
        };
        Ok(Ballot {
            votes: self.votes,
            level: self.level,
            filled,
        })
    }
}
