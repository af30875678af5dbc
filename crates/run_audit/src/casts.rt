//! The first cast of each provider in each phase of a protocol.
ghost use Rattle.std.specs.Prelude.{◌≡◌, ◌+◌, ◌∷◌, [], List, Option, ℕ, length, is_some, option_copied, OnOk};
ghost use Rattle.std.specs.Map.{lookup};
ghost use Rattle.rsct_packet.specs.declared.ids.ViewId.{ViewId};
ghost use Rattle.proposal_core.specs.declared.entry.Row.{Row};
ghost use Rattle.record_lines.specs.declared.line.Line.{Line};
ghost use Rattle.record_lines.specs.declared.line.Line.TheVariants as line;
ghost use Rattle.run_audit.specs.declared.broken.Rule.TheVariants as rule;
ghost use Rattle.run_audit.specs.Casts.{AreCasts, is_vote, line_of, row_kept, rows_kept};
ghost use Rattle.run_audit.specs.Keys.{cast_key, same_cast_key};
ghost use Rattle.run_audit.specs.Kept.{Keep, fault_of};
ghost use Rattle.run_audit.specs.Past.{first_no};
ghost use Rattle.run_audit.specs.Table.{closed_in, if_some, is_cast_of, opening_no, rows_cast, same_vote};

use crate::broken::{Fault, Rule};
use crate::keys::{CastKey, cast_key};
use indexmap::IndexMap;
use proposal_core::{Closed, Entry, Row, RowVote, Vote};
use rsct_packet::{NoMemory, ProtoId, ProviderId};
use std::alloc::Global;
use std::marker::Model;

/// The vote of the first cast, and the number of its line.
#[derive(Clone, Copy, Debug, PartialEq, Eq)]
pub struct FirstCast {
    pub vote: Vote,
    pub number: u32,
}

#[tactic(auto, unfolding(crate::specs::Table::same_vote))]
fn is_same_vote(one: Vote, other: Vote) -> bool
    ensures { result ≡ same_vote one other }
{
    one == other
}

/// Is this the vote of the cast?
#[tactic(auto, unfolding(crate::specs::Casts::is_vote))]
fn is_vote(vote: Vote, cast: Option<FirstCast>) -> bool
    ensures { result ≡ is_vote vote cast }
{
    match cast {
        None => false,
        Some(cast) => is_same_vote(cast.vote, vote),
    }
}

/// The number of its line.
#[tactic(auto, unfolding(crate::specs::Casts::line_of))]
fn line_of(cast: Option<FirstCast>) -> Option<u32>
    ensures { result ≡ line_of cast }
{
    match cast {
        None => None,
        Some(cast) => Some(cast.number),
    }
}

/// How an entry closes a phase, where it does.
#[tactic(auto, unfolding(crate::specs::Table::closed_in))]
pub fn closed_in(entry: &Entry) -> Option<&Closed>
    ensures { option_copied result ≡ closed_in entry.now }
{
    match entry {
        Entry::Phase(closed) => Some(closed),
        Entry::Approve(closed) => Some(closed),
        Entry::Reject(closed) => Some(closed),
        _ => None,
    }
}

/// The first cast of each provider in each phase of a protocol.
#[derive(Drop)]
pub struct Casts {
    by_key: IndexMap<CastKey, FirstCast>,
}

impl Model for Casts {
    ghost use Rattle.std.specs.Prelude.{List};
    ghost use Rattle.run_audit.specs.declared.casts.FirstCast.{FirstCast};
    ghost use Rattle.run_audit.specs.declared.keys.CastKey.{CastKey};

    ghost Value = { List (CastKey × FirstCast) };

    ghost view = { λ s. s.by_key.entries };
}

impl Casts {
    /// Of no lines.
    pub fn new(alloc: Global) -> Casts
        ensures { AreCasts [] result }
    {
        Casts {
            by_key: IndexMap::new(alloc),
        }
    }

    fn first(&self, key: CastKey) -> Option<FirstCast>
        ensures { result ≡ lookup (same_cast_key key) self.now }
    {
        self.by_key.get(&key).copied()
    }

    fn has(&self, key: CastKey) -> bool
        ensures { result ≡ is_some (lookup (same_cast_key key) self.now) }
    {
        self.by_key.contains_key(&key)
    }

    /// The number of the line in which the provider first cast in this phase.
    pub fn first_line(&self, provider: ProviderId, proto: ProtoId, phase: u16) -> Option<u32>
        ensures { (ls : List Line) → AreCasts ls self.now
            → result ≡ first_no (is_cast_of provider proto phase) ls }
    {
        line_of(self.first(cast_key(provider, proto, phase)))
    }

    /// Where the row has a cast vote: was it cast?
    #[tactic(auto, unfolding(crate::specs::Casts::row_kept))]
    fn has_row(&self, proto: ProtoId, phase: u16, row: Row) -> bool
        ensures { result ≡ row_kept self.now proto phase row row.vote }
    {
        match row.vote {
            RowVote::Cast(vote) => is_vote(vote, self.first(cast_key(row.provider, proto, phase))),
            RowVote::Late(_) => true,
            RowVote::Failed(_) => true,
        }
    }

    #[tactic(auto, unfolding(crate::specs::Casts::rows_kept))]
    fn has_rows(&self, closed: &Closed) -> bool
        ensures { result ≡ rows_kept self.now closed.now }
    {
        closed
            .rows
            .as_slice()
            .iter()
            .all(|row| self.has_row(closed.proto, closed.phase, *row))
    }

    /// Was each vote cast that a row has as a cast one?
    pub fn are_cast(&self, closed: &Closed) -> bool
        ensures { (ls : List Line) → AreCasts ls self.now → Keep rule.Cast ls
            → result ≡ rows_cast closed.now ls }
    {
        self.has_rows(closed)
    }

    /// Where this closes a phase: was each vote cast that a row has as a cast one?
    fn closes_well(&self, closed: Option<&Closed>) -> bool
        ensures { (ls : List Line) → AreCasts ls self.now → Keep rule.Cast ls
            → result ≡ if_some (option_copied closed.entry) (λ c. rows_cast c ls) }
    {
        match closed {
            None => true,
            Some(closed) => self.are_cast(closed),
        }
    }

    /// What the table says of the rule on rows: nothing where a put of the entry keeps it. The line is that by which the
    /// phase runs that it closes.
    pub fn fault(&self, entry: &Entry, with_line: Option<u32>) -> Option<Fault>
        ensures { (ls : List Line) (n : ℕ) (v : ViewId) (g : List ℕ) (i : ℕ)
            → AreCasts ls self.now → Keep rule.Cast ls → with_line ≡ opening_no n v g ls
            → result ≡ fault_of rule.Honest (line.Put n v g i entry.now) ls }
    {
        if self.closes_well(closed_in(entry)) {
            None
        } else {
            Some(Fault {
                rule: Rule::Honest,
                with_line,
            })
        }
    }

    /// In the line of this number the provider casts its vote in the phase.
    pub fn note(
        &mut self,
        provider: ProviderId,
        proto: ProtoId,
        phase: u16,
        vote: Vote,
        number: u32,
    ) -> Result<(), NoMemory>
        ensures { OnOk result ((ls : List Line) (x : Option (List ℕ)) → AreCasts ls self.old
            → number ≡ length ls + 1
            → AreCasts (line.Cast provider proto phase vote x ∷ ls) self.new) }
    {
        let key = cast_key(provider, proto, phase);
        if self.has(key) {
            return Ok(());
        }
        self.by_key.insert(key, FirstCast { vote, number })?;
        Ok(())
    }
}
