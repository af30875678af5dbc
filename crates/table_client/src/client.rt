//! The client that keeps the copies.
ghost use Rattle.std.specs.Prelude.{◌≡◌, ◌<◌, ◌≤◌, [], length, slice_get, find, IfOk, IfSome, OnOk, option_copied};
ghost use Rattle.std.specs.List.{position};
ghost use Rattle.std.specs.Option.{option_map};
ghost use Rattle.rsct_packet.specs.Lists.{drop_where};
ghost use Rattle.rsct_packet.specs.Providers.{same_provider};
ghost use Rattle.rsct_packet.specs.Search.{place_where, front_len, insert_before};
ghost use Rattle.client_callbacks.specs.Ballots.{new_ballot};
ghost use Rattle.client_callbacks.specs.Handed.{notice_of};
ghost use Rattle.table_client.specs.Rules.{is_copy, comes_after, provider_lt, copy_before, filled_for, noticed, informed, ByRules};
ghost use Rattle.table_client.specs.Shown.{shown, shown_at};

use crate::copies::{Kept, TableCopy};
use crate::sharing::fill;
use client_callbacks::{Ballot, Notice, Told, Why};
use rsct_packet::{NoMemory, ProviderId};
use std::alloc::Global;
use std::marker::Model;

/// A client that keeps a copy of the map of its group for each of its providers, from the first notice for it until it
/// is told that the provider is dissolved. It approves wherever a vote is asked for, and hands its map on to others that
/// join, a chunk of 1,000 bytes in each phase.
#[derive(Drop)]
pub struct TableClient {
    alloc: Global,
    copies: Vec<Kept>,
}

impl Model for TableClient {
    ghost use Rattle.std.specs.Prelude.{List};
    ghost use Rattle.table_client.specs.Rules.{Copied};

    ghost Value = { List Copied };

    ghost view = { λ c. c.copies.items };
}

/// Is it the copy of this provider?
fn is_copy(kept: &Kept, provider: ProviderId) -> bool
    ensures { result ≡ is_copy provider kept.now }
{
    kept.provider == provider
}

/// Is it the copy of a greater provider?
fn comes_after(kept: &Kept, provider: ProviderId) -> bool
    ensures { result ≡ comes_after provider kept.now }
{
    provider < kept.provider
}

/// Where the copy of a provider stands.
fn position_of(copies: &[Kept], provider: ProviderId) -> Option<usize>
    ensures { result ≡ position (is_copy provider) copies.now }
{
    copies.iter().position(|kept| is_copy(kept, provider))
}

/// The same, by what its clients speak of.
#[tactic(auto, using(rsct_packet::proofs::SearchLaws::place_is_position, rsct_packet::proofs::SearchLaws::place_is_in))]
fn place_of(copies: &[Kept], provider: ProviderId) -> Option<usize>
    ensures value { result ≡ place_where (is_copy provider) copies.now }
    ensures within { IfSome result (λ i. i < length copies.now) }
{
    position_of(copies, provider)
}

/// Where the first copy of a greater provider stands.
fn first_after(copies: &[Kept], provider: ProviderId) -> Option<usize>
    ensures { result ≡ position (comes_after provider) copies.now }
{
    copies.iter().position(|kept| comes_after(kept, provider))
}

/// How many copies stand before that of a provider.
#[tactic(auto, using(rsct_packet::proofs::SearchLaws::front_is_position, rsct_packet::proofs::SearchLaws::front_is_in))]
fn front(copies: &[Kept], provider: ProviderId) -> usize
    ensures value { result ≡ front_len (comes_after provider) copies.now }
    ensures within { result ≤ length copies.now }
{
    first_after(copies, provider).unwrap_or(copies.len())
}

impl TableClient {
    /// A client that was handed nothing.
    pub fn new(alloc: Global) -> TableClient
        ensures { result ≡ [] }
    {
        TableClient {
            alloc,
            copies: Vec::new(alloc),
        }
    }

    /// How many copies there are.
    pub fn len(&self) -> usize
        ensures { result ≡ length self.now }
    {
        self.copies.len()
    }

    /// The copy of a provider; none exactly where the client was never handed a notice for it, or was told since that
    /// it is dissolved.
    pub fn copy(&self, provider: ProviderId) -> Option<&TableCopy>
        ensures { option_copied result ≡ option_map shown (find (is_copy provider) self.now) }
    {
        match self.copies.iter().find(|kept| is_copy(kept, provider)) {
            None => None,
            Some(kept) => Some(&kept.copy),
        }
    }

    /// The copy at a place from 0, in ascending order of providers, with its provider and its group; none exactly where
    /// there are not so many.
    pub fn copy_at(&self, place: usize) -> Option<(ProviderId, &[u8], &TableCopy)>
        ensures { option_map (λ x. (x.0, x.1.now, x.2.now)) result
            ≡ option_map shown_at (slice_get self.now place) }
    {
        match self.copies.get(place) {
            None => None,
            Some(kept) => Some((kept.provider, kept.group.as_slice(), &kept.copy)),
        }
    }

    /// Takes out the copy of the notice's provider, made new where there is none.
    #[tactic(auto, using(rsct_packet::proofs::SearchLaws::removed_where, rsct_packet::proofs::SearchLaws::removed_nowhere, rsct_packet::proofs::SearchLaws::missing_at_place))]
    fn take(&mut self, notice: &Notice<'_>) -> Result<Kept, NoMemory>
        ensures taken { IfOk result (λ kept. kept
            ≡ copy_before (notice_of notice.now) self.old) }
        ensures left { OnOk result (self.new
            ≡ drop_where (is_copy notice.now.provider) self.old) }
    {
        match place_of(self.copies.as_slice(), notice.provider) {
            None => Kept::new(self.alloc, notice),
            Some(place) => Ok(self.copies.remove(place)),
        }
    }

    /// Puts a copy before those of greater providers.
    #[tactic(auto, using(rsct_packet::proofs::SearchLaws::insert_at_front))]
    fn put(&mut self, kept: Kept) -> Result<(), NoMemory>
        ensures { OnOk result (self.new
            ≡ insert_before (comes_after kept.provider) kept self.old) }
    {
        let place = front(self.copies.as_slice(), kept.provider);
        self.copies.insert(place, kept)?;
        Ok(())
    }

    /// Forgets the copy of a provider, where there is one.
    #[tactic(auto, using(rsct_packet::proofs::SearchLaws::removed_where, rsct_packet::proofs::SearchLaws::removed_nowhere))]
    fn forget(&mut self, provider: ProviderId)
        ensures { self.new ≡ drop_where (is_copy provider) self.old }
    {
        if let Some(place) = place_of(self.copies.as_slice(), provider) {
            let _ = self.copies.remove(place);
        }
    }

    /// Fills the ballot by the copy before a notice, and follows the notice.
    #[tactic(auto, unfolding(crate::specs::Rules::noticed, crate::specs::Rules::filled_for), using(crate::proofs::ClientLaws::noticed_is))]
    pub(crate) fn follow(
        &mut self,
        notice: &Notice<'_>,
        ballot: &mut Ballot,
    ) -> Result<(), NoMemory>
        ensures copies { OnOk result (self.new ≡ noticed (notice_of notice.now) self.old) }
        ensures filled { ballot.old ≡ new_ballot notice.now.votes ballot.old.level
            → OnOk result (ballot.new.filled ≡ filled_for (notice_of notice.now) self.old) }
        ensures same { (ballot.new.votes ≡ ballot.old.votes)
            × (ballot.new.level ≡ ballot.old.level) }
    {
        let mut kept = self.take(notice)?;
        fill(self.alloc, &kept, notice, ballot)?;
        kept.follow(self.alloc, notice)?;
        self.put(kept)
    }

    /// Forgets a provider that is dissolved.
    #[tactic(auto, unfolding(crate::specs::Rules::informed))]
    pub(crate) fn hear(&mut self, told: &Told)
        ensures { self.new ≡ informed told.now self.old }
    {
        match told {
            Told::Refused { provider, why, .. } => {
                if *why == Why::Dissolved {
                    self.forget(*provider);
                }
            }
            Told::Note { .. } => {}
            Told::Hosts { .. } => {}
        }
    }
}
