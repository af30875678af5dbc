//! What a copy becomes by a notice.
ghost use Rattle.std.specs.Prelude.{◌≡◌, [], IfOk, OnOk, Some, option_copied, if◌then◌else◌};
ghost use Rattle.std.specs.List.{list_all};
ghost use Rattle.std.specs.Option.{option_map};
ghost use Rattle.rsct_packet.specs.Providers.{among};
ghost use Rattle.client_callbacks.specs.Handed.{notice_of};
ghost use Rattle.agreed_table.specs.Pairs.{written};
ghost use Rattle.table_client.specs.Rules.{closed_in, is_own, effect_of, received, taken, with_chunk, with_effect, with_members, with_place, copy_after};

use crate::chunks::{KeptChunk, keep_chunk, received};
use crate::copies::Kept;
use agreed_table::Table;
use client_callbacks::Notice;
use proposal_core::{Closed, Entry, Proposal, Running};
use rsct_packet::{List, NoMemory, ProviderId, Text, is_among};
use std::alloc::Global;
use std::mem;

/// How a phase closed, where the entry closes one.
fn closed_in(entry: &Entry) -> Option<&Closed>
    ensures { option_copied result ≡ closed_in entry.now }
{
    match entry {
        Entry::Once(_) => None,
        Entry::Begin(_) => None,
        Entry::Phase(closed) => Some(closed),
        Entry::Approve(closed) => Some(closed),
        Entry::Reject(closed) => Some(closed),
        Entry::Late { .. } => None,
    }
}

/// Does a join of this provider run?
fn is_own(provider: ProviderId, running: &Option<Running>) -> bool
    ensures { result ≡ is_own provider running.now }
{
    match running {
        None => false,
        Some(run) => is_among(run.proposal.joiners(), provider),
    }
}

/// What takes effect by an entry, where this runs before it: an Approve does not carry its proposal.
fn effect_of<'a>(entry: &'a Entry, running: &'a Option<Running>) -> Option<&'a Proposal>
    ensures { option_copied result ≡ effect_of entry.now running.now }
{
    match entry {
        Entry::Once(proposal) => Some(proposal),
        Entry::Begin(_) => None,
        Entry::Phase(_) => None,
        Entry::Approve(_) => match running {
            None => None,
            Some(run) => Some(&run.proposal),
        },
        Entry::Reject(_) => None,
        Entry::Late { .. } => None,
    }
}

/// Is each of these among the others?
fn are_all_among(providers: &[ProviderId], others: &[ProviderId]) -> bool
    ensures { result ≡ list_all (among others.now) providers.now }
{
    providers.iter().all(|provider| is_among(others, *provider))
}

/// The map of one of these joiners: empty where nobody else is a member, else what its chunks say.
fn joined_map(
    alloc: Global,
    joiners: &[ProviderId],
    members: &[ProviderId],
    chunks: &[KeptChunk],
) -> Result<Option<Table>, NoMemory>
    ensures { IfOk result (λ map. map ≡ (if list_all (among joiners.now) members.now then Some []
        else received chunks.now)) }
{
    if are_all_among(members, joiners) {
        Ok(Some(Table::new(alloc)))
    } else {
        received(alloc, chunks)
    }
}

/// Writes a message into a whole map.
fn write(alloc: Global, map: &mut Option<Table>, message: &Text) -> Result<(), NoMemory>
    ensures { OnOk result (map.new ≡ option_map (written message.now) map.old) }
{
    if let Some(table) = map {
        table.write(alloc, message.bytes())?;
    }
    Ok(())
}

/// An equal record of what runs.
fn copy_running(alloc: Global, running: &Option<Running>) -> Result<Option<Running>, NoMemory>
    ensures { IfOk result (λ run. run ≡ running.now) }
{
    match running {
        None => Ok(None),
        Some(run) => Ok(Some(run.copy(alloc)?)),
    }
}

impl Kept {
    /// Keeps the chunk that an entry of its own join brings.
    #[tactic(auto, unfolding(crate::specs::Rules::with_chunk))]
    fn take_chunk(&mut self, alloc: Global, notice: &Notice<'_>) -> Result<(), NoMemory>
        ensures { OnOk result (self.new ≡ with_chunk (notice_of notice.now) self.old) }
    {
        if is_own(notice.provider, &self.running) {
            if let Some(closed) = closed_in(notice.entry) {
                keep_chunk(alloc, &mut self.chunks, closed)?;
            }
        }
        Ok(())
    }

    /// What a proposal that takes effect makes of it.
    fn take(
        &mut self,
        alloc: Global,
        notice: &Notice<'_>,
        proposal: &Proposal,
    ) -> Result<(), NoMemory>
        ensures { OnOk result (self.new
            ≡ taken (notice_of notice.now) self.old (Some proposal.now)) }
    {
        match proposal {
            Proposal::Join { ps, .. } => {
                let joiners = ps.as_slice();
                if is_among(joiners, notice.provider) {
                    let members = notice.after.members.as_slice();
                    self.copy.map = joined_map(alloc, joiners, members, self.chunks.as_slice())?;
                    self.chunks = List::new(alloc);
                }
                Ok(())
            }
            Proposal::Message { bytes, .. } => write(alloc, &mut self.copy.map, bytes),
            _ => Ok(()),
        }
    }

    /// What takes effect by the entry, over what ran before it.
    #[tactic(auto, unfolding(crate::specs::Rules::with_effect), using(crate::proofs::ClientLaws::taken_runs))]
    fn take_effect(&mut self, alloc: Global, notice: &Notice<'_>) -> Result<(), NoMemory>
        ensures { OnOk result (self.new ≡ with_effect (notice_of notice.now) self.old) }
    {
        let running = mem::replace(&mut self.running, None);
        if let Some(proposal) = effect_of(notice.entry, &running) {
            self.take(alloc, notice, proposal)?;
        }
        self.running = running;
        Ok(())
    }

    /// The map of a group without members is empty, whatever was known of it.
    #[tactic(auto, unfolding(crate::specs::Rules::with_members))]
    fn take_members(&mut self, alloc: Global, notice: &Notice<'_>)
        ensures { self.new ≡ with_members (notice_of notice.now) self.old }
    {
        if notice.after.members.len() == 0 {
            self.copy.map = Some(Table::new(alloc));
        }
    }

    /// The place behind the entry, and what runs there. A place of 2^32 - 1, behind which no length can be told, is
    /// answered by `NoMemory`; no list is as long.
    #[tactic(auto, unfolding(crate::specs::Rules::with_place))]
    fn take_place(&mut self, alloc: Global, notice: &Notice<'_>) -> Result<(), NoMemory>
        ensures { OnOk result (self.new ≡ with_place (notice_of notice.now) self.old) }
    {
        let Some(len) = notice.place.checked_add(1) else {
            return Err(NoMemory);
        };
        self.copy.view = notice.view;
        self.copy.len = len;
        self.running = copy_running(alloc, &notice.after.running)?;
        Ok(())
    }

    /// Follows a notice: first the chunk of its own join, then what takes effect, the members, and the place.
    #[tactic(auto, unfolding(crate::specs::Rules::copy_after))]
    pub(crate) fn follow(&mut self, alloc: Global, notice: &Notice<'_>) -> Result<(), NoMemory>
        ensures { OnOk result (self.new ≡ copy_after (notice_of notice.now) self.old) }
    {
        self.take_chunk(alloc, notice)?;
        self.take_effect(alloc, notice)?;
        self.take_members(alloc, notice);
        self.take_place(alloc, notice)
    }
}
