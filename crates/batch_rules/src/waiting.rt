//! The queue of a group.
ghost use Rattle.std.specs.Prelude.{◌≡◌, ◌≤◌, length};
ghost use Rattle.rsct_packet.specs.Providers.{among, AreProviders};
ghost use Rattle.batch_rules.specs.Waiting.{nothing_waits, takes_failure, add_failure, drop_join, next_failures, failures_left, next_joins, joins_left};
ghost use Rattle.batch_rules.specs.Next.{is_duplicate, added_as, add_join, next_chosen, next_left};

use crate::queue::{
    batches_failures, batches_joins, is_failing, is_instance_among, remove_join, take_next,
};
use arrayvec::ArrayVec;
use group_attr::Batch;
use proposal_core::{Cause, Failure};
use rsct_packet::{ProviderId, is_among};
use std::marker::Model;

/// How many joins and how many failures wait at most.
pub const MAX_WAITING: usize = 64;

/// What became of a join: it waits, 64 joins wait already, or a provider with its node and instance number is
/// present or waits.
#[derive(Clone, Copy, Debug, PartialEq, Eq)]
pub enum Added {
    Queued,
    Full,
    DuplicateInstance,
}

/// What begins next, oldest first; at least one.
#[derive(Drop)]
pub enum Chosen {
    Failures(ArrayVec<Failure, MAX_WAITING>),
    Joins(ArrayVec<ProviderId, MAX_WAITING>),
}

/// The joins and the failures that wait, each oldest first and at most 64; the joins differ. It takes no memory and
/// cannot fail.
#[derive(Drop)]
pub struct Waiting {
    joins: ArrayVec<ProviderId, MAX_WAITING>,
    failures: ArrayVec<Failure, MAX_WAITING>,
}

impl Model for Waiting {
    ghost use Rattle.rsct_packet.specs.Providers.{AreProviders};
    ghost use Rattle.batch_rules.specs.Waiting.{WaitingView};

    ghost Value = { WaitingView };

    ghost view = { λ w. record { joins = w.joins.items; failures = w.failures.items } };

    ghost invariant = { λ w. AreProviders w.joins.items };
}

impl Waiting {
    /// The queue in which nothing waits.
    pub fn new() -> Waiting
        ensures { result ≡ nothing_waits }
    {
        Waiting {
            joins: ArrayVec::new(),
            failures: ArrayVec::new(),
        }
    }

    /// How many joins wait.
    pub fn joins(&self) -> usize
        ensures value { result ≡ length self.now.joins }
        ensures few { result ≤ 64 }
    {
        self.joins.len()
    }

    /// How many failures wait.
    pub fn failures(&self) -> usize
        ensures value { result ≡ length self.now.failures }
        ensures few { result ≤ 64 }
    {
        self.failures.len()
    }

    /// Is a provider with the node and instance number of this one present, or does one wait?
    pub fn is_duplicate(&self, provider: ProviderId, present: &[ProviderId]) -> bool
        ensures { result ≡ is_duplicate provider present.now self.now }
    {
        is_instance_among(present, provider) || is_instance_among(self.joins.as_slice(), provider)
    }

    /// Puts a join at the end, unless a provider with its node and instance number is present or waits, or 64
    /// joins wait.
    pub fn add_join(&mut self, provider: ProviderId, present: &[ProviderId]) -> Added
        ensures answer { result ≡ added_as provider present.now self.old }
        ensures queue { self.new ≡ add_join provider present.now self.old }
    {
        if self.is_duplicate(provider, present) {
            return Added::DuplicateInstance;
        }
        if self.joins.is_full() {
            return Added::Full;
        }
        self.joins.push(provider);
        Added::Queued
    }

    /// Puts a failure at the end, and answers `false`, changing nothing, exactly where its provider waits as a
    /// failure already or 64 failures wait. A group has at most 64 providers, so its leader meets the first alone.
    pub fn add_failure(&mut self, provider: ProviderId, cause: Cause) -> bool
        ensures answer { result ≡ takes_failure provider self.old }
        ensures queue { self.new ≡ add_failure provider cause self.old }
    {
        if is_failing(self.failures.as_slice(), provider) || self.failures.is_full() {
            return false;
        }
        self.failures.push(Failure { provider, cause });
        true
    }

    /// Takes a join out; `false` exactly where the provider's join does not wait.
    pub fn drop_join(&mut self, provider: ProviderId) -> bool
        ensures answer { result ≡ among self.old.joins provider }
        ensures queue { self.new ≡ drop_join provider self.old }
    {
        let waits = is_among(self.joins.as_slice(), provider);
        remove_join(&mut self.joins, provider);
        waits
    }

    /// Takes out the failures that begin next: all of them where the batch control has them, else the oldest.
    pub fn next_failures(&mut self, batch: Batch) -> ArrayVec<Failure, MAX_WAITING>
        ensures taken { result.items ≡ next_failures batch self.old }
        ensures queue { self.new ≡ failures_left batch self.old }
    {
        take_next(&mut self.failures, batches_failures(batch))
    }

    /// Takes out the joins that begin next: all of them where the batch control has them, else the oldest.
    pub fn next_joins(&mut self, batch: Batch) -> ArrayVec<ProviderId, MAX_WAITING>
        ensures taken { result.items ≡ next_joins batch self.old }
        ensures apart { AreProviders (next_joins batch self.old) }
        ensures queue { self.new ≡ joins_left batch self.old }
    {
        take_next(&mut self.joins, batches_joins(batch))
    }

    /// Takes out what begins next: failures before joins, all of them where the batch control has them, else
    /// the oldest. `None` exactly where nothing waits.
    pub fn next(&mut self, batch: Batch) -> Option<Chosen>
        ensures chosen { result ≡ next_chosen batch self.old }
        ensures queue { self.new ≡ next_left batch self.old }
    {
        if !self.failures.is_empty() {
            return Some(Chosen::Failures(self.next_failures(batch)));
        }
        if !self.joins.is_empty() {
            return Some(Chosen::Joins(self.next_joins(batch)));
        }
        None
    }
}
