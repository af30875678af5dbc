//! What a group's attributes are.
ghost use Rattle.std.specs.Prelude.{◌≡◌, ◌↔◌, IfOk, IsTrue};
ghost use Rattle.std.specs.Result.{result_err};
ghost use Rattle.group_attr.specs.Agree.{same_source, agree};
ghost use Rattle.group_attr.specs.Attrs.{empty_attrs, is_bad_source, first_fault};

use rsct_packet::{Name, NoMemory};
use std::alloc::Global;

/// How many ticks a time limit has at most.
pub const MAX_LIMIT: u16 = 10_000;

/// The name that no group's source may have: it stands for the membership of the hosts.
pub const HOST_MEMBERSHIP: &[u8] = b"HostMembership";

/// Whether a protocol is decided at once or by votes in phases.
#[derive(Clone, Copy, Debug, PartialEq, Eq)]
pub enum Phases {
    One,
    Many,
}

/// Which of a group's waiting joins and failures begin together.
#[derive(Clone, Copy, Debug, PartialEq, Eq)]
pub enum Batch {
    Neither,
    Joins,
    Failures,
    Both,
}

/// The vote that stands in for a voter who gives none.
#[derive(Clone, Copy, Debug, PartialEq, Eq)]
pub enum DefaultVote {
    Approve,
    Reject,
}

/// A group's attributes: how its joins and failure leaves are decided, what begins together, the default
/// vote, the time limit of a phase in ticks (0: none), the source group, and how reflections of the
/// source's value are decided.
#[derive(Drop)]
pub struct Attrs {
    pub phases: Phases,
    pub batch: Batch,
    pub default_vote: DefaultVote,
    pub limit: u16,
    pub source: Option<Name>,
    pub source_phases: Phases,
    pub source_limit: u16,
}

impl Attrs {
    /// The attributes of a group that nobody has joined.
    pub fn empty() -> Attrs
        ensures { result ≡ empty_attrs }
    {
        Attrs {
            phases: Phases::One,
            batch: Batch::Neither,
            default_vote: DefaultVote::Approve,
            limit: 0,
            source: None,
            source_phases: Phases::One,
            source_limit: 0,
        }
    }

    /// Equal attributes.
    pub fn copy(&self, alloc: Global) -> Result<Attrs, NoMemory>
        ensures { IfOk result (λ a. a ≡ self.now) }
    {
        let source = match &self.source {
            None => None,
            Some(name) => Some(name.copy(alloc)?),
        };
        Ok(Attrs {
            phases: self.phases,
            batch: self.batch,
            default_vote: self.default_vote,
            limit: self.limit,
            source,
            source_phases: self.source_phases,
            source_limit: self.source_limit,
        })
    }

    /// May a group of this name have these attributes? The fault is the first bad field: a limit over
    /// 10,000, then a source limit over 10,000, then a source that is the group itself or `HostMembership`.
    #[tactic(auto, unfolding(crate::specs::Attrs::first_fault))]
    pub fn check(&self, group: &[u8]) -> Result<(), AttrFault>
        ensures { result_err result ≡ first_fault self.now group.now }
    {
        if self.limit > MAX_LIMIT {
            return Err(AttrFault::Limit(self.limit));
        }
        if self.source_limit > MAX_LIMIT {
            return Err(AttrFault::SourceLimit(self.source_limit));
        }
        if is_bad_source(&self.source, group) {
            return Err(AttrFault::Source);
        }
        Ok(())
    }

    /// Is their source the same, or has neither one?
    pub fn has_same_source(&self, other: &Attrs) -> bool
        ensures value { result ≡ same_source self.now.source other.now.source }
        ensures equal { IsTrue result ↔ (self.now.source ≡ other.now.source) }
    {
        match (&self.source, &other.source) {
            (None, None) => true,
            (Some(own), Some(others)) => own.bytes() == others.bytes(),
            _ => false,
        }
    }

    /// Are all fields equal?
    #[tactic(auto, unfolding(crate::specs::Agree::agree))]
    pub fn agrees(&self, other: &Attrs) -> bool
        ensures value { result ≡ agree self.now other.now }
        ensures equal { IsTrue result ↔ (self.now ≡ other.now) }
    {
        self.phases == other.phases
            && self.batch == other.batch
            && self.default_vote == other.default_vote
            && self.limit == other.limit
            && self.has_same_source(other)
            && self.source_phases == other.source_phases
            && self.source_limit == other.source_limit
    }
}

/// Is the source the group itself, or `HostMembership`?
#[tactic(auto, unfolding(crate::specs::Attrs::is_bad_source))]
fn is_bad_source(source: &Option<Name>, group: &[u8]) -> bool
    ensures { result ≡ is_bad_source source.now group.now }
{
    match source {
        None => false,
        Some(name) => name.bytes() == group || name.bytes() == HOST_MEMBERSHIP,
    }
}

/// The first bad field of attributes: a limit or a source limit over 10,000, which it carries, or a source
/// that is the group itself or `HostMembership`.
#[derive(Clone, Copy, Debug, PartialEq, Eq)]
pub enum AttrFault {
    Limit(u16),
    SourceLimit(u16),
    Source,
}
