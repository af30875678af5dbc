//! A group's state.
ghost use Rattle.std.specs.Prelude.{◌≡◌, ◌||◌, IfOk, IsTrue};
ghost use Rattle.rsct_packet.specs.Providers.{among, AreProviders};
ghost use Rattle.proposal_core.specs.Fold.{empty_state, voters, voters_on, can_begin, joiners_in, joiners_fit, present};

use crate::fold::take_off_fallen;
use crate::proposal::Proposal;
use crate::texts::copy_text;
use group_attr::Attrs;
use rsct_packet::{
    MAX_PROVIDERS, NoMemory, ProtoId, ProviderId, Providers, Text, is_among, is_none_among,
};
use std::alloc::Global;

/// A protocol that runs: its phase is from 1 to 200, and `proposed` is the value that its approval sets.
pub struct Running {
    pub proto: ProtoId,
    pub proposal: Proposal,
    pub phase: u16,
    pub proposed: Option<Text>,
}

/// A group's state: its members in the order of their joins, its value and attributes, the members and
/// running joiners that failed, where its value was set, up to where its source's value was reflected, and
/// the protocol that runs.
pub struct GroupState {
    pub members: Providers,
    pub value: Text,
    pub attrs: Attrs,
    pub failed: Providers,
    pub value_at: Option<ProtoId>,
    pub reflected_at: Option<ProtoId>,
    pub running: Option<Running>,
}

// Written out: a drop is one call then, whose proof is made once.
impl Drop for Running {
    fn drop(self) {
        let Running {
            proto: _,
            proposal: _proposal,
            phase: _,
            proposed: _proposed,
        } = self;
    }
}

impl Drop for GroupState {
    fn drop(self) {
        let GroupState {
            members: _members,
            value: _value,
            attrs: _attrs,
            failed: _failed,
            value_at: _,
            reflected_at: _,
            running: _running,
        } = self;
    }
}

impl Running {
    /// The value that its approval sets, of one that ends.
    pub(crate) fn into_proposed(self) -> Option<Text>
        ensures { result ≡ self.proposed }
    {
        let Running {
            proto: _,
            proposal: _proposal,
            phase: _,
            proposed,
        } = self;
        proposed
    }

    /// An equal record of it.
    pub fn copy(&self, alloc: Global) -> Result<Running, NoMemory>
        ensures { IfOk result (λ r. r ≡ self.now) }
    {
        Ok(Running {
            proto: self.proto,
            phase: self.phase,
            proposed: copy_text(alloc, &self.proposed)?,
            proposal: self.proposal.copy(alloc)?,
        })
    }
}

fn copy_running(alloc: Global, run: &Option<Running>) -> Result<Option<Running>, NoMemory>
    ensures { IfOk result (λ r. r ≡ run.now) }
{
    match run {
        None => Ok(None),
        Some(run) => Ok(Some(run.copy(alloc)?)),
    }
}

impl GroupState {
    /// The state of a group that nobody has joined.
    pub fn empty(alloc: Global) -> GroupState
        ensures { result ≡ empty_state }
    {
        GroupState {
            members: Providers::new(alloc),
            value: Text::new(alloc),
            attrs: Attrs::empty(),
            failed: Providers::new(alloc),
            value_at: None,
            reflected_at: None,
            running: None,
        }
    }

    /// An equal state.
    pub fn copy(&self, alloc: Global) -> Result<GroupState, NoMemory>
        ensures { IfOk result (λ s. s ≡ self.now) }
    {
        Ok(GroupState {
            members: self.members.copy(alloc)?,
            value: self.value.copy(alloc)?,
            attrs: self.attrs.copy(alloc)?,
            failed: self.failed.copy(alloc)?,
            value_at: self.value_at,
            reflected_at: self.reflected_at,
            running: copy_running(alloc, &self.running)?,
        })
    }

    /// The joiners of what runs.
    pub fn joiners(&self) -> &[ProviderId]
        ensures value { result.now ≡ joiners_in self.now.running }
        ensures providers { AreProviders (joiners_in self.now.running) }
    {
        match &self.running {
            None => &[],
            Some(run) => run.proposal.joiners(),
        }
    }

    /// Is the provider a member, or a joiner of what runs?
    #[tactic(auto, using(crate::proofs::FoldLaws::among_both))]
    pub fn is_present(&self, provider: ProviderId) -> bool
        ensures value { result ≡ among (present self.now) provider }
        ensures either { result
            ≡ (among self.now.members provider || among (joiners_in self.now.running) provider) }
    {
        is_among(self.members.as_slice(), provider) || is_among(self.joiners(), provider)
    }

    /// Are the joiners of what runs no members, and with the members at most 64?
    #[tactic(auto, unfolding(crate::specs::Fold::joiners_fit, crate::specs::Fold::joiners_fit_at, crate::specs::Fold::can_begin))]
    pub fn do_joiners_fit(&self) -> bool
        ensures { result ≡ joiners_fit self.now }
    {
        match &self.running {
            None => true,
            Some(run) => match &run.proposal {
                Proposal::Join { ps, .. } => {
                    is_none_among(self.members.as_slice(), ps.as_slice())
                        && self.members.len() + ps.len() <= MAX_PROVIDERS
                }
                _ => true,
            },
        }
    }

    /// Who votes on a proposal.
    #[tactic(auto, unfolding(crate::specs::Fold::voters_on, crate::specs::Fold::can_begin))]
    fn voters_on(&self, alloc: Global, proposal: &Proposal) -> Result<Providers, NoMemory>
        requires { IsTrue (can_begin self.now proposal.now) }
        ensures { IfOk result (λ ps. ps ≡ voters_on self.now proposal.now) }
    {
        match proposal {
            Proposal::Join { ps, .. } => self.members.with(alloc, ps),
            Proposal::Leave { provider, .. } => self.members.without_all(alloc, &[*provider]),
            Proposal::Fail { out } => {
                let mut voters = self.members.copy(alloc)?;
                take_off_fallen(&mut voters, out.as_slice());
                Ok(voters)
            }
            Proposal::Expel { out, .. } => self.members.without_all(alloc, out.as_slice()),
            _ => self.members.copy(alloc),
        }
    }

    /// Who votes on what runs: the members in their order without those that it takes off, then its
    /// joiners. Empty where nothing runs.
    #[tactic(auto, unfolding(crate::specs::Fold::voters, crate::specs::Fold::voters_at, crate::specs::Fold::joiners_fit, crate::specs::Fold::joiners_fit_at))]
    pub fn voters(&self, alloc: Global) -> Result<Providers, NoMemory>
        requires { IsTrue (joiners_fit self.now) }
        ensures { IfOk result (λ ps. ps ≡ voters self.now) }
    {
        match &self.running {
            None => Ok(Providers::new(alloc)),
            Some(run) => self.voters_on(alloc, &run.proposal),
        }
    }
}
