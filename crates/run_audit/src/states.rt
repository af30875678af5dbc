//! The state of a list, entry by entry.
ghost use Rattle.std.specs.Prelude.{◌≡◌, IfOk, OnOk};
ghost use Rattle.proposal_core.specs.Fold.{after, empty_state, fits, joiners_in, voters};
ghost use Rattle.run_audit.specs.Table.{same_open};

use proposal_core::{Entry, GroupState};
use record_lines::OpenPhase;
use rsct_packet::{NoMemory, ProviderId, Providers, ViewId};
use std::alloc::Global;
use std::marker::Model;

/// The state of a list: the running joiners are no members, and with the members at most 64.
#[derive(Drop)]
pub struct State {
    inner: GroupState,
}

impl Model for State {
    ghost use Rattle.std.specs.Prelude.{IsTrue};
    ghost use Rattle.proposal_core.specs.declared.group_state.GroupState.{GroupState};
    ghost use Rattle.proposal_core.specs.Fold.{joiners_fit};

    ghost Value = { GroupState };

    ghost view = { λ s. s.inner };

    ghost invariant = { λ s. IsTrue (joiners_fit s.inner) };
}

impl State {
    /// The state of a group that nobody has joined.
    #[tactic(auto, unfolding(proposal_core::specs::Fold::joiners_fit, proposal_core::specs::Fold::joiners_fit_at))]
    pub fn empty(alloc: Global) -> State
        ensures { result ≡ empty_state }
    {
        State {
            inner: GroupState::empty(alloc),
        }
    }

    pub fn copy(&self, alloc: Global) -> Result<State, NoMemory>
        ensures { IfOk result (λ s. s ≡ self.now) }
    {
        Ok(State {
            inner: self.inner.copy(alloc)?,
        })
    }

    /// Does the entry fit?
    pub fn fits(&self, entry: &Entry) -> bool
        ensures { result ≡ fits self.now entry.now }
    {
        self.inner.fits(entry)
    }

    /// Who votes on what runs.
    pub fn voters(&self, alloc: Global) -> Result<Providers, NoMemory>
        ensures { IfOk result (λ ps. ps ≡ voters self.now) }
    {
        self.inner.voters(alloc)
    }

    /// Takes the entry at this place of a list of the view; one that does not fit leaves the state as it was.
    #[tactic(auto, unfolding(proposal_core::specs::Fold::after, proposal_core::specs::Fold::after_if))]
    pub fn take(
        &mut self,
        alloc: Global,
        view: ViewId,
        place: u32,
        entry: &Entry,
    ) -> Result<(), NoMemory>
        ensures { OnOk result (self.new ≡ after self.old view place entry.now) }
    {
        if self.inner.fits(entry) {
            self.inner.apply(alloc, view, place, entry)
        } else {
            Ok(())
        }
    }

    /// These are the failed now.
    #[tactic(auto, unfolding(proposal_core::specs::Fold::joiners_fit, proposal_core::specs::Fold::joiners_fit_at, proposal_core::specs::Fold::can_begin))]
    pub fn set_failed(&mut self, failed: Providers)
        ensures { self.new ≡ record self.old { failed = failed } }
    {
        self.inner.failed = failed;
    }

    pub fn failed(&self) -> &[ProviderId]
        ensures { result.now ≡ self.now.failed }
    {
        self.inner.failed.as_slice()
    }

    pub fn members(&self) -> &[ProviderId]
        ensures { result.now ≡ self.now.members }
    {
        self.inner.members.as_slice()
    }

    /// The joiners of what runs.
    pub fn joiners(&self) -> &[ProviderId]
        ensures { result.now ≡ joiners_in self.now.running }
    {
        self.inner.joiners()
    }

    pub fn value(&self) -> &[u8]
        ensures { result.now ≡ self.now.value }
    {
        self.inner.value.bytes()
    }

    /// Is this the phase that runs, or does nothing?
    #[tactic(auto, unfolding(crate::specs::Table::same_open))]
    pub fn is_open(&self, phase: Option<OpenPhase>) -> bool
        ensures { result ≡ same_open phase self.now.running }
    {
        match phase {
            None => match &self.inner.running {
                None => true,
                Some(_) => false,
            },
            Some(phase) => match &self.inner.running {
                None => false,
                Some(run) => phase.proto == run.proto && phase.phase == run.phase,
            },
        }
    }
}
