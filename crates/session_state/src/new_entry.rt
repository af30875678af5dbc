//! A new entry of a group's list, as it is handed on.
ghost use Rattle.std.specs.Prelude.{◌≡◌, [], Option};
ghost use Rattle.proposal_core.specs.Fold;
ghost use Rattle.session_state.specs.HandOn.{is_late, opens_phase, asks, running_phase, brought_by};

use crate::state::OpenPhase;
use proposal_core::{Entry, GroupState, Running};
use rsct_packet::{Name, ProviderId, ViewId, is_among};

/// A new entry of a group's list at its place in a view, with the state after it and that state's voters.
#[derive(Clone, Copy)]
pub struct NewEntry<'a> {
    pub view: ViewId,
    pub group: &'a Name,
    pub place: u32,
    pub entry: &'a Entry,
    pub after: &'a GroupState,
    pub voters: &'a [ProviderId],
    ghost are_voters: { voters.now ≡ Rattle.proposal_core.specs.Fold.voters after.now },
}

pub fn is_late(entry: &Entry) -> bool
    ensures { result ≡ is_late entry.now }
{
    match entry {
        Entry::Late { .. } => true,
        _ => false,
    }
}

/// Does the entry open a phase?
fn opens_phase(entry: &Entry) -> bool
    ensures { result ≡ opens_phase entry.now }
{
    match entry {
        Entry::Begin(_) => true,
        Entry::Phase(_) => true,
        _ => false,
    }
}

/// The phase that runs.
pub fn running_phase(running: &Option<Running>) -> Option<OpenPhase>
    ensures { result ≡ running_phase running.now }
{
    match running {
        None => None,
        Some(run) => Some(OpenPhase {
            proto: run.proto,
            phase: run.phase,
        }),
    }
}

/// Those whom the entry's join brings.
pub fn brought_by(entry: &Entry) -> &[ProviderId]
    ensures { result.now ≡ brought_by entry.now }
{
    match entry {
        Entry::Once(x) => x.joiners(),
        Entry::Begin(x) => x.joiners(),
        _ => &[],
    }
}

impl NewEntry<'_> {
    /// Does its notice ask the provider for a vote?
    #[tactic(auto, unfolding(crate::specs::HandOn::asks))]
    pub fn asks(&self, provider: ProviderId) -> bool
        ensures { result ≡ asks self.now.entry.now self.now.after.now provider }
    {
        opens_phase(self.entry) && is_among(self.voters, provider)
    }
}
