//! Each provider casts at most once in each phase, in every run.

ghost use Rattle.provider_laws.specs.single_casts.Ballots.{ProvidersCastWhenDue, ProvidersCastInPhase};
ghost use Rattle.provider_laws.specs.single_casts.Single.{ProvidersCastAfterNotice, ProvidersHearPhasesOnce, ProvidersCastOnce, BallotsKeptAsCast, OneBallotKept};

/// A provider casts only while a ballot of it is due: since it heard a Begin or a Phase it heard nothing but a Late, and it
/// has not cast.
#[tactic(auto, using(crate::proofs::single_casts::Law::casts_when_due))]
pub fn providers_cast_when_due()
    ensures { ProvidersCastWhenDue }
{}

/// And it casts in the phase that it heard opened last: by a Begin, the first phase of the protocol that is named by the view and
/// the place of that entry, or by a Phase, the one after that which it closed.
#[tactic(auto, using(crate::proofs::single_casts::Law::casts_in_phase))]
pub fn providers_cast_in_phase()
    ensures { ProvidersCastInPhase }
{}

/// So each ballot is cast after its provider heard the entry that opened the phase.
#[tactic(auto, using(crate::proofs::single_casts::Law::cast_after_notice))]
pub fn providers_cast_after_notice()
    ensures { ProvidersCastAfterNotice }
{}

/// No provider hears a phase of a protocol opened again.
#[tactic(auto, using(crate::proofs::single_casts::Once::hear_phases_once))]
pub fn providers_hear_phases_once()
    ensures { ProvidersHearPhasesOnce }
{}

/// So each casts at most once in each phase of each protocol.
#[tactic(auto, using(crate::proofs::single_casts::Once::cast_once))]
pub fn providers_cast_once()
    ensures { ProvidersCastOnce }
{}

/// A node keeps the ballot of a provider for a phase as it was cast: whatever it keeps of them is filled the same.
pub fn ballots_are_kept_as_cast()
    ensures { BallotsKeptAsCast }
{}

/// And it keeps at most one ballot of a provider for a phase of a protocol.
pub fn one_ballot_is_kept()
    ensures { OneBallotKept }
{}
