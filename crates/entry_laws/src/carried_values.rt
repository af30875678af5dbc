//! What the entries that close phases carry, in every run.

ghost use Rattle.entry_laws.specs.carried_values.Carried.{FirstBallotsAlwaysCarry, SentBallotsAreTold, KeptBallotsAreTold};

/// The value and the message of an entry that closes a phase are those of the earliest ballot, in the order of its rows,
/// that has one.
#[tactic(auto, using(crate::proofs::carried_values::Law::first_ballots_carry))]
pub fn first_ballots_carry()
    ensures { FirstBallotsAlwaysCarry }
{}

/// Each ballot that was sent was cast as it stands, with its value and its message.
#[tactic(auto, using(crate::proofs::carried_values::Law::sent_ballots))]
pub fn sent_ballots_are_told()
    ensures { SentBallotsAreTold }
{}

/// So was each ballot that a node keeps.
pub fn kept_ballots_are_told()
    ensures { KeptBallotsAreTold }
{}
