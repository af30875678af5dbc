//! Runs of worlds whose packets may go through other nodes: which are the same, and what they come to under any answers of
//! the clients.
#![tactic(auto)]

ghost use Rattle.relay_runs.specs.Laws.{WaitingIsNotRead, PlaysGoOn, WordedPlaysAreOne};

/// What happens in a world does not depend on what waits there.
#[tactic(auto, using(crate::proofs::Waits::same_goes))]
pub fn waiting_datagrams_are_not_read()
    ensures { WaitingIsNotRead }
{}

/// There is a play of any lines.
#[tactic(auto, using(crate::proofs::Going::plays_go_on))]
pub fn relayed_plays_go_on()
    ensures { PlaysGoOn }
{}

/// Where each client votes just as its word says, it comes to the one world of the definitions.
#[tactic(auto, using(crate::proofs::Worded::worded_plays_are_one))]
pub fn worded_relayed_plays_are_one()
    ensures { WordedPlaysAreOne }
{}
