//! What the events of runs with relays hand to clients.
#![tactic(auto)]

ghost use Rattle.relay_hands.specs.Laws.{HandsDirectly};

use client_callbacks::Callbacks;

/// What a run with relays hands to clients is what the run of the direct world hands to them that it is, event by event.
#[tactic(auto, using(crate::proofs::Handing::hands_directly))]
pub fn hands_directly<C: Callbacks>()
    ensures { HandsDirectly C.stands_for }
{}
