//! What holds of worlds whose packets may go through other nodes: they carry what was handed out, along routes of next hops, and
//! their runs are those of the direct world.
#![tactic(auto)]

ghost use Rattle.relay_laws.specs.Carrying.{EventsCarry, DeliveriesAreDirect};
ghost use Rattle.relay_laws.specs.Routes.{EnvelopesAreRouted};
ghost use Rattle.relay_laws.specs.Bare.{RunsWithoutRelays};
ghost use Rattle.relay_laws.specs.Direct.{RelayedRunsAreSafe};
ghost use Rattle.relay_laws.specs.Plays.{EveryRelayedPlayIsSafe, EveryKeptRelayedPlayIsSafe};

/// Whatever happens, each packet that goes by itself is one that its sender's steps sent to who it goes to, and each in an
/// envelope is one that its origin's steps sent to its target.
#[tactic(auto, using(crate::proofs::Carrying::events_carry))]
pub fn events_carry()
    ensures { EventsCarry }
{}

/// Each delivery is, for the nodes and what they record, nothing, or that a node is given a packet that was sent to it.
pub fn deliveries_are_direct()
    ensures { DeliveriesAreDirect }
{}

/// In every run each envelope came from its origin by next hops, each by the rows that the node had as it sent it; and with
/// each step a hop less is left, of 31.
#[tactic(auto, using(crate::proofs::Routes::envelopes_are_routed))]
pub fn envelopes_are_routed()
    ensures { EnvelopesAreRouted }
{}

/// The records of every run with relays are those of a safe run of the direct world, event by event.
#[tactic(auto, using(crate::proofs::Direct::relayed_runs_are_safe))]
pub fn relayed_runs_are_safe()
    ensures { RelayedRunsAreSafe }
{}

/// Where each packet has a network, as where each two nodes share one, the run with relays is that of the direct world: the same
/// nodes and records, and each datagram is a packet by itself.
#[tactic(auto, using(crate::proofs::Bare::runs_without_relays))]
pub fn runs_without_relays()
    ensures { RunsWithoutRelays }
{}

/// Where the lines of a script may happen, however it was made, its records with relays are those of a safe run of the direct
/// world, event by event.
pub fn every_relayed_play_is_safe()
    ensures { EveryRelayedPlayIsSafe }
{}

/// So are those up to the event whose datagrams pass a number of bytes.
pub fn every_kept_relayed_play_is_safe()
    ensures { EveryKeptRelayedPlayIsSafe }
{}
