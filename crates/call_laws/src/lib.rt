//! What calls of clients leave in the records of a run.
#![tactic(auto)]

pub mod samples;

ghost use Rattle.call_laws.specs.Calls.{CallsOfScenesAreSaid};
ghost use Rattle.call_laws.specs.Records.{CallsLeaveRecords};
ghost use Rattle.call_laws.specs.Runs.{EveryCallIsSaid};

/// In every run of events that may happen, whatever its clients answer, each request is the one that the call of its event asks for, of
/// its client's own provider in its group, and each ballot is the one that the `vote` call of its event gives, or its provider's client
/// was handed an entry in that event.
pub fn every_call_is_said()
    ensures { EveryCallIsSaid }
{}

/// So it is in every scene that events lead to, where the history names calls.
pub fn calls_of_scenes_are_said()
    ensures { CallsOfScenesAreSaid }
{}

/// In every world a call at a node that is up is refused, or it leaves its record: a request that says what the call says, or a ballot
/// with its vote and value.
pub fn calls_leave_records()
    ensures { CallsLeaveRecords }
{}
