//! A law of the logs of clients.
ghost use Rattle.std.specs.Prelude.{List};
ghost use Rattle.node_state.specs.declared.config.Config.{Config};
ghost use Rattle.world_laws.specs.world_answers.Answers.{Answered, events_in};
ghost use Rattle.world_safety.specs.Events.{AllMayHappen};
ghost use Rattle.hand_laws.specs.Hearers.{LogsHaveAll};

use client_callbacks::Callbacks;

/// In a run of events that may happen each session of a node that is up has a log, and that log has all that each provider of the
/// session heard so far. It is one case of what is proved of any property of logs and of ballots that each handing keeps, where the
/// client that something is handed to was handed all that its provider heard before (`proofs/Along`).
pub fn logs_have_all<C: Callbacks>()
    ensures { (c : Config) (all : List Answered) → AllMayHappen c (events_in all)
        → LogsHaveAll C.stands_for c all }
{}
