//! Laws of the logs of clients.
ghost use Rattle.std.specs.Prelude.{List};
ghost use Rattle.node_state.specs.declared.config.Config.{Config};
ghost use Rattle.world_laws.specs.world_answers.Answers.{Answered, events_in};
ghost use Rattle.world_safety.specs.Events.{AllMayHappen};
ghost use Rattle.run_hands.specs.Logs.{StatesAreFolds};

use client_callbacks::Callbacks;

/// In each log that a run of events that may happen hands out, the state that comes with an entry is the fold of its group's
/// list up to that entry. It is one case of what is proved of any property of logs that an empty log has, that stays when
/// more happens, and that each handing of a step keeps (`proofs/EveryLog`).
#[tactic(auto, using(crate::proofs::FoldLaws::states_are_folds))]
pub fn states_are_folds<C: Callbacks>()
    ensures { (c : Config) (es : List Answered) → AllMayHappen c (events_in es)
        → StatesAreFolds C.stands_for c es }
{}
