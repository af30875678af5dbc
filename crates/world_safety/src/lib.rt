//! Every run of the world is safe.
#![tactic(auto)]

pub mod examples;

ghost use Rattle.world_safety.specs.Safety.{RunHasTheRecords, EveryRunIsReached, EveryRunIsSafe};
ghost use Rattle.world_safety.specs.Scripts.{EveryScriptIsSafe, EveryKeptRunIsSafe};
ghost use Rattle.world_safety.specs.Lemmas.{SafeRunsHaveOneList, SafeRunsLeaveNoGap};
ghost use Rattle.world_safety.specs.HeardStates.{HeardStatesAreFolds, FoldsStay};
ghost use Rattle.world_safety.specs.Askers.{FirstAskersAlwaysLead};
ghost use Rattle.world_safety.specs.Plays.{ScriptsMayPlay, EveryAnswerIsSafe, EventsAreSafe, EveryPlayIsSafe, EveryKeptPlayIsSafe};

/// The run of a list of plain events has the records of the world after them.
#[tactic(auto, using(crate::proofs::Traces::run_has_the_records))]
pub fn run_has_the_records()
    ensures { RunHasTheRecords }
{}

/// To the world after plain events, starts, stops and steps come by the same history.
#[tactic(auto, using(crate::proofs::Runs::every_run_is_reached))]
pub fn every_run_is_reached()
    ensures { EveryRunIsReached }
{}

/// Whatever plain events come, in any order: what each group sees of the run is safe, and each view and group has one list.
pub fn every_run_is_safe()
    ensures { EveryRunIsSafe }
{}

/// The records of every script are those of a safe run.
pub fn every_script_is_safe()
    ensures { EveryScriptIsSafe }
{}

/// So are the records of a script up to the event whose packets pass a number of bytes.
pub fn every_kept_run_is_safe()
    ensures { EveryKeptRunIsSafe }
{}

/// Whatever kind of clients there are, and whatever they answer: the records of events that may happen, in any order,
/// are those of a safe run.
pub fn every_answer_is_safe()
    ensures { EveryAnswerIsSafe }
{}

/// Outside of mode fixed, who asks first for a group without a base leads it: where the first LOOKUP of it that the coordinator
/// of a view took is of a node, each first put into the list is this node's.
#[tactic(auto, using(crate::proofs::Askers::first_askers_lead))]
pub fn first_askers_lead()
    ensures { FirstAskersAlwaysLead }
{}

/// So where the clients vote by the words of a script.
pub fn events_are_safe()
    ensures { EventsAreSafe }
{}

/// In a safe run two entries at one place of one view's list of a group are the same.
pub fn safe_runs_have_one_list()
    ensures { SafeRunsHaveOneList }
{}

/// In a safe run a provider hears every place between two that it hears.
pub fn safe_runs_leave_no_gap()
    ensures { SafeRunsLeaveNoGap }
{}

/// What a provider hears at place i of its node's list of a group comes with the fold of the first i + 1 entries of that
/// list: in every run of events that may happen, whatever kind of clients there are, and whatever they answer.
#[tactic(auto, using(crate::proofs::HeardStates::heard_states_are_folds))]
pub fn heard_states_are_folds()
    ensures { HeardStatesAreFolds }
{}

/// And what was the fold of a front of a list is it still after whatever comes then.
#[tactic(auto, using(crate::proofs::HeardStates::folds_stay))]
pub fn folds_stay()
    ensures { FoldsStay }
{}

/// Each script that is read may play: its lines name no node 0 that starts, and start none in mode fixed; and on each network
/// the addresses of its settings differ.
#[tactic(auto, using(crate::proofs::Lined::scripts_may_play))]
pub fn scripts_may_play()
    ensures { ScriptsMayPlay }
{}

/// Where the lines of a script may happen, however it was made, its records are those of a safe run.
pub fn every_play_is_safe()
    ensures { EveryPlayIsSafe }
{}

/// So are those up to the event whose packets pass a number of bytes.
pub fn every_kept_play_is_safe()
    ensures { EveryKeptPlayIsSafe }
{}
