//! What entries of a run begin, where they are first put.
#![tactic(auto)]

pub mod samples;

ghost use Rattle.begin_laws.specs.Begins.{EntriesOfScenesBeginAsMeant};
ghost use Rattle.begin_laws.specs.Runs.{EveryEntryBeginsAsMeant};

/// In every run of events that may happen, whatever its clients answer, each entry begins as is meant where it is first put: a change
/// was asked for by a call of a client at its provider's own node, of a member that has not failed, and it is decided at once or
/// voted on as that call said; a join and a failure leave as the attributes have it, and a reflection as the group's attributes have
/// it for reflections; whom a change expels are members; and several joins, or several failures, begin together only where the
/// attributes have it.
pub fn every_entry_begins_as_meant()
    ensures { EveryEntryBeginsAsMeant }
{}

/// So it is in every scene that events lead to, where the history names calls.
pub fn entries_of_scenes_begin_as_meant()
    ensures { EntriesOfScenesBeginAsMeant }
{}
