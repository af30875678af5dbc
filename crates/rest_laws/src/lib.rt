//! What leaders at rest have done.
#![tactic(auto)]

pub mod samples;

ghost use Rattle.rest_laws.specs.Leaders.{LeadersOfScenesAreAtRest};
ghost use Rattle.rest_laws.specs.Runs.{EveryLeaderIsAtRest};

/// At each moment of each run of events that may happen, whatever its clients answer: where a node leads a group and is not frozen,
/// nothing runs there and its list has room, no join and no failure waits; and where the group has a source, each member has a member
/// of the source on its node, and no value of the source was set later than the one that was reflected. So cast-outs, reflections and
/// joins begin as soon as they can.
pub fn every_leader_is_at_rest()
    ensures { EveryLeaderIsAtRest }
{}

/// So it is in every scene that events lead to.
pub fn leaders_of_scenes_are_at_rest()
    ensures { LeadersOfScenesAreAtRest }
{}
