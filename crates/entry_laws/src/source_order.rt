//! Source groups and target groups, in every run.

ghost use Rattle.entry_laws.specs.source_order.Sources.{ReflectionsAlwaysRise, ReflectionsAlwaysClimb, JoinsAlwaysCarryLengths, FirstsAlwaysFollowSources, JoinsAlwaysOverSources};

/// Each reflection that a node puts into a list names a place greater than the reflected one of the state before it.
#[tactic(auto, using(crate::proofs::source_order::Law::reflections_rise))]
pub fn reflections_rise()
    ensures { ReflectionsAlwaysRise }
{}

/// So its place is greater than that of each reflection that the node put into that list before, whether that one was approved,
/// rejected or neither, than the reflected place of the base that the node recorded, and than that of a reflection that runs
/// in the base.
#[tactic(auto, using(crate::proofs::source_order::Law::reflections_climb))]
pub fn reflections_climb()
    ensures { ReflectionsAlwaysClimb }
{}

/// Each join that a node puts into a list carries a source length just where its attributes have a source.
#[tactic(auto, using(crate::proofs::source_order::Law::joins_carry_lengths))]
pub fn joins_carry_lengths()
    ensures { JoinsAlwaysCarryLengths }
{}

/// Where a reflection is put first, its place and its value are the value place and the value of the source's state at that
/// node. Where a join is put first, its attributes are those of the request of the first joiner that was chosen, if that was
/// decided in an empty idle group, else those of the group; and where these have a source, it carries the length of the
/// source's list there, and each of its providers has a member of the source on its own node.
#[tactic(auto, using(crate::proofs::source_order::Law::firsts_follow_sources))]
pub fn firsts_follow_sources()
    ensures { FirstsAlwaysFollowSources }
{}

/// So wherever and whenever a join over a source is put: by the records of each node that has so many entries of the source's
/// list in that view, each of the join's providers has a member of the state that these entries make on its own node.
#[tactic(auto, using(crate::proofs::source_order::Law::joins_over_sources))]
pub fn joins_over_sources()
    ensures { JoinsAlwaysOverSources }
{}
