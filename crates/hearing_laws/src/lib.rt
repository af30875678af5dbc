//! What providers hear in a run, one thing after another.
#![tactic(auto)]

ghost use Rattle.hearing_laws.specs.Passing.{PassersComeFromTheBase};
ghost use Rattle.hearing_laws.specs.Walk.{SafeHearingsWalk};

/// A provider that passes with its group into a view comes from the view that the group's base comes from, with a list as
/// long as the base says.
pub fn passers_come_from_the_base()
    ensures { PassersComeFromTheBase }
{}

/// What a provider hears in a safe run is one walk through the lists of its group: it begins with the provider's own join, place
/// comes after place, and from the end of a list it goes to the first place of a view in which the group goes on from there. Views in
/// which nothing was put may stand in between.
pub fn hearings_walk()
    ensures { SafeHearingsWalk }
{}
