//! Who takes part hears each put, and just who is left behind as a view is entered is told so, in every run.

ghost use Rattle.run_laws.specs.gapless.Heard.{EachPutIsHeard, AllHearEachPut};
ghost use Rattle.run_laws.specs.gapless.Hears.{TakersHear};
ghost use Rattle.run_laws.specs.gapless.Alike.{TakersHearAlike};
ghost use Rattle.run_laws.specs.gapless.Left.{TheToldWereLeftBehind, JustTheLeftBehindAreTold};
ghost use Rattle.run_laws.specs.gapless.Takers.{TakersTakePart};

/// Whoever takes part at its node by the records, from a first place of the latest stay on and with no last one, and was not let go,
/// is a provider of its node, in that group, and takes part there: in every scene whose history names calls, and calls alone, as
/// calls.
#[tactic(auto, using(crate::proofs::gapless::TakerLaw::takers_take_part))]
pub fn takers_are_providers()
    ensures { TakersTakePart }
{}

/// So in the event of a put each provider of the node that takes part at its place hears it, unless it was let go by an earlier
/// event or is let go by this one.
#[tactic(auto, using(crate::proofs::gapless::HeardLaw::takers_hear))]
pub fn takers_hear_each_put()
    ensures { TakersHear }
{}

/// Whoever is told DISSOLVED was left behind in that event: its node enters a view there, it took part to the end of its node's stay
/// before, by the records, it does not pass into the new one, and no earlier event let it go.
#[tactic(auto, using(crate::proofs::gapless::LeftLaw::told_were_left))]
pub fn the_told_were_left_behind()
    ensures { TheToldWereLeftBehind }
{}

/// And just those are told: in every scene whose history names calls, and calls alone, as calls, a provider is told DISSOLVED in an
/// event exactly where it is left behind there.
#[tactic(auto, using(crate::proofs::gapless::Just::just_the_left))]
pub fn just_the_left_behind_are_told()
    ensures { JustTheLeftBehindAreTold }
{}

/// In the event of a put, each provider of the node that takes part at its place hears it, unless an earlier event let it go, or its
/// client says goodbye in that very event: in every scene whose history names calls, and calls alone, as calls.
#[tactic(auto, using(crate::proofs::gapless::HeardLaw::each_put_is_heard))]
pub fn each_put_is_heard_by_takers()
    ensures { EachPutIsHeard }
{}

/// Since no goodbye that is taken puts anything, in the event of a put each provider of the node that takes part at its place hears it,
/// unless an earlier event let it go.
#[tactic(auto, using(crate::proofs::gapless::Quiet::all_hear))]
pub fn all_hear_each_put()
    ensures { AllHearEachPut }
{}

/// So two providers that take part at one place of a view's list both hear it, with the same entry, members and value, in every run
/// whose groups are safe; and where their nodes go from that view into the same next one, their lists are equal.
pub fn takers_hear_alike()
    ensures { TakersHearAlike }
{}
