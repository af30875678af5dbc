//! What providers hear, in every run.

ghost use Rattle.row_laws.specs.hearing.Changes.{StepsAreChanges};
ghost use Rattle.row_laws.specs.hearing.Hearing.{ProvidersHearInARow, HeardLeavesNoGap, TakersHearAll};

/// Each step is a list of changes, of which one kind alone puts an entry or lets anybody hear: an entry is put, and those whom
/// the definition of handing on names hear it directly after that, in its order.
pub fn steps_are_changes()
    ensures { StepsAreChanges }
{}

/// Whatever starts, stops and steps, in any order: each notice that a provider hears stands in the event in which its node puts
/// that entry, at that place; and each place that it hears of a list of a view is the one after the last that it heard, or that
/// one once more.
#[tactic(auto, using(crate::proofs::hearing::Listening::providers_hear))]
pub fn providers_hear_in_a_row()
    ensures { ProvidersHearInARow }
{}

/// So between two places of a list of a view that a provider hears it hears every place.
pub fn heard_leaves_no_gap()
    ensures { HeardLeavesNoGap }
{}

/// Between two events, whoever takes part at a node has heard all that the node put into its group's list of the view that the
/// node is in.
pub fn takers_hear_all()
    ensures { TakersHearAll }
{}
