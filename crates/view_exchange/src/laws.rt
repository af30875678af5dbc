//! Laws of gatherings.
ghost use Rattle.view_exchange.specs.Gathered.{FirstsCount};
ghost use Rattle.view_exchange.specs.Longest.{LongestAreCarried};

/// Of all answers that come, the first of each node that was asked counts alone.
#[tactic(auto, using(crate::proofs::Gathered::firsts_count))]
pub fn first_answers_count()
    ensures { FirstsCount }
{}

/// Whatever the order in which answers came, the install carries for each old view and group a list that one of
/// them brought, and none that was brought is longer, or as long and of a lesser node.
#[tactic(auto, using(crate::proofs::Longest::longest_are_carried))]
pub fn longest_lists_are_carried()
    ensures { LongestAreCarried }
{}
