//! Laws of views.
ghost use Rattle.view_core.specs.Laws.{ViewsBegin, PromisesStand, ViewsRise};

/// The views of a node that starts are as every event leaves them: the promise is not less than the view, and nothing is
/// gathered.
#[tactic(auto, using(crate::proofs::Promises::views_begin))]
pub fn views_begin_promised()
    ensures { ViewsBegin }
{}

/// At every event, whatever the node's lists: the node stays in its view, its promise does not fall and is never
/// less than the view, and what it gathers for or is to apply is the promise, and above its view.
#[tactic(auto, using(crate::proofs::Promises::promises_stand))]
pub fn promises_never_fall()
    ensures { PromisesStand }
{}

/// A view that is entered since it was to be applied is above the one before.
#[tactic(auto, using(crate::proofs::Promises::views_rise))]
pub fn views_rise()
    ensures { ViewsRise }
{}
