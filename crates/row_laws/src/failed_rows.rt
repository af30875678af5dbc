//! Why entries say that providers failed, in every run.

ghost use Rattle.row_laws.specs.failed_rows.Failures.{GoodbyesLetGo};
ghost use Rattle.row_laws.specs.failed_rows.Scenes.{FailuresAreHonest, RequestsHaveOneGroup};

/// Where a place of a list is put first: a default row of who failed has the default vote of the state's attributes, and its
/// provider is on the failed list of that state, or its own node gave it up; and a failure leave names members of that state
/// alone, each with a cause that holds there.
#[tactic(auto, using(crate::proofs::failed_rows::Law::failures_are_honest))]
pub fn failures_are_honest()
    ensures { FailuresAreHonest }
{}

/// Whoever is gone by a goodbye was let go by its own client.
#[tactic(auto, using(crate::proofs::failed_rows::LetGo::goodbyes_let_go))]
pub fn goodbyes_let_go()
    ensures { GoodbyesLetGo }
{}

/// Each request of a provider is asked in one group alone, since its number is given once.
#[tactic(auto, using(crate::proofs::failed_rows::Groups::requests_have_one_group))]
pub fn requests_have_one_group()
    ensures { RequestsHaveOneGroup }
{}
