//! Who fails as gone without a goodbye: it did not pass into the view.

ghost use Rattle.run_laws.specs.failed_causes.Causes.{FailuresAreExact};
ghost use Rattle.run_laws.specs.failed_causes.Passed.{WhoIsOverDidNotPass, BasesComeFirst, BasesFromElsewhereFail};
ghost use Rattle.run_laws.specs.failed_causes.Entering.{EachBaseFollows};

/// Whatever starts, stops and steps, in any order: a node notes the bases of a view in the event in which it enters the view,
/// directly after that.
#[tactic(auto, using(crate::proofs::failed_causes::Bases::each_base_follows))]
pub fn bases_follow_entering()
    ensures { EachBaseFollows }
{}

/// So where a node notes a base, it put nothing of that group since it entered the view.
#[tactic(auto, using(crate::proofs::failed_causes::Bases::bases_come_first))]
pub fn bases_come_first()
    ensures { BasesComeFirst }
{}

/// And where the base comes from another view than the node, whoever is there of the node, in its incarnation, is on the base's failed
/// list.
#[tactic(auto, using(crate::proofs::failed_causes::Elsewhere::bases_away))]
pub fn bases_from_elsewhere_fail()
    ensures { BasesFromElsewhereFail }
{}

/// Whoever its own node held in a view although it was over is of the base there, did not pass into the view, and is named by no
/// join of the view's list, whichever node puts it and whenever.
#[tactic(auto, using(crate::proofs::failed_causes::Law::over_did_not_pass))]
pub fn who_is_over_did_not_pass()
    ensures { WhoIsOverDidNotPass }
{}

/// So where a place of a list is put first, each default row of who failed and each failure leave has its cause: the provider is on
/// the failed list, or its own client said goodbye, or it did not pass into the view.
#[tactic(auto, using(crate::proofs::failed_causes::Causes::failures_are_exact))]
pub fn failures_are_exact()
    ensures { FailuresAreExact }
{}
