//! Each rule of a transcript, of the lines of a run.
ghost use Rattle.run_audit.specs.declared.broken.Rule.TheVariants as rule;
ghost use Rattle.audit_laws.specs.Records.{Keeps};
ghost use Rattle.audit_laws.specs.Judging.{LinesAreSeen};

/// A node starts in a greater incarnation than before.
#[tactic(auto, using(crate::proofs::Starts::starts_kept))]
pub fn starts_keep_the_rule()
    ensures { Keeps rule.Life }
{}

/// Two records of one ring have the same members, with the node, the id's leader and the neighbour among them.
#[tactic(auto, using(crate::proofs::Rings::rings_kept))]
pub fn rings_keep_the_rule()
    ensures { Keeps rule.Ring }
{}

/// A node enters greater views than before, as a member in its incarnation, and all who enter a view name the same members.
#[tactic(auto, using(crate::proofs::Enters::entering_kept))]
pub fn entering_keeps_the_rule()
    ensures { Keeps rule.In }
{}

/// Who enters a view leaves the one before with the same lists as each who came from there.
#[tactic(auto, using(crate::proofs::Passing::passing_kept))]
pub fn passing_keeps_the_rule()
    ensures { Keeps rule.Pass }
{}

/// A base is what the list of an old view comes to, from which a member came, and it is the same for all nodes.
#[tactic(auto, using(crate::proofs::Bases::bases_kept))]
pub fn bases_keep_the_rule()
    ensures { Keeps rule.Base }
{}

/// Who leaves a view noted the bases there that each other node noted that was there.
#[tactic(auto, using(crate::proofs::Bases::bases_agreed))]
pub fn leaving_keeps_the_rule_on_bases()
    ensures { Keeps rule.Bases }
{}

/// A node puts entries into the lists of the view that it is in, at the places 0, 1, 2 and on.
#[tactic(auto, using(crate::proofs::Lists::places_kept))]
pub fn places_keep_the_rule()
    ensures { Keeps rule.Place }
{}

/// Two entries at one place of one view's list are the same.
#[tactic(auto, using(crate::proofs::Lists::entries_kept))]
pub fn entries_keep_the_rule()
    ensures { Keeps rule.Entry }
{}

/// Each entry fits what those before it make of the base.
#[tactic(auto, using(crate::proofs::Fitting::fits_kept))]
pub fn fitting_keeps_the_rule()
    ensures { Keeps rule.Fits }
{}

/// What closes a phase has one row for each voter, and the tally that its kind says.
#[tactic(auto, using(crate::proofs::Fitting::tallies_kept))]
pub fn tallies_keep_the_rule()
    ensures { Keeps rule.Tally }
{}

/// The votes that such an entry records were cast.
#[tactic(auto, using(crate::proofs::Fitting::votes_kept))]
pub fn votes_keep_the_rule()
    ensures { Keeps rule.Honest }
{}

/// A request of a provider of the node begins once there, after it was asked in that group and not after it was refused.
#[tactic(auto, using(crate::proofs::Requests::requests_kept))]
pub fn requests_keep_the_rule()
    ensures { Keeps rule.Once }
{}

/// What a provider hears is what its node put last, at the place after the last that it heard, while it takes part, with the
/// members and the value that the list makes of its base.
#[tactic(auto, using(crate::proofs::Heard::hearing_kept))]
pub fn hearing_keeps_the_rule()
    ensures { Keeps rule.Heard }
{}

/// A provider casts after it heard the entry that opened the phase, and once in it.
#[tactic(auto, using(crate::proofs::Casts::casts_kept))]
pub fn casts_keep_the_rule()
    ensures { Keeps rule.Cast }
{}

/// So no line of a run breaks a rule.
#[tactic(auto, using(crate::proofs::Judging::lines_are_seen))]
pub fn lines_of_runs_are_seen()
    ensures { LinesAreSeen }
{}
