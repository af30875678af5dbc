//! What a safe run is, and that whatever happens to a group, its life is safe.
//!
//! `specs/SafeGroups` says what a safe run is to each group, `specs/SafeLists` and `specs/SafeHeard` what it is over the
//! records of all nodes. `specs/Moves` says all that can happen to one group; each function here is a law over every
//! list of such moves, in whatever order they come.
#![tactic(auto)]

ghost use Rattle.run_safety.specs.Always.{AlwaysOneList, AlwaysInOrder, AlwaysRising, AlwaysSameMembers, AlwaysOneInstall, AlwaysOneBase, AlwaysTogether, AlwaysCut, AlwaysFold, AlwaysBase, AlwaysLed, AlwaysOnce, AlwaysStable, AlwaysTallied, AlwaysApprovedByAll, AlwaysFitted};
ghost use Rattle.run_safety.specs.Failures.{FailureLeavesTakeTheFallen};
ghost use Rattle.run_safety.specs.SafeGroups.{LivesAreSafe, NotedBasesWin, GroupsGiveOneList};
ghost use Rattle.run_safety.specs.RunTallies.{GroupsCloseByTally};

/// Two entries that nodes put at one place of one view's list are the same.
#[tactic(auto, using(crate::proofs::Lives::always_one_list))]
pub fn one_list()
    ensures { AlwaysOneList }
{}

/// The places of a node's entries of one view are 0, 1, 2 and on.
#[tactic(auto, using(crate::proofs::Lives::always_in_order))]
pub fn places_in_order()
    ensures { AlwaysInOrder }
{}

/// The views that a node enters rise as long as its incarnation lasts.
#[tactic(auto, using(crate::proofs::Lives::always_rising))]
pub fn views_rise()
    ensures { AlwaysRising }
{}

/// All nodes that enter a view name the same members, and each is one of them.
pub fn same_members()
    ensures { AlwaysSameMembers }
{}

/// There is one install of a view.
#[tactic(auto, using(crate::proofs::Lives::always_one_install))]
pub fn one_install()
    ensures { AlwaysOneInstall }
{}

/// A view has one base, and each node that enters the view notes it.
#[tactic(auto, using(crate::proofs::Lives::always_one_base))]
pub fn one_base()
    ensures { AlwaysOneBase }
{}

/// Nodes that pass from one view into the same next one leave the first with equal lists.
pub fn passing_together()
    ensures { AlwaysTogether }
{}

/// Such a list is as long as the longest that a member of the next view held when it left.
pub fn cut()
    ensures { AlwaysCut }
{}

/// A provider hears each entry with the members and the value that the entries up to it make of the view's base.
pub fn heard_is_fold()
    ensures { AlwaysFold }
{}

/// The base of a view is that of the side with the most live providers, cut where that side's list ends.
#[tactic(auto, using(crate::proofs::Lives::always_base))]
pub fn base_of_install()
    ensures { AlwaysBase }
{}

/// The first put of each place is of the view's leader, which is that of its base where there is one.
#[tactic(auto, using(crate::proofs::Lives::always_led))]
pub fn leader_puts_first()
    ensures { AlwaysLed }
{}

/// At its own node a request begins at most once over all views, after it was asked and not after a refusal was told. At
/// whatever node an entry is put, whoever it names asked in that group for what it begins.
#[tactic(auto, using(crate::proofs::Lives::always_once))]
pub fn begun_once()
    ensures { AlwaysOnce }
{}

/// What is stable every member of the view has put, so a list that keeps the entries from there on lacks none of
/// theirs.
#[tactic(auto, using(crate::proofs::Lives::always_stable))]
pub fn stable_is_held()
    ensures { AlwaysStable }
{}

/// An entry that closes a phase has the tally that its kind says: an approval APPROVE, a next phase CONTINUE, and a
/// rejection REJECT, or CONTINUE in the last phase.
#[tactic(auto, using(crate::proofs::Lives::always_tallied))]
pub fn closed_by_tally()
    ensures { AlwaysTallied }
{}

/// A voted proposal is approved only if all rows of the last phase approve, those that stand for a default included.
#[tactic(auto, using(crate::proofs::Lives::always_approved_by_all))]
pub fn approved_by_all()
    ensures { AlwaysApprovedByAll }
{}

/// Each entry fits what those before it make of the view's base: what closes a phase names the protocol and the phase
/// that run there.
pub fn entries_fit()
    ensures { AlwaysFitted }
{}

/// Together: the lines of a group that such moves make are safe, whoever leads and whatever the bases are.
#[tactic(auto, using(crate::proofs::Lives::lives_are_safe))]
pub fn lives_are_safe()
    ensures { LivesAreSafe }
{}

/// In the lines of a group that are safe, each base that a node notes is that of the winning side of its view, among the
/// members that the node itself names.
#[tactic(auto, using(crate::proofs::Lives::noted_bases_win))]
pub fn noted_bases_win()
    ensures { NotedBasesWin }
{}

/// Where what each group sees of a run is safe, two entries at one place of one view's list of one group are the same
/// in the run's own records.
pub fn groups_give_one_list()
    ensures { GroupsGiveOneList }
{}

/// Where what each group sees of a run is safe, the entries of the run's own records that close a phase have the tally
/// that their kind says, and what is approved each row of the last phase approves.
pub fn groups_close_by_tally()
    ensures { GroupsCloseByTally }
{}

/// Where a failure leave runs, its approval and its rejection both take those whom it names from the members, and
/// nobody else: a rejected failure leave does not keep the dead.
pub fn failure_leaves_take_the_fallen()
    ensures { FailureLeavesTakeTheFallen }
{}
