//! What is said of voters and of entries, on small states: what it accepts, and what it refuses.
ghost use Rattle.std.specs.Prelude.{◌∷◌, [], true, false};
ghost use Rattle.proposal_core.specs.Samples.{member, place_of};
ghost use Rattle.fold_laws.specs.Changes.{Changes};
ghost use Rattle.fold_laws.specs.Room.{MayCome};
ghost use Rattle.fold_laws.specs.Samples.{both, expulsion, lateness, list_of, message, one_leaves};
ghost use Rattle.fold_laws.specs.Voters.{AreWhoStay};

/// By an expulsion goes who is expelled, and nobody else.
#[tactic(auto, using(crate::proofs::Worked::expelled_goes, crate::proofs::Worked::expeller_stays))]
pub fn only_the_expelled_goes()
    ensures accepted { Changes both (place_of 3) expulsion
        (record both { members = member 1 ∷ [] }) }
    ensures refused { Changes both (place_of 3) expulsion (record both { members = [] }) → ⊥ }
{}

/// A message leaves the value.
#[tactic(auto, using(crate::proofs::Worked::value_stays))]
pub fn cleared_value_is_refused()
    ensures { Changes both (place_of 3) message (record both { value = [] }) → ⊥ }
{}

/// Where one of two members asked to leave, the other one votes.
#[tactic(auto, using(crate::proofs::Worked::other_votes, crate::proofs::Worked::nobody_votes))]
pub fn who_leaves_does_not_vote()
    ensures accepted { AreWhoStay one_leaves (member 2 ∷ []) }
    ensures refused { AreWhoStay one_leaves [] → ⊥ }
{}

/// Nothing begins in a list of 4,096 places.
#[tactic(auto, using(crate::proofs::Worked::last_begins, crate::proofs::Worked::full_takes_none))]
pub fn nothing_begins_in_a_full_list()
    ensures accepted { MayCome (list_of 4095) false message }
    ensures refused { MayCome (list_of 4096) false message → ⊥ }
{}

/// Of a phase it is said once who is late.
#[tactic(auto, using(crate::proofs::Worked::lateness_is_said, crate::proofs::Worked::lateness_is_said_once))]
pub fn lateness_is_said_once()
    ensures accepted { MayCome (list_of 4096) false lateness }
    ensures refused { MayCome (list_of 5) true lateness → ⊥ }
{}
