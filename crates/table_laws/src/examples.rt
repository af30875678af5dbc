//! A worked row of the map of a group, and of two that join it.
ghost use Rattle.std.specs.Prelude.{◌≡◌, true, false, []};
ghost use Rattle.table_laws.specs.Firsts.{joined_first, HasWholeCopy};
ghost use Rattle.table_laws.specs.Maps.{MapIs};
ghost use Rattle.table_laws.specs.Samples.{row, db, view_at, both_pairs, first, first_log, second, second_log};

/// A provider writes `x=1` in one view and `y=2` in the next, to which its group comes with its map; then it leaves.
#[tactic(auto, using(crate::proofs::Samples::after_both, crate::proofs::Samples::after_leave))]
pub fn map_goes_on_in_the_next_view()
    ensures both { MapIs row db (view_at 2) 1 both_pairs }
    ensures nobody { MapIs row db (view_at 2) 2 [] }
{}

/// The first provider finds nobody in the group, and has a whole copy from its join on; the second one finds somebody.
#[tactic(auto, using(crate::proofs::Samples::first_found_nobody, crate::proofs::Samples::first_is_whole, crate::proofs::Samples::second_found_somebody))]
pub fn first_member_has_a_whole_copy()
    ensures nobody { joined_first first first_log ≡ true }
    ensures whole { HasWholeCopy first first_log }
    ensures somebody { joined_first second second_log ≡ false }
{}
