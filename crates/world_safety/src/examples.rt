//! Worked examples of what is asked of a run: small runs that the definitions accept, with what they record, and records that
//! they refuse. Each function is a law.
ghost use Rattle.std.specs.Prelude.{◌≡◌, Some, None};
ghost use Rattle.group_attr.specs.Attrs.{empty_attrs};
ghost use Rattle.run_safety.specs.Past.{EachRecord};
ghost use Rattle.run_safety.specs.SafeGroups.{SafeGroups};
ghost use Rattle.step_refinement.specs.Tied.{opening_of};
ghost use Rattle.entry_laws.specs.source_order.Sources.{FirstsFollowSources};
ghost use Rattle.world_laws.specs.world_answers.Answers.{all_worded};
ghost use Rattle.world_safety.specs.Askers.{FirstAsks, RecordLed};
ghost use Rattle.world_safety.specs.Floors.{ToldToForget, HasAcknowledged, IsGreatest, IsLeastHeld};
ghost use Rattle.world_safety.specs.Samples.{history_after, db, one, one_joined, two_join, two_joined, limited, target_joins, target_joined, sourced, two, two_view, second_leads, first_leads, two_ask, second_led, first_led, two_sides, more_win, fewer_win, none_wins, pair, one_view, two_entries, core_after, start_after};

/// Two clients join a group, one after the other: the entry of the first has the attributes that it asked for, since the group
/// was empty and idle, and that of the second has the group's.
#[tactic(auto, using(crate::proofs::Samples::two_joined_is, crate::proofs::Samples::two_joined_follows))]
pub fn joins_have_what_is_meant()
    ensures records { history_after one two_join ≡ two_joined limited limited }
    ensures accepted { FirstsFollowSources (two_joined limited limited) }
{}

/// An entry with attributes that are neither is refused.
#[tactic(auto, using(crate::proofs::Samples::second_has_other_attributes))]
pub fn other_attributes_are_refused()
    ensures { FirstsFollowSources (two_joined limited empty_attrs) → ⊥ }
{}

/// So is that of the first with empty attributes, whatever it asked for.
#[tactic(auto, using(crate::proofs::Samples::first_has_no_attributes))]
pub fn empty_attributes_are_refused()
    ensures { FirstsFollowSources (one_joined empty_attrs) → ⊥ }
{}

/// A client joins a group whose attributes name a source: its entry carries the length of the source's list.
#[tactic(auto, using(crate::proofs::Samples::target_joined_is, crate::proofs::Samples::target_joined_follows))]
pub fn target_joins_over_its_source()
    ensures records { history_after one target_joins ≡ target_joined sourced (Some 1) }
    ensures accepted { FirstsFollowSources (target_joined sourced (Some 1)) }
{}

/// Whether there is a source is read off what was asked for: an entry that claims to have none is refused.
#[tactic(auto, using(crate::proofs::Samples::target_has_no_source))]
pub fn no_source_is_refused()
    ensures { FirstsFollowSources (target_joined empty_attrs None) → ⊥ }
{}

/// Two nodes ask who leads a group without a base. Node 2 asks first, and puts first.
#[tactic(auto, using(crate::proofs::Asking::second_led_is, crate::proofs::Asking::second_asks_and_leads, crate::proofs::Asking::second_node_leads))]
pub fn first_asker_leads()
    ensures records { history_after two (two_ask second_leads) ≡ second_led }
    ensures asks { FirstAsks two (all_worded two (two_ask second_leads)) two_view db 2 }
    ensures accepted { EachRecord (RecordLed 2 two_view db) second_led }
{}

/// Where node 1, the coordinator, leads and puts first, the records are refused.
#[tactic(auto, using(crate::proofs::Asking::second_asks_and_first_leads, crate::proofs::Asking::first_node_leads))]
pub fn another_leader_is_refused()
    ensures asks { FirstAsks two (all_worded two (two_ask first_leads)) two_view db 2 }
    ensures refused { EachRecord (RecordLed 2 two_view db) first_led → ⊥ }
{}

/// Two nodes meet, each with its own members of a group, two on one side and one on the other: the group goes on with the two.
#[tactic(auto, using(crate::proofs::Merging::two_merged_is))]
pub fn side_of_most_goes_on()
    ensures { history_after two two_sides ≡ more_win }
{}

/// Where it goes on with the one, no group's records are safe.
#[tactic(auto, using(crate::proofs::Merging::fewer_do_not_win))]
pub fn side_of_fewest_is_refused()
    ensures { SafeGroups (opening_of two) fewer_win → ⊥ }
{}

/// Nor where it goes on with neither.
#[tactic(auto, using(crate::proofs::Merging::some_side_wins))]
pub fn no_side_is_refused()
    ensures { SafeGroups (opening_of two) none_wins → ⊥ }
{}

/// A member takes two entries. With the second one it is told that all members hold the first, and that one it forgets.
#[tactic(auto, using(crate::proofs::Forgetting::member_starts, crate::proofs::Forgetting::member_was_told))]
pub fn member_forgets_what_it_was_told()
    ensures starts { start_after pair two_entries 2 db ≡ 1 }
    ensures told { ToldToForget pair (all_worded pair two_entries) 2 one_view db 1 }
{}

/// A list that lacks nothing, as that of a machine which never forgets, is refused.
#[tactic(auto, using(crate::proofs::Forgetting::never_is_refused))]
pub fn never_forgetting_is_refused()
    ensures { IsGreatest (ToldToForget pair (all_worded pair two_entries) 2 one_view db) 0 → ⊥ }
{}

/// Where it forgot at its own length, it forgot what it was not told to.
#[tactic(auto, using(crate::proofs::Forgetting::own_length_is_refused))]
pub fn forgetting_at_its_length_is_refused()
    ensures { IsGreatest (ToldToForget pair (all_worded pair two_entries) 2 one_view db) 2 → ⊥ }
{}

/// Its leader forgets the first entry, since the member has acknowledged that.
#[tactic(auto, using(crate::proofs::Forgetting::leader_starts, crate::proofs::Forgetting::member_acknowledged))]
pub fn leader_forgets_what_was_acknowledged()
    ensures starts { start_after pair two_entries 1 db ≡ 1 }
    ensures acknowledged { HasAcknowledged pair (all_worded pair two_entries) 1 one_view db 2 1 }
{}

/// A leader whose list lacks nothing, as one that never forgets or that records no ACK, is refused.
#[tactic(auto, using(crate::proofs::Forgetting::leader_that_keeps_is_refused))]
pub fn leader_that_keeps_all_is_refused()
    ensures { IsLeastHeld pair (all_worded pair two_entries)
        (core_after pair two_entries 1) db 0 → ⊥ }
{}
