//! Worked examples of a daemon with options. Each function is a law: what the definitions compute.
ghost use Rattle.std.specs.Prelude.{◌≡◌, ◌∷◌, [], Some, None, codes, true, false};
ghost use Rattle.daemon_model.specs.Daemon.{mended};
ghost use Rattle.daemon_model.specs.Options.{keys_due, is_apart, apart_for, is_long_apart, is_pause};
ghost use Rattle.daemon_model.specs.Samples.{silent, settings_for};
ghost use Rattle.daemon_model.specs.OptionSamples.{silent_after, ended_at_200, ended_keys, made_names, left_behind, behind, is_gathering};
ghost use Rattle.node_state.specs.Step.{started};

/// A key of which no Up came for two ticks is due to end, and its client ends with it.
#[tactic(auto, unfolding(crate::specs::Opens::all_opens))]
pub fn ends_a_silent_key()
    ensures one { keys_due (Some 2) (silent_after (100 ∷ [])).sessions ≡ [] }
    ensures two { keys_due (Some 2) (silent_after (100 ∷ 200 ∷ [])).sessions ≡ 7 ∷ [] }
    ensures unasked { keys_due None (silent_after (100 ∷ 200 ∷ [])).sessions ≡ [] }
    ensures made { made_names (silent_after (100 ∷ 200 ∷ [])).sessions ≡ codes "a" ∷ [] }
    ensures ended { ended_keys ended_at_200.sessions ≡ 7 ∷ [] }
    ensures gone { made_names ended_at_200.sessions ≡ [] }
{}

/// A daemon ends at a moment that is as far as its gap above that of the turn before, and at none without one.
#[tactic(auto, unfolding(crate::specs::Opens::all_opens))]
pub fn ends_at_a_pause()
    ensures below { is_pause (Some 300) 598 897 ≡ false }
    ensures at { is_pause (Some 300) 598 898 ≡ true }
    ensures unasked { is_pause None 598 9898 ≡ false }
{}

/// A node whose view lacks the least node of its reach is apart, and one that is alone is not. At the third tick in a row
/// it asks for a view of its reach.
#[tactic(auto, unfolding(crate::specs::Opens::all_opens))]
pub fn mends_at_the_third_tick()
    ensures apart { is_apart left_behind ≡ true }
    ensures alone { is_apart (started (settings_for (1 ∷ 2 ∷ [])) 2 5) ≡ false }
    ensures second { is_long_apart (Some 3) (apart_for (Some 3) 1 left_behind) ≡ false }
    ensures third { is_long_apart (Some 3) (apart_for (Some 3) 2 left_behind) ≡ true }
    ensures waits { is_gathering behind ≡ false }
    ensures asks { is_gathering (mended silent behind) ≡ true }
{}
