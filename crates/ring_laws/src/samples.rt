//! When a member is missed, on a ring of three.
ghost use Rattle.std.specs.Prelude.{◌≡◌, ◌++◌, [], ◌∷◌};
ghost use Rattle.ring_laws.specs.Samples.{three, beat, silent_for, deaths_of};

/// Three ticks without a heartbeat tell nobody's death, where four may be missed; the fourth does, but not where a heartbeat came.
#[tactic(auto, unfolding(crate::specs::Samples::all_opens))]
pub fn the_fourth_silent_tick_tells()
    ensures patient { deaths_of three (silent_for 3) ≡ [] }
    ensures tells { deaths_of three (silent_for 4) ≡ 2 ∷ [] }
    ensures heard { deaths_of three (silent_for 1 ++ beat ∷ silent_for 3) ≡ [] }
{}
