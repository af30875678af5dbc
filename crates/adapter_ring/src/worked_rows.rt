//! Runs of a few rings, computed.
ghost use Rattle.std.specs.Prelude.{◌≡◌, [], ◌∷◌};
ghost use Rattle.adapter_ring.specs.WorkedRows.{line, lines_told, two_meet, third_stops};

/// Two nodes start and are one ring after two rounds.
#[tactic(auto, unfolding(crate::specs::WorkedRows::all_opens))]
pub fn two_nodes_meet()
    ensures { lines_told two_meet ≡ line 1 1 1 1 (1 ∷ []) 1 ∷ line 2 2 1 1 (2 ∷ []) 2
        ∷ line 2 2 1 2 (1 ∷ 2 ∷ []) 1 ∷ line 1 2 1 2 (1 ∷ 2 ∷ []) 2 ∷ [] }
{}

/// Three nodes start and become one ring; the third stops, and the second gathers the two that are left.
#[tactic(auto, unfolding(crate::specs::WorkedRows::all_opens))]
pub fn one_of_three_stops()
    ensures { lines_told third_stops ≡ line 1 1 1 1 (1 ∷ []) 1 ∷ line 2 2 1 1 (2 ∷ []) 2
        ∷ line 3 3 1 1 (3 ∷ []) 3 ∷ line 2 2 1 2 (1 ∷ 2 ∷ []) 1 ∷ line 3 3 1 2 (1 ∷ 3 ∷ []) 1
        ∷ line 1 3 1 2 (1 ∷ 3 ∷ []) 3 ∷ line 3 3 1 3 (1 ∷ 2 ∷ 3 ∷ []) 2
        ∷ line 1 3 1 3 (1 ∷ 2 ∷ 3 ∷ []) 3 ∷ line 2 3 1 3 (1 ∷ 2 ∷ 3 ∷ []) 1
        ∷ line 2 2 1 3 (1 ∷ 2 ∷ []) 1 ∷ line 1 2 1 3 (1 ∷ 2 ∷ []) 2 ∷ [] }
{}
