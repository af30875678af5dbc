//! What holds for every list of look-ups.
ghost use Rattle.std.specs.Prelude.{◌≡◌, ◌<◌, ℕ, List, None, Some, length};
ghost use Rattle.name_server.specs.declared.names.Leader.{Leader};
ghost use Rattle.name_server.specs.Names.{node_of, looked_up, lookup};
ghost use Rattle.name_server.specs.Asked.{LookUp, all_asked};

/// The first asker of a group leads it: a new name gets its asker, where fewer than 64 names are kept, and
/// whatever a look-up of a group answers, every later one answers, whoever asks and whatever was asked in
/// between.
pub fn first_asker_stays()
    ensures first { (g : List ℕ) (a : ℕ) (table : List Leader) → node_of g table ≡ None
        → length table < 64 → looked_up g a table ≡ Some a }
    ensures stays { (g : List ℕ) (a b n : ℕ) (asked : List LookUp) (table : List Leader)
        → looked_up g a table ≡ Some n
        → looked_up g b (all_asked asked (lookup g a table)) ≡ Some n }
{}
