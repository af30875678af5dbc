//! What holds for every order of casts, failures and ticks.
ghost use Rattle.std.specs.Prelude.{◌≡◌, ℕ, List, Some, None, if◌then◌else◌};
ghost use Rattle.std.specs.List.{list_any};
ghost use Rattle.rsct_packet.specs.declared.ids.ProviderId.{ProviderId};
ghost use Rattle.group_attr.specs.declared.attrs.DefaultVote.{DefaultVote};
ghost use Rattle.vote_phases.specs.Tally.{tally_new, is_open, tally_of, rows_of, outcome};
ghost use Rattle.vote_phases.specs.Orders.{Command, after_all, first_rows};

/// In every order of casts, failures and ticks, what stands for a voter is its first vote or default, and the
/// outcome is the tally of these rows, none while one is missing.
pub fn first_votes_stand()
    ensures rows { (ps : List ProviderId) (d : DefaultVote) (limit : ℕ) (cs : List Command)
        → (after_all cs (tally_new ps d limit)).voters ≡ first_rows ps d limit cs }
    ensures outcome { (ps : List ProviderId) (d : DefaultVote) (limit : ℕ) (cs : List Command)
        → let voters = first_rows ps d limit cs in
        outcome (after_all cs (tally_new ps d limit))
        ≡ (if list_any is_open voters then None else Some (tally_of (rows_of voters))) }
{}
