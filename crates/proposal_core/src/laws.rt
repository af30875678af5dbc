//! A law of lists.
ghost use Rattle.std.specs.Prelude.{List};
ghost use Rattle.proposal_core.specs.declared.group_state.GroupState.{GroupState};
ghost use Rattle.proposal_core.specs.GroupView.{new_list};
ghost use Rattle.proposal_core.specs.ListLaw.{ListCall, all_called, AllTaken, puts_of, IsListOf};

/// After any calls that a list takes, its state is the fold of all entries that were put, whatever was
/// forgotten; `len` and `bytes` count them all; and what `get` gives from `start` on is the entry that was
/// put at that place.
#[tactic(auto, using(crate::proofs::ListLaws::lists_are_folds))]
pub fn lists_are_folds()
    ensures { (base : GroupState) (cs : List ListCall) → AllTaken (new_list base) cs
        → IsListOf base (puts_of cs) (all_called (new_list base) cs) }
{}
