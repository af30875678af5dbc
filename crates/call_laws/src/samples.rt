//! What is said of calls, on a short run: what it accepts, and what it refuses.
ghost use Rattle.std.specs.Prelude.{[], Some, None, codes};
ghost use Rattle.proposal_core.specs.declared.entry.Vote.TheVariants.{Approve, Reject};
ghost use Rattle.proposal_core.specs.declared.proposal.Proposal.TheVariants.{State};
ghost use Rattle.call_laws.specs.Calls.{AskedByCall, CastByCall, CallsAreSaid};
ghost use Rattle.call_laws.specs.Samples.{provider, db, joined, asks_for, casts};

/// A client that asks for `red` asks for no other value.
#[tactic(auto, using(crate::proofs::Worked::same_value_is_accepted, crate::proofs::Worked::other_value_is_refused))]
pub fn another_value_is_refused()
    ensures accepted { AskedByCall (asks_for (codes "red")).event joined provider 2 db
        (State provider 2 (codes "red")) }
    ensures refused { CallsAreSaid (asks_for []) joined → ⊥ }
{}

/// A client that rejects by its call does not approve.
#[tactic(auto, using(crate::proofs::Worked::same_vote_is_accepted, crate::proofs::Worked::turned_vote_is_refused))]
pub fn turned_vote_is_refused()
    ensures accepted { CastByCall (casts Reject).event joined provider Reject None None }
    ensures refused { CallsAreSaid (casts Approve) joined → ⊥ }
{}
