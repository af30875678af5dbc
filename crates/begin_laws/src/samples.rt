//! What is said of what begins, on short runs: what it accepts, and what it refuses.
ghost use Rattle.std.specs.Prelude.{[], ◌∷◌};
ghost use Rattle.proposal_core.specs.declared.entry.Entry.TheVariants.{Once, Begin};
ghost use Rattle.begin_laws.specs.Begins.{BeginsAsMeant};
ghost use Rattle.begin_laws.specs.Samples.{provider, stranger, red, asked, puts, both_join};

/// What is to be voted on is not decided at once.
#[tactic(auto, using(crate::proofs::Worked::vote_is_accepted, crate::proofs::Worked::skipped_vote_is_refused))]
pub fn skipped_vote_is_refused()
    ensures accepted { BeginsAsMeant (puts (Begin (red provider))) (asked provider) }
    ensures refused { BeginsAsMeant (puts (Once (red provider))) (asked provider) → ⊥ }
{}

/// Who is no member changes nothing.
#[tactic(auto, using(crate::proofs::Worked::strangers_change_is_refused))]
pub fn strangers_change_is_refused()
    ensures refused { BeginsAsMeant (puts (Begin (red stranger))) (asked stranger) → ⊥ }
{}

/// Two that join together where the attributes batch nothing.
#[tactic(auto, using(crate::proofs::Worked::unasked_batch_is_refused))]
pub fn unasked_batch_is_refused()
    ensures refused { BeginsAsMeant (puts (Once both_join)) (asked provider) → ⊥ }
{}
