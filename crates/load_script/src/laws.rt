//! What the parts of a load come to.
ghost use Rattle.std.specs.Prelude.{◌≡◌, ℕ, List, ◌++◌, ◌+◌, zero, suc, []};
ghost use Rattle.node_state.specs.declared.happened.Happened.{Happened};
ghost use Rattle.world_model.specs.Load.{next_seed, load_from, load_lines, first_lines, summary_of};
ghost use Rattle.load_script.specs.Counting.{no_counts, counted, summary_text};
ghost use Rattle.load_script.specs.Steps.{step_lines};

/// The counts of the records of a run make its summary.
#[tactic(auto, using(crate::proofs::CountLaws::counts_summary))]
pub fn counts_make_the_summary()
    ensures { (steps : ℕ) → (records : List Happened)
        → summary_text steps (counted no_counts records) ≡ summary_of steps records }
{}

/// The lines of a load are its first ones, and then those of each step, whose number of the sequence follows that of
/// the step before.
#[tactic(auto, using(crate::proofs::StepLaws::load_begins, crate::proofs::StepLaws::load_goes_on, crate::proofs::StepLaws::load_ends))]
pub fn lines_are_generated()
    ensures begin { (steps : ℕ) → load_lines steps ≡ first_lines ++ load_from steps 1 steps }
    ensures next { (steps number seed : ℕ) → load_from (suc steps) number seed
        ≡ step_lines number (next_seed seed) ++ load_from steps (number + 1) (next_seed seed) }
    ensures end { (number seed : ℕ) → load_from zero number seed ≡ [] }
{}
