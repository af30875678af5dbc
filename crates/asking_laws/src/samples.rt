//! What fits and what has a spelling, on short histories: what is accepted, and what is refused.
ghost use Rattle.std.specs.Prelude.{[], codes};
ghost use Rattle.asking_laws.specs.Requests.{AllFit, RequestsAreSpelled};
ghost use Rattle.asking_laws.specs.Samples.{joined, told};

/// An instance has 16 bits.
#[tactic(auto, using(crate::proofs::Worked::small_fits, crate::proofs::Worked::large_is_none))]
pub fn instances_have_sixteen_bits()
    ensures accepted { AllFit (joined 7) }
    ensures refused { AllFit (joined 65536) → ⊥ }
{}

/// A request of a group without a name has no spelling.
#[tactic(auto, using(crate::proofs::Worked::nameless_is_none))]
pub fn requests_have_a_group()
    ensures { RequestsAreSpelled (told []) → ⊥ }
{}
