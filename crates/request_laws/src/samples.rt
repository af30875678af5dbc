//! What is said of requests, on a short run: what it accepts, and what it refuses.
ghost use Rattle.std.specs.Prelude.{[], ◌∷◌};
ghost use Rattle.request_laws.specs.Requests.{KeepsRequests};
ghost use Rattle.request_laws.specs.Samples.{joined, outstanding, with_requests};

/// A join that was asked for is outstanding, and not lost.
#[tactic(auto, using(crate::proofs::Worked::outstanding_is_accepted, crate::proofs::Worked::lost_is_refused))]
pub fn lost_requests_are_refused()
    ensures accepted { KeepsRequests 1 (with_requests (outstanding ∷ [])) joined }
    ensures refused { KeepsRequests 1 (with_requests []) joined → ⊥ }
{}
