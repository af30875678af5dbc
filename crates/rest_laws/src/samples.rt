//! What is said of leaders at rest, on a short list of records: what it accepts, and what it refuses.
ghost use Rattle.rest_laws.specs.Leaders.{IsServed};
ghost use Rattle.rest_laws.specs.Samples.{db, web, set, reflected, moved, at};

/// A value of the source that is set waits to be reflected, and then is served.
#[tactic(auto, using(crate::proofs::Worked::reflected_is_served, crate::proofs::Worked::set_waits))]
pub fn values_are_reflected()
    ensures accepted { IsServed (at web reflected) (at db reflected) }
    ensures refused { IsServed (at web set) (at db set) → ⊥ }
{}

/// A member without a member of the source on its node is not served.
#[tactic(auto, using(crate::proofs::Worked::moved_lacks_its_source))]
pub fn members_have_their_source()
    ensures refused { IsServed (at web moved) (at db moved) → ⊥ }
{}
