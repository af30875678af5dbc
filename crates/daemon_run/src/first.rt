//! What a daemon does first: a law of its definition.
ghost use Rattle.daemon_run.specs.First.{WritesItsStart};

/// A daemon writes the lines of its start before it reads the clock again, receives or sends. So one that writes all its
/// lines at its end has no life, whatever it does, and nor has a front of what that one does.
#[tactic(auto, using(crate::proofs::FirstLaws::writes_its_start))]
pub fn writes_its_start()
    ensures { WritesItsStart }
{}
