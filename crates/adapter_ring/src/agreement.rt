//! The law of rings that agree.
ghost use Rattle.adapter_ring.specs.Agreement.{RingsAlwaysAgree};

/// Whatever happens to the rings of one network, in whatever order: those that are set to one id have the same
/// members, each its node among them, led by the highest and in one circle.
#[tactic(auto, using(crate::proofs::Runs::rings_agree))]
pub fn rings_always_agree()
    ensures { RingsAlwaysAgree }
{}
