//! The text of the logs of daemons.
ghost use Rattle.network_audit.specs.Law.{DaemonTextsAreSeen};

/// What the daemons of a network log, merged in the order of its acts, is a text that is judged as seen.
#[tactic(auto, using(crate::proofs::Law::daemon_texts_are_seen))]
pub fn daemon_texts_are_seen()
    ensures { DaemonTextsAreSeen }
{}
