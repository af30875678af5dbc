//! What the logs of daemons show: they have the records of a run without lives in which nothing is done.
#![tactic(auto)]

ghost use Rattle.std.specs.Prelude.{[]};
ghost use Rattle.log_laws.specs.Logs.{Logs};
ghost use Rattle.log_laws.specs.Samples.{starts_twice, starts_twice_logged, enters_with_another};
ghost use Rattle.log_laws.specs.Law.{LogsAreSeen, LoggedRingsAreSeen, EveryRunIsSeenInLogs};

/// Where records are `Seen`, each node enters views while it is up, and bases come from views in which their group was, those of them
/// that logs have are `Seen`: all but lives in which a node does nothing, and that nodes go down. So are the rings of each network.
#[tactic(auto, using(crate::proofs::Law::logs_are_seen, crate::proofs::Law::rings_are_seen))]
pub fn logs_are_seen()
    ensures records { LogsAreSeen }
    ensures rings { LoggedRingsAreSeen }
{}

/// So what logs have of the records of any run is `Seen`, outside of mode fixed: whatever starts, stops and steps, in any order.
#[tactic(auto, using(crate::proofs::Runs::every_run_is_seen_in_logs))]
pub fn every_run_is_seen_in_logs()
    ensures { EveryRunIsSeenInLogs }
{}

/// Of a node that skips an incarnation the logs have nothing of that one. A view of two nodes they cannot leave out.
#[tactic(auto, using(crate::proofs::Worked::skipped_life, crate::proofs::Worked::company_is_kept))]
pub fn leaves_out_what_nobody_did()
    ensures skipped { Logs starts_twice starts_twice_logged }
    ensures company { Logs enters_with_another [] → ⊥ }
{}
