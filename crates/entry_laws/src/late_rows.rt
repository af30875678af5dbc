//! Who is late had its time, in every run.

ghost use Rattle.entry_laws.specs.late_rows.Runs.{WhoIsLateHadTime, WhoIsLateWasAnnounced};

/// Each default vote of one who was late is that of the group's attributes, and the time limit was over by the ticks of
/// the node that put the entry first; the same holds of each announcement of who is late.
#[tactic(auto, using(crate::proofs::late_rows::Law::who_is_late_had_time))]
pub fn who_is_late_had_time()
    ensures { WhoIsLateHadTime }
{}

/// In a view of level 2, an entry that closes a phase, where it is first put, has default votes of voters that were late
/// only directly behind the entry that announces just these.
#[tactic(auto, using(crate::proofs::late_rows::Law::who_is_late_was_announced))]
pub fn who_is_late_was_announced()
    ensures { WhoIsLateWasAnnounced }
{}
