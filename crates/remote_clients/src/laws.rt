//! What holds of the lines that clients on other machines are told.
ghost use Rattle.remote_clients.specs.Told.{StepTellsKeys, EntriesComeFirst};

/// With the lines of entries, what a step adds for a key are the lines that it is told; and each hearing of an entry
/// stands directly behind the line of that entry, or behind an earlier hearing of it in the step.
#[tactic(auto, using(crate::proofs::ToldLaws::step_tells, crate::proofs::EntryOrder::entries_first))]
pub fn entries_come_first()
    ensures told { StepTellsKeys }
    ensures first { EntriesComeFirst }
{}
