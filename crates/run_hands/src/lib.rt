//! What a run hands to its clients: a log for each client of each node that is up, as the records of the run tell it, and what
//! holds of every log.
#![tactic(auto)]

mod laws;

pub use laws::states_are_folds;
