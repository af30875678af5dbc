//! Which node leads each group: the first that asked for it.
#![tactic(auto)]

mod asked;
mod names;

pub use asked::first_asker_stays;
pub use names::{Leader, Leaders, MAX_NAMES, NameFault, Names};
