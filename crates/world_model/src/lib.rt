//! A world of daemons, what happens in it, and what is written of it.
#![tactic(auto)]

mod event;
mod script;

pub use event::{Event, Events};
pub use node_state::CallLine;
pub use script::{Aim, Line, LineWhy, Lines, Script};
