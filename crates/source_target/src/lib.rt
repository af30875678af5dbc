//! Source groups and the target groups that follow them.
#![tactic(auto)]

mod owed;
mod target;

pub use owed::Due;
pub use target::{allowed, due};
