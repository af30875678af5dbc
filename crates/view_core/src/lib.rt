//! Views: promises, preparing and installing.
#![tactic(auto)]

mod laws;
mod lists;
mod rules;
mod step;
mod tick;
mod work;

pub use laws::{promises_never_fall, views_begin_promised, views_rise};
pub use lists::OwnLists;
pub use step::{ViewEvent, ViewOut, take_event};
