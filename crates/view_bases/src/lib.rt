//! What an install says of the groups of a new view: which it carries, what each begins with, and what a list lacks of a
//! longer one.
#![tactic(auto)]

mod base;
mod cut;
mod names;

pub use base::base_of;
pub use cut::lacking_of;
pub use names::name_after;
