//! What entries and calls say, written and read: attributes, kinds, proposals, votes, entries, and why something
//! is refused.
#![tactic(auto)]

mod attrs;
mod choices;
mod entries;
mod faults;
mod kinds;
mod proposals;

pub use attrs::{after_equals, attr_words, before_equals, put_attrs};
pub use choices::phases_word;
pub use entries::{put_entry, put_phase, put_running, put_what_word, vote_text};
pub use faults::{put_fault, put_why};
pub use kinds::kind_of;
pub use proposals::put_proposal;
