//! The words of scripts of several nodes, read: addresses, modes, the words of a status, the first words of lines.
#![tactic(auto)]

mod addresses;
mod choices;
mod heads;

pub use addresses::address_word;
pub use choices::{mode_word, what_word};
pub use heads::{Form, Head, form_of};
