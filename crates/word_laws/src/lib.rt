//! What is written on a line is read as what it was: laws of each word that `value_words` and `entry_words` write.
#![tactic(auto)]

mod entries;
mod kind;
mod values;

pub use entries::{
    attributes_are_read_back, entries_are_read_back, kinds_are_read_back, proposals_are_read_back,
    refusals_are_read_back, votes_are_read_back,
};
pub use kind::Kind;
pub use values::{
    lists_are_read_back, members_are_read_back, numbers_are_read_back, protocols_are_read_back,
    providers_are_read_back, rings_are_read_back, values_are_read_back, views_are_read_back,
};
