//! The lines of a transcript, read: each word in its place in the line, and only names, values and lists are copied.
#![tactic(auto)]

mod entries;
mod from_word;
mod ids;
mod items;
mod kinds;
mod lines;
mod notes;
mod owned;
mod pieces;
mod proposals;
mod reading;
mod records;
mod refusals;
mod statuses;
mod values;

pub use reading::read_line;
