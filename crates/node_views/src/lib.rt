//! Views of a node: their packets, and how one is entered.
#![tactic(auto)]

mod bases;
mod dissolved;
mod entry;
mod led_groups;
mod missing_entries;
mod notes;
mod own_lists;
mod packets;

pub use packets::{take_order, take_view, tick_views};
