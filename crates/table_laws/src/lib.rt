//! The agreed table of a group in a run: what its map is at each place of the group's lists, and that it is one.
#![tactic(auto)]

pub mod examples;
mod laws;

pub use laws::{
    ballots_send_chunks, chunks_are_carried, first_joiners_are_whole, lists_say_maps,
    maps_are_empty_without_members, maps_are_one, maps_exist, maps_stay_while_running,
    notices_are_of_lists, tables_agree, the_present_asked, whole_copies_are_equal,
};
