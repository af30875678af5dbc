//! What a node has of its groups: the table of their rows, and what is read and changed in it.
#![tactic(auto)]

mod changes;
mod led;
mod places;
mod reads;
mod row;
mod running;
mod tables;

pub use changes::{
    cast_vote, drop_join, fail_voter, forget_below, forget_least, keep_decision, mark_gone,
    note_acked, open_tally, put, set_leader, set_tally, tick_tally, wait_failure,
};
pub use led::{
    decision_of, gone_of, is_gone, join_attrs_of, led_of, tally_of, waiting_failures, waiting_joins,
};
pub use places::{open, row_mut, row_of};
pub use reads::{
    acked_by, fits_at_end, held_count, holds, leader_in, leader_of, leads, leads_in, least_acked,
    led_groups, len_of, list_of, state_of,
};
pub use row::{new_list, new_row};
pub use running::{held_state, is_running};
pub use tables::decision_on;
