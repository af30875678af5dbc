//! What a daemon's run is: a fold over what comes to it from outside, turn by turn. The definitions stand in `specs/`;
//! the worked examples here compute them.
#![tactic(auto)]

mod counts;
mod examples;
mod laws;
mod option_examples;
mod options;
mod self_examples;

pub use counts::{Counts, ReceiveCounts};
pub use examples::{
    begins_alone, counts_failed_receives, joins_pieces_in_any_order, serves_a_client_once,
    serves_nobody_unasked, tells_a_status_client, tells_places, tells_what_is_refused,
    ticks_when_due, turns_down_a_call,
};
pub use laws::{
    alone_without_other_machines, answers_about_itself, did_up_to_now, lives_are_actions,
    lives_are_doings, nothing_unasked, silent_keys_end,
};
pub use option_examples::{ends_a_silent_key, ends_at_a_pause, mends_at_the_third_tick};
pub use options::{About, Options, Pace, RemoteService, Service, Version};
pub use self_examples::{
    lines_of_a_daemon, tells_clients_of_the_settings, tells_each_clients_counts,
    tells_of_itself_unserved,
};
