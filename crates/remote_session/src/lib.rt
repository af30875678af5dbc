//! Client sessions over datagrams: the daemon's end and the client's end, as machines without a socket or a clock.
#![tactic(auto)]

mod far;
mod laws;
mod messages;
mod remote;
mod session;
#[cfg(test)]
mod tests;
mod worked_rows;

pub use far::{DownSeen, Far};
pub use laws::{
    answers_are_those_told, calls_come_once_and_in_order, ended_keys_stay, heard_is_a_prefix,
    messages_have_one_spelling,
};
pub use messages::{Answer, MAX_EVENTS, MAX_LINE};
pub use remote::{MAX_ENDED, MAX_KEYS, Remote, Standing, UpSeen};
pub use worked_rows::{
    down_of_the_first_call, repeated_after_the_end, repeats_and_a_restart, same_up_twice,
    silent_keys_by_ticks, up_of_an_ended_key, up_of_the_first_call,
};
