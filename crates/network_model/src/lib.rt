//! What a run of a network of daemons is. The definitions stand in `specs/`; the worked examples here compute them.
#![tactic(auto)]

mod examples;

pub use examples::{
    client_text_is_no_packet, gives_after_the_send, gives_what_was_sent, has_one_daemon_of_a_node,
    self_text_is_no_packet, serves_a_client, skips_an_incarnation, speaks,
    starts_in_a_greater_incarnation, turns_cross,
};
