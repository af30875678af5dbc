//! The effect of clients' calls on a node's sessions, by their checks in order; sessions begin and end with their clients.
#![tactic(auto)]

mod asking;
mod calls;
mod checks;
mod ends;
mod reads;
mod sessions;

pub use calls::{change_attributes, change_state, expel, join, leave, send_message, vote};
pub use checks::{check_client, check_init};
pub use ends::{add_session, end_session, has_subscription, subscribe, subscriber_of, unsubscribe};
pub use reads::{client_token, member_token, session_place, sub_token};
pub use sessions::{close_session, open_session};
