//! Subscriptions of clients to groups, and which of them are notified.
#![tactic(auto)]

mod subs;

pub use subs::{ClientToken, SubFault, SubToken, Subs, Subscription, Tokens, differ};
