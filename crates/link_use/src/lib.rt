//! What a daemon, its status client and a client on another machine do alike over an outside: they tell it where the
//! adapters are and open the link, receive and join messages, and send messages in pieces.
#![tactic(auto)]

mod places;
mod receiving;
mod sending;
mod stop;

pub use places::open_link;
pub use receiving::{MOST_FAILED, Receiving, Whole, buffer};
pub use sending::{Outbox, Receiver};
pub use stop::Stop;
