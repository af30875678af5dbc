//! What a node owes the leaders of groups, and sends again at each tick: its clients' outstanding requests, the ballots that
//! are kept of them, and that providers of a group are gone.
#![tactic(auto)]

mod ballots;
mod losses;
mod requests;

pub use ballots::{copy_kept, send_kept, send_votes_again};
pub use losses::tick_owed;
pub use requests::{copy_request, send_request, send_requests, send_requests_of};
