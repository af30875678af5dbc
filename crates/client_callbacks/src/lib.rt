//! What a client is: what it is handed and told, the ballots that it fills, and the kinds of clients.
#![tactic(auto)]

mod ballot;
mod kinds;
mod notice;
mod told;
mod votes;

pub use ballot::{Ballot, Filled, MAX_MESSAGE, value_limit};
pub use kinds::{BoxedClient, DaemonClient, ScriptClient, SteadyClient};
pub use notice::{Callbacks, Made, Notice};
pub use told::{Told, Why};
pub use votes::{VoteItem, vote_word, votes_word};
