//! What the leader of a group decides: requests, each refusal with its reason, what its tick closes and sends again, and
//! what of all that waits begins when a step ends.
#![tactic(auto)]

mod changes;
mod failures;
mod join_requests;
mod joins;
mod late_votes;
mod leader_tick;
mod limits;
mod passes;
mod queue;
mod refusals;
mod requests;
mod resends;
mod source_dues;
mod sources;
mod step_end;
mod waiting;

pub use leader_tick::tick_led;
pub use limits::{full_refusal, is_at_limit};
pub use refusals::{refuse, tell};
pub use requests::decide;
pub use sources::{known_state, lacks_source, source_len};
pub use step_end::end_step;
