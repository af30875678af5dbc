//! What a node has of its clients: their sessions, providers, requests and kept ballots, with the definitions of what
//! each call and each entry makes of it.
#![tactic(auto)]

mod casts;
mod fault;
mod locals;
mod new_entry;
mod state;

pub use casts::{Cast, Casts};
pub use fault::{Field, GsFault};
pub use locals::Locals;
pub use new_entry::{NewEntry, brought_by};
pub use state::{KeptBallot, MemberToken, OpenPhase, Provider, Request, Session, SessionState};
