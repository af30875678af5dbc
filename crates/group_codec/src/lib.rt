//! How the attributes, proposals and entries of groups and their states are spelled, and how they are read in place.
#![tactic(auto)]

mod attrs;
mod entries;
mod laws;
mod proposals;
mod states;

pub use attrs::{AttrsRef, phases_number, put_attrs, read_attrs, read_phases};
pub use entries::{ClosedRef, EntryRef, put_entry, read_entry};
pub use laws::{entries_have_their_lengths, states_stay_states};
pub use proposals::{ProposalRef, put_proposal, read_proposal};
pub use states::{RunningRef, StateParts, StateRef, put_state, read_state};
