//! Proposals and the entries of a group's list, with the lengths of their spellings, and what a list of entries makes of
//! the group's members and its value.
#![tactic(auto)]

mod entry;
mod failures;
mod fold;
mod group_list;
mod group_state;
mod laws;
mod proposal;
mod rows;
mod samples;
mod sizes;
mod texts;

pub use entry::{Closed, Entry, Row, RowVote, Rows, Vote};
pub use failures::is_same_failure;
pub use fold::MAX_PHASES;
pub use group_list::GroupList;
pub use group_state::{GroupState, Running};
pub use laws::lists_are_folds;
pub use proposal::{Cause, Failure, Fallen, Proposal};
pub use samples::{what_else_is_kept, what_the_value_is, who_is_a_member, who_votes};
pub use texts::{copy_text, optional_bytes, optional_text_of, text_of};
