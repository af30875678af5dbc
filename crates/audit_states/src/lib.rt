//! The states of lists in a transcript: what each list has, what it begins with, and what each node's comes to.
#![tactic(auto)]

mod basing;
mod comings;
mod folding;
mod list_bases;
mod list_states;
mod row_states;
mod whole_lists;

pub use basing::Basing;
pub use comings::{Comings, IncKey};
pub use folding::front;
pub use list_bases::{ListBase, ListBases};
pub use list_states::ListStates;
pub use row_states::{RowState, RowStates};
pub use whole_lists::WholeLists;
