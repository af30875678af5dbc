//! The transcript of a run: the line of each record, the kinds of records that are shown, and what is said of a
//! bad line of a script.
#![tactic(auto)]

mod bad_lines;
mod kinds;
mod laws;
mod notes;
mod records;

pub use bad_lines::{fault_line, put_fault_line, why_text};
pub use kinds::{Kind, Kinds};
pub use laws::{all_kinds_show_all, kinds_show_what_they_name};
pub use records::{line_of, put_line};
