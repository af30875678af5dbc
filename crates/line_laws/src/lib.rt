//! The line of a record says all that the record shows.
#![tactic(auto)]

mod laws;
pub mod samples;

pub use laws::{
    different_records_have_different_lines, lines_show_their_records, records_are_lines,
};
