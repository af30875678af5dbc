//! The lines of a transcript: what each of them shows, how it is written and how it is read. A line is read exactly where
//! it is the one text of something that a record can show.
#![tactic(auto)]

mod fits;
mod laws;
mod line;
mod parts;
mod ranges;
mod worked;
mod writing;

pub use laws::{lines_are_read_back, what_is_read_is_spelled_so};
pub use line::{BaseLine, Line, Note, OpenPhase, Status, What};
pub use parts::{Ballot, ClientName};
pub use worked::{long_lines, no_lines, short_lines};
