//! The script that a load generates, a few lines at a time, what is counted of its run, and the summary of that.
#![tactic(auto)]

mod calls;
mod counts;
mod laws;
mod lines;
mod settings;
mod steps;
mod text;

pub use counts::Counts;
pub use laws::{counts_make_the_summary, lines_are_generated};
pub use lines::first_lines;
pub use settings::load_settings;
pub use steps::{next_seed, step_lines};
pub use text::summary;
