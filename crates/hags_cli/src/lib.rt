//! The top call: from the words and the bytes read to the bytes written and the status.
#![tactic(auto)]

mod client_command;
mod daemon_command;
mod edges;
mod ending;
mod input;
mod load_command;
mod output;
mod run_command;
mod settings;
mod status;
mod status_command;
mod table_command;
mod tasks;
mod tell_command;

pub use daemon_command::versions_agree;
pub use edges::Edges;
pub use ending::Ending;
pub use output::Output;
pub use run_command::{MOST_KEPT, run};
pub use status::hags;
