//! Scripts of several nodes, read from their bytes.
#![tactic(auto)]

mod call_lines;
mod calls;
mod client_lines;
mod clients;
mod events;
mod faults;
mod networks;
mod progress;
mod reasons;
mod said;
mod script;
mod settings;

pub use call_lines::call_line;
pub use calls::caller;
pub use faults::ScriptFault;
pub use script::{INPUT_LIMIT, read_client, read_daemon, read_script};
