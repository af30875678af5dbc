//! The words of the command line: which command they spell, and what `--help` and `--version` say.
#![tactic(auto)]

mod command;
mod examples;
mod flags;
mod help;
mod laws;
mod numbers;
mod options;

pub use command::{Command, CommandName, DaemonOptions, Subject, read_command};
pub use examples::{
    reads_flags, reads_groups, reads_keys, reads_options_of_a_daemon, reads_subjects,
};
pub use help::{VERSION, help_text};
pub use laws::words_give_what_they_say;

#[cfg(test)]
mod tests;
