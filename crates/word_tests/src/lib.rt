//! Tests of the words of lines, of lines and of what is kept of them, over the public calls of `value_words`, `entry_words`,
//! `record_lines`, `line_reader` and `run_audit`: what no clause says, as that a call succeeds where there is memory.
#![tactic(auto)]

#[cfg(test)]
mod entries;
#[cfg(test)]
mod lines;
#[cfg(test)]
mod tables;
#[cfg(test)]
mod values;
