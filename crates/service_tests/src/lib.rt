//! Tests of what a leader decides, of scripts that are read and of lines that are written, over the public calls of their
//! crates.
#![tactic(auto)]

#[cfg(test)]
mod closings;
#[cfg(test)]
mod lines;
#[cfg(test)]
mod requests;
#[cfg(test)]
mod rows;
#[cfg(test)]
mod settings;
#[cfg(test)]
mod texts;
