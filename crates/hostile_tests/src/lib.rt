//! Tests of what is hostile to a node: packets cut short, and a client for whose notice there is no memory.
#![tactic(auto)]

#[cfg(test)]
mod memory;
#[cfg(test)]
mod prefixes;
