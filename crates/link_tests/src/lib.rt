//! Tests of links, clocks and messages in pieces, over the public calls of their crates: what no clause says, as what
//! the sockets of the system carry, and that a call succeeds where there is memory.
#![tactic(auto)]

#[cfg(test)]
mod links;
#[cfg(test)]
mod pieces;
