//! A world of nodes whose packets may go through other nodes: definitions, and worked examples of them.
#![tactic(auto)]

pub mod examples;
