//! Worked scripts: laws that compute what their transcripts are, byte for byte, and how packets are spelled.
#![tactic(auto)]

pub mod rows_basic;
pub mod rows_bytes;
pub mod rows_queue;
pub mod rows_rings;
pub mod rows_settings;
pub mod rows_steps;
pub mod rows_views;
pub mod rows_votes;
