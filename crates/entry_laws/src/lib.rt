//! What is put in every run: what closes a phase, who was late, what entries carry, and the order of reflections.
#![tactic(auto)]

pub mod carried_values;
pub mod closing_rows;
pub mod late_rows;
pub mod source_order;
