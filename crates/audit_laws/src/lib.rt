//! No run breaks a rule by which a transcript is judged, so the text of each is judged as seen: laws.
#![tactic(auto)]

mod laws;
mod rules;

pub use laws::{
    every_script_text_is_seen, every_text_is_seen, lines_are_one_piece, log_texts_are_seen,
    logs_are_audited, runs_are_audited, texts_are_seen,
};
pub use rules::{
    bases_keep_the_rule, casts_keep_the_rule, entering_keeps_the_rule, entries_keep_the_rule,
    fitting_keeps_the_rule, hearing_keeps_the_rule, leaving_keeps_the_rule_on_bases,
    lines_of_runs_are_seen, passing_keeps_the_rule, places_keep_the_rule, requests_keep_the_rule,
    rings_keep_the_rule, starts_keep_the_rule, tallies_keep_the_rule, votes_keep_the_rule,
};
