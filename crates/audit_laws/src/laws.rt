//! The text of a run is seen.
ghost use Rattle.audit_laws.specs.Law.{
  EveryScriptTextIsSeen,
  EveryTextIsSeen,
  LinesAreOnePiece,
  LogTextsAreSeen,
  LogsAreAudited,
  RunsAreAudited,
  TextsAreSeen,
};

/// The records of every run show all that the rules of a transcript ask for, whatever starts, stops and steps, where the addresses
/// of each network differ.
#[tactic(auto, using(crate::proofs::Runs::runs_are_audited))]
pub fn runs_are_audited()
    ensures { RunsAreAudited }
{}

/// The text of a line that fits has no line feed: cut at them it is one piece.
#[tactic(auto, using(crate::proofs::Feeds::line_is_whole))]
pub fn lines_are_one_piece()
    ensures { LinesAreOnePiece }
{}

/// The text of such records, of which each has a line that fits, is judged as seen, with as many lines.
#[tactic(auto, using(crate::proofs::Texts::texts_are_seen))]
pub fn texts_are_seen()
    ensures { TextsAreSeen }
{}

/// So is the text of every run of events that may happen, in any order, whatever kind of clients there are, and whatever they
/// answer.
#[tactic(auto, using(crate::proofs::Worlds::every_text_is_seen))]
pub fn every_text_is_seen()
    ensures { EveryTextIsSeen }
{}

/// So is the transcript of every script.
#[tactic(auto, using(crate::proofs::Worlds::every_script_text_is_seen))]
pub fn every_script_text_is_seen()
    ensures { EveryScriptTextIsSeen }
{}

/// What logs have of such records, all but lives in which a node does nothing and that nodes go down, are such records too, where
/// bases come from views in which their groups were.
#[tactic(auto, using(crate::proofs::Logged::logs_are_audited))]
pub fn logs_are_audited()
    ensures { LogsAreAudited }
{}

/// So the text of what logs have of any run is judged as seen.
#[tactic(auto, using(crate::proofs::Logged::log_texts_are_seen))]
pub fn log_texts_are_seen()
    ensures { LogTextsAreSeen }
{}
