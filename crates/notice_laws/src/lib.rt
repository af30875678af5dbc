//! Whom notices ask for a vote.
#![tactic(auto)]

ghost use Rattle.notice_laws.specs.Notices.{NoticesAskVoters};

/// A notice that a log tells has `votes` true just where its entry opens a phase, as a Begin or a Phase, and its provider is a voter
/// of the state that comes with it. That state is the fold of the list, in every log that a run hands out.
pub fn notices_ask_voters()
    ensures { NoticesAskVoters }
{}
