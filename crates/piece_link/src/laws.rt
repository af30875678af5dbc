//! The laws of pieces: what a joiner answers to lists of datagrams. Each is a function without a body, whose contract
//! is the law.
ghost use Rattle.piece_link.specs.Answers.{AlwaysAnsweredAtOnce, AlwaysAnsweredOnce, AlwaysAtLast, AlwaysBounded, AlwaysCame, AlwaysGreatest, AlwaysJoinedToThemselves, AlwaysUnchanged};

/// Let pieces be drawn, in any order and any number of times, from the cuts of messages of which no two have one
/// sender, incarnation and number: every answer is one of these messages.
#[tactic(auto, using(crate::proofs::SelfLaw::joined_to_themselves))]
pub fn joined_to_themselves()
    ensures { AlwaysJoinedToThemselves }
{}

/// Whatever datagrams come, the answers of a sender from 1 to 32 rise in incarnation and number: so no message of it
/// is answered twice.
#[tactic(auto, using(crate::proofs::OnceLaw::answered_once))]
pub fn answered_once()
    ensures { AlwaysAnsweredOnce }
{}

/// Bytes that are no piece change nothing, nor does a piece of a message before the one that is kept of its sender,
/// of the kept one with another count, of one that was answered, or one that came already.
#[tactic(auto, using(crate::proofs::UnchangedLaw::unchanged))]
pub fn unchanged()
    ensures { AlwaysUnchanged }
{}

/// A status client's message of one piece is answered at once, and nothing of it is kept.
#[tactic(auto, using(crate::proofs::UnchangedLaw::answered_at_once))]
pub fn answered_at_once()
    ensures { AlwaysAnsweredAtOnce }
{}

/// After any datagrams, a sender's row is of the greatest incarnation and number of which a piece of it came.
#[tactic(auto, using(crate::proofs::GreatestLaw::greatest))]
pub fn greatest()
    ensures { AlwaysGreatest }
{}

/// A row is of a message of which a piece came.
#[tactic(auto, using(crate::proofs::GreatestLaw::came))]
pub fn came()
    ensures { AlwaysCame }
{}

/// After any datagrams there is at most one row of each sender, 33 in all, and of a message that is not whole at most
/// 59,999 pieces are kept, of at most 1,176 bytes each.
pub fn bounded()
    ensures { AlwaysBounded }
{}

/// Let a message be newer than what is kept of its sender, and its pieces come in any order, each any number of times,
/// between whatever others send: it is answered where the last missing one comes, and at none before.
#[tactic(auto, using(crate::proofs::LastLaw::at_last))]
pub fn answered_at_last()
    ensures { AlwaysAtLast }
{}
