//! What holds over every list of happenings to client ends and a daemon, whatever the network loses, repeats or
//! reorders, whichever keys the daemon ends, and however often it starts anew.
ghost use Rattle.rsct_packet.specs.Format.{IsFormat};
ghost use Rattle.remote_session.specs.Messages.{IsUp, up_at, up_text, IsDown, down_at, down_text};
ghost use Rattle.remote_session.specs.Laws.{CallsComeOnceAndInOrder, HeardIsAPrefix, AnswersAreThoseTold, NoAnswerWithoutCall, EndedKeysStay, NothingEndsUnasked};

/// In each life of the daemon, the lines that it gave out for a key are the first calls of that key's client, each
/// once and in order.
#[tactic(auto, using(crate::proofs::Runs::given_first))]
pub fn calls_come_once_and_in_order()
    ensures { CallsComeOnceAndInOrder }
{}

/// What a client has heard are the first events of its key in one life of the daemon, without a gap, each once and
/// in order.
#[tactic(auto, using(crate::proofs::Runs::heard_first))]
pub fn heard_is_a_prefix()
    ensures { HeardIsAPrefix }
{}

/// The answers that a client has heard are the first that the daemon told for its key in that life, each to the call
/// of its place; and the daemon told none without a call.
#[tactic(auto, using(crate::proofs::Runs::answers_first, crate::proofs::Runs::told_of_given))]
pub fn answers_are_those_told()
    ensures told { AnswersAreThoseTold }
    ensures calls { NoAnswerWithoutCall }
{}

/// A key that has ended stays so for the daemon's life, and no Up of it makes a call, however late it comes. Where no
/// key has ended, everything is as if none could.
#[tactic(auto, using(crate::proofs::EndedRuns::none_unasked))]
pub fn ended_keys_stay()
    ensures stay { EndedKeysStay }
    ensures unasked { NothingEndsUnasked }
{}

/// Each Up and each Down that fits has one spelling: what is read is spelled so, and what is spelled so is read.
#[tactic(auto, using(crate::proofs::MessageLaws::up_format, crate::proofs::MessageLaws::down_format))]
pub fn messages_have_one_spelling()
    ensures up { IsFormat up_at up_text IsUp }
    ensures down { IsFormat down_at down_text IsDown }
{}
