//! The words of which there are few: kinds, votes, causes, rows.
ghost use Rattle.std.specs.Prelude.{◌≡◌};
ghost use Rattle.word_laws.specs.Entries.{kind_read, cause_word, vote_letter, row_vote_word};
ghost use Rattle.record_lines.specs.Reading.{yes_read};

use group_attr::DefaultVote;
use proposal_core::{Cause, RowVote, Vote};
use value_words::is_word;
use word_laws::Kind;

/// The kind of a proposal.
#[tactic(auto, unfolding(word_laws::specs::Entries::kind_read, value_words::specs::Words::chosen))]
pub fn kind_word(word: &[u8]) -> Option<Kind>
    ensures { result ≡ kind_read word.now }
{
    if is_word(b"join", word) {
        return Some(Kind::Join);
    }
    if is_word(b"leave", word) {
        return Some(Kind::Leave);
    }
    if is_word(b"fail", word) {
        return Some(Kind::Fail);
    }
    if is_word(b"expel", word) {
        return Some(Kind::Expel);
    }
    if is_word(b"state", word) {
        return Some(Kind::State);
    }
    if is_word(b"message", word) {
        return Some(Kind::Message);
    }
    if is_word(b"attrs", word) {
        return Some(Kind::Attributes);
    }
    if is_word(b"reflect", word) {
        return Some(Kind::Reflect);
    }
    None
}

/// Why a provider is let go.
#[tactic(auto, unfolding(word_laws::specs::Entries::cause_word, value_words::specs::Words::chosen))]
pub fn cause_word(word: &[u8]) -> Option<Cause>
    ensures { result ≡ cause_word word.now }
{
    if is_word(b"died", word) {
        return Some(Cause::Died);
    }
    if is_word(b"gone", word) {
        return Some(Cause::Gone);
    }
    if is_word(b"cast", word) {
        return Some(Cause::Cast);
    }
    None
}

/// A vote.
#[tactic(auto, unfolding(word_laws::specs::Entries::vote_letter, value_words::specs::Words::chosen))]
pub fn vote_letter(word: &[u8]) -> Option<Vote>
    ensures { result ≡ vote_letter word.now }
{
    if is_word(b"A", word) {
        return Some(Vote::Approve);
    }
    if is_word(b"C", word) {
        return Some(Vote::Continue);
    }
    if is_word(b"R", word) {
        return Some(Vote::Reject);
    }
    None
}

/// What stands in a row: a vote, or the default of one that came late or whose voter failed.
#[tactic(auto, unfolding(word_laws::specs::Entries::row_vote_word, value_words::specs::Words::chosen))]
pub fn row_vote_word(word: &[u8]) -> Option<RowVote>
    ensures { result ≡ row_vote_word word.now }
{
    if is_word(b"A", word) {
        return Some(RowVote::Cast(Vote::Approve));
    }
    if is_word(b"C", word) {
        return Some(RowVote::Cast(Vote::Continue));
    }
    if is_word(b"R", word) {
        return Some(RowVote::Cast(Vote::Reject));
    }
    if is_word(b"LA", word) {
        return Some(RowVote::Late(DefaultVote::Approve));
    }
    if is_word(b"LR", word) {
        return Some(RowVote::Late(DefaultVote::Reject));
    }
    if is_word(b"FA", word) {
        return Some(RowVote::Failed(DefaultVote::Approve));
    }
    if is_word(b"FR", word) {
        return Some(RowVote::Failed(DefaultVote::Reject));
    }
    None
}

/// `yes` or `no`.
#[tactic(auto, unfolding(record_lines::specs::Reading::yes_read, value_words::specs::Words::chosen))]
pub fn yes_word(word: &[u8]) -> Option<bool>
    ensures { result ≡ yes_read word.now }
{
    if is_word(b"yes", word) {
        return Some(true);
    }
    if is_word(b"no", word) {
        return Some(false);
    }
    None
}
