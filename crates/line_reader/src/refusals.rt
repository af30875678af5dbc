//! Why requests and calls are refused.
ghost use Rattle.std.specs.Prelude.{◌≡◌};
ghost use Rattle.word_laws.specs.Entries.{plain_why, why_read, plain_fault, field_word, attr_fault_word, fault_read};
ghost use Rattle.word_laws.specs.Values.{u32_word, two_word};
ghost use Rattle.record_lines.specs.Reading.{valued_why, valued_fault};

use crate::ids::{proto_word, two_parts, u32_word};
use crate::pieces::Pieces;
use client_callbacks::Why;
use group_attr::AttrFault;
use session_state::{Field, GsFault};
use value_words::is_word;

/// Why a request is refused, where its word says all.
#[tactic(auto, unfolding(word_laws::specs::Entries::plain_why, value_words::specs::Words::chosen))]
fn plain_why(word: &[u8]) -> Option<Why>
    ensures { result ≡ plain_why word.now }
{
    if is_word(b"DUPLICATE_INSTANCE_NUMBER", word) {
        return Some(Why::DuplicateInstance);
    }
    if is_word(b"BAD_GROUP_ATTRIBUTES", word) {
        return Some(Why::BadAttributes);
    }
    if is_word(b"NOT_A_MEMBER", word) {
        return Some(Why::NotAMember);
    }
    if is_word(b"DISSOLVED", word) {
        return Some(Why::Dissolved);
    }
    None
}

/// Two numbers with a `/` between them.
#[tactic(auto, unfolding(word_laws::specs::Values::two_word, word_laws::specs::Values::both_of, value_words::specs::Answers::bind_opens), using(crate::proofs::PartLaws::not_both))]
fn two_numbers(word: &[u8]) -> Option<(u32, u32)>
    ensures { result ≡ two_word 47 u32_word u32_word word.now }
{
    let (first, second) = two_parts(b'/', word)?;
    let a = u32_word(first)?;
    let b = u32_word(second)?;
    Some((a, b))
}

/// Why a request is refused, where a word behind its own says more.
#[tactic(auto, unfolding(record_lines::specs::Reading::valued_why, word_laws::specs::Entries::why_head, word_laws::specs::Entries::said_why, value_words::specs::Words::chosen, value_words::specs::Answers::bind_opens))]
fn valued_why(head: &[u8], word: &[u8]) -> Option<Why>
    ensures { result ≡ valued_why head.now word.now }
{
    if is_word(b"COLLIDE", head) {
        let proto = proto_word(word)?;
        return Some(Why::Collide(proto));
    }
    if is_word(b"NO_SOURCE_GROUP_PROVIDER", head) {
        let len = u32_word(word)?;
        return Some(Why::NoSource(len));
    }
    if is_word(b"LIST_FULL", head) {
        let (places, bytes) = two_numbers(word)?;
        return Some(Why::ListFull(places, bytes));
    }
    if is_word(b"GROUP_FULL", head) {
        let most = u32_word(word)?;
        return Some(Why::GroupFull(most));
    }
    if is_word(b"GROUPS_FULL", head) {
        let most = u32_word(word)?;
        return Some(Why::GroupsFull(most));
    }
    None
}

/// Why a request is refused: the words that are left.
#[tactic(auto, unfolding(word_laws::specs::Entries::why_read, record_lines::specs::Reading::valued_why))]
pub fn why_words(words: &mut Pieces<'_>) -> Option<Why>
    ensures { result ≡ why_read words.old }
{
    let head = words.take()?;
    match words.take() {
        None => plain_why(head),
        Some(word) => if words.is_empty() {
            valued_why(head, word)
        } else {
            None
        },
    }
}

/// Why a call is refused, where its word says all.
#[tactic(auto, unfolding(word_laws::specs::Entries::plain_fault, value_words::specs::Words::chosen))]
fn plain_fault(word: &[u8]) -> Option<GsFault>
    ensures { result ≡ plain_fault word.now }
{
    if is_word(b"NO_INIT", word) {
        return Some(GsFault::NoInit);
    }
    if is_word(b"EXISTS", word) {
        return Some(GsFault::Exists);
    }
    if is_word(b"NAME_TOO_LONG", word) {
        return Some(GsFault::NameTooLong);
    }
    if is_word(b"BAD_CLIENT_TOKEN", word) {
        return Some(GsFault::BadClientToken);
    }
    if is_word(b"BAD_MEMBER_TOKEN", word) {
        return Some(GsFault::BadMemberToken);
    }
    if is_word(b"UNKNOWN_GROUP", word) {
        return Some(GsFault::UnknownGroup);
    }
    if is_word(b"VOTE_NOT_EXPECTED", word) {
        return Some(GsFault::VoteNotExpected);
    }
    if is_word(b"SPENT", word) {
        return Some(GsFault::Spent);
    }
    if is_word(b"NO_MEMORY", word) {
        return Some(GsFault::NoMemory);
    }
    None
}

/// The part of a call that is bad.
#[tactic(auto, unfolding(word_laws::specs::Entries::field_word, value_words::specs::Words::chosen))]
fn field_word(word: &[u8]) -> Option<Field>
    ensures { result ≡ field_word word.now }
{
    if is_word(b"name", word) {
        return Some(Field::Name);
    }
    if is_word(b"value", word) {
        return Some(Field::Value);
    }
    if is_word(b"message", word) {
        return Some(Field::Message);
    }
    if is_word(b"targets", word) {
        return Some(Field::Targets);
    }
    if is_word(b"subscription", word) {
        return Some(Field::Subscription);
    }
    None
}

/// The attribute that is bad; a line does not say how great it was.
#[tactic(auto, unfolding(word_laws::specs::Entries::attr_fault_word, value_words::specs::Words::chosen))]
fn attr_fault_word(word: &[u8]) -> Option<AttrFault>
    ensures { result ≡ attr_fault_word word.now }
{
    if is_word(b"limit", word) {
        return Some(AttrFault::Limit(0));
    }
    if is_word(b"slimit", word) {
        return Some(AttrFault::SourceLimit(0));
    }
    if is_word(b"source", word) {
        return Some(AttrFault::Source);
    }
    None
}

/// Why a call is refused, where a word behind its own says more.
#[tactic(auto, unfolding(record_lines::specs::Reading::valued_fault, word_laws::specs::Entries::fault_head, word_laws::specs::Entries::said_fault, value_words::specs::Words::chosen, value_words::specs::Answers::bind_opens))]
fn valued_fault(head: &[u8], word: &[u8]) -> Option<GsFault>
    ensures { result ≡ valued_fault head.now word.now }
{
    if is_word(b"BAD_PARAMETER", head) {
        let field = field_word(word)?;
        return Some(GsFault::BadParameter(field));
    }
    if is_word(b"BAD_GROUP_ATTRIBUTES", head) {
        let fault = attr_fault_word(word)?;
        return Some(GsFault::BadGroupAttributes(fault));
    }
    if is_word(b"COLLIDE", head) {
        let request = u32_word(word)?;
        return Some(GsFault::Collide(request));
    }
    if is_word(b"SESSIONS_FULL", head) {
        let most = u32_word(word)?;
        return Some(GsFault::SessionsFull(most));
    }
    None
}

/// Why a call is refused: the words that are left.
#[tactic(auto, unfolding(word_laws::specs::Entries::fault_read, record_lines::specs::Reading::valued_fault))]
pub fn fault_words(words: &mut Pieces<'_>) -> Option<GsFault>
    ensures { result ≡ fault_read words.old }
{
    let head = words.take()?;
    match words.take() {
        None => plain_fault(head),
        Some(word) => if words.is_empty() {
            valued_fault(head, word)
        } else {
            None
        },
    }
}
