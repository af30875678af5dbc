//! The two messages of a question that a daemon is asked about itself, read in place and written. Both begin with the
//! bytes 52 49, then 1 for a question or 2 for a reply, what is asked, and the number of the question, the highest byte
//! first. They are no packets of a node, and nothing of them is a step of it.
ghost use Rattle.std.specs.Prelude.{◌≡◌, ◌++◌, OnOk, OnErr, Option, option_copied};
ghost use Rattle.rsct_packet.specs.Reading.{Gives};
ghost use Rattle.self_questions.specs.Messages.{asked_mark, asked_of, told_mark, told_of, question_text, question_at, question_of, reply_head, reply_at, same_what, is_same_question, text_in};

use rsct_packet::{NoMemory, put_u32, read_u32};

const CLIENTS_ASKED: u32 = 0x5249_0101;

const DAEMON_ASKED: u32 = 0x5249_0102;

const CLIENTS_TOLD: u32 = 0x5249_0201;

const DAEMON_TOLD: u32 = 0x5249_0202;

/// What a daemon is asked about itself: its clients, a line for each (`hagscl`); or the line of what it counts (`hagsd`).
#[derive(Clone, Copy, Debug, PartialEq, Eq)]
pub enum SelfWhat {
    Hagscl,
    Hagsd,
}

/// A question that a daemon is asked about itself; the reply repeats its number.
#[derive(Clone, Copy, Debug, PartialEq, Eq)]
pub struct SelfQuestion {
    pub what: SelfWhat,
    pub question: u32,
}

fn asked_mark(what: SelfWhat) -> u32
    ensures { result ≡ asked_mark what }
{
    match what {
        SelfWhat::Hagscl => CLIENTS_ASKED,
        SelfWhat::Hagsd => DAEMON_ASKED,
    }
}

fn asked_of(mark: u32) -> Option<SelfWhat>
    ensures { result ≡ asked_of mark }
{
    match mark {
        CLIENTS_ASKED => Some(SelfWhat::Hagscl),
        DAEMON_ASKED => Some(SelfWhat::Hagsd),
        _ => None,
    }
}

fn told_mark(what: SelfWhat) -> u32
    ensures { result ≡ told_mark what }
{
    match what {
        SelfWhat::Hagscl => CLIENTS_TOLD,
        SelfWhat::Hagsd => DAEMON_TOLD,
    }
}

fn told_of(mark: u32) -> Option<SelfWhat>
    ensures { result ≡ told_of mark }
{
    match mark {
        CLIENTS_TOLD => Some(SelfWhat::Hagscl),
        DAEMON_TOLD => Some(SelfWhat::Hagsd),
        _ => None,
    }
}

#[tactic(auto, unfolding(crate::specs::Messages::question_at))]
fn question_at(bytes: &[u8]) -> Option<(SelfQuestion, &[u8])>
    ensures { Gives result (question_at bytes.now) }
{
    let (mark, bytes) = read_u32(bytes)?;
    let what = asked_of(mark)?;
    let (question, bytes) = read_u32(bytes)?;
    Some((SelfQuestion { what, question }, bytes))
}

/// The question that these bytes are: of eight bytes, no more and no fewer.
#[tactic(auto, unfolding(crate::specs::Messages::question_of))]
pub fn read_question(bytes: &[u8]) -> Option<SelfQuestion>
    ensures { result ≡ question_of bytes.now }
{
    let (question, rest) = question_at(bytes)?;
    if !rest.is_empty() {
        return None;
    }
    Some(question)
}

/// Takes a question to the end. Where memory has run out a part of it may stand there.
#[tactic(auto, unfolding(crate::specs::Messages::question_text))]
pub fn put_question(out: &mut Vec<u8>, question: SelfQuestion) -> Result<(), NoMemory>
    ensures { OnOk result (out.new.items ≡ out.old.items ++ question_text question) }
{
    put_u32(out, asked_mark(question.what))?;
    put_u32(out, question.question)
}

/// Takes a reply to the end, without its text, which comes behind it. Where memory has run out a part of it may stand there.
#[tactic(auto, unfolding(crate::specs::Messages::reply_head))]
pub fn put_reply_head(out: &mut Vec<u8>, question: SelfQuestion) -> Result<(), NoMemory>
    ensures { OnOk result (out.new.items ≡ out.old.items ++ reply_head question) }
{
    put_u32(out, told_mark(question.what))?;
    put_u32(out, question.question)
}

/// The question that these bytes are a reply to, and the text up to the end.
#[tactic(auto, unfolding(crate::specs::Messages::reply_at))]
pub fn read_reply(bytes: &[u8]) -> Option<(SelfQuestion, &[u8])>
    ensures { Gives result (reply_at bytes.now) }
{
    let (mark, bytes) = read_u32(bytes)?;
    let what = told_of(mark)?;
    let (question, bytes) = read_u32(bytes)?;
    Some((SelfQuestion { what, question }, bytes))
}

/// The text of these bytes, where they are a reply to this question.
#[tactic(auto, unfolding(crate::specs::Messages::text_in))]
pub fn text_in(question: SelfQuestion, bytes: &[u8]) -> Option<&[u8]>
    ensures { option_copied result ≡ text_in question bytes.now }
{
    let (to, text) = read_reply(bytes)?;
    if to == question { Some(text) } else { None }
}
