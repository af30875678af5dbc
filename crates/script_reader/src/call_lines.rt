//! A call of a client, read by itself.
ghost use Rattle.std.specs.Prelude.{◌≡◌, IfOk};
ghost use Rattle.script_words.specs.Heads.{form_seen};
ghost use Rattle.script_reader.specs.Said.{said_seen};
ghost use Rattle.script_reader.specs.CallLines.{call_in, call_counted, call_worded, call_of};

use crate::said::{Said, read_said};
use crate::script::{has_bad_byte, is_comment, is_extra};
use node_state::CallLine;
use rsct_packet::NoMemory;
use script_words::{Form, form_of};
use std::alloc::Global;
use value_words::{WordFault, Words};

/// The call that a line says, if it says one.
fn call_in(alloc: Global, said: Said) -> Result<Option<CallLine>, NoMemory>
    ensures { IfOk result (λ call. call ≡ call_in (said_seen said)) }
{
    match said {
        Said::Client(node, name, votes) => {
            let votes = votes.into_word(alloc)?;
            Ok(Some(CallLine::Init { node, name, votes }))
        }
        Said::Call(call) => Ok(Some(call)),
        _ => Ok(None),
    }
}

/// The call of a line with this head and these words after it.
#[tactic(auto, unfolding(crate::specs::CallLines::call_counted))]
fn counted_call(
    alloc: Global,
    form: Form,
    words: &mut Words<'_>,
) -> Result<Option<CallLine>, NoMemory>
    ensures { IfOk result (λ call. call ≡ call_counted (form_seen form) words.old) }
{
    let count = words.len();
    if count < form.least || is_extra(count, form.most) {
        return Ok(None);
    }
    match read_said(alloc, form.head, words) {
        Ok(said) => call_in(alloc, said),
        Err(WordFault::BadWord) => Ok(None),
        Err(WordFault::NoMemory) => Err(NoMemory),
    }
}

/// The call that words spell.
#[tactic(auto, unfolding(crate::specs::CallLines::call_worded))]
fn worded_call(alloc: Global, words: &mut Words<'_>) -> Result<Option<CallLine>, NoMemory>
    ensures { IfOk result (λ call. call ≡ call_worded words.old) }
{
    let Some(first) = words.take() else {
        return Ok(None);
    };
    match form_of(first) {
        None => Ok(None),
        Some(form) => counted_call(alloc, form, words),
    }
}

/// The call that these bytes spell, as a line of a script without its line feed; none exactly where they spell no call.
/// Whether its client was named before, and where, does not matter.
#[tactic(auto, unfolding(crate::specs::CallLines::call_of))]
pub fn call_line(alloc: Global, line: &[u8]) -> Result<Option<CallLine>, NoMemory>
    ensures { IfOk result (λ call. call ≡ call_of line.now) }
{
    if has_bad_byte(line) || is_comment(line) {
        return Ok(None);
    }
    let mut words = Words::of(line);
    worded_call(alloc, &mut words)
}
