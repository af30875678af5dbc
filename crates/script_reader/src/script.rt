//! A script from its bytes, line by line.
ghost use Rattle.std.specs.Prelude.{◌≡◌, ◌≤◌, ◌∷◌, [], None, Some, IfOk, false};
ghost use Rattle.std.specs.List.{list_any};
ghost use Rattle.world_model.specs.Reading.{is_bad_byte, is_comment, is_extra, skipped_line, taken_unless, said_line, counted_line, formed_line, worded_line, texted, read_line, read_from, input_limit, read_for, script_of};
ghost use Rattle.value_words.specs.Words.{words_in};
ghost use Rattle.world_model.specs.Settings.{aim_of, daemon_script, KeepsFor, HasTexts};
ghost use Rattle.script_reader.specs.CallTexts.{HandsTexts};
ghost use Rattle.script_reader.specs.ClientScript.{line_by, lines_from, lines_for, client_script};
ghost use Rattle.script_words.specs.Heads.{form_seen};
ghost use Rattle.script_reader.specs.Said.{said_seen};
ghost use Rattle.script_reader.specs.Reading.{reading_seen, GivesLine, GivesScript};

use crate::client_lines::client_line;
use crate::faults::{LineFault, ScriptFault};
use crate::progress::ReadSoFar;
use crate::reasons::reason;
use crate::said::{Said, read_said};
use script_words::{Form, form_of};
use std::alloc::Global;
use value_words::{WordFault, Words, cut_at};
use world_model::{Aim, LineWhy, Script};

/// How many bytes an input has at most.
pub const INPUT_LIMIT: usize = 16_777_216;

#[tactic(auto, unfolding(world_model::specs::Reading::is_bad_byte))]
fn is_bad_byte(byte: u8) -> bool
    ensures { result ≡ is_bad_byte byte }
{
    byte < 32 || byte > 126
}

/// Is there a byte that no line has?
pub fn has_bad_byte(line: &[u8]) -> bool
    ensures { result ≡ list_any is_bad_byte line.now }
{
    line.iter().any(|b| is_bad_byte(*b))
}

#[tactic(auto, unfolding(world_model::specs::Reading::is_comment))]
pub fn is_comment(line: &[u8]) -> bool
    ensures { result ≡ is_comment line.now }
{
    match line {
        [] => false,
        [first, ..] => *first == b'#',
    }
}

#[tactic(auto, unfolding(world_model::specs::Reading::is_extra))]
pub fn is_extra(count: usize, most: Option<usize>) -> bool
    ensures { result ≡ is_extra count most }
{
    match most {
        None => false,
        Some(most) => most < count,
    }
}

/// Takes a blank line or a comment, which is whole.
#[tactic(auto, unfolding(world_model::specs::Reading::skipped_line))]
fn skip_line(read: &mut ReadSoFar, whole: bool) -> Result<(), LineFault>
    ensures { GivesLine result read.new (skipped_line (reading_seen read.old) whole) }
{
    if whole {
        Ok(())
    } else {
        Err(LineFault::Bad(LineWhy::MissingWord))
    }
}

/// Takes what a line says, unless there is a reason against it.
#[tactic(auto, unfolding(world_model::specs::Reading::said_line, world_model::specs::Reading::taken_unless))]
fn take_said(alloc: Global, read: &mut ReadSoFar, said: Said) -> Result<(), LineFault>
    ensures { GivesLine result read.new (said_line (reading_seen read.old)
        (Some (said_seen said))) }
{
    if let Some(why) = reason(read, &said) {
        return Err(LineFault::Bad(why));
    }
    read.take(alloc, said)?;
    Ok(())
}

/// Takes a line by its head and the words after it.
#[tactic(auto, unfolding(world_model::specs::Reading::counted_line, world_model::specs::Reading::said_line))]
fn counted_line(
    alloc: Global,
    read: &mut ReadSoFar,
    form: Form,
    words: &mut Words<'_>,
) -> Result<(), LineFault>
    ensures { GivesLine result read.new (counted_line (reading_seen read.old)
        (form_seen form) words.old) }
{
    let count = words.len();
    if count < form.least {
        return Err(LineFault::Bad(LineWhy::MissingWord));
    }
    if is_extra(count, form.most) {
        return Err(LineFault::Bad(LineWhy::ExtraWord));
    }
    match read_said(alloc, form.head, words) {
        Ok(said) => take_said(alloc, read, said),
        Err(WordFault::BadWord) => Err(LineFault::Bad(LineWhy::BadWord)),
        Err(WordFault::NoMemory) => Err(LineFault::NoMemory),
    }
}

/// Takes a line of words, if it has any.
#[tactic(auto, unfolding(world_model::specs::Reading::worded_line, world_model::specs::Reading::formed_line))]
fn worded_line(
    alloc: Global,
    read: &mut ReadSoFar,
    whole: bool,
    words: &mut Words<'_>,
) -> Result<(), LineFault>
    ensures { GivesLine result read.new (worded_line (reading_seen read.old) whole words.old) }
{
    let Some(first) = words.take() else {
        return skip_line(read, whole);
    };
    let Some(form) = form_of(first) else {
        return Err(LineFault::Bad(LineWhy::UnknownWord));
    };
    if !whole {
        return Err(LineFault::Bad(LineWhy::MissingWord));
    }
    counted_line(alloc, read, form, words)
}

/// Takes a line of words, and keeps the bytes of a call.
#[tactic(auto, using(crate::proofs::ScriptLaws::texted_fails, crate::proofs::ScriptLaws::texted_good))]
fn texted_line(
    alloc: Global,
    read: &mut ReadSoFar,
    whole: bool,
    line: &[u8],
) -> Result<(), LineFault>
    ensures { GivesLine result read.new (texted line.now
        (worded_line (reading_seen read.old) whole (words_in line.now))) }
{
    let mut words = Words::of(line);
    worded_line(alloc, read, whole, &mut words)?;
    read.keep_text(alloc, line)?;
    Ok(())
}

/// Takes a line within the limit of an input. `whole`: its line feed stands behind it.
#[tactic(auto, unfolding(world_model::specs::Reading::read_line))]
pub fn read_line(
    alloc: Global,
    read: &mut ReadSoFar,
    whole: bool,
    line: &[u8],
) -> Result<(), LineFault>
    ensures { GivesLine result read.new (read_line (reading_seen read.old) whole false line.now) }
{
    if has_bad_byte(line) {
        return Err(LineFault::Bad(LineWhy::BadByte));
    }
    if is_comment(line) {
        return skip_line(read, whole);
    }
    texted_line(alloc, read, whole, line)
}

/// Takes a line within the limit of an input, of a script or of the input of a client.
#[tactic(auto, unfolding(crate::specs::ClientScript::line_by))]
fn line_by(
    alloc: Global,
    read: &mut ReadSoFar,
    calls: bool,
    whole: bool,
    line: &[u8],
) -> Result<(), LineFault>
    ensures { GivesLine result read.new (line_by calls (reading_seen read.old) whole false
        line.now) }
{
    if calls {
        client_line(alloc, read, whole, line)
    } else {
        read_line(alloc, read, whole, line)
    }
}

/// Takes what follows the last line feed, at this place of the input, as the line of this number.
#[tactic(auto, using(crate::proofs::ScriptLaws::no_line, crate::proofs::ScriptLaws::last_long, crate::proofs::ScriptLaws::last_taken, crate::proofs::ScriptLaws::last_fails))]
fn read_last(
    alloc: Global,
    mut read: ReadSoFar,
    calls: bool,
    number: u32,
    place: usize,
    line: &[u8],
) -> Result<Script, ScriptFault>
    requires { place ≤ input_limit }
    ensures { GivesScript result (lines_from calls (reading_seen read) number place
        (line.now ∷ [])) }
{
    if line.len() == 0 {
        return read.finish(number);
    }
    if place + line.len() > INPUT_LIMIT {
        return Err(ScriptFault::Line(number, LineWhy::Long));
    }
    match line_by(alloc, &mut read, calls, false, line) {
        Ok(()) => read.finish(number),
        Err(fault) => Err(fault.at(number)),
    }
}

/// The script that the bytes spell, read for this.
#[tactic(auto, unfolding(crate::specs::ClientScript::lines_for), using(crate::proofs::ScriptLaws::line_long, crate::proofs::ScriptLaws::line_taken, crate::proofs::ScriptLaws::line_fails, crate::proofs::ScriptLaws::last_piece))]
fn read_lines(alloc: Global, bytes: &[u8], aim: Aim, calls: bool) -> Result<Script, ScriptFault>
    ensures { GivesScript result (lines_for calls aim bytes.now) }
{
    let mut read = ReadSoFar::new(alloc, aim);
    let mut number = 1;
    let mut place = 0;
    let mut left = bytes;
    while let Some((line, after)) = cut_at(b'\n', left) {
        let end = place + line.len() + 1;
        if end > INPUT_LIMIT {
            return Err(ScriptFault::Line(number, LineWhy::Long));
        }
        if let Err(fault) = line_by(alloc, &mut read, calls, true, line) {
            return Err(fault.at(number));
        }
        number += 1;
        place = end;
        left = after;
    }
    read_last(alloc, read, calls, number, place, left)
}

/// The script that the bytes spell. Otherwise the fault is the number of the first line, from 1 on, that is in no
/// script, and the first reason why, in the order of `LineWhy`; or memory has run out.
#[tactic(auto, unfolding(world_model::specs::Reading::script_of), using(crate::proofs::ScriptLaws::lines_of_script))]
pub fn read_script(alloc: Global, bytes: &[u8]) -> Result<Script, ScriptFault>
    ensures { GivesScript result (script_of bytes.now) }
{
    read_lines(alloc, bytes, Aim::Plays, false)
}

#[tactic(auto, unfolding(world_model::specs::Settings::aim_of))]
fn aim_of(me: u8, objects: Option<u32>) -> Aim
    ensures { result ≡ aim_of me objects }
{
    match objects {
        Some(objects) => Aim::Serves(me, objects),
        None => Aim::Asks(me),
    }
}

#[tactic(auto, unfolding(world_model::specs::Settings::daemon_script), using(crate::proofs::ScriptLaws::lines_of_script))]
fn read_settings(
    alloc: Global,
    bytes: &[u8],
    me: u8,
    objects: Option<u32>,
) -> Result<Script, ScriptFault>
    ensures { GivesScript result (daemon_script me objects bytes.now) }
{
    read_lines(alloc, bytes, aim_of(me, objects), false)
}

/// The script that the bytes spell as the settings of node `me` (1 to 32): for a daemon of it, with `objects` for
/// so many of its clients, or, with none, for who asks it. The fault is that of `read_script`, with these rules
/// more:
///
/// - There is a `begin` line. Without one the line after the last one lacks a word.
/// - Node `me` has a line before `begin`, which has an unknown node otherwise.
/// - A mode other than `rings` is out of place.
/// - For a daemon, a line after `begin` that is no call is out of place, and so is a call of a client of node `me`
///   that is none of `client`, `join` and `subscribe`.
/// - The votes of a client may be `boxed`. For a daemon each such client of node `me` takes an object; where none
///   is left, the line is of a boxed client.
#[tactic(auto, using(crate::proofs::SettingsLaws::keeps_for, crate::proofs::SettingsLaws::keeps_texts))]
pub fn read_daemon(
    alloc: Global,
    bytes: &[u8],
    me: u8,
    objects: Option<u32>,
) -> Result<Script, ScriptFault>
    ensures read { GivesScript result (daemon_script me objects bytes.now) }
    ensures keeps { IfOk result (KeepsFor me objects) }
    ensures texts { IfOk result HasTexts }
{
    read_settings(alloc, bytes, me, objects)
}

/// The script that the bytes spell as the input of a client of node `me` (1 to 32): settings as for who asks the node,
/// and after `begin` the calls of one client, of which the first is `client N NAME -`. The fault is that of
/// `read_daemon`, with these rules more:
///
/// - A line of words after `begin` that has more than 1,100 bytes is long.
/// - A line after `begin` that is no such call is out of place.
///
/// So each of its `texts` has 1 to 1,100 bytes.
#[tactic(auto, unfolding(crate::specs::ClientScript::client_script), using(crate::proofs::ClientLines::keeps_client, crate::proofs::ClientLines::client_texts, crate::proofs::CallTexts::client_hands))]
pub fn read_client(alloc: Global, bytes: &[u8], me: u8) -> Result<Script, ScriptFault>
    ensures read { GivesScript result (client_script me bytes.now) }
    ensures keeps { IfOk result (KeepsFor me None) }
    ensures texts { IfOk result HasTexts }
    ensures hands { IfOk result HandsTexts }
{
    read_lines(alloc, bytes, Aim::Asks(me), true)
}
