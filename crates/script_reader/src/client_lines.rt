//! A line of the input of a client.
ghost use Rattle.std.specs.Prelude.{◌≡◌, ◌==◌, length, slice_get, option_copied};
ghost use Rattle.world_model.specs.Reading.{Bad, read_line};
ghost use Rattle.script_reader.specs.ClientScript.{is_long, is_handed_on, fits_line, fits_client, judged, client_line};
ghost use Rattle.script_reader.specs.Reading.{reading_seen, GivesLine};

use crate::faults::LineFault;
use crate::progress::ReadSoFar;
use crate::script::{is_comment, read_line};
use node_state::CallLine;
use remote_session::MAX_LINE;
use std::alloc::Global;
use value_words::Words;
use world_model::{Event, Line, LineWhy};

/// Is it a line of words that is longer than what is handed on may be?
#[tactic(auto, unfolding(crate::specs::ClientScript::is_long))]
fn is_long(line: &[u8]) -> bool
    ensures { result ≡ is_long line.now }
{
    let words = Words::of(line);
    line.len() > MAX_LINE && !is_comment(line) && !words.is_empty()
}

/// May a client hand this line on? The first one makes the client, which votes by calls alone; the others are its
/// calls.
fn is_handed_on(line: &Line, first: bool) -> bool
    ensures { result ≡ is_handed_on first line.now }
{
    match line {
        Line::Plain(Event::Call(_, CallLine::Init { votes, .. })) => {
            first && votes.as_slice() == b"-".as_slice()
        }
        Line::Plain(Event::Call(_, _)) => !first,
        _ => false,
    }
}

/// Is what was read last, where it is a line more than so many, handed on?
#[tactic(auto, unfolding(crate::specs::ClientScript::fits_client), using(crate::proofs::ReadLaws::newest_back))]
fn fits_client(read: &ReadSoFar, before: usize) -> bool
    ensures { result ≡ fits_client (reading_seen read.now) before }
{
    match read.lines.get(before) {
        None => true,
        Some(line) => is_handed_on(line, before == 0),
    }
}

/// Takes a line within the limit of an input. `whole`: its line feed stands behind it.
#[tactic(auto, unfolding(crate::specs::ClientScript::client_line, crate::specs::ClientScript::misplaced_why), using(crate::proofs::ClientLines::as_many, crate::proofs::ClientLines::judged_good, crate::proofs::ClientLines::judged_bad))]
pub fn client_line(
    alloc: Global,
    read: &mut ReadSoFar,
    whole: bool,
    line: &[u8],
) -> Result<(), LineFault>
    ensures { GivesLine result read.new (client_line (reading_seen read.old) whole line.now) }
{
    if read.begun && is_long(line) {
        return Err(LineFault::Bad(LineWhy::Long));
    }
    let before = read.lines.len();
    match read_line(alloc, read, whole, line) {
        Ok(()) => {}
        Err(LineFault::Bad(LineWhy::IsAPacket)) => return Err(LineFault::Bad(LineWhy::OutOfPlace)),
        Err(fault) => return Err(fault),
    }
    if fits_client(read, before) {
        Ok(())
    } else {
        Err(LineFault::Bad(LineWhy::OutOfPlace))
    }
}
