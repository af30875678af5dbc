//! Lines, read.
ghost use Rattle.std.specs.Prelude.{◌≡◌, IfOk};
ghost use Rattle.std.specs.Str.{bytes_eq};
ghost use Rattle.value_words.specs.Answers.{GivesWord};
ghost use Rattle.record_lines.specs.Reading.{line_read, line_words, loose};
ghost use Rattle.record_lines.specs.Writing.{line_text};

use crate::lines::{
    asked_line, base_line, cast_line, down_line, heard_line, in_line, noted_line, put_line,
    refused_line, ring_line, show_line, told_line, up_line,
};
use crate::pieces::Pieces;
use record_lines::Line;
use rsct_packet::NoMemory;
use std::alloc::Global;
use value_words::{WordFault, is_word};

/// What the words of a line say, read without care.
#[tactic(auto, unfolding(record_lines::specs::Reading::line_words, record_lines::specs::Reading::line_head, value_words::specs::Words::chosen, value_words::specs::Answers::bind_opens))]
fn line_words(alloc: Global, words: &mut Pieces<'_>) -> Result<Line, WordFault>
    ensures { GivesWord result (line_words words.old) }
{
    let head = words.take().ok_or(WordFault::BadWord)?;
    if is_word(b"up", head) {
        return up_line(words);
    }
    if is_word(b"down", head) {
        return down_line(words);
    }
    if is_word(b"ring", head) {
        return ring_line(alloc, words);
    }
    if is_word(b"in", head) {
        return in_line(alloc, words);
    }
    if is_word(b"base", head) {
        return base_line(alloc, words);
    }
    if is_word(b"put", head) {
        return put_line(alloc, words);
    }
    if is_word(b"heard", head) {
        return heard_line(alloc, words);
    }
    if is_word(b"cast", head) {
        return cast_line(alloc, words);
    }
    if is_word(b"asked", head) {
        return asked_line(alloc, words);
    }
    if is_word(b"told", head) {
        return told_line(words);
    }
    if is_word(b"noted", head) {
        return noted_line(alloc, words);
    }
    if is_word(b"refused", head) {
        return refused_line(alloc, words);
    }
    if is_word(b"show", head) {
        return show_line(alloc, words);
    }
    Err(WordFault::BadWord)
}

/// What the line says, read without care.
#[tactic(auto, unfolding(record_lines::specs::Reading::loose))]
fn loose(alloc: Global, text: &[u8]) -> Result<Line, WordFault>
    ensures { GivesWord result (loose text.now) }
{
    line_words(alloc, &mut Pieces::of(text))
}

/// Is this the text of the line?
fn is_text_of(alloc: Global, line: &Line, text: &[u8]) -> Result<bool, NoMemory>
    ensures { IfOk result (λ b. b ≡ bytes_eq (line_text line.now) text.now) }
{
    let mut written = Vec::new(alloc);
    line.put(&mut written)?;
    Ok(is_word(written.as_slice(), text))
}

/// The line that the bytes spell, which are without its line feed. `Ok(None)` exactly where they are no line: where they
/// are not the one text of something that a record can show. An error is that memory has run out.
#[tactic(auto, unfolding(record_lines::specs::Reading::line_read, value_words::specs::Words::when_true, value_words::specs::Answers::bind_opens))]
pub fn read_line(alloc: Global, text: &[u8]) -> Result<Option<Line>, NoMemory>
    ensures { IfOk result (λ l. l ≡ line_read text.now) }
{
    let line = match loose(alloc, text) {
        Ok(line) => line,
        Err(WordFault::BadWord) => return Ok(None),
        Err(WordFault::NoMemory) => return Err(NoMemory),
    };
    if is_text_of(alloc, &line, text)? && line.fits() {
        Ok(Some(line))
    } else {
        Ok(None)
    }
}
