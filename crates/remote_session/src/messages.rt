//! The two messages of a client session, read in place and written. Up goes to the daemon, Down to the client's end.
ghost use Rattle.std.specs.Prelude.{◌≡◌, ◌∷◌, [], ◌++◌, ◌≤◌, ◌<◌, ◌^◌, length, take, flat_map, OnOk, OnErr, IfNone, IfSome, Option, option_map, unwrap_or};
ghost use Rattle.std.specs.Int.{w8};
ghost use Rattle.rsct_packet.specs.Format.{EachFits, counted_text};
ghost use Rattle.rsct_packet.specs.Reading.{Gives, counted_at, many_at};
ghost use Rattle.rsct_packet.specs.Fields.{AreShort, bytes_at, bytes_text};
ghost use Rattle.packet_bodies.specs.Body.{whole_of};
ghost use Rattle.remote_session.specs.Messages.{up_text, up_at, up_of, down_head_text, down_at, down_of, answer_at, answer_code};

use rsct_packet::{NoMemory, Text, put_bytes, put_u8, put_u32, read_bytes, read_u8, read_u32};
use std::marker::Model;

/// How many bytes a call's line has at most.
pub const MAX_LINE: usize = 1100;

/// How many events a Down has at most.
pub const MAX_EVENTS: usize = 16;

const UP_MARK: u32 = 0x5253_0100;

const DOWN_MARK: u32 = 0x5253_0200;

/// What a Down says of the last call that the daemon answered: there is none yet, it was taken, or it was
/// refused; or that the daemon keeps no more keys.
#[derive(Clone, Copy, Debug, PartialEq, Eq)]
pub enum Answer {
    NoAnswer,
    Taken,
    Refused,
    Full,
}

/// Byte strings that stand one after another in a datagram, each behind its length.
#[derive(Drop)]
pub(crate) struct Lines<'a> {
    count: usize,
    bytes: &'a [u8],
}

impl<'a> Model for Lines<'a> {
    ghost use Rattle.std.specs.Prelude.{List, ℕ, IsSome};
    ghost use Rattle.rsct_packet.specs.Reading.{many_at};
    ghost use Rattle.rsct_packet.specs.Fields.{bytes_at};
    ghost use Rattle.rsct_packet.specs.Listed.{items_in};

    ghost Value = { List (List ℕ) };

    ghost view = { λ s. items_in (many_at bytes_at s.count s.bytes.now) };

    ghost invariant = { λ s. IsSome (many_at bytes_at s.count s.bytes.now) };
}

#[tactic(auto, using(rsct_packet::proofs::ListedLaws::skips_none, rsct_packet::proofs::ListedLaws::skips_more, rsct_packet::proofs::ListedLaws::skips_stop, rsct_packet::proofs::ListedLaws::skips_all, rsct_packet::proofs::ListedLaws::skips_some))]
fn many_at(count: usize, bytes: &[u8]) -> Option<(Lines, &[u8])>
    ensures { Gives result (many_at bytes_at count bytes.now) }
{
    let mut rest = bytes;
    for _i in 0..count {
        match read_bytes(rest) {
            None => return None,
            Some((_line, after)) => rest = after,
        }
    }
    Some((Lines { count, bytes }, rest))
}

fn counted_at(bytes: &[u8]) -> Option<(Lines, &[u8])>
    ensures { Gives result (counted_at w8 bytes_at bytes.now) }
{
    let (count, bytes) = read_u8(bytes)?;
    many_at(count as usize, bytes)
}

impl<'a> Lines<'a> {
    pub(crate) fn len(&self) -> usize
        ensures { result ≡ length self.now }
    {
        self.count
    }

    /// Takes the first one off.
    pub(crate) fn take_first(&mut self) -> Option<&'a [u8]>
        ensures none { IfNone result ((self.old ≡ []) × (self.new ≡ [])) }
        ensures some { IfSome result (λ line. self.old ≡ line.now ∷ self.new) }
        ensures short { IfSome result (λ line. AreShort line.now) }
    {
        if self.count == 0 {
            return None;
        }
        let (line, rest) = read_bytes(self.bytes)?;
        self.count -= 1;
        self.bytes = rest;
        Some(line)
    }
}

/// An Up, whose line is a part of the datagram.
#[derive(Drop)]
pub(crate) struct Up<'a> {
    pub(crate) key: u32,
    pub(crate) number: u32,
    pub(crate) ack: u32,
    pub(crate) line: &'a [u8],
}

impl<'a> Model for Up<'a> {
    ghost use Rattle.remote_session.specs.Messages.{UpIn};

    ghost Value = { UpIn };

    ghost view = { λ u. record { key = u.key; number = u.number; ack = u.ack; line = u.line.now } };
}

/// A Down, whose events are parts of the datagram.
#[derive(Drop)]
pub(crate) struct Down<'a> {
    pub(crate) key: u32,
    pub(crate) incarnation: u32,
    pub(crate) done: u32,
    pub(crate) answer: Answer,
    pub(crate) first: u32,
    pub(crate) events: Lines<'a>,
}

impl<'a> Model for Down<'a> {
    ghost use Rattle.std.specs.Prelude.{◌≤◌, length};
    ghost use Rattle.remote_session.specs.Messages.{DownIn};

    ghost Value = { DownIn };

    ghost view = { λ d. record { key = d.key; incarnation = d.incarnation; done = d.done; answer = d.answer; first = d.first; events = d.events } };

    ghost invariant = { λ d. length d.events ≤ 16 };
}

/// What was read, where nothing is left after it.
fn whole<X: Drop>(read: Option<(X, &[u8])>) -> Option<X>
    ensures { result ≡ whole_of (option_map (λ x. (x.0, x.1.now)) read.entry) }
{
    let (x, rest) = read?;
    if !rest.is_empty() {
        return None;
    }
    Some(x)
}

#[tactic(auto, unfolding(crate::specs::Messages::up_at))]
fn up_at(bytes: &[u8]) -> Option<(Up, &[u8])>
    ensures { Gives result (up_at bytes.now) }
{
    let (mark, bytes) = read_u32(bytes)?;
    let (key, bytes) = read_u32(bytes)?;
    let (number, bytes) = read_u32(bytes)?;
    let (ack, bytes) = read_u32(bytes)?;
    let (line, bytes) = read_bytes(bytes)?;
    if mark != UP_MARK || line.len() > MAX_LINE {
        return None;
    }
    Some((
        Up {
            key,
            number,
            ack,
            line,
        },
        bytes,
    ))
}

/// The Up that these bytes are.
#[tactic(auto, unfolding(crate::specs::Messages::up_of))]
pub(crate) fn read_up(bytes: &[u8]) -> Option<Up>
    ensures { result ≡ up_of bytes.now }
{
    whole(up_at(bytes))
}

#[tactic(auto, unfolding(crate::specs::Messages::answer_at))]
fn answer_at(bytes: &[u8]) -> Option<(Answer, &[u8])>
    ensures { Gives result (answer_at bytes.now) }
{
    let (code, bytes) = read_u8(bytes)?;
    let answer = match code {
        0 => Answer::NoAnswer,
        1 => Answer::Taken,
        2 => Answer::Refused,
        3 => Answer::Full,
        _ => return None,
    };
    Some((answer, bytes))
}

#[tactic(auto, unfolding(crate::specs::Messages::down_at))]
fn down_at(bytes: &[u8]) -> Option<(Down, &[u8])>
    ensures { Gives result (down_at bytes.now) }
{
    let (mark, bytes) = read_u32(bytes)?;
    let (key, bytes) = read_u32(bytes)?;
    let (incarnation, bytes) = read_u32(bytes)?;
    let (done, bytes) = read_u32(bytes)?;
    let (answer, bytes) = answer_at(bytes)?;
    let (first, bytes) = read_u32(bytes)?;
    let (events, bytes) = counted_at(bytes)?;
    if mark != DOWN_MARK || events.len() > MAX_EVENTS {
        return None;
    }
    Some((
        Down {
            key,
            incarnation,
            done,
            answer,
            first,
            events,
        },
        bytes,
    ))
}

/// The Down that these bytes are.
#[tactic(auto, unfolding(crate::specs::Messages::down_of))]
pub(crate) fn read_down(bytes: &[u8]) -> Option<Down>
    ensures { result ≡ down_of bytes.now }
{
    whole(down_at(bytes))
}

/// Cuts off again what a writer wrote before memory ran out.
pub(crate) fn settled(
    out: &mut Vec<u8>,
    before: usize,
    done: Result<(), NoMemory>,
) -> Result<(), NoMemory>
    requires { before ≤ length out.old.items }
    ensures same { result ≡ done }
    ensures ok { OnOk result (out.new.items ≡ out.old.items) }
    ensures err { OnErr result (out.new.items ≡ take before out.old.items) }
{
    if done.is_err() {
        out.truncate(before);
    }
    done
}

#[tactic(auto, unfolding(crate::specs::Messages::up_text))]
fn put_up_parts(out: &mut Vec<u8>, up: &Up) -> Result<(), NoMemory>
    requires { AreShort up.now.line }
    ensures ok { OnOk result (out.new.items ≡ out.old.items ++ up_text up.now) }
    ensures err { OnErr result (take (length out.old.items) out.new.items ≡ out.old.items) }
{
    put_u32(out, UP_MARK)?;
    put_u32(out, up.key)?;
    put_u32(out, up.number)?;
    put_u32(out, up.ack)?;
    put_bytes(out, up.line)
}

/// Takes an Up to the end, or leaves `out` as before where memory has run out.
pub(crate) fn put_up(out: &mut Vec<u8>, up: &Up) -> Result<(), NoMemory>
    requires { AreShort up.now.line }
    ensures ok { OnOk result (out.new.items ≡ out.old.items ++ up_text up.now) }
    ensures err { OnErr result (out.new.items ≡ out.old.items) }
{
    let before = out.len();
    let done = put_up_parts(out, up);
    settled(out, before, done)
}

fn answer_code(answer: Answer) -> u8
    ensures { result ≡ answer_code answer }
{
    match answer {
        Answer::NoAnswer => 0,
        Answer::Taken => 1,
        Answer::Refused => 2,
        Answer::Full => 3,
    }
}

/// All of a Down but its events. Where memory has run out, what was there before still stands in front.
#[tactic(auto, unfolding(crate::specs::Messages::down_head_text))]
pub(crate) fn put_down_head(
    out: &mut Vec<u8>,
    key: u32,
    incarnation: u32,
    done: u32,
    answer: Answer,
    first: u32,
) -> Result<(), NoMemory>
    ensures ok { OnOk result (out.new.items
        ≡ out.old.items ++ down_head_text key incarnation done answer first) }
    ensures err { OnErr result (take (length out.old.items) out.new.items ≡ out.old.items) }
{
    put_u32(out, DOWN_MARK)?;
    put_u32(out, key)?;
    put_u32(out, incarnation)?;
    put_u32(out, done)?;
    put_u8(out, answer_code(answer))?;
    put_u32(out, first)
}
