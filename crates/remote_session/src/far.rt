//! The client's end of a session.
ghost use Rattle.std.specs.Prelude.{◌≡◌, [], ◌++◌, ◌≤◌, ◌<◌, ◌^◌, length, take, IfOk, OnOk, OnErr, option_copied, slice_get, unwrap_or};
ghost use Rattle.rsct_packet.specs.Fields.{AreShort};
ghost use Rattle.remote_session.specs.Messages.{max_line, up_text, down_of};
ghost use Rattle.remote_session.specs.Client.{far_new, may_call, far_called, up_from, heard_with, far_seen, far_taken, own_down};

use crate::messages::{Answer, Down, Lines, Up, put_up, read_down};
use rsct_packet::{NoMemory, Text};
use std::alloc::Global;
use std::marker::Model;

/// What a Down was to the client's end.
///
/// - `NoMessage`: the bytes are no Down of its key.
/// - `Nothing`: no answer to the call that waits for one; events may have been heard.
/// - `Answer(taken)`: the call that waited has its answer.
/// - `Lost(first, now)`: the daemon has another incarnation, `now`, than in the first Down; nothing was heard.
/// - `Full`: the daemon keeps no more keys; nothing was heard.
#[derive(Clone, Copy, Debug, PartialEq, Eq)]
pub enum DownSeen {
    NoMessage,
    Nothing,
    Answer(bool),
    Lost(u32, u32),
    Full,
}

/// Hears the events whose numbers follow. Where memory has run out, what was heard before still stands in front.
#[tactic(auto, unfolding(crate::specs::Client::heard_with))]
fn hear_each(
    heard: &mut Vec<Text>,
    alloc: Global,
    first: u32,
    events: &mut Lines,
) -> Result<(), NoMemory>
    requires { length events.old ≤ 16 }
    ensures ok { OnOk result (heard.new.items ≡ heard_with heard.old.items first events.old) }
    ensures err { OnErr result (take (length heard.old.items) heard.new.items ≡ heard.old.items) }
    ensures few { length heard.old.items < 2 ^ 32 → length heard.new.items < 2 ^ 32 }
{
    let mut number = first as u64;
    while let Some(line) = events.take_first() {
        if number == heard.len() as u64 + 1 && heard.len() < u32::MAX as usize {
            let line = Text::of(alloc, line)?.unwrap();
            heard.push(line)?;
        }
        number += 1;
    }
    Ok(())
}

/// Hears the events whose numbers follow, or none where memory has run out.
fn hear(
    heard: &mut Vec<Text>,
    alloc: Global,
    first: u32,
    events: &mut Lines,
) -> Result<(), NoMemory>
    requires { length events.old ≤ 16 }
    ensures ok { OnOk result (heard.new.items ≡ heard_with heard.old.items first events.old) }
    ensures err { OnErr result (heard.new.items ≡ heard.old.items) }
    ensures few { length heard.old.items < 2 ^ 32 → length heard.new.items < 2 ^ 32 }
{
    let before = heard.len();
    if hear_each(heard, alloc, first, events).is_err() {
        heard.truncate(before);
        return Err(NoMemory);
    }
    Ok(())
}

/// The Down that these bytes are, where it is of this key.
#[tactic(auto, unfolding(crate::specs::Client::own_down))]
fn own_down(key: u32, bytes: &[u8]) -> Option<Down>
    ensures { result ≡ own_down key (down_of bytes.now) }
{
    let down = read_down(bytes)?;
    if down.key != key {
        return None;
    }
    Some(down)
}

/// The line of a call that waits for its answer, or nothing.
fn line_of(calling: &Option<Text>) -> &[u8]
    ensures line { result.now ≡ unwrap_or calling.now [] }
    ensures short { AreShort result.now }
{
    match calling {
        None => &[],
        Some(line) => line.bytes(),
    }
}

/// The client's end of the session with one key.
#[derive(Drop)]
pub struct Far {
    key: u32,
    number: u32,
    calling: Option<Text>,
    incarnation: Option<u32>,
    heard: Vec<Text>,
}

impl Model for Far {
    ghost use Rattle.std.specs.Prelude.{◌<◌, ◌^◌, length};
    ghost use Rattle.remote_session.specs.Client.{FarState};

    ghost Value = { FarState };

    ghost view = { λ f. record { key = f.key; number = f.number; calling = f.calling; incarnation = f.incarnation; heard = f.heard.items } };

    ghost invariant = { λ f. length f.heard.items < 2 ^ 32 };
}

impl Far {
    /// A client's end with this key, which no other client of the daemon has or had. It has made no call and heard
    /// nothing.
    #[tactic(auto, unfolding(crate::specs::Client::far_new))]
    pub fn new(alloc: Global, key: u32) -> Far
        ensures { result ≡ far_new key }
    {
        Far {
            key,
            number: 0,
            calling: None,
            incarnation: None,
            heard: Vec::new(alloc),
        }
    }

    /// Makes the next call, whose line has 1 to 1,100 bytes. Answers false, and nothing changes, exactly where the last
    /// call has no answer yet or has the last number, 4,294,967,295. Where memory has run out nothing has changed.
    #[tactic(auto, unfolding(crate::specs::Client::far_called, crate::specs::Client::may_call))]
    pub fn call(&mut self, alloc: Global, line: &[u8]) -> Result<bool, NoMemory>
        requires some { 1 ≤ length line.now }
        requires short { length line.now ≤ max_line }
        ensures made { IfOk result (λ made. made ≡ may_call self.old) }
        ensures state { OnOk result (self.new ≡ far_called line.now self.old) }
        ensures err { OnErr result (self.new ≡ self.old) }
    {
        if self.calling.is_some() || self.number == u32::MAX {
            return Ok(false);
        }
        let line = Text::of(alloc, line)?.unwrap();
        self.calling = Some(line);
        self.number += 1;
        Ok(true)
    }

    /// Takes the Up of this moment to the end of `out`: the number of the last call, its line while it has no answer,
    /// and how many events were heard. Where memory has run out `out` is as before.
    #[tactic(auto, unfolding(crate::specs::Client::up_from))]
    pub fn up(&self, out: &mut Vec<u8>) -> Result<(), NoMemory>
        ensures ok { OnOk result (out.new.items ≡ out.old.items ++ up_text (up_from self.now)) }
        ensures err { OnErr result (out.new.items ≡ out.old.items) }
    {
        let ack = self.heard.len() as u32;
        put_up(
            out,
            &Up {
                key: self.key,
                number: self.number,
                ack,
                line: line_of(&self.calling),
            },
        )
    }

    /// Takes a datagram. The first Down of its key says which incarnation the daemon has; a Down of another one is not
    /// believed. Where memory has run out nothing has changed.
    #[tactic(auto, unfolding(crate::specs::Client::far_seen, crate::specs::Client::far_seen_as, crate::specs::Client::far_taken, crate::specs::Client::far_taken_as, crate::specs::Client::far_heard, crate::specs::Client::is_answered))]
    pub fn down(&mut self, alloc: Global, bytes: &[u8]) -> Result<DownSeen, NoMemory>
        ensures seen { IfOk result (λ seen. seen ≡ far_seen self.old bytes.now) }
        ensures state { OnOk result (self.new ≡ far_taken self.old bytes.now) }
        ensures err { OnErr result (self.new ≡ self.old) }
    {
        let Some(mut down) = own_down(self.key, bytes) else {
            return Ok(DownSeen::NoMessage);
        };
        let first = self.incarnation.unwrap_or(down.incarnation);
        if first != down.incarnation {
            return Ok(DownSeen::Lost(first, down.incarnation));
        }
        if down.answer == Answer::Full {
            self.incarnation = Some(first);
            return Ok(DownSeen::Full);
        }
        hear(&mut self.heard, alloc, down.first, &mut down.events)?;
        self.incarnation = Some(first);
        if self.calling.is_none() || down.done != self.number {
            return Ok(DownSeen::Nothing);
        }
        self.calling = None;
        Ok(DownSeen::Answer(down.answer == Answer::Taken))
    }

    /// The event at this place, from 0, of all that were heard; None exactly where there are not so many.
    pub fn heard(&self, place: u32) -> Option<&[u8]>
        ensures { option_copied result ≡ slice_get self.now.heard place }
    {
        let line = self.heard.get(place as usize)?;
        Some(line.bytes())
    }
}
