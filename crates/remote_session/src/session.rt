//! What the daemon's end keeps of one key.
ghost use Rattle.std.specs.Prelude.{◌≡◌, ◌∷◌, [], ◌++◌, ◌<◌, ◌^◌, length, take, drop, flat_map, OnOk, OnErr};
ghost use Rattle.std.specs.Int.{w8};
ghost use Rattle.rsct_packet.specs.Format.{counted_text};
ghost use Rattle.rsct_packet.specs.Fields.{bytes_text};
ghost use Rattle.remote_session.specs.Messages.{max_events};
ghost use Rattle.remote_session.specs.Daemon.{new_session, acknowledged, makes_call, opened, session_up, answer_told, session_done, with_event, session_event};
ghost use Rattle.remote_session.specs.Ending.{silent_longer};

use crate::messages::{Answer, MAX_EVENTS, Up};
use rsct_packet::{NoMemory, Text, put_bytes, put_u8, risen};
use std::alloc::Global;
use std::collections::VecDeque;
use std::marker::Model;

/// Events in order.
#[derive(Drop)]
pub(crate) struct Events {
    lines: VecDeque<Text>,
}

impl Model for Events {
    ghost use Rattle.std.specs.Prelude.{List, ℕ};

    ghost Value = { List (List ℕ) };

    ghost view = { λ e. e.lines.items };
}

/// Lets the first lines go.
fn drop_front(lines: &mut VecDeque<Text>, count: u32)
    ensures { lines.new.items ≡ drop count lines.old.items }
{
    let count = (count as usize).min(lines.len());
    for _i in 0..count {
        let _ = lines.pop_front();
    }
}

/// The first lines, at most 16, behind their count. Where memory has run out, what was there before still stands in
/// front.
fn put_front(out: &mut Vec<u8>, lines: &VecDeque<Text>) -> Result<(), NoMemory>
    ensures ok { OnOk result (out.new.items
        ≡ out.old.items ++ counted_text w8 bytes_text (take max_events lines.now.items)) }
    ensures err { OnErr result (take (length out.old.items) out.new.items ≡ out.old.items) }
{
    let count = lines.len().min(MAX_EVENTS);
    put_u8(out, count as u8)?;
    for i in 0..count {
        put_bytes(out, lines[i].bytes())?;
    }
    Ok(())
}

impl Events {
    pub(crate) fn len(&self) -> usize
        ensures { result ≡ length self.now }
    {
        self.lines.len()
    }

    fn new(alloc: Global) -> Events
        ensures { result ≡ [] }
    {
        Events {
            lines: VecDeque::new(alloc),
        }
    }

    fn push(&mut self, line: Text) -> Result<(), NoMemory>
        ensures ok { OnOk result (self.new ≡ self.old ++ line ∷ []) }
        ensures err { OnErr result (self.new ≡ self.old) }
    {
        self.lines.push_back(line)?;
        Ok(())
    }

    fn drop_front(&mut self, count: u32)
        ensures { self.new ≡ drop count self.old }
    {
        drop_front(&mut self.lines, count);
    }

    pub(crate) fn put_front(&self, out: &mut Vec<u8>) -> Result<(), NoMemory>
        ensures ok { OnOk result (out.new.items
            ≡ out.old.items ++ counted_text w8 bytes_text (take max_events self.now)) }
        ensures err { OnErr result (take (length out.old.items) out.new.items ≡ out.old.items) }
    {
        put_front(out, &self.lines)
    }
}

/// A key's session: how many events its client's end has heard; how many of its calls were answered, and the last
/// answer; whether a call is open, which was given out and has no answer yet; the number of its newest event; the
/// events that were not heard yet; and how many ticks the daemon made since the key's last Up.
#[derive(Drop)]
pub(crate) struct Session {
    pub(crate) ack: u32,
    pub(crate) done: u32,
    pub(crate) answer: Answer,
    pub(crate) is_open: bool,
    pub(crate) newest: u32,
    pub(crate) events: Events,
    pub(crate) silent: u32,
}

impl Session {
    #[tactic(auto, unfolding(crate::specs::Daemon::new_session))]
    pub(crate) fn new(alloc: Global) -> Session
        ensures { result ≡ new_session }
    {
        Session {
            ack: 0,
            done: 0,
            answer: Answer::NoAnswer,
            is_open: false,
            newest: 0,
            events: Events::new(alloc),
            silent: 0,
        }
    }

    #[tactic(auto, unfolding(crate::specs::Daemon::acknowledged))]
    fn acknowledge(&mut self, ack: u32)
        ensures { self.new ≡ acknowledged ack self.old }
    {
        if ack > self.ack {
            self.events.drop_front(ack - self.ack);
            self.ack = ack;
        }
    }

    /// Does this Up make the call after the last one that was answered, while none waits for its answer?
    #[tactic(auto, unfolding(crate::specs::Daemon::makes_call))]
    fn makes_call(&self, up: &Up) -> bool
        ensures { result ≡ makes_call up.now self.now }
    {
        up.number as u64 == self.done as u64 + 1 && !up.line.is_empty() && !self.is_open
    }

    /// Takes an Up, and answers whether it makes a call.
    #[tactic(auto, unfolding(crate::specs::Daemon::session_up, crate::specs::Daemon::opened))]
    pub(crate) fn take_up(&mut self, up: &Up) -> bool
        ensures state { self.new ≡ session_up up.now self.old }
        ensures calls { result ≡ makes_call up.now self.old }
    {
        let calls = self.makes_call(up);
        self.acknowledge(up.ack);
        self.silent = 0;
        if calls {
            self.is_open = true;
        }
        calls
    }

    /// The daemon ticks, and no Up came.
    pub(crate) fn wait(&mut self)
        ensures { self.new ≡ silent_longer self.old }
    {
        self.silent = risen(self.silent);
    }

    /// Answers the open call.
    #[tactic(auto, unfolding(crate::specs::Daemon::session_done, crate::specs::Daemon::answer_told))]
    pub(crate) fn finish(&mut self, taken: bool)
        ensures { self.new ≡ session_done taken self.old }
    {
        if !self.is_open {
            return;
        }
        self.done = risen(self.done);
        self.answer = if taken {
            Answer::Taken
        } else {
            Answer::Refused
        };
        self.is_open = false;
    }

    /// Gives an event the next number, and keeps it. Where memory has run out nothing has changed.
    #[tactic(auto, unfolding(crate::specs::Daemon::session_event, crate::specs::Daemon::with_event))]
    pub(crate) fn add_event(&mut self, line: Text) -> Result<(), NoMemory>
        ensures ok { OnOk result (self.new ≡ session_event line self.old) }
        ensures err { OnErr result (self.new ≡ self.old) }
    {
        if self.newest == u32::MAX {
            return Ok(());
        }
        if self.ack <= self.newest {
            self.events.push(line)?;
        }
        self.newest += 1;
        Ok(())
    }
}
