//! The daemon's end of all client sessions.
ghost use Rattle.std.specs.Prelude.{◌≡◌, ◌++◌, ◌≤◌, ◌^◌, length, take, not, true, nat_eq, nat_le, IfOk, OnOk, OnErr, IsErr, option_copied};
ghost use Rattle.remote_session.specs.Messages.{down_text};
ghost use Rattle.remote_session.specs.Daemon.{kept, is_full_for, call_made, edited, session_up, session_done, session_event, remote_new, seen_up, up_seen, up_taken, done_told, event_added, down_as, life_told, down_for};
ghost use Rattle.remote_session.specs.Ending.{silent_longer, waited, remote_ticked, silent_keys, may_end, without, key_ended, standing_of};

use crate::messages::{Answer, Up, put_down_head, read_up, settled};
use crate::session::Session;
use indexmap::{IndexMap, IndexSet};
use rsct_packet::{NoMemory, Text, put_u8, risen};
use std::alloc::Global;
use std::marker::Model;

/// How many keys a daemon keeps.
pub const MAX_KEYS: usize = 1024;

/// How many keys end in a daemon's life.
pub const MAX_ENDED: usize = 1_048_576;

/// What an Up was to the daemon.
///
/// - `NoMessage`: the bytes are no Up.
/// - `Ended(key)`: the key has ended. The Up brings nothing, however late it comes.
/// - `Full(key, 1024)`: the key is new, and 1,024 keys are kept.
/// - `Known(key)`: it brings no call that is due: an old one, one that was given out before, one while another waits
///   for its answer, or none at all.
/// - `Call`: the next call of the key, which is now open; its line is a part of the datagram.
#[derive(Clone, Copy, Debug)]
pub enum UpSeen<'a> {
    NoMessage,
    Ended(u32),
    Full(u32, u32),
    Known(u32),
    Call { key: u32, line: &'a [u8] },
}

/// How a key stands: for how many ticks no Up of it came, up to 4,294,967,295; and how many of its events are kept.
#[derive(Clone, Copy, Debug, PartialEq, Eq)]
pub struct Standing {
    pub silent: u32,
    pub unread: usize,
}

/// Has the key no session while as many are kept as may be?
#[tactic(auto, unfolding(crate::specs::Daemon::is_full_for))]
fn is_full_for(sessions: &IndexMap<u32, Session>, key: u32) -> bool
    ensures { result ≡ is_full_for key sessions.now.entries }
{
    !sessions.contains_key(&key) && sessions.len() >= MAX_KEYS
}

/// A key has a session from now on.
#[tactic(auto, unfolding(crate::specs::Daemon::kept))]
fn keep(sessions: &mut IndexMap<u32, Session>, alloc: Global, key: u32) -> Result<(), NoMemory>
    ensures ok { OnOk result (sessions.new.entries ≡ kept key sessions.old.entries) }
    ensures err { OnErr result (sessions.new.entries ≡ sessions.old.entries) }
{
    if sessions.contains_key(&key) {
        return Ok(());
    }
    sessions.insert(key, Session::new(alloc))?;
    Ok(())
}

/// The key's session takes an Up. Does that make a call?
#[tactic(auto, unfolding(crate::specs::Daemon::edited, crate::specs::Daemon::call_made))]
fn take_up(sessions: &mut IndexMap<u32, Session>, up: &Up) -> bool
    ensures state { sessions.new.entries
        ≡ edited up.now.key (session_up up.now) sessions.old.entries }
    ensures calls { result ≡ call_made up.now sessions.old.entries }
{
    match sessions.get_mut(&up.key) {
        None => false,
        Some(session) => session.take_up(up),
    }
}

#[tactic(auto, unfolding(crate::specs::Daemon::edited))]
fn finish(sessions: &mut IndexMap<u32, Session>, key: u32, taken: bool)
    ensures { sessions.new.entries ≡ edited key (session_done taken) sessions.old.entries }
{
    if let Some(session) = sessions.get_mut(&key) {
        session.finish(taken);
    }
}

#[tactic(auto, unfolding(crate::specs::Daemon::edited))]
fn add_event(sessions: &mut IndexMap<u32, Session>, key: u32, line: Text) -> Result<(), NoMemory>
    ensures ok { OnOk result (sessions.new.entries
        ≡ edited key (session_event line) sessions.old.entries) }
    ensures err { OnErr result (sessions.new.entries ≡ sessions.old.entries) }
{
    match sessions.get_mut(&key) {
        None => Ok(()),
        Some(session) => session.add_event(line),
    }
}

/// The daemon ticks: each key was silent for one tick more.
// Written with `retain`, which tells what is written to each value; a `for` over the values does not.
#[tactic(auto, unfolding(crate::specs::Ending::waited))]
fn wait(sessions: &mut IndexMap<u32, Session>)
    ensures { sessions.new.entries ≡ waited sessions.old.entries }
{
    sessions.retain(
        |_key: &u32, session: &mut Session| -> bool
            ensures { (result ≡ true) × (session.new ≡ silent_longer session.old) }
        {
            session.wait();
            true
        },
    );
}

/// The key's session goes, and its events with it.
#[tactic(auto, unfolding(crate::specs::Ending::without))]
fn forget(sessions: &mut IndexMap<u32, Session>, key: u32)
    ensures { sessions.new.entries ≡ without key sessions.old.entries }
{
    sessions.retain(
        |kept: &u32, session: &mut Session| -> bool
            ensures { (result ≡ not (nat_eq key kept.now)) × (session.new ≡ session.old) }
        { key != *kept },
    );
}

/// The Down of a key with this session, or with none.
#[tactic(auto, unfolding(crate::specs::Daemon::down_as, crate::specs::Messages::down_text, crate::specs::Messages::down_head_text))]
fn put_down_parts(
    out: &mut Vec<u8>,
    incarnation: u32,
    key: u32,
    session: Option<&Session>,
) -> Result<(), NoMemory>
    ensures ok { OnOk result (out.new.items
        ≡ out.old.items ++ down_text (down_as incarnation key (option_copied session.entry))) }
    ensures err { OnErr result (take (length out.old.items) out.new.items ≡ out.old.items) }
{
    match session {
        None => {
            put_down_head(out, key, incarnation, 0, Answer::Full, 1)?;
            put_u8(out, 0)
        }
        Some(session) => {
            put_down_head(
                out,
                key,
                incarnation,
                session.done,
                session.answer,
                risen(session.ack),
            )?;
            session.events.put_front(out)
        }
    }
}

/// The sessions of all keys that are kept, and the keys that have ended, in one life of the daemon.
#[derive(Drop)]
pub struct Remote {
    incarnation: u32,
    sessions: IndexMap<u32, Session>,
    ended: IndexSet<u32>,
}

impl Model for Remote {
    ghost use Rattle.remote_session.specs.Daemon.{RemoteState};

    ghost Value = { RemoteState };

    ghost view = { λ r. record {
      incarnation = r.incarnation;
      sessions = r.sessions.entries;
      ended = r.ended.keys;
    } };
}

impl Remote {
    /// The daemon of this incarnation starts: no key is kept.
    #[tactic(auto, unfolding(crate::specs::Daemon::remote_new))]
    pub fn new(alloc: Global, incarnation: u32) -> Remote
        ensures { result ≡ remote_new incarnation }
    {
        Remote {
            incarnation,
            sessions: IndexMap::new(alloc),
            ended: IndexSet::new(alloc),
        }
    }

    /// Takes a datagram. A new key is kept until it ends or the daemon does, unless 1,024 are; an Up of a key that has
    /// ended changes nothing. Events up to the Up's acknowledgement are let go. Where memory has run out nothing has changed.
    #[tactic(auto, unfolding(crate::specs::Daemon::ended_up, crate::specs::Daemon::up_seen, crate::specs::Daemon::up_seen_as, crate::specs::Daemon::up_taken, crate::specs::Daemon::up_taken_as))]
    pub fn up<'a>(&mut self, alloc: Global, bytes: &'a [u8]) -> Result<UpSeen<'a>, NoMemory>
        ensures seen { IfOk result (λ seen. seen_up seen ≡ up_seen self.old bytes.now) }
        ensures state { OnOk result (self.new ≡ up_taken self.old bytes.now) }
        ensures err { OnErr result (self.new ≡ self.old) }
    {
        let Some(up) = read_up(bytes) else {
            return Ok(UpSeen::NoMessage);
        };
        if self.ended.contains(&up.key) {
            return Ok(UpSeen::Ended(up.key));
        }
        if is_full_for(&self.sessions, up.key) {
            return Ok(UpSeen::Full(up.key, MAX_KEYS as u32));
        }
        keep(&mut self.sessions, alloc, up.key)?;
        if !take_up(&mut self.sessions, &up) {
            return Ok(UpSeen::Known(up.key));
        }
        Ok(UpSeen::Call {
            key: up.key,
            line: up.line,
        })
    }

    /// The open call of the key was taken or refused. Where the key has no open call nothing changes.
    #[tactic(auto, unfolding(crate::specs::Daemon::done_told))]
    pub fn done(&mut self, key: u32, taken: bool)
        ensures { self.new ≡ done_told key taken self.old }
    {
        finish(&mut self.sessions, key, taken);
    }

    /// The key's client is to hear this line. Events are numbered from 1; one after number 4,294,967,295 is dropped, and
    /// so is one of a key that is not kept. A line of 65,536 bytes or more counts as want of memory. On an error
    /// nothing has changed.
    #[tactic(auto, unfolding(crate::specs::Daemon::event_added))]
    pub fn event(&mut self, alloc: Global, key: u32, line: &[u8]) -> Result<(), NoMemory>
        ensures ok { OnOk result (self.new ≡ event_added key line.now self.old) }
        ensures long { 2 ^ 16 ≤ length line.now → IsErr result }
        ensures err { OnErr result (self.new ≡ self.old) }
    {
        let Some(line) = Text::of(alloc, line)? else {
            return Err(NoMemory);
        };
        add_event(&mut self.sessions, key, line)
    }

    /// The daemon ticks: the count of ticks since its last Up rises by one for each key, up to 4,294,967,295.
    #[tactic(auto, unfolding(crate::specs::Ending::remote_ticked))]
    pub fn tick(&mut self)
        ensures { self.new ≡ remote_ticked self.old }
    {
        wait(&mut self.sessions);
    }

    /// The keys of which no Up came for `least` ticks or more, in the order in which they came.
    #[tactic(auto, unfolding(crate::specs::Ending::silent_keys))]
    pub fn silent(&self, alloc: Global, least: u32) -> Result<Vec<u32>, NoMemory>
        ensures { IfOk result (λ keys. keys.items ≡ silent_keys least self.now) }
    {
        let keys = self
            .sessions
            .iter()
            .filter(|(_key, session)| session.silent >= least)
            .map(|(key, _session)| *key)
            .collect(alloc)?;
        Ok(keys)
    }

    /// Ends a key for the daemon's life: its events go, no more are kept for it, and it counts no longer among the 1,024.
    /// A key that is not kept has ended then too. Answers false, and nothing changes, exactly where 1,048,576 keys have
    /// ended. Where memory has run out nothing has changed.
    #[tactic(auto, unfolding(crate::specs::Ending::may_end, crate::specs::Ending::key_ended))]
    pub fn end(&mut self, _alloc: Global, key: u32) -> Result<bool, NoMemory>
        ensures ended { IfOk result (λ ended. ended ≡ may_end self.old) }
        ensures state { OnOk result (self.new ≡ key_ended key self.old) }
        ensures err { OnErr result (self.new ≡ self.old) }
    {
        if self.ended.len() >= MAX_ENDED {
            return Ok(false);
        }
        self.ended.insert(key)?;
        forget(&mut self.sessions, key);
        Ok(true)
    }

    /// How a key stands, where it is kept.
    #[tactic(auto, unfolding(crate::specs::Ending::standing_of))]
    pub fn standing(&self, key: u32) -> Option<Standing>
        ensures { result ≡ standing_of key self.now }
    {
        match self.sessions.get(&key) {
            None => None,
            Some(session) => Some(Standing {
                silent: session.silent,
                unread: session.events.len(),
            }),
        }
    }

    /// How many keys are kept: at most 1,024.
    pub fn kept_count(&self) -> usize
        ensures { result ≡ length self.now.sessions }
    {
        self.sessions.len()
    }

    /// How many keys have ended: at most 1,048,576.
    pub fn ended_count(&self) -> usize
        ensures { result ≡ length self.now.ended }
    {
        self.ended.len()
    }

    /// Takes the Down of a key, as it is now, to the end of `out`: how many of its calls were answered, the last answer,
    /// and the first 16 events that were not acknowledged. Of a key that is not kept it says that no more are kept, and
    /// of one that has ended so too, with 0 as the incarnation. Where memory has run out `out` is as before.
    #[tactic(auto, unfolding(crate::specs::Daemon::down_for))]
    pub fn down(&self, key: u32, out: &mut Vec<u8>) -> Result<(), NoMemory>
        ensures ok { OnOk result (out.new.items
            ≡ out.old.items ++ down_text (down_for self.now key)) }
        ensures err { OnErr result (out.new.items ≡ out.old.items) }
    {
        let before = out.len();
        let incarnation = if self.ended.contains(&key) {
            0
        } else {
            self.incarnation
        };
        let session = self.sessions.get(&key);
        let done = put_down_parts(out, incarnation, key, session);
        settled(out, before, done)
    }
}
