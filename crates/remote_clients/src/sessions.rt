//! The sessions of the clients on other machines: what comes from them, and what they are to hear.
ghost use Rattle.std.specs.Prelude.{◌≡◌, OnOk, OnErr, IfOk, IfSome};
ghost use Rattle.world_model.specs.Text.{record_text};
ghost use Rattle.remote_clients.specs.Clients.{IsPlain};
ghost use Rattle.remote_clients.specs.Sessions.{sessions_new, noted, noted_all, call_for, is_refused, finished, turned_down};
ghost use Rattle.remote_clients.specs.Entries.{noting_of, entry_noted, noted_with};
ghost use Rattle.remote_clients.specs.Ending.{session_ended};
ghost use Rattle.remote_session.specs.Daemon.{event_added};
ghost use Rattle.remote_session.specs.Ending.{may_end};

use crate::clients::Clients;
use crate::entries::Shown;
use node_state::{CallLine, Happened};
use remote_session::Remote;
use rsct_packet::NoMemory;
use script_reader::call_line;
use std::alloc::Global;
use transcript::line_of;

/// A daemon's end of all remote sessions, and their clients.
#[derive(Drop)]
pub struct Sessions {
    pub remote: Remote,
    pub clients: Clients,
}

/// Was a call refused in the step that recorded this?
#[tactic(auto, unfolding(crate::specs::Sessions::is_refused))]
pub fn is_refused(records: &[Happened]) -> bool
    ensures { result ≡ is_refused records.now }
{
    records
        .iter()
        .any(|happened| matches!(happened, Happened::Refused { .. }))
}

/// The line of a record, without its line feed.
#[tactic(auto, unfolding(world_model::specs::Text::line_of), using(crate::proofs::TextLaws::without_feed))]
fn event_text(alloc: Global, happened: &Happened) -> Result<Vec<u8>, NoMemory>
    ensures { IfOk result (λ text. text.items ≡ record_text happened.now) }
{
    let mut line = line_of(alloc, happened)?;
    let _feed = line.pop();
    Ok(line)
}

impl Sessions {
    /// Those of a daemon in this incarnation, before any Up.
    #[tactic(auto, unfolding(crate::specs::Sessions::sessions_new))]
    pub fn new(alloc: Global, incarnation: u32) -> Sessions
        ensures { result ≡ sessions_new incarnation }
    {
        Sessions {
            remote: Remote::new(alloc, incarnation),
            clients: Clients::new(alloc),
        }
    }

    /// The call of the node `me` that a key's line is; none where it is refused without a step.
    #[tactic(auto, unfolding(crate::specs::Sessions::call_for), using(crate::proofs::PlainLaws::admitted_plain))]
    pub fn call(
        &self,
        alloc: Global,
        me: u8,
        key: u32,
        line: &[u8],
    ) -> Result<Option<CallLine>, NoMemory>
        ensures call { IfOk result (λ call. call ≡ call_for self.now me key line.now) }
        ensures plain { IfOk result (λ call. IfSome call IsPlain) }
    {
        let Some(call) = call_line(alloc, line)? else {
            return Ok(None);
        };
        if self.clients.admits(me, key, &call) {
            Ok(Some(call))
        } else {
            Ok(None)
        }
    }

    /// A record comes, of a step that was a call of the key `calling`, if it was one: its line goes to who is to hear it,
    /// without its line feed. A line of 65,536 bytes or more counts as want of memory.
    #[tactic(auto, unfolding(crate::specs::Sessions::noted))]
    fn note(
        &mut self,
        alloc: Global,
        calling: Option<u32>,
        happened: &Happened,
    ) -> Result<(), NoMemory>
        ensures { OnOk result (self.new
            ≡ noted calling self.old happened.now) }
    {
        self.clients.note(calling, happened)?;
        let Some(key) = self.clients.hearer(calling, happened) else {
            return Ok(());
        };
        let line = event_text(alloc, happened)?;
        self.remote.event(alloc, key, line.as_slice())
    }

    /// The records of a step come, in their order.
    #[tactic(auto, unfolding(crate::specs::Sessions::noted_all), using(std::proofs::lemmas::List::Sums::fold_more))]
    pub fn note_all(
        &mut self,
        alloc: Global,
        calling: Option<u32>,
        records: &[Happened],
    ) -> Result<(), NoMemory>
        ensures { OnOk result (self.new
            ≡ noted_all calling records.now self.old) }
    {
        for happened in records {
            self.note(alloc, calling, happened)?;
        }
        Ok(())
    }

    /// The line of a record goes to the key.
    fn tell(&mut self, alloc: Global, key: u32, happened: &Happened) -> Result<(), NoMemory>
        ensures { OnOk result (self.new ≡ record self.old
            { remote = event_added key (record_text happened.now) self.old.remote }) }
    {
        let line = event_text(alloc, happened)?;
        self.remote.event(alloc, key, line.as_slice())
    }

    /// A record comes: its line goes to who is to hear it, and before it that of its entry, where one is heard whose line
    /// the key has not got in this step.
    #[tactic(auto, unfolding(crate::specs::Entries::entry_noted))]
    fn note_entry<'a>(
        &mut self,
        alloc: Global,
        calling: Option<u32>,
        happened: &'a Happened,
        shown: &mut Shown<'a>,
    ) -> Result<(), NoMemory>
        ensures { OnOk result (noting_of self.new shown.new
            ≡ entry_noted calling (noting_of self.old shown.old) happened.now) }
    {
        self.clients.note(calling, happened)?;
        let Some(key) = self.clients.hearer(calling, happened) else {
            return Ok(());
        };
        if let Some(put) = shown.due(alloc, key, happened)? {
            self.tell(alloc, key, &put)?;
            shown.show(alloc, key, happened)?;
        }
        self.tell(alloc, key, happened)
    }

    /// The records of a step come, in their order; with `entries` the line of each entry stands directly before the first
    /// hearing of it that goes to a key.
    #[tactic(auto, unfolding(crate::specs::Entries::noted_with), using(std::proofs::lemmas::List::Sums::fold_more))]
    pub fn note_all_with(
        &mut self,
        alloc: Global,
        entries: bool,
        calling: Option<u32>,
        records: &[Happened],
    ) -> Result<(), NoMemory>
        ensures { OnOk result (self.new
            ≡ noted_with entries calling records.now self.old) }
    {
        if !entries {
            return self.note_all(alloc, calling, records);
        }
        let mut shown = Shown::new(alloc);
        for happened in records {
            self.note_entry(alloc, calling, happened, &mut shown)?;
        }
        Ok(())
    }

    /// A call of the key was a step, in which it was taken or refused.
    #[tactic(auto, unfolding(crate::specs::Sessions::finished))]
    pub fn finish(
        &mut self,
        alloc: Global,
        key: u32,
        call: &CallLine,
        taken: bool,
    ) -> Result<(), NoMemory>
        ensures { OnOk result (self.new
            ≡ finished key call.now taken self.old) }
    {
        if taken {
            self.clients.take(alloc, key, call)?;
        }
        self.remote.done(key, taken);
        Ok(())
    }

    /// A line of the key is refused without a step.
    #[tactic(auto, unfolding(crate::specs::Sessions::turned_down))]
    pub fn turn_down(&mut self, key: u32)
        ensures { self.new ≡ turned_down key self.old }
    {
        self.remote.done(key, false);
    }

    /// Ends a key, as `Remote::end` does, and what is known of its client goes with it.
    #[tactic(auto, unfolding(crate::specs::Ending::session_ended))]
    pub fn end(&mut self, alloc: Global, key: u32) -> Result<bool, NoMemory>
        ensures ended { IfOk result (λ ended. ended ≡ may_end self.old.remote) }
        ensures state { OnOk result (self.new ≡ session_ended key self.old) }
        ensures err { OnErr result (self.new ≡ self.old) }
    {
        let ended = self.remote.end(alloc, key)?;
        if ended {
            self.clients.end(key);
        }
        Ok(ended)
    }
}
