//! What was agreed on: the line of an entry, before the first hearing of it that goes to a key in a step.
ghost use Rattle.std.specs.Prelude.{◌≡◌, IfOk, OnOk};
ghost use Rattle.std.specs.Option.{option_copied};
ghost use Rattle.remote_clients.specs.Entries.{is_heard_at, same_entry, put_of, goes_on, nothing_shown, is_shown, put_due, shown_to};

use node_state::Happened;
use rsct_packet::{List, Name, NoMemory, ViewId};
use std::alloc::Global;
use std::marker::Model;

/// Is it a hearing of the entry at this place of the group's list in the view?
fn is_heard_at(happened: &Happened, view: ViewId, group: &Name, place: u32) -> bool
    ensures { result ≡ is_heard_at view group.now place happened.now }
{
    match happened {
        Happened::Heard {
            view: at,
            group: of,
            place: number,
            ..
        } => *number == place && *at == view && of.bytes() == group.bytes(),
        _ => false,
    }
}

/// Are both hearings of one entry?
fn is_same_entry(heard: &Happened, happened: &Happened) -> bool
    ensures { result ≡ same_entry heard.now happened.now }
{
    match heard {
        Happened::Heard {
            view,
            group,
            place,
            ..
        } => is_heard_at(happened, *view, group, *place),
        _ => false,
    }
}

/// The `put` record of the entry, where one is heard.
fn put_of(alloc: Global, happened: &Happened) -> Result<Option<Happened>, NoMemory>
    ensures { IfOk result (λ put. put ≡ put_of happened.now) }
{
    match happened {
        Happened::Heard {
            provider,
            view,
            group,
            place,
            entry,
            ..
        } => {
            let group = group.copy(alloc)?;
            let entry = entry.copy(alloc)?;
            Ok(Some(Happened::Put {
                node: provider.node,
                view: *view,
                group,
                place: *place,
                entry,
            }))
        }
        _ => Ok(None),
    }
}

/// Is it another hearing of the entry that was heard last?
fn goes_on(heard: Option<&Happened>, happened: &Happened) -> bool
    ensures { result ≡ goes_on (option_copied heard.entry) happened.now }
{
    match heard {
        None => false,
        Some(heard) => is_same_entry(heard, happened),
    }
}

/// So far in a step: the last hearing before which the line of its entry stands, and the keys that have that line.
#[derive(Drop)]
pub(crate) struct Shown<'a> {
    heard: Option<&'a Happened>,
    keys: List<u32>,
}

impl<'a> Model for Shown<'a> {
    ghost use Rattle.std.specs.Option.{option_copied};
    ghost use Rattle.remote_clients.specs.Entries.{Showing};

    ghost Value = { Showing };

    ghost view = { λ s. record { heard = option_copied s.heard; keys = s.keys } };
}

impl<'a> Shown<'a> {
    /// None.
    pub(crate) fn new(alloc: Global) -> Shown<'a>
        ensures { result ≡ nothing_shown }
    {
        Shown {
            heard: None,
            keys: List::new(alloc),
        }
    }

    /// Has the key the line of the entry that is heard here?
    fn has(&self, key: u32, happened: &Happened) -> bool
        ensures { result ≡ is_shown self.now key happened.now }
    {
        goes_on(self.heard, happened) && self.keys.as_slice().iter().any(|shown| key == *shown)
    }

    /// The key has the line of the entry that is heard here.
    #[tactic(auto, unfolding(crate::specs::Entries::shown_to))]
    pub(crate) fn show(
        &mut self,
        alloc: Global,
        key: u32,
        happened: &'a Happened,
    ) -> Result<(), NoMemory>
        ensures { OnOk result (self.new ≡ shown_to key happened.now self.old) }
    {
        if !goes_on(self.heard, happened) {
            self.keys = List::new(alloc);
        }
        self.heard = Some(happened);
        self.keys.push(key)
    }

    /// The record whose line the key is to have before that of this one: the `put` of its entry, where the key has not got it.
    #[tactic(auto, unfolding(crate::specs::Entries::put_due))]
    pub(crate) fn due(
        &self,
        alloc: Global,
        key: u32,
        happened: &Happened,
    ) -> Result<Option<Happened>, NoMemory>
        ensures { IfOk result (λ put. put ≡ put_due self.now key happened.now) }
    {
        if self.has(key, happened) {
            return Ok(None);
        }
        put_of(alloc, happened)
    }
}
