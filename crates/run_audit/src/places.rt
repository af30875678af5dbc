//! What nodes put into lists: the first put of each place.
ghost use Rattle.std.specs.Prelude.{◌≡◌, ◌+◌, ◌∷◌, [], List, ℕ, length, is_some, option_copied, IfOk, OnOk};
ghost use Rattle.std.specs.Map.{lookup};
ghost use Rattle.entry_words.specs.Wording.{entry_text};
ghost use Rattle.proposal_core.specs.declared.entry.Entry.{Entry};
ghost use Rattle.record_lines.specs.declared.line.Line.{Line};
ghost use Rattle.record_lines.specs.declared.line.Line.TheVariants as line;
ghost use Rattle.run_audit.specs.declared.broken.Rule.TheVariants as rule;
ghost use Rattle.run_audit.specs.Keys.{view_key};
ghost use Rattle.run_audit.specs.Kept.{Keep, fault_of};
ghost use Rattle.run_audit.specs.Places.{ArePlaces, is_entry_there, is_place_key, same_place_key, line_of};

use crate::broken::{Fault, Rule};
use crate::lists::{ListKey, list_key};
use indexmap::IndexMap;
use rsct_packet::{List, NoMemory, ViewId};
use std::alloc::Global;
use std::marker::Model;
use value_words::is_word;

/// A place of a list.
#[derive(PartialEq, Eq, Hash, Drop)]
pub struct PlaceKey {
    pub list: ListKey,
    pub place: u32,
}

/// The text of the entry that was put, and the number of its line.
#[derive(Drop)]
pub struct FirstPut {
    pub text: List<u8>,
    pub number: u32,
}

fn place_key(alloc: Global, view: ViewId, group: &[u8], place: u32) -> Result<PlaceKey, NoMemory>
    ensures view { IfOk result (λ k. k.list.view ≡ view_key view) }
    ensures group { IfOk result (λ k. k.list.group.items ≡ group.now) }
    ensures place { IfOk result (λ k. k.place ≡ place) }
{
    Ok(PlaceKey {
        list: list_key(alloc, view, group)?,
        place,
    })
}

/// Is the entry of this text that of the place, where it has one?
#[tactic(auto, unfolding(crate::specs::Places::is_entry_there))]
fn is_entry_there(text: &[u8], first: Option<&FirstPut>) -> bool
    ensures { result ≡ is_entry_there text.now (option_copied first.entry) }
{
    match first {
        None => true,
        Some(first) => is_word(text, first.text.as_slice()),
    }
}

/// The number of its line.
#[tactic(auto, unfolding(crate::specs::Places::line_of))]
fn line_of(first: Option<&FirstPut>) -> Option<u32>
    ensures { result ≡ line_of (option_copied first.entry) }
{
    match first {
        None => None,
        Some(first) => Some(first.number),
    }
}

/// The first put of each place of each list.
#[derive(Drop)]
pub struct Places {
    by_key: IndexMap<PlaceKey, FirstPut>,
}

impl Model for Places {
    ghost use Rattle.std.specs.Prelude.{List};
    ghost use Rattle.run_audit.specs.declared.places.FirstPut.{FirstPut};
    ghost use Rattle.run_audit.specs.declared.places.PlaceKey.{PlaceKey};

    ghost Value = { List (PlaceKey × FirstPut) };

    ghost view = { λ s. s.by_key.entries };
}

impl Places {
    /// Of no lines.
    pub fn new(alloc: Global) -> Places
        ensures { ArePlaces [] result }
    {
        Places {
            by_key: IndexMap::new(alloc),
        }
    }

    /// The first put of the place.
    fn first(
        &self,
        alloc: Global,
        view: ViewId,
        group: &[u8],
        place: u32,
    ) -> Result<Option<&FirstPut>, NoMemory>
        ensures { IfOk result (λ x. option_copied x ≡ lookup
            (is_place_key (record { view = view; group = group.now; place = place })) self.now) }
    {
        let key = place_key(alloc, view, group, place)?;
        Ok(self.by_key.get(&key))
    }

    /// Was an entry put there?
    fn has(&self, key: &PlaceKey) -> bool
        ensures { result ≡ is_some (lookup (same_place_key key.now) self.now) }
    {
        self.by_key.contains_key(key)
    }

    /// What the table says of the rule on entries: nothing where a put of the entry of this text at this place keeps it.
    pub fn fault(
        &self,
        alloc: Global,
        view: ViewId,
        group: &[u8],
        place: u32,
        text: &[u8],
    ) -> Result<Option<Fault>, NoMemory>
        ensures { IfOk result (λ x. (ls : List Line) (n : ℕ) (e : Entry)
            → ArePlaces ls self.now → Keep rule.Place ls → text.now ≡ entry_text e
            → x ≡ fault_of rule.Entry (line.Put n view group.now place e) ls) }
    {
        let first = self.first(alloc, view, group, place)?;
        if is_entry_there(text, first) {
            Ok(None)
        } else {
            Ok(Some(Fault {
                rule: Rule::Entry,
                with_line: line_of(first),
            }))
        }
    }

    /// In the line of this number the entry of this text is put at the place.
    pub fn note(
        &mut self,
        alloc: Global,
        view: ViewId,
        group: &[u8],
        place: u32,
        text: List<u8>,
        number: u32,
    ) -> Result<(), NoMemory>
        ensures { OnOk result ((ls : List Line) (n : ℕ) (e : Entry) → ArePlaces ls self.old
            → number ≡ length ls + 1 → text ≡ entry_text e
            → ArePlaces (line.Put n view group.now place e ∷ ls) self.new) }
    {
        let key = place_key(alloc, view, group, place)?;
        if self.has(&key) {
            return Ok(());
        }
        self.by_key.insert(key, FirstPut { text, number })?;
        Ok(())
    }
}
