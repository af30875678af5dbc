//! Each node's last put that opens a phase.
ghost use Rattle.std.specs.Prelude.{◌≡◌, ◌+◌, ◌∷◌, [], List, ℕ, length, IfOk, OnOk};
ghost use Rattle.std.specs.Map.{lookup};
ghost use Rattle.record_lines.specs.declared.line.Line.{Line};
ghost use Rattle.record_lines.specs.declared.line.Line.TheVariants as line;
ghost use Rattle.run_audit.specs.Based.{AreBased};
ghost use Rattle.run_audit.specs.Keys.{view_key};
ghost use Rattle.run_audit.specs.Lists.{is_row_key};
ghost use Rattle.run_audit.specs.Openings.{AreOpenings, open_line, opened_at, opening_of};
ghost use Rattle.run_audit.specs.Past.{last_no};
ghost use Rattle.run_audit.specs.Table.{opening_no, opens_there};

use crate::based::Based;
use crate::lists::{RowKey, row_key};
use crate::requests::or_number;
use indexmap::IndexMap;
use proposal_core::Entry;
use rsct_packet::{NoMemory, ProtoId, ViewId};
use std::alloc::Global;
use std::marker::Model;

/// A phase of a protocol that opens: 1 where the protocol begins.
#[derive(Clone, Copy, Debug, PartialEq, Eq)]
pub struct Opening {
    pub proto: ProtoId,
    pub phase: u32,
}

/// The place of a put, what it opens, and the number of its line.
#[derive(Clone, Copy, Debug, PartialEq, Eq)]
pub struct OpenPut {
    pub place: u32,
    pub opening: Opening,
    pub number: u32,
}

/// The phase that an entry at this place opens.
#[tactic(auto, unfolding(crate::specs::Openings::opening_of))]
fn opening_of(view: ViewId, place: u32, entry: &Entry) -> Option<Opening>
    ensures { result ≡ opening_of view place entry.now }
{
    match entry {
        Entry::Begin(_) => Some(Opening {
            proto: ProtoId { view, place },
            phase: 1,
        }),
        Entry::Phase(closed) => Some(Opening {
            proto: closed.proto,
            phase: u32::from(closed.phase) + 1,
        }),
        _ => None,
    }
}

/// The number of its line.
#[tactic(auto, unfolding(crate::specs::Openings::open_line))]
fn open_line(put: Option<OpenPut>) -> Option<u32>
    ensures { result ≡ open_line put }
{
    match put {
        None => None,
        Some(put) => Some(put.number),
    }
}

/// What the put at this place opens.
#[tactic(auto, unfolding(crate::specs::Openings::opened_at))]
fn opened_at(place: u32, put: Option<OpenPut>) -> Option<Opening>
    ensures { result ≡ opened_at place put }
{
    match put {
        None => None,
        Some(put) => {
            if put.place == place {
                Some(put.opening)
            } else {
                None
            }
        }
    }
}

/// Each node's last put into each list that opens a phase.
#[derive(Drop)]
pub struct Openings {
    by_key: IndexMap<RowKey, OpenPut>,
}

impl Model for Openings {
    ghost use Rattle.std.specs.Prelude.{List};
    ghost use Rattle.run_audit.specs.declared.lists.RowKey.{RowKey};
    ghost use Rattle.run_audit.specs.declared.openings.OpenPut.{OpenPut};

    ghost Value = { List (RowKey × OpenPut) };

    ghost view = { λ s. s.by_key.entries };
}

impl Openings {
    /// Of no lines.
    pub fn new(alloc: Global) -> Openings
        ensures { AreOpenings [] result }
    {
        Openings {
            by_key: IndexMap::new(alloc),
        }
    }

    /// The node's last put into the list that opens a phase.
    pub fn last(
        &self,
        alloc: Global,
        node: u8,
        view: ViewId,
        group: &[u8],
    ) -> Result<Option<OpenPut>, NoMemory>
        ensures { IfOk result (λ x. x ≡ lookup
            (is_row_key (record { node = node; view = view; group = group.now })) self.now) }
    {
        let key = row_key(alloc, node, view, group)?;
        Ok(self.by_key.get(&key).copied())
    }

    /// The number of the line of the node's last put into the list that opens a phase.
    pub fn line(
        &self,
        alloc: Global,
        node: u8,
        view: ViewId,
        group: &[u8],
    ) -> Result<Option<u32>, NoMemory>
        ensures { IfOk result (λ x. (ls : List Line) → AreOpenings ls self.now
            → x ≡ last_no (opens_there node view group.now) ls) }
    {
        let last = self.last(alloc, node, view, group)?;
        Ok(open_line(last))
    }

    /// What the node's put at the place of the list opens, where it is the last of the node's that open a phase.
    pub fn opened(
        &self,
        alloc: Global,
        node: u8,
        view: ViewId,
        group: &[u8],
        place: u32,
    ) -> Result<Option<Opening>, NoMemory>
        ensures { IfOk result (λ x. x ≡ opened_at place (lookup
            (is_row_key (record { node = node; view = view; group = group.now })) self.now)) }
    {
        let last = self.last(alloc, node, view, group)?;
        Ok(opened_at(place, last))
    }

    /// In the line of this number the node puts the entry at the place.
    pub fn note(
        &mut self,
        key: RowKey,
        view: ViewId,
        place: u32,
        entry: &Entry,
        number: u32,
    ) -> Result<(), NoMemory>
        ensures { OnOk result ((ls : List Line) (g : List ℕ) → AreOpenings ls self.old
            → key.list.view ≡ view_key view → key.list.group.items ≡ g
            → number ≡ length ls + 1
            → AreOpenings (line.Put key.node view g place entry.now ∷ ls) self.new) }
    {
        match opening_of(view, place, entry) {
            None => Ok(()),
            Some(opening) => {
                let put = OpenPut {
                    place,
                    opening,
                    number,
                };
                self.by_key.insert(key, put)?;
                Ok(())
            }
        }
    }
}

/// The line by which the phase runs that an entry closes at the node: of the node's last put that opened one, else of the
/// node's first base line of the list, else of the list's first.
pub fn opening_line(
    alloc: Global,
    openings: &Openings,
    based: &Based,
    node: u8,
    view: ViewId,
    group: &[u8],
) -> Result<Option<u32>, NoMemory>
    ensures { IfOk result (λ x. (ls : List Line) → AreOpenings ls openings.now
        → AreBased ls based.now → x ≡ opening_no node view group.now ls) }
{
    let put = openings.line(alloc, node, view, group)?;
    let own = based.own_line(alloc, node, view, group)?;
    let first = based.first_line(alloc, view, group)?;
    let base = or_number(own, first);
    Ok(or_number(put, base))
}
