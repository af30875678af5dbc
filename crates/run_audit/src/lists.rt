//! What nodes put into lists: each node's last put.
ghost use Rattle.std.specs.Prelude.{◌≡◌, ◌+◌, ◌∷◌, ◌&&◌, [], List, ℕ, length, IfOk, OnOk};
ghost use Rattle.std.specs.Map.{lookup};
ghost use Rattle.proposal_core.specs.declared.entry.Entry.{Entry};
ghost use Rattle.record_lines.specs.declared.line.Line.{Line};
ghost use Rattle.record_lines.specs.declared.line.Line.TheVariants as line;
ghost use Rattle.run_audit.specs.declared.broken.Rule.TheVariants as rule;
ghost use Rattle.run_audit.specs.Keys.{view_key};
ghost use Rattle.run_audit.specs.Kept.{Keep, fault_of};
ghost use Rattle.run_audit.specs.Lists.{AreRows, is_next_place, is_row_key, row_line};
ghost use Rattle.run_audit.specs.Past.{is_at, last_no};
ghost use Rattle.run_audit.specs.Table.{is_put_of};
ghost use Rattle.run_audit.specs.Views.{AreStays};

use crate::broken::{Fault, Rule};
use crate::keys::{ViewKey, view_key};
use crate::stays::Stays;
use indexmap::IndexMap;
use rsct_packet::{NoMemory, ViewId};
use std::alloc::Global;
use std::marker::Model;

/// A list: of a group in a view.
#[derive(PartialEq, Eq, Hash, Drop)]
pub struct ListKey {
    pub view: ViewKey,
    pub group: Vec<u8>,
}

/// A node's puts into a list.
#[derive(PartialEq, Eq, Hash, Drop)]
pub struct RowKey {
    pub node: u8,
    pub list: ListKey,
}

/// The place of a put, and the number of its line.
#[derive(Clone, Copy, Debug, PartialEq, Eq)]
pub struct LastPut {
    pub place: u32,
    pub number: u32,
}

pub fn list_key(alloc: Global, view: ViewId, group: &[u8]) -> Result<ListKey, NoMemory>
    ensures view { IfOk result (λ k. k.view ≡ view_key view) }
    ensures group { IfOk result (λ k. k.group.items ≡ group.now) }
{
    let group = Vec::from_slice(alloc, group)?;
    Ok(ListKey {
        view: view_key(view),
        group,
    })
}

pub fn row_key(alloc: Global, node: u8, view: ViewId, group: &[u8]) -> Result<RowKey, NoMemory>
    ensures node { IfOk result (λ k. k.node ≡ node) }
    ensures view { IfOk result (λ k. k.list.view ≡ view_key view) }
    ensures group { IfOk result (λ k. k.list.group.items ≡ group.now) }
{
    Ok(RowKey {
        node,
        list: list_key(alloc, view, group)?,
    })
}

/// Is the node in the view?
#[tactic(auto, unfolding(crate::specs::Past::is_at))]
pub fn is_at(view: ViewId, at: Option<ViewId>) -> bool
    ensures { result ≡ is_at view at }
{
    match at {
        None => false,
        Some(at) => at == view,
    }
}

/// Is this the place behind that of the last put?
#[tactic(auto, unfolding(crate::specs::Lists::is_next_place))]
fn is_next_place(last: Option<LastPut>, place: u32) -> bool
    ensures { result ≡ is_next_place last place }
{
    match last {
        None => place == 0,
        Some(last) => u64::from(place) == u64::from(last.place) + 1,
    }
}

/// Does a put at this place keep the rule on places, where the node is in this view, and this was its last put into the list?
fn is_kept(at: Option<ViewId>, last: Option<LastPut>, view: ViewId, place: u32) -> bool
    ensures { result ≡ (is_at view at && is_next_place last place) }
{
    is_at(view, at) && is_next_place(last, place)
}

/// The number of its line.
#[tactic(auto, unfolding(crate::specs::Lists::row_line))]
fn row_line(last: Option<LastPut>) -> Option<u32>
    ensures { result ≡ row_line last }
{
    match last {
        None => None,
        Some(last) => Some(last.number),
    }
}

/// Each node's last put into each list.
#[derive(Drop)]
pub struct Rows {
    by_key: IndexMap<RowKey, LastPut>,
}

impl Model for Rows {
    ghost use Rattle.std.specs.Prelude.{List};
    ghost use Rattle.run_audit.specs.declared.lists.LastPut.{LastPut};
    ghost use Rattle.run_audit.specs.declared.lists.RowKey.{RowKey};

    ghost Value = { List (RowKey × LastPut) };

    ghost view = { λ s. s.by_key.entries };
}

impl Rows {
    /// Of no lines.
    pub fn new(alloc: Global) -> Rows
        ensures { AreRows [] result }
    {
        Rows {
            by_key: IndexMap::new(alloc),
        }
    }

    /// The node's last put into the list.
    pub fn last(
        &self,
        alloc: Global,
        node: u8,
        view: ViewId,
        group: &[u8],
    ) -> Result<Option<LastPut>, NoMemory>
        ensures { IfOk result (λ x. x ≡ lookup
            (is_row_key (record { node = node; view = view; group = group.now })) self.now) }
    {
        let key = row_key(alloc, node, view, group)?;
        Ok(self.by_key.get(&key).copied())
    }

    /// The number of the line of the node's last put into the list.
    pub fn line(
        &self,
        alloc: Global,
        node: u8,
        view: ViewId,
        group: &[u8],
    ) -> Result<Option<u32>, NoMemory>
        ensures { IfOk result (λ x. (ls : List Line) → AreRows ls self.now
            → x ≡ last_no (is_put_of node view group.now) ls) }
    {
        let last = self.last(alloc, node, view, group)?;
        Ok(row_line(last))
    }

    /// What the table says of the rule on places: nothing where a put at this place keeps it.
    pub fn fault(
        &self,
        alloc: Global,
        stays: &Stays,
        node: u8,
        view: ViewId,
        group: &[u8],
        place: u32,
    ) -> Result<Option<Fault>, NoMemory>
        ensures { IfOk result (λ x. (ls : List Line) (e : Entry) → AreRows ls self.now
            → AreStays ls stays.now → Keep rule.Place ls
            → x ≡ fault_of rule.Place (line.Put node view group.now place e) ls) }
    {
        let last = self.last(alloc, node, view, group)?;
        if is_kept(stays.view(node), last, view, place) {
            Ok(None)
        } else {
            Ok(Some(Fault {
                rule: Rule::Place,
                with_line: row_line(last),
            }))
        }
    }

    /// In the line of this number the node puts an entry at the place.
    pub fn note(
        &mut self,
        alloc: Global,
        node: u8,
        view: ViewId,
        group: &[u8],
        place: u32,
        number: u32,
    ) -> Result<(), NoMemory>
        ensures { OnOk result ((ls : List Line) (e : Entry) → AreRows ls self.old
            → number ≡ length ls + 1
            → AreRows (line.Put node view group.now place e ∷ ls) self.new) }
    {
        let key = row_key(alloc, node, view, group)?;
        self.by_key.insert(key, LastPut { place, number })?;
        Ok(())
    }
}
