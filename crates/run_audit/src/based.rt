//! The rule on the groups of a view that is left, by the base lines of the nodes.
ghost use Rattle.std.specs.Prelude.{◌≡◌, ◌+◌, ◌&&◌, ◌∷◌, [], List, ℕ, is_some, length, IfOk, OnOk};
ghost use Rattle.std.specs.Map.{lookup};
ghost use Rattle.std.specs.Option.{option_map};
ghost use Rattle.rsct_packet.specs.declared.ids.Member.{Member};
ghost use Rattle.rsct_packet.specs.declared.ids.ViewId.{ViewId};
ghost use Rattle.record_lines.specs.declared.line.BaseLine.{BaseLine};
ghost use Rattle.record_lines.specs.declared.line.Line.{Line};
ghost use Rattle.record_lines.specs.declared.line.Line.TheVariants as line;
ghost use Rattle.run_audit.specs.declared.broken.Rule.TheVariants as rule;
ghost use Rattle.run_audit.specs.Based.{AreBased, AreFirstBases, AreOwnBases, agree_in, entered_first, groups_in, has_bases};
ghost use Rattle.run_audit.specs.Keys.{same_stay_key, stay_key};
ghost use Rattle.run_audit.specs.Kept.{fault_of};
ghost use Rattle.run_audit.specs.Lists.{is_list_key, is_row_key, same_list_key, same_row_key};
ghost use Rattle.run_audit.specs.Past.{first_no};
ghost use Rattle.run_audit.specs.Table.{first_in_of, is_base_of, is_own_base};
ghost use Rattle.run_audit.specs.Views.{AreStays, AreViews};

use crate::broken::{Fault, Rule};
use crate::groups::GroupLists;
use crate::keys::stay_key;
use crate::lists::{ListKey, RowKey, list_key, row_key};
use crate::stays::Stays;
use crate::views::Views;
use indexmap::IndexMap;
use rsct_packet::{Name, NoMemory, ViewId};
use std::alloc::Global;
use std::marker::Model;

pub fn are_both(one: bool, other: bool) -> bool
    ensures { result ≡ (one && other) }
{
    one && other
}

/// The number of each node's first base line of each list.
#[derive(Drop)]
pub struct OwnBases {
    by_key: IndexMap<RowKey, u32>,
}

impl Model for OwnBases {
    ghost use Rattle.std.specs.Prelude.{ℕ, List};
    ghost use Rattle.run_audit.specs.declared.lists.RowKey.{RowKey};

    ghost Value = { List (RowKey × ℕ) };

    ghost view = { λ s. s.by_key.entries };
}

impl OwnBases {
    /// Of no lines.
    #[tactic(auto, unfolding(crate::specs::Past::first_no))]
    pub fn new(alloc: Global) -> OwnBases
        ensures { AreOwnBases [] result }
    {
        OwnBases {
            by_key: IndexMap::new(alloc),
        }
    }

    /// The number of the node's first base line of the list.
    pub fn line(
        &self,
        alloc: Global,
        node: u8,
        view: ViewId,
        group: &[u8],
    ) -> Result<Option<u32>, NoMemory>
        ensures { IfOk result (λ x. x ≡ lookup
            (is_row_key (record { node = node; view = view; group = group.now })) self.now) }
    {
        let key = row_key(alloc, node, view, group)?;
        Ok(self.by_key.get(&key).copied())
    }

    /// Has the key a line?
    fn has(&self, key: &RowKey) -> bool
        ensures { result ≡ is_some (lookup (same_row_key key.now) self.now) }
    {
        self.by_key.contains_key(key)
    }

    /// Has the node a base line of each of these groups?
    fn has_all(
        &self,
        alloc: Global,
        node: u8,
        view: ViewId,
        groups: &[Name],
    ) -> Result<bool, NoMemory>
        ensures { IfOk result (λ b. b ≡ has_bases self.now node view groups.now) }
    {
        match groups {
            [] => Ok(true),
            [first, rest @ ..] => {
                let line = self.line(alloc, node, view, first.bytes())?;
                let later = self.has_all(alloc, node, view, rest)?;
                Ok(are_both(line.is_some(), later))
            }
        }
    }

    /// The line of this number is a base line of the node.
    fn note(
        &mut self,
        alloc: Global,
        node: u8,
        view: ViewId,
        group: &[u8],
        number: u32,
    ) -> Result<(), NoMemory>
        ensures { OnOk result ((ls : List Line) (b : BaseLine) → AreOwnBases ls self.old
            → number ≡ length ls + 1
            → AreOwnBases (line.Base node view group.now b ∷ ls) self.new) }
    {
        let key = row_key(alloc, node, view, group)?;
        if self.has(&key) {
            return Ok(());
        }
        self.by_key.insert(key, number)?;
        Ok(())
    }
}

/// The number of the first base line of each list.
#[derive(Drop)]
pub struct FirstBases {
    by_key: IndexMap<ListKey, u32>,
}

impl Model for FirstBases {
    ghost use Rattle.std.specs.Prelude.{ℕ, List};
    ghost use Rattle.run_audit.specs.declared.lists.ListKey.{ListKey};

    ghost Value = { List (ListKey × ℕ) };

    ghost view = { λ s. s.by_key.entries };
}

impl FirstBases {
    /// Of no lines.
    #[tactic(auto, unfolding(crate::specs::Past::first_no))]
    pub fn new(alloc: Global) -> FirstBases
        ensures { AreFirstBases [] result }
    {
        FirstBases {
            by_key: IndexMap::new(alloc),
        }
    }

    /// The number of the first base line of the list.
    pub fn line(&self, alloc: Global, view: ViewId, group: &[u8]) -> Result<Option<u32>, NoMemory>
        ensures { IfOk result (λ x. x ≡ lookup (is_list_key view group.now) self.now) }
    {
        let key = list_key(alloc, view, group)?;
        Ok(self.by_key.get(&key).copied())
    }

    /// Has the key a line?
    fn has(&self, key: &ListKey) -> bool
        ensures { result ≡ is_some (lookup (same_list_key key.now) self.now) }
    {
        self.by_key.contains_key(key)
    }

    /// The line of this number is a base line.
    pub fn note(
        &mut self,
        alloc: Global,
        view: ViewId,
        group: &[u8],
        number: u32,
    ) -> Result<(), NoMemory>
        ensures { OnOk result ((ls : List Line) (n : ℕ) (b : BaseLine)
            → AreFirstBases ls self.old → number ≡ length ls + 1
            → AreFirstBases (line.Base n view group.now b ∷ ls) self.new) }
    {
        let key = list_key(alloc, view, group)?;
        if self.has(&key) {
            return Ok(());
        }
        self.by_key.insert(key, number)?;
        Ok(())
    }
}

/// The first base line of each node and of all of each list, and the groups that a node's base lines of a view name.
#[derive(Drop)]
pub struct Based {
    own: OwnBases,
    groups: GroupLists,
    first: FirstBases,
}

impl Based {
    /// Of no lines.
    pub fn new(alloc: Global) -> Based
        ensures { AreBased [] result }
    {
        Based {
            own: OwnBases::new(alloc),
            groups: GroupLists::new(alloc),
            first: FirstBases::new(alloc),
        }
    }

    /// Do the base lines of two nodes name the same groups of the view?
    fn agree(&self, alloc: Global, node: u8, other: u8, view: ViewId) -> Result<bool, NoMemory>
        ensures { IfOk result (λ b. b
            ≡ (has_bases self.now.own other view
            (groups_in (lookup (same_stay_key (stay_key node view)) self.now.groups))
            && has_bases self.now.own node view
            (groups_in (lookup (same_stay_key (stay_key other view)) self.now.groups)))) }
    {
        let own = self.groups.groups(stay_key(node, view));
        let there = self.own.has_all(alloc, other, view, own)?;
        let others = self.groups.groups(stay_key(other, view));
        let here = self.own.has_all(alloc, node, view, others)?;
        Ok(are_both(there, here))
    }

    /// The number of the node's first base line of the list.
    pub fn own_line(
        &self,
        alloc: Global,
        node: u8,
        view: ViewId,
        group: &[u8],
    ) -> Result<Option<u32>, NoMemory>
        ensures { IfOk result (λ x. (ls : List Line) → AreBased ls self.now
            → x ≡ first_no (is_own_base node view group.now) ls) }
    {
        let line = self.own.line(alloc, node, view, group)?;
        Ok(line)
    }

    /// The number of the first base line of the list.
    pub fn first_line(
        &self,
        alloc: Global,
        view: ViewId,
        group: &[u8],
    ) -> Result<Option<u32>, NoMemory>
        ensures { IfOk result (λ x. (ls : List Line) → AreBased ls self.now
            → x ≡ first_no (is_base_of view group.now) ls) }
    {
        let line = self.first.line(alloc, view, group)?;
        Ok(line)
    }

    /// The line of this number is a base line of the node.
    pub fn note(
        &mut self,
        alloc: Global,
        node: u8,
        view: ViewId,
        group: &Name,
        number: u32,
    ) -> Result<(), NoMemory>
        ensures { OnOk result ((ls : List Line) (b : BaseLine) → AreBased ls self.old
            → number ≡ length ls + 1
            → AreBased (line.Base node view group.now b ∷ ls) self.new) }
    {
        self.own.note(alloc, node, view, group.bytes(), number)?;
        self.groups.push(alloc, stay_key(node, view), group)?;
        self.first.note(alloc, view, group.bytes(), number)?;
        Ok(())
    }
}

/// The view with the node that entered it first.
fn entered(view: ViewId, first: Option<u8>) -> Option<(ViewId, u8)>
    ensures { result ≡ option_map (λ m. (view, m)) first }
{
    match first {
        None => None,
        Some(node) => Some((view, node)),
    }
}

/// The view, where there is one, with the node that entered it first.
fn first_in(views: &Views, view: Option<ViewId>) -> Option<(ViewId, u8)>
    ensures { (ls : List Line) → AreViews ls views.now → result ≡ entered_first view ls }
{
    match view {
        None => None,
        Some(view) => entered(view, views.first_node(view)),
    }
}

/// The number of the view's first line, where there is a view.
fn line_in(views: &Views, view: Option<ViewId>) -> Option<u32>
    ensures { (ls : List Line) → AreViews ls views.now → result ≡ first_in_of view ls }
{
    match view {
        None => None,
        Some(view) => views.first_line(view),
    }
}

/// Do the base lines of the node name the same groups of the view as those of this node?
fn agree_with(
    alloc: Global,
    based: &Based,
    node: u8,
    first: Option<(ViewId, u8)>,
) -> Result<bool, NoMemory>
    ensures { IfOk result (λ b. (ls : List Line) → AreBased ls based.now
        → b ≡ agree_in node first ls) }
{
    match first {
        None => Ok(true),
        Some((view, other)) => {
            let agree = based.agree(alloc, node, other, view)?;
            Ok(agree)
        }
    }
}

/// What the table says of the rule on the groups of the view that the node leaves: nothing where a line in which it enters
/// another one keeps it.
pub fn bases_fault(
    alloc: Global,
    based: &Based,
    views: &Views,
    stays: &Stays,
    node: u8,
) -> Result<Option<Fault>, NoMemory>
    ensures { IfOk result (λ x. (ls : List Line) (v : ViewId) (ms : List Member)
        → AreBased ls based.now → AreViews ls views.now → AreStays ls stays.now
        → x ≡ fault_of rule.Bases (line.In node v ms) ls) }
{
    let left = stays.view(node);
    let first = first_in(views, left);
    let agree = agree_with(alloc, based, node, first)?;
    if agree {
        Ok(None)
    } else {
        Ok(Some(Fault {
            rule: Rule::Bases,
            with_line: line_in(views, left),
        }))
    }
}
