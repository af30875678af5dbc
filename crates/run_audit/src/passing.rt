//! The rule on nodes that pass together from one view into another.
ghost use Rattle.std.specs.Prelude.{◌≡◌, ◌==◌, ◌∷◌, ◌&&◌, [], List, ℕ, Some, None, cond, find, map, not, IfOk, OnOk};
ghost use Rattle.std.specs.Map.{lookup};
ghost use Rattle.std.specs.Option.{option_map};
ghost use Rattle.rsct_packet.specs.declared.ids.Member.{Member};
ghost use Rattle.proposal_core.specs.declared.entry.Entry.{Entry};
ghost use Rattle.record_lines.specs.declared.line.Line.{Line};
ghost use Rattle.record_lines.specs.declared.line.Line.TheVariants as line;
ghost use Rattle.run_audit.specs.declared.broken.Rule.TheVariants as rule;
ghost use Rattle.run_audit.specs.Based.{groups_in};
ghost use Rattle.run_audit.specs.Keys.{same_stay_key, stay_key};
ghost use Rattle.run_audit.specs.Kept.{Keep, fault_of};
ghost use Rattle.run_audit.specs.Leavers.{AreLeavers, ArePutGroups, fault_with, leaver_of, same_counts, same_last};
ghost use Rattle.run_audit.specs.Lists.{AreRows};
ghost use Rattle.run_audit.specs.Table.{no_of, parts_from, same_lists};
ghost use Rattle.run_audit.specs.Views.{AreStays};

use crate::based::are_both;
use crate::broken::{Fault, Rule};
use crate::groups::GroupLists;
use crate::keys::{pass_key, stay_key};
use crate::leavers::{Entrant, Leavers};
use crate::lists::{LastPut, Rows};
use crate::requests::or_number;
use crate::stays::Stays;
use rsct_packet::{Name, NoMemory, ViewId};
use std::alloc::Global;
use std::marker::Model;

/// Are these the last puts of lists of one length?
#[tactic(auto, unfolding(crate::specs::Leavers::same_last))]
fn is_same_last(one: Option<LastPut>, other: Option<LastPut>) -> bool
    ensures { result ≡ same_last one other }
{
    match one {
        None => match other {
            None => true,
            Some(_) => false,
        },
        Some(one) => match other {
            None => false,
            Some(other) => one.place == other.place,
        },
    }
}

/// Is it a place behind the first?
fn is_later(place: u32) -> bool
    ensures { result ≡ not (place == 0) }
{
    place != 0
}

/// The number of the line of another node whose lists differ.
fn parted_at(entrant: Entrant, node: u8, same: bool) -> Option<u32>
    ensures { result ≡ cond (not (entrant.node == node) && not same) (Some entrant.number) None }
{
    if entrant.node != node && !same {
        Some(entrant.number)
    } else {
        None
    }
}

/// Did both nodes put as many entries into each of these groups?
fn are_counts_same(
    alloc: Global,
    rows: &Rows,
    node: u8,
    other: u8,
    view: ViewId,
    groups: &[Name],
) -> Result<bool, NoMemory>
    ensures { IfOk result (λ b. b ≡ same_counts rows.now node other view groups.now) }
{
    match groups {
        [] => Ok(true),
        [first, rest @ ..] => {
            let one = rows.last(alloc, node, view, first.bytes())?;
            let two = rows.last(alloc, other, view, first.bytes())?;
            let later = are_counts_same(alloc, rows, node, other, view, rest)?;
            Ok(are_both(is_same_last(one, two), later))
        }
    }
}

/// The groups of each view that each node put into.
#[derive(Drop)]
pub struct PutGroups {
    groups: GroupLists,
}

impl Model for PutGroups {
    ghost use Rattle.std.specs.Prelude.{ℕ, List};
    ghost use Rattle.run_audit.specs.declared.keys.StayKey.{StayKey};

    ghost Value = { List (StayKey × List (List ℕ)) };

    ghost view = { λ s. s.groups };
}

impl PutGroups {
    /// Of no lines.
    pub fn new(alloc: Global) -> PutGroups
        ensures { ArePutGroups [] result }
    {
        PutGroups {
            groups: GroupLists::new(alloc),
        }
    }

    /// Do two nodes have the same lists in the view?
    fn are_same(
        &self,
        alloc: Global,
        rows: &Rows,
        node: u8,
        other: u8,
        view: ViewId,
    ) -> Result<bool, NoMemory>
        ensures { IfOk result (λ b. (ls : List Line) → ArePutGroups ls self.now
            → AreRows ls rows.now → Keep rule.Place ls → Keep rule.Entry ls
            → b ≡ same_lists node other view ls) }
    {
        let own_key = stay_key(node, view);
        let own = self.groups.groups(own_key);
        let here = are_counts_same(alloc, rows, node, other, view, own)?;
        let other_key = stay_key(other, view);
        let others = self.groups.groups(other_key);
        let there = are_counts_same(alloc, rows, node, other, view, others)?;
        Ok(are_both(here, there))
    }

    /// The number of the first of these whose lists differ from the node's.
    fn parted(
        &self,
        alloc: Global,
        rows: &Rows,
        node: u8,
        view: ViewId,
        entrants: &[Entrant],
    ) -> Result<Option<u32>, NoMemory>
        ensures { IfOk result (λ x. (ls : List Line) → ArePutGroups ls self.now
            → AreRows ls rows.now → Keep rule.Place ls → Keep rule.Entry ls
            → x ≡ no_of (find (parts_from node view ls) (map leaver_of entrants.now))) }
    {
        match entrants {
            [] => Ok(None),
            [first, rest @ ..] => {
                let same = self.are_same(alloc, rows, node, first.node, view)?;
                let later = self.parted(alloc, rows, node, view, rest)?;
                Ok(or_number(parted_at(*first, node, same), later))
            }
        }
    }

    /// The node puts at the place.
    pub fn note(
        &mut self,
        alloc: Global,
        node: u8,
        view: ViewId,
        group: &Name,
        place: u32,
    ) -> Result<(), NoMemory>
        ensures { OnOk result ((ls : List Line) (e : Entry) → ArePutGroups ls self.old
            → ArePutGroups (line.Put node view group.now place e ∷ ls) self.new) }
    {
        if is_later(place) {
            return Ok(());
        }
        self.groups.push(alloc, stay_key(node, view), group)?;
        Ok(())
    }
}

/// What the table says, by the line of the first whose lists differ.
fn fault_at(parted: Option<u32>) -> Option<Fault>
    ensures { result ≡ option_map fault_with parted }
{
    match parted {
        None => None,
        Some(number) => Some(Fault {
            rule: Rule::Pass,
            with_line: Some(number),
        }),
    }
}

/// What the table says of the rule on nodes that pass together: nothing where the line keeps it.
pub fn pass_fault(
    alloc: Global,
    put: &PutGroups,
    leavers: &Leavers,
    rows: &Rows,
    stays: &Stays,
    node: u8,
    view: ViewId,
) -> Result<Option<Fault>, NoMemory>
    ensures { IfOk result (λ x. (ls : List Line) (ms : List Member)
        → ArePutGroups ls put.now → AreLeavers ls leavers.now → AreRows ls rows.now
        → AreStays ls stays.now → Keep rule.Place ls → Keep rule.Entry ls
        → x ≡ fault_of rule.Pass (line.In node view ms) ls) }
{
    match stays.view(node) {
        None => Ok(None),
        Some(old) => {
            let entrants = leavers.entrants(pass_key(view, old));
            let parted = put.parted(alloc, rows, node, old, entrants)?;
            Ok(fault_at(parted))
        }
    }
}
