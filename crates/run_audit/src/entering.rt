//! The rule on nodes that enter views.
ghost use Rattle.std.specs.Prelude.{◌≡◌, List};
ghost use Rattle.std.specs.Option.{option_map};
ghost use Rattle.rsct_packet.specs.Ids.{is_member, same_member, view_lt};
ghost use Rattle.record_lines.specs.declared.line.Line.{Line};
ghost use Rattle.record_lines.specs.declared.line.Line.TheVariants as line;
ghost use Rattle.run_audit.specs.declared.broken.Rule.TheVariants as rule;
ghost use Rattle.run_audit.specs.Kept.{fault_of};
ghost use Rattle.run_audit.specs.Starts.{AreStarts};
ghost use Rattle.run_audit.specs.Table.{all_same, if_some, is_above, is_own};
ghost use Rattle.run_audit.specs.Views.{AreStays, AreViews, in_keeps};

use crate::broken::{Fault, Rule};
use crate::starts::Starts;
use crate::stays::Stays;
use crate::views::Views;
use rsct_packet::{Member, ViewId};

/// Is the view less than the other?
pub fn is_less(view: ViewId, other: ViewId) -> bool
    ensures { result ≡ view_lt view other }
{
    view < other
}

/// Does the view stand above that which the node is in?
#[tactic(auto, unfolding(crate::specs::Table::is_above))]
fn is_above(old: Option<ViewId>, view: ViewId) -> bool
    ensures { result ≡ is_above old view }
{
    match old {
        None => true,
        Some(old) => is_less(old, view),
    }
}

pub fn is_member(members: &[Member], node: u8, inc: u32) -> bool
    ensures { result ≡ is_member members.now node inc }
{
    members.iter().any(|m| m.node == node && m.inc == inc)
}

/// Is the node a member with the incarnation of its last start?
#[tactic(auto, unfolding(crate::specs::Table::is_own))]
fn is_own(inc: Option<u32>, node: u8, members: &[Member]) -> bool
    ensures { result ≡ is_own inc node members.now }
{
    match inc {
        None => false,
        Some(inc) => is_member(members, node, inc),
    }
}

fn is_same_member(one: Member, other: Member) -> bool
    ensures { result ≡ same_member one other }
{
    one == other
}

/// Are these the same members?
#[tactic(auto, unfolding(crate::specs::Table::all_same))]
fn are_same(members: &[Member], others: &[Member]) -> bool
    ensures { result ≡ all_same same_member members.now others.now }
{
    match members {
        [] => match others {
            [] => true,
            [_, ..] => false,
        },
        [first, left @ ..] => match others {
            [] => false,
            [second, right @ ..] => is_same_member(*first, *second) && are_same(left, right),
        },
    }
}

/// Has the view no line yet, or these members in its first?
#[tactic(auto, unfolding(crate::specs::Table::if_some))]
fn is_like_first(first: Option<&[Member]>, members: &[Member]) -> bool
    ensures { result ≡ if_some (option_map (λ x. x.now) first.entry)
        (all_same same_member members.now) }
{
    match first {
        None => true,
        Some(first) => are_same(members, first),
    }
}

/// Does a line keep the rule on nodes that enter views, where the node was in this view, its last start has this
/// incarnation, and the view's first line these members?
#[tactic(auto, unfolding(crate::specs::Views::in_keeps))]
fn is_kept(
    old: Option<ViewId>,
    inc: Option<u32>,
    first: Option<&[Member]>,
    node: u8,
    view: ViewId,
    members: &[Member],
) -> bool
    ensures { result ≡ in_keeps old inc (option_map (λ x. x.now) first.entry) node view
        members.now }
{
    is_above(old, view) && is_own(inc, node, members) && is_like_first(first, members)
}

/// What the table says of the rule on nodes that enter views: nothing where the line keeps it.
pub fn in_fault(
    starts: &Starts,
    stays: &Stays,
    views: &Views,
    node: u8,
    view: ViewId,
    members: &[Member],
) -> Option<Fault>
    ensures { (ls : List Line) → AreStarts ls starts.now → AreStays ls stays.now
        → AreViews ls views.now
        → result ≡ fault_of rule.In (line.In node view members.now) ls }
{
    let old = stays.view(node);
    let inc = starts.inc(node);
    let first = views.members(view);
    if is_kept(old, inc, first, node, view, members) {
        None
    } else {
        Some(Fault {
            rule: Rule::In,
            with_line: views.first_line(view),
        })
    }
}
