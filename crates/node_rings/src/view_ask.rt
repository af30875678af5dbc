//! What the rings say of a next view.
ghost use Rattle.std.specs.Prelude.{◌≡◌, filter, map};
ghost use Rattle.std.specs.List.{list_any};
ghost use Rattle.std.specs.Cmp.Lexicographic.{pointwise};
ghost use Rattle.rsct_packet.specs.Ids.{same_member};
ghost use Rattle.rsct_packet.specs.Mask.{has_node};
ghost use Rattle.proposal_core.specs.Lists.{list_or_new};
ghost use Rattle.node_reach.specs.Reach.{row_of};
ghost use Rattle.node_state.specs.declared.group.GroupRow.{GroupRow};
ghost use Rattle.node_state.specs.Ticks.{inc_in, reached, is_long, is_due, is_first, ring_ask_for, ring_ask};

use node_reach::{Reach, ReachRow};
use node_sending::is_rings;
use node_state::{Core, GroupRow};
use rsct_packet::{Mask, Member, NODES};
use view_state::RingAsk;

/// The incarnation of a row; 0 where there is none.
fn inc_in(row: Option<ReachRow>) -> u32
    ensures { result ≡ inc_in row }
{
    match row {
        None => 0,
        Some(row) => row.inc,
    }
}

/// A node with the incarnation of its kept row.
fn member_of(reach: &Reach, node: u8) -> Member
    ensures { result ≡ record { node = node; inc = inc_in (row_of reach.now node) } }
{
    Member {
        node,
        inc: inc_in(reach.row(node)),
    }
}

/// Are the members just those of the numbered nodes that are reached, in the incarnations of their rows?
fn are_reached(reach: &Reach, nodes: Mask, numbers: &[u8], members: &[Member]) -> bool
    ensures { result ≡ pointwise same_member members.now
        (map (λ n. record { node = n; inc = inc_in (row_of reach.now n) })
        (filter (has_node nodes) numbers.now)) }
{
    match numbers {
        [] => members.is_empty(),
        [n, numbers @ ..] if !nodes.has(*n) => are_reached(reach, nodes, numbers, members),
        [n, numbers @ ..] => match members {
            [] => false,
            [first, members @ ..] => {
                *first == member_of(reach, *n) && are_reached(reach, nodes, numbers, members)
            }
        },
    }
}

/// Are the members just the nodes reached, in the incarnations of their rows?
#[tactic(auto, unfolding(node_state::specs::Ticks::reached, rsct_packet::specs::Mask::nodes_of))]
pub fn are_members(core: &Core, nodes: Mask) -> bool
    ensures { result ≡ pointwise same_member core.now.views.members (reached core.now nodes) }
{
    are_reached(&core.reach, nodes, &NODES, core.views.members.as_slice())
}

/// Has the group's list become long, by its places or its bytes?
#[tactic(auto, unfolding(node_state::specs::Ticks::is_long))]
fn is_long(row: &GroupRow) -> bool
    ensures { result ≡ is_long (list_or_new row.now.list) }
{
    match &row.list {
        None => false,
        Some(list) => list.len() >= 3000 || list.bytes() >= 196_608,
    }
}

fn is_one_long(rows: &[GroupRow]) -> bool
    ensures { result ≡ list_any (λ (row : GroupRow). is_long (list_or_new row.list)) rows.now }
{
    rows.iter().any(|row| is_long(row))
}

/// Is a next view due: are others reached than the members, or is a list long?
#[tactic(auto, unfolding(node_state::specs::Ticks::is_due))]
fn is_due(core: &Core, nodes: Mask) -> bool
    ensures { result ≡ is_due core.now nodes }
{
    !are_members(core, nodes) || is_one_long(core.groups.rows.as_slice())
}

/// Is the node the first of some, if there is one?
pub fn is_first(node: u8, first: Option<u8>) -> bool
    ensures { result ≡ is_first node first }
{
    match first {
        None => false,
        Some(n) => n == node,
    }
}

#[tactic(auto, unfolding(node_state::specs::Ticks::ring_ask_for, node_state::specs::Settings::least_node))]
fn ask_for(core: &Core, nodes: Mask) -> RingAsk
    ensures { result ≡ ring_ask_for core.now nodes }
{
    RingAsk {
        mask: nodes,
        is_least: is_first(core.views.me, nodes.first()),
        is_due: is_due(core, nodes),
    }
}

/// What the rings say of a next view; nothing in the other modes.
#[tactic(auto, unfolding(node_state::specs::Ticks::ring_ask))]
pub fn ring_ask(core: &Core) -> Option<RingAsk>
    ensures { result ≡ ring_ask core.now }
{
    if !is_rings(core.config.mode) {
        return None;
    }
    Some(ask_for(core, core.reach.reach()))
}
