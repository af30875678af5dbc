//! The entries that a leader sends to the members of its group.
ghost use Rattle.std.specs.Prelude.{◌≡◌, OnOk, IsTrue, true, nat_lt};
ghost use Rattle.session_clients.specs.Clients.{KeepsScripts};
ghost use Rattle.entry_delivery.specs.Doing.{RuleDoes};
ghost use Rattle.group_leading.specs.Working.{AtWork};
ghost use Rattle.node_state.specs.declared.packet.Body.TheVariants as body;
ghost use Rattle.node_state.specs.State.{len_of, fits_at_end, forget_below, set_leader};
ghost use Rattle.node_state.specs.Sending.{sent};
ghost use Rattle.node_state.specs.Following.{entry_next, entry_elsewhere, take_entry};

use client_callbacks::Callbacks;
use group_leading::put_and_hand;
use node_groups::{fits_at_end, forget_below, holds, len_of, set_leader};
use node_sending::send;
use node_state::{Body, Core};
use proposal_core::Entry;
use rsct_packet::{Name, NoMemory};
use std::alloc::Global;

/// Acknowledges the length of the list to a node.
fn acknowledge(core: &mut Core, alloc: Global, to: u8, group: &Name) -> Result<(), NoMemory>
    ensures { OnOk result (core.new ≡ sent core.old to
        (body.Ack core.old.views.view group.now (len_of core.old group.now))) }
{
    let body = Body::Ack {
        view: core.views.view,
        name: group.copy(alloc)?,
        len: len_of(core, group.bytes()),
    };
    send(core, to, body)
}

/// Acknowledges the length of the list to a node, which leads; what all members hold is forgotten.
fn follow(
    core: &mut Core,
    alloc: Global,
    leader: u8,
    group: &Name,
    stable: u32,
) -> Result<(), NoMemory>
    ensures { OnOk result (core.new ≡ forget_below
        (set_leader (sent core.old leader (body.Ack core.old.views.view group.now
        (len_of core.old group.now))) group.now leader) group.now stable) }
{
    acknowledge(core, alloc, leader, group)?;
    set_leader(core, alloc, group, leader)?;
    forget_below(core, alloc, group, stable)
}

/// An entry at its place of a group's list, as the group's leader sends it; all members hold the entries below `stable`.
#[derive(Clone, Copy)]
pub struct PlacedEntry<'a> {
    pub group: &'a Name,
    pub place: u32,
    pub stable: u32,
    pub entry: &'a Entry,
}

/// An entry that fits at the end of the list is put, handed on and acknowledged to the leader that sent it.
fn put_next<C: Callbacks>(
    core: &mut Core,
    clients: &mut Vec<C>,
    alloc: Global,
    from: u8,
    placed: &PlacedEntry<'_>,
) -> Result<(), NoMemory>
    requires work { AtWork core.old clients.old.items }
    requires fits { IsTrue (fits_at_end core.old placed.now.group.now placed.now.entry.now) }
    ensures work { OnOk result (AtWork core.new clients.new.items) }
    ensures scripts { OnOk result (KeepsScripts C.script clients.old.items clients.new.items) }
    ensures does { OnOk result (RuleDoes C.script C.stands_for clients.old.items clients.new.items
        core.old core.new (λ f. entry_next f core.old from placed.now.group.now placed.now.stable
        placed.now.entry.now true)) }
{
    put_and_hand(core, clients, alloc, Some(from), placed.group, placed.entry)?;
    follow(core, alloc, from, placed.group, placed.stable)
}

/// An entry that is held already is acknowledged, and one beyond the end is not; what all members hold is
/// forgotten.
#[tactic(auto, unfolding(node_state::specs::Following::entry_elsewhere))]
fn pass_over(
    core: &mut Core,
    alloc: Global,
    from: u8,
    placed: &PlacedEntry<'_>,
) -> Result<(), NoMemory>
    ensures { OnOk result (core.new ≡ entry_elsewhere core.old from placed.now.group.now
        placed.now.stable (nat_lt placed.now.place (len_of core.old placed.now.group.now))) }
{
    if placed.place < len_of(core, placed.group.bytes()) {
        acknowledge(core, alloc, from, placed.group)?;
        return forget_below(core, alloc, placed.group, placed.stable);
    }
    if !holds(core, placed.group.bytes()) {
        return Ok(());
    }
    forget_below(core, alloc, placed.group, placed.stable)
}

/// ENTRY: at the end of the list it is put, handed on and acknowledged.
pub fn take_entry<C: Callbacks>(
    core: &mut Core,
    clients: &mut Vec<C>,
    alloc: Global,
    from: u8,
    placed: &PlacedEntry<'_>,
) -> Result<(), NoMemory>
    requires work { AtWork core.old clients.old.items }
    ensures work { OnOk result (AtWork core.new clients.new.items) }
    ensures scripts { OnOk result (KeepsScripts C.script clients.old.items clients.new.items) }
    ensures does { OnOk result (RuleDoes C.script C.stands_for clients.old.items clients.new.items
        core.old core.new (λ f. take_entry f core.old from placed.now.group.now placed.now.place
        placed.now.stable placed.now.entry.now)) }
{
    if placed.place != len_of(core, placed.group.bytes()) {
        return pass_over(core, alloc, from, placed);
    }
    if !fits_at_end(core, alloc, placed.group.bytes(), placed.entry) {
        return Ok(());
    }
    put_next(core, clients, alloc, from, placed)
}
