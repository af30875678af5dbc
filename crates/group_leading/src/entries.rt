//! Appending to a list, and what follows.
ghost use Rattle.std.specs.Prelude.{◌≡◌, OnOk, IfOk, IsTrue};
ghost use Rattle.session_clients.specs.Clients.{KeepsScripts};
ghost use Rattle.node_state.specs.declared.packet.Body.TheVariants as body;
ghost use Rattle.proposal_core.specs.Fold.{joiners_fit};
ghost use Rattle.node_state.specs.State.{InNameOrder, len_of, state_of, fits_at_end, others, least_acked};
ghost use Rattle.node_state.specs.Sending.{send_all};
ghost use Rattle.node_state.specs.Leading.{put, put_and_hand, appended, append_if_fits};
ghost use Rattle.node_state.specs.HandOn.{hand_on};
ghost use Rattle.node_groups.specs.Keeps.{Keeps};
ghost use Rattle.entry_delivery.specs.Doing.{RuleDoes};
ghost use Rattle.group_leading.specs.Working.{AtWork};

use crate::waiting_members::new_members_wait;
use client_callbacks::Callbacks;
use entry_delivery::hand_on;
use node_groups::{fits_at_end, forget_least, leader_of, least_acked, len_of, put, state_of};
use node_sending::{others, send_entry};
use node_state::Core;
use proposal_core::{Entry, GroupState};
use rsct_packet::{Name, NoMemory};
use session_state::NewEntry;
use std::alloc::Global;

/// Sends an entry to these nodes.
#[tactic(auto, unfolding(node_state::specs::Sending::send_all), using(std::proofs::lemmas::List::Sums::fold_more, crate::proofs::LeadLaws::sent_view, std::proofs::lemmas::Grind::common_steps))]
fn send_entry_to(
    core: &mut Core,
    alloc: Global,
    nodes: &[u8],
    group: &Name,
    place: u32,
    stable: u32,
    entry: &Entry,
) -> Result<(), NoMemory>
    ensures { OnOk result (core.new ≡ send_all core.old nodes.now
        (body.Entry core.old.views.view group.now place stable entry.now)) }
{
    for n in nodes {
        send_entry(core, alloc, *n, group, place, stable, entry)?;
    }
    Ok(())
}

/// Sends the entry at a place to each other member.
fn send_entry_to_others(
    core: &mut Core,
    alloc: Global,
    group: &Name,
    place: u32,
    entry: &Entry,
) -> Result<(), NoMemory>
    ensures { OnOk result (core.new ≡ send_all core.old (others core.old)
        (body.Entry core.old.views.view group.now place
        (least_acked core.old group.now) entry.now)) }
{
    let stable = least_acked(core, group.bytes());
    let nodes = others(core, alloc)?;
    send_entry_to(core, alloc, nodes.as_slice(), group, place, stable, entry)
}

/// Where an entry was put: its place in the group's list, and the group's states before and behind it.
#[derive(Drop)]
struct Placed {
    place: u32,
    before: GroupState,
    after: GroupState,
}

/// Puts an entry that fits at the end of the group's list.
fn put_at_end(
    core: &mut Core,
    alloc: Global,
    group: &Name,
    entry: &Entry,
) -> Result<Placed, NoMemory>
    requires order { InNameOrder core.old.groups }
    requires fits { IsTrue (fits_at_end core.old group.now entry.now) }
    ensures rule { OnOk result (core.new ≡ put core.old group.now entry.now) }
    ensures keeps { OnOk result (Keeps core.old core.new) }
    ensures place { IfOk result (λ x. x.place ≡ len_of core.old group.now) }
    ensures before { IfOk result (λ x. x.before ≡ state_of core.old group.now) }
    ensures after { IfOk result (λ x. x.after ≡ state_of core.new group.now) }
    ensures joiners { IfOk result (λ x. IsTrue (joiners_fit x.after)) }
{
    let place = len_of(core, group.bytes());
    let before = state_of(core, alloc, group.bytes())?;
    put(core, alloc, group, entry)?;
    let after = state_of(core, alloc, group.bytes())?;
    Ok(Placed {
        place,
        before,
        after,
    })
}

/// Hands on an entry that was put; ballots go to `to`, which may be unknown.
fn hand<C: Callbacks>(
    core: &mut Core,
    clients: &mut Vec<C>,
    alloc: Global,
    to: Option<u8>,
    group: &Name,
    entry: &Entry,
    placed: &Placed,
) -> Result<(), NoMemory>
    requires work { AtWork core.old clients.old.items }
    requires joiners { IsTrue (joiners_fit placed.now.after) }
    requires state { placed.now.after ≡ state_of core.old group.now }
    ensures work { OnOk result (AtWork core.new clients.new.items) }
    ensures scripts { OnOk result (KeepsScripts C.script clients.old.items clients.new.items) }
    ensures does { OnOk result (RuleDoes C.script C.stands_for clients.old.items clients.new.items
        core.old core.new (λ f. hand_on f core.old to group.now placed.now.place placed.now.before
        placed.now.after entry.now)) }
{
    let voters = placed.after.voters(alloc)?;
    let new = NewEntry {
        view: core.views.view,
        group,
        place: placed.place,
        entry,
        after: &placed.after,
        voters: voters.as_slice(),
    };
    hand_on(core, clients, alloc, to, &placed.before, &new)
}

/// Puts an entry that fits, and hands it on; ballots go to `to`, which may be unknown.
pub fn put_and_hand<C: Callbacks>(
    core: &mut Core,
    clients: &mut Vec<C>,
    alloc: Global,
    to: Option<u8>,
    group: &Name,
    entry: &Entry,
) -> Result<(), NoMemory>
    requires work { AtWork core.old clients.old.items }
    requires fits { IsTrue (fits_at_end core.old group.now entry.now) }
    ensures work { OnOk result (AtWork core.new clients.new.items) }
    ensures scripts { OnOk result (KeepsScripts C.script clients.old.items clients.new.items) }
    ensures does { OnOk result (RuleDoes C.script C.stands_for clients.old.items clients.new.items
        core.old core.new (λ f. put_and_hand f core.old to group.now entry.now)) }
{
    let placed = put_at_end(core, alloc, group, entry)?;
    hand(core, clients, alloc, to, group, entry, &placed)
}

/// Appends an entry that fits: it is put, sent to each other member and handed on, with the ballots to the group's
/// leader; then what all have is forgotten, and new members that failed or are gone wait.
pub fn append<C: Callbacks>(
    core: &mut Core,
    clients: &mut Vec<C>,
    alloc: Global,
    group: &Name,
    entry: &Entry,
) -> Result<(), NoMemory>
    requires work { AtWork core.old clients.old.items }
    requires fits { IsTrue (fits_at_end core.old group.now entry.now) }
    ensures work { OnOk result (AtWork core.new clients.new.items) }
    ensures scripts { OnOk result (KeepsScripts C.script clients.old.items clients.new.items) }
    ensures does { OnOk result (RuleDoes C.script C.stands_for clients.old.items clients.new.items
        core.old core.new (λ f. appended f core.old group.now entry.now)) }
{
    let placed = put_at_end(core, alloc, group, entry)?;
    send_entry_to_others(core, alloc, group, placed.place, entry)?;
    let leader = leader_of(core, group.bytes());
    hand(core, clients, alloc, leader, group, entry, &placed)?;
    forget_least(core, alloc, group)?;
    new_members_wait(core, alloc, group, &placed.before, &placed.after)
}

/// Appends an entry where it fits.
pub fn append_if_fits<C: Callbacks>(
    core: &mut Core,
    clients: &mut Vec<C>,
    alloc: Global,
    group: &Name,
    entry: &Entry,
) -> Result<(), NoMemory>
    requires work { AtWork core.old clients.old.items }
    ensures work { OnOk result (AtWork core.new clients.new.items) }
    ensures scripts { OnOk result (KeepsScripts C.script clients.old.items clients.new.items) }
    ensures does { OnOk result (RuleDoes C.script C.stands_for clients.old.items clients.new.items
        core.old core.new (λ f. append_if_fits f core.old group.now entry.now
        (fits_at_end core.old group.now entry.now))) }
{
    if fits_at_end(core, alloc, group.bytes(), entry) {
        return append(core, clients, alloc, group, entry);
    }
    Ok(())
}
