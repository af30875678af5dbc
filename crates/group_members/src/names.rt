//! Who leads a group: LOOKUP and NAME.
ghost use Rattle.std.specs.Prelude.{◌≡◌, IfOk, OnOk, map, length};
ghost use Rattle.session_clients.specs.Clients.{KeepsScripts};
ghost use Rattle.std.specs.List.{fold};
ghost use Rattle.std.specs.Option.{unwrap_or};
ghost use Rattle.client_callbacks.specs.declared.told.Why.TheVariants.{GroupsFull};
ghost use Rattle.session_state.specs.declared.state.Request.{Request};
ghost use Rattle.name_server.specs.Names.{looked_up, lookup};
ghost use Rattle.entry_delivery.specs.Doing.{RuleDoes};
ghost use Rattle.node_groups.specs.Keeps.{Keeps};
ghost use Rattle.group_leading.specs.Working.{AtWork};
ghost use Rattle.node_state.specs.declared.packet.Body.TheVariants as body;
ghost use Rattle.node_state.specs.State.{set_leader};
ghost use Rattle.node_state.specs.Sending.{sent, send_request};
ghost use Rattle.node_state.specs.Following.{take_lookup, take_tell, requests_of, is_name_used, take_name};

use crate::tells::tell_each;
use client_callbacks::{Callbacks, Why};
use name_server::{NameFault, Names};
use node_groups::{leader_of, set_leader};
use node_owed::send_requests_of;
use node_sending::{coordinates, is_fixed, send};
use node_state::{Body, Core};
use rsct_packet::{Name, NoMemory, ProviderId};
use std::alloc::Global;

/// The leader by the table of names, where a new name is kept with the node that asks; 0 where the table is full.
#[tactic(auto, using(crate::proofs::NameLaws::full_stays))]
fn look_up(names: &mut Names, alloc: Global, group: &[u8], asker: u8) -> Result<u8, NoMemory>
    ensures leader { IfOk result (λ n. n ≡ unwrap_or (looked_up group.now asker names.old) 0) }
    ensures kept { OnOk result (names.new ≡ lookup group.now asker names.old) }
{
    match names.lookup(alloc, group, asker) {
        Ok(n) => Ok(n),
        Err(NameFault::Full(_)) => Ok(0),
        Err(NameFault::NoMemory) => Err(NoMemory),
    }
}

/// Answers who leads the group; 0 where no group more can be had.
pub fn send_name(
    core: &mut Core,
    alloc: Global,
    to: u8,
    group: &Name,
    leader: u8,
) -> Result<(), NoMemory>
    ensures { OnOk result (core.new ≡ sent core.old to
        (body.Name core.old.views.view group.now leader)) }
{
    let body = Body::Name {
        view: core.views.view,
        name: group.copy(alloc)?,
        leader,
    };
    send(core, to, body)
}

/// LOOKUP: the coordinator answers with the leader of the table of names, 0 where that is full.
#[tactic(auto, unfolding(node_state::specs::Following::take_lookup))]
pub fn take_lookup(core: &mut Core, alloc: Global, from: u8, group: &Name) -> Result<(), NoMemory>
    ensures rule { OnOk result (core.new ≡ take_lookup core.old from group.now) }
    ensures keeps { OnOk result (Keeps core.old core.new) }
{
    if !coordinates(core) {
        return Ok(());
    }
    let leader = look_up(&mut core.names, alloc, group.bytes(), from)?;
    send_name(core, alloc, from, group, leader)
}

/// Is a leader news: where none is known, or where 0 says in mode fixed that no group more can be had?
#[tactic(auto, unfolding(node_state::specs::Following::is_name_used))]
fn is_name_used(core: &Core, group: &[u8], leader: u8) -> bool
    ensures { result ≡ is_name_used core.now group.now leader }
{
    leader_of(core, group).is_none() || (is_fixed(core.config.mode) && leader == 0)
}

/// The numbers of the outstanding requests in a group, in their order, with their providers.
#[tactic(auto, unfolding(node_state::specs::Following::requests_of))]
fn requests_of(core: &Core, alloc: Global, group: &[u8]) -> Result<Vec<(ProviderId, u32)>, NoMemory>
    ensures { IfOk result (λ v. v.items ≡ map (λ (q : Request). (q.provider, q.request))
        (requests_of core.now group.now)) }
{
    Ok(
        core.sessions
            .requests
            .as_slice()
            .iter()
            .filter(|q| q.group.bytes() == group)
            .map(|q| (q.provider, q.request))
            .collect(alloc)?,
    )
}

/// Tells the clients whose requests in the group are outstanding that no group more can be had.
fn refuse_requests<C: Callbacks>(
    core: &mut Core,
    clients: &mut Vec<C>,
    alloc: Global,
    group: &[u8],
) -> Result<(), NoMemory>
    requires aligned { length clients.old.items ≡ length core.old.sessions.sessions }
    ensures aligned { OnOk result (length clients.new.items ≡ length core.new.sessions.sessions) }
    ensures scripts { OnOk result (KeepsScripts C.script clients.old.items clients.new.items) }
    ensures does { OnOk result (RuleDoes C.script C.stands_for clients.old.items clients.new.items
        core.old core.new (λ f. fold
        (λ t (q : Request). take_tell t q.provider q.request (GroupsFull 64)) core.old
        (requests_of core.old group.now))) }
{
    let requests = requests_of(core, alloc, group)?;
    tell_each(core, clients, requests.as_slice(), Why::GroupsFull(64))
}

/// Keeps the leader of the group, and sends it the outstanding requests.
#[tactic(auto, using(crate::proofs::NameLaws::requests_led))]
fn know_leader(core: &mut Core, alloc: Global, group: &Name, leader: u8) -> Result<(), NoMemory>
    ensures rule { OnOk result (core.new ≡ fold send_request
        (set_leader core.old group.now leader) (requests_of core.old group.now)) }
    ensures keeps { OnOk result (Keeps core.old core.new) }
{
    set_leader(core, alloc, group, leader)?;
    send_requests_of(core, alloc, group.bytes())
}

/// NAME: the leader of a group is known, and what is outstanding there is sent to it; 0 refuses it.
pub fn take_name<C: Callbacks>(
    core: &mut Core,
    clients: &mut Vec<C>,
    alloc: Global,
    group: &Name,
    node: u8,
) -> Result<(), NoMemory>
    requires work { AtWork core.old clients.old.items }
    ensures work { OnOk result (AtWork core.new clients.new.items) }
    ensures scripts { OnOk result (KeepsScripts C.script clients.old.items clients.new.items) }
    ensures does { OnOk result (RuleDoes C.script C.stands_for clients.old.items clients.new.items
        core.old core.new (λ f. take_name core.old group.now node)) }
{
    if !is_name_used(core, group.bytes(), node) {
        return Ok(());
    }
    if node == 0 {
        return refuse_requests(core, clients, alloc, group.bytes());
    }
    know_leader(core, alloc, group, node)
}
