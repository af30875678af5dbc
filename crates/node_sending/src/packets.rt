//! Packets of a node.
ghost use Rattle.std.specs.Prelude.{◌≡◌, OnOk, find, option_copied};
ghost use Rattle.node_state.specs.Sending.{joins_nodes, ring_network, network_to, is_in_view, level_for, domain_at, packet_on, send_on, sent, send_if_known};
ghost use Rattle.node_state.specs.declared.packet.Body.TheVariants as body;

use crate::settings::{is_rings, shared_network};
use adapter_ring::Ring;
use node_state::{Body, Core, Packet};
use proposal_core::Entry;
use rsct_packet::{Name, NoMemory};
use std::alloc::Global;

/// Do both nodes stand in the ring?
#[tactic(auto, unfolding(node_state::specs::Sending::joins_nodes))]
fn joins_nodes(first: u8, second: u8, ring: &Ring) -> bool
    ensures { result ≡ joins_nodes first second ring.now }
{
    ring.members.has(first) && ring.members.has(second)
}

fn ring_with(rings: &[Ring], first: u8, second: u8) -> Option<&Ring>
    ensures { option_copied result ≡ find (joins_nodes first second) rings.now }
{
    rings.iter().find(|r| joins_nodes(first, second, r))
}

/// The least network in whose ring both the node and another one stand, if there is one.
#[tactic(auto, unfolding(node_state::specs::Sending::ring_network))]
fn ring_network(core: &Core, node: u8) -> Option<u8>
    ensures { result ≡ ring_network core.now node }
{
    match ring_with(core.rings.as_slice(), core.views.me, node) {
        None => None,
        Some(r) => Some(r.net),
    }
}

/// The network by which the node sends to another one; 0 where none leads there.
#[tactic(auto, unfolding(node_state::specs::Sending::network_to))]
pub fn network_to(core: &Core, node: u8) -> u8
    ensures { result ≡ network_to core.now node }
{
    let shared = shared_network(&core.config, core.views.me, node);
    if !is_rings(core.config.mode) {
        return shared;
    }
    match ring_network(core, node) {
        None => shared,
        Some(network) => network,
    }
}

/// Is it a packet that is used in its view alone?
#[tactic(auto, unfolding(node_state::specs::Sending::is_in_view))]
fn is_in_view(body: &Body) -> bool
    ensures { result ≡ is_in_view body.now }
{
    match body {
        Body::Lookup { .. } => true,
        Body::Name { .. } => true,
        Body::Request { .. } => true,
        Body::Tell { .. } => true,
        Body::Entry { .. } => true,
        Body::Ack { .. } => true,
        Body::Vote { .. } => true,
        Body::Gone { .. } => true,
        _ => false,
    }
}

/// The level at which the node sends this.
#[tactic(auto, unfolding(node_state::specs::Sending::level_for))]
fn level_for(core: &Core, body: &Body) -> u8
    ensures { result ≡ level_for core.now body.now }
{
    if is_in_view(body) {
        core.sessions.level
    } else {
        1
    }
}

/// The domain that goes with a level.
#[tactic(auto, unfolding(node_state::specs::Sending::domain_at))]
fn domain_at(core: &Core, level: u8) -> u32
    ensures { result ≡ domain_at core.now level }
{
    if level == 2 { core.config.domain } else { 0 }
}

/// The packet that says this, on a network.
#[tactic(auto, unfolding(node_state::specs::Sending::packet_on))]
fn packet_on(core: &Core, network: u8, to: u8, body: Body) -> Packet
    ensures { result ≡ packet_on core.now network to body }
{
    let level = level_for(core, &body);
    let domain = domain_at(core, level);
    Packet {
        network,
        from: core.views.me,
        to,
        inc: core.views.inc,
        level,
        domain,
        body,
    }
}

/// Sends this on a network.
#[tactic(auto, unfolding(node_state::specs::Sending::send_on))]
pub fn send_on(core: &mut Core, network: u8, to: u8, body: Body) -> Result<(), NoMemory>
    ensures { OnOk result (core.new ≡ send_on core.old network to body) }
{
    let packet = packet_on(core, network, to, body);
    core.sends.push(packet)
}

/// Sends this to a node.
#[tactic(auto, unfolding(node_state::specs::Sending::sent))]
pub fn send(core: &mut Core, to: u8, body: Body) -> Result<(), NoMemory>
    ensures { OnOk result (core.new ≡ sent core.old to body) }
{
    let network = network_to(core, to);
    send_on(core, network, to, body)
}

/// Sends this to a node that may be unknown.
#[tactic(auto, unfolding(node_state::specs::Sending::send_if_known))]
pub fn send_if_known(core: &mut Core, to: Option<u8>, body: Body) -> Result<(), NoMemory>
    ensures { OnOk result (core.new ≡ send_if_known core.old to body) }
{
    match to {
        None => Ok(()),
        Some(to) => send(core, to, body),
    }
}

/// Sends an entry of the view.
pub fn send_entry(
    core: &mut Core,
    alloc: Global,
    to: u8,
    group: &Name,
    place: u32,
    stable: u32,
    entry: &Entry,
) -> Result<(), NoMemory>
    ensures { OnOk result (core.new ≡ sent core.old to
        (body.Entry core.old.views.view group.now place stable entry.now)) }
{
    let body = Body::Entry {
        view: core.views.view,
        name: group.copy(alloc)?,
        place,
        stable,
        entry: entry.copy(alloc)?,
    };
    send(core, to, body)
}
