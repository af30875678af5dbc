//! Why a line whose words are read is in no script.
ghost use Rattle.std.specs.Prelude.{◌≡◌, ◌-◌, ◌==◌, ◌&&◌, slice_index};
ghost use Rattle.std.specs.List.{list_all};
ghost use Rattle.rsct_packet.specs.Mask.{has_node};
ghost use Rattle.node_state.specs.Bytes.{is_packet};
ghost use Rattle.world_model.specs.Reading.{own_nodes, nodes_said, is_known_client, event_misplaced, line_misplaced, misplaced, is_carried, misplaced_served, misplaced_asked, misplaced_for, packet_reason, boxed_reason, last_reason, reason};
ghost use Rattle.world_model.specs.Lines.{SaysBegin};
ghost use Rattle.script_reader.specs.Said.{said_seen, nodes_seen};
ghost use Rattle.script_reader.specs.Reading.{reading_seen};

use crate::calls::caller;
use crate::clients::Clients;
use crate::networks::{all_share, is_second_adapter};
use crate::progress::ReadSoFar;
use crate::said::{ClientVotes, LineNodes, Said};
use node_sending::{is_fixed, is_rings};
use node_state::{CallLine, Config};
use packet_codec::is_packet;
use rsct_packet::Mask;
use world_model::{Aim, Event, Line, LineWhy};

fn are_nodes(nodes: Mask, named: &[u8]) -> bool
    ensures { result ≡ list_all (has_node nodes) named.now }
{
    named.iter().all(|n| nodes.has(*n))
}

fn line_nodes_are_known(nodes: Mask, named: &LineNodes) -> bool
    ensures { result ≡ list_all (has_node nodes) (nodes_seen named.now) }
{
    match named {
        LineNodes::Zero => true,
        LineNodes::One(node) => nodes.has(*node),
        LineNodes::Two(a, b) => nodes.has(*a) && nodes.has(*b),
        LineNodes::More(node, others) => nodes.has(*node) && are_nodes(nodes, others.as_slice()),
    }
}

/// Has the node whose settings are read an earlier line?
#[tactic(auto, unfolding(world_model::specs::Reading::own_nodes))]
fn own_is_known(nodes: Mask, aim: Aim) -> bool
    ensures { result ≡ list_all (has_node nodes) (own_nodes aim) }
{
    match aim {
        Aim::Plays => true,
        Aim::Serves(me, _) => nodes.has(me),
        Aim::Asks(me) => nodes.has(me),
    }
}

/// Has each node that must be known an earlier line?
#[tactic(auto, unfolding(world_model::specs::Reading::nodes_said))]
fn nodes_are_known(nodes: Mask, aim: Aim, said: &Said) -> bool
    ensures { result ≡ list_all (has_node nodes) (nodes_said aim (said_seen said.now)) }
{
    match said {
        Said::Adapter(node, _, _) => nodes.has(*node),
        Said::Level(node, _) => nodes.has(*node),
        Said::Begin => own_is_known(nodes, aim),
        Said::Line(named, _) => line_nodes_are_known(nodes, named),
        Said::Client(node, _, _) => nodes.has(*node),
        _ => true,
    }
}

/// Does an earlier line make the client that calls?
#[tactic(auto, unfolding(world_model::specs::Reading::is_known_client))]
fn client_is_known(clients: &Clients, said: &Said) -> bool
    ensures { result ≡ is_known_client (said_seen said.now) clients.now }
{
    match said {
        Said::Call(call) => clients.is_known(caller(call)),
        _ => true,
    }
}

#[tactic(auto, unfolding(world_model::specs::Reading::event_misplaced))]
fn event_is_misplaced(config: &Config, event: &Event) -> bool
    ensures { result ≡ event_misplaced config.now event.now }
{
    match event {
        Event::Start(_) => is_fixed(config.mode),
        Event::Stop(_) => is_fixed(config.mode),
        Event::Ask(node, mask) => is_fixed(config.mode)
            || is_rings(config.mode)
            || !mask.has(*node),
        _ => false,
    }
}

#[tactic(auto, unfolding(world_model::specs::Reading::line_misplaced))]
fn line_is_misplaced(config: &Config, line: &Line) -> bool
    ensures { result ≡ line_misplaced config.now line.now }
{
    match line {
        Line::Plain(event) => event_is_misplaced(config, event),
        _ => false,
    }
}

fn level_of(config: &Config, node: u8) -> u32
    ensures { result ≡ slice_index config.now.level_from (node - 1) }
{
    match config.level_from.get(usize::from(node.saturating_sub(1))) {
        None => 0,
        Some(inc) => *inc,
    }
}

/// Is it a setting after `begin` or for the second time, or an event before it?
#[tactic(auto, unfolding(world_model::specs::Reading::misplaced))]
fn is_misplaced(read: &ReadSoFar, said: &Said) -> bool
    ensures { result ≡ misplaced (reading_seen read.now) (said_seen said.now) }
{
    match said {
        Said::Mode(_) => read.begun || read.has_mode,
        Said::Node(node) => read.begun || read.config.nodes.has(*node),
        Said::Adapter(node, network, address) => {
            read.begun || is_second_adapter(&read.config, *node, *network, *address)
        }
        Said::Hb(_, _) => read.begun || read.has_hb,
        Said::Port(_) => read.begun || read.has_port,
        Said::Level(node, _) => read.begun || level_of(&read.config, *node) > 0,
        Said::Domain(_) => read.begun || read.has_domain,
        Said::Begin => read.begun,
        Said::Line(_, line) => !read.begun || line_is_misplaced(&read.config, line),
        Said::Client(node, name, _) => !read.begun
            || read.clients.is_elsewhere(name.as_slice(), *node),
        Said::Call(_) => !read.begun,
    }
}

/// Is it a call that a daemon carries out?
#[tactic(auto, unfolding(world_model::specs::Reading::is_carried))]
fn is_carried(call: &CallLine) -> bool
    ensures { result ≡ is_carried call.now }
{
    match call {
        CallLine::Init { .. } => true,
        CallLine::Join { .. } => true,
        CallLine::Subscribe { .. } => true,
        _ => false,
    }
}

/// Is it out of place in the settings of a daemon of this node?
#[tactic(auto, unfolding(world_model::specs::Reading::misplaced_served))]
fn is_misplaced_served(read: &ReadSoFar, me: u8, said: &Said) -> bool
    ensures { result ≡ misplaced_served (reading_seen read.now) me (said_seen said.now) }
{
    match said {
        Said::Mode(mode) => !is_rings(*mode),
        Said::Line(_, _) => true,
        Said::Call(call) => read.clients.node_of(caller(call)) == me && !is_carried(call),
        _ => false,
    }
}

/// Is it out of place in the settings with which a node is asked?
#[tactic(auto, unfolding(world_model::specs::Reading::misplaced_asked))]
fn is_misplaced_asked(said: &Said) -> bool
    ensures { result ≡ misplaced_asked (said_seen said.now) }
{
    match said {
        Said::Mode(mode) => !is_rings(*mode),
        _ => false,
    }
}

/// Is it out of place for what the script is read?
#[tactic(auto, unfolding(world_model::specs::Reading::misplaced_for))]
fn is_misplaced_for(read: &ReadSoFar, aim: Aim, said: &Said) -> bool
    ensures { result ≡ misplaced_for (reading_seen read.now) aim (said_seen said.now) }
{
    match aim {
        Aim::Plays => false,
        Aim::Serves(me, _) => is_misplaced_served(read, me, said),
        Aim::Asks(_) => is_misplaced_asked(said),
    }
}

#[tactic(auto, unfolding(world_model::specs::Reading::last_reason))]
fn network_reason(read: &ReadSoFar) -> Option<LineWhy>
    ensures { result ≡ last_reason (reading_seen read.now) SaysBegin }
{
    if all_share(&read.settled()) {
        None
    } else {
        Some(LineWhy::NoSharedNetwork)
    }
}

#[tactic(auto, unfolding(world_model::specs::Reading::packet_reason))]
fn packet_reason(bytes: &[u8]) -> Option<LineWhy>
    ensures { result ≡ packet_reason (is_packet bytes.now) }
{
    if is_packet(bytes) {
        Some(LineWhy::IsAPacket)
    } else {
        None
    }
}

/// Why a client has no object that gives its votes: none is played, and those of a daemon may all be taken.
#[tactic(auto, unfolding(world_model::specs::Reading::boxed_reason))]
fn boxed_reason(aim: Aim, node: u8, left: u32) -> Option<LineWhy>
    ensures { result ≡ boxed_reason aim node left }
{
    match aim {
        Aim::Plays => Some(LineWhy::BoxedClient),
        Aim::Serves(me, _) if node == me && left == 0 => Some(LineWhy::BoxedClient),
        _ => None,
    }
}

/// The reasons that come last: two nodes without a shared network at `begin`, garbage that is a packet, a client
/// for which there is no object.
#[tactic(auto, unfolding(world_model::specs::Reading::last_reason))]
fn last_reason(read: &ReadSoFar, said: &Said) -> Option<LineWhy>
    ensures { result ≡ last_reason (reading_seen read.now) (said_seen said.now) }
{
    match said {
        Said::Begin => network_reason(read),
        Said::Line(_, Line::Plain(Event::Garbage(_, bytes))) => packet_reason(bytes.as_slice()),
        Said::Client(node, _, ClientVotes::Boxed) => boxed_reason(read.aim, *node, read.left),
        _ => None,
    }
}

/// The first reason after a bad word.
#[tactic(auto, unfolding(world_model::specs::Reading::reason))]
pub fn reason(read: &ReadSoFar, said: &Said) -> Option<LineWhy>
    ensures { result ≡ reason (reading_seen read.now) (said_seen said.now) }
{
    if !nodes_are_known(read.config.nodes, read.aim, said) {
        return Some(LineWhy::UnknownNode);
    }
    if !client_is_known(&read.clients, said) {
        return Some(LineWhy::UnknownClient);
    }
    if is_misplaced(read, said) || is_misplaced_for(read, read.aim, said) {
        return Some(LineWhy::OutOfPlace);
    }
    last_reason(read, said)
}
