//! How a node starts.
ghost use Rattle.std.specs.Prelude.{◌≡◌, ◌++◌, ◌∷◌, [], map, IfOk, OnOk, if◌then◌else◌, Some, None};
ghost use Rattle.std.specs.Option.{unwrap_or};
ghost use Rattle.rsct_packet.specs.Mask.{nodes_of};
ghost use Rattle.session_state.specs.declared.state.SessionState.{SessionState};
ghost use Rattle.session_state.specs.State.{no_sessions};
ghost use Rattle.node_state.specs.declared.happened.Happened.TheVariants as happened;
ghost use Rattle.node_state.specs.Settings.{has_adapter, least_node, networks, networks_of};
ghost use Rattle.node_state.specs.Step.{own_ring, own_rings, first_view, first_members, ring_record, started};

use adapter_ring::{Ring, RingSettings};
use name_server::Names;
use node_reach::Reach;
use node_sending::{address, view_level};
use node_state::{Config, Core, Happened, Mode, Records, Rings, Table};
use rsct_packet::{List, Mask, Member, Members, NETWORKS, NODES, NoMemory, ViewId};
use session_state::{Locals, SessionState};
use std::alloc::Global;
use subscribe_core::Subs;
use view_state::Views;

/// In mode fixed the view of all nodes, else of the node alone.
#[tactic(auto, unfolding(node_state::specs::Step::first_view, node_state::specs::Settings::least_node))]
fn first_view(config: &Config, me: u8, inc: u32) -> ViewId
    ensures { result ≡ first_view config.now config.now.mode me inc }
{
    match config.mode {
        Mode::Fixed => ViewId {
            number: 1,
            coord: config.nodes.first().unwrap_or(me),
            inc: 1,
        },
        Mode::Asked => ViewId {
            number: 1,
            coord: me,
            inc,
        },
        Mode::Rings => ViewId {
            number: 1,
            coord: me,
            inc,
        },
    }
}

/// All nodes, each in its first incarnation.
fn all_members(alloc: Global, nodes: Mask) -> Result<Members, NoMemory>
    ensures { IfOk result (λ ms. ms ≡ map (λ n. record { node = n; inc = 1 }) (nodes_of nodes)) }
{
    let nodes = nodes.nodes(alloc)?;
    let mut members = List::new(alloc);
    for node in nodes.as_slice() {
        members.push(Member {
            node: *node,
            inc: 1,
        })?;
    }
    Ok(members)
}

/// The node alone.
fn alone(alloc: Global, me: u8, inc: u32) -> Result<Members, NoMemory>
    ensures { IfOk result (λ ms. ms ≡ record { node = me; inc = inc } ∷ []) }
{
    let mut members = List::new(alloc);
    members.push(Member { node: me, inc })?;
    Ok(members)
}

/// The members of the first view.
#[tactic(auto, unfolding(node_state::specs::Step::first_members))]
fn first_members(alloc: Global, config: &Config, me: u8, inc: u32) -> Result<Members, NoMemory>
    ensures { IfOk result (λ ms. ms ≡ first_members config.now config.now.mode me inc) }
{
    match config.mode {
        Mode::Fixed => all_members(alloc, config.nodes),
        Mode::Asked => alone(alloc, me, inc),
        Mode::Rings => alone(alloc, me, inc),
    }
}

/// The ring of the node's adapter on a network, where it has one there.
#[tactic(auto, unfolding(node_state::specs::Step::own_ring, node_state::specs::Settings::has_adapter, node_state::specs::Settings::address_at, node_state::specs::Settings::addresses_on))]
fn ring_on(config: &Config, me: u8, inc: u32, network: u8) -> Option<Ring>
    ensures { result ≡ (if has_adapter config.now me network then Some
        (own_ring config.now me inc network) else None) }
{
    if address(config, me, network) == 0 {
        return None;
    }
    match config.addr.get(usize::from(network).saturating_sub(1)) {
        None => None,
        Some(addr) => Some(Ring::new(
            network,
            me,
            inc,
            RingSettings {
                addr: *addr,
                every: config.every,
                misses: config.misses,
            },
        )),
    }
}

/// A ring for each adapter of the node, in network order.
#[tactic(auto, unfolding(node_state::specs::Settings::networks_of), using(std::proofs::lemmas::List::map_more, std::proofs::lemmas::List::Elements::filter_more, std::proofs::lemmas::Grind::common_steps))]
fn adapter_rings(alloc: Global, config: &Config, me: u8, inc: u32) -> Result<Rings, NoMemory>
    ensures { IfOk result (λ rs. rs ≡ map (own_ring config.now me inc)
        (networks_of config.now me)) }
{
    let mut rings = List::new(alloc);
    for network in &NETWORKS {
        if let Some(ring) = ring_on(config, me, inc, *network) {
            rings.push(ring)?;
        }
    }
    Ok(rings)
}

/// The rings of the node, which it has in mode rings alone.
#[tactic(auto, unfolding(node_state::specs::Step::own_rings))]
fn own_rings(alloc: Global, config: &Config, me: u8, inc: u32) -> Result<Rings, NoMemory>
    ensures { IfOk result (λ rs. rs ≡ own_rings config.now config.now.mode me inc) }
{
    match config.mode {
        Mode::Fixed => Ok(List::new(alloc)),
        Mode::Asked => Ok(List::new(alloc)),
        Mode::Rings => adapter_rings(alloc, config, me, inc),
    }
}

/// The record of a ring.
#[tactic(auto, unfolding(node_state::specs::Step::ring_record))]
fn ring_record(me: u8, ring: &Ring) -> Happened
    ensures { result ≡ ring_record me ring.now }
{
    Happened::Ring {
        node: me,
        network: ring.net,
        ring: ring.id(),
        members: ring.members(),
        neighbour: ring.neighbour(),
    }
}

/// Records each ring.
#[tactic(auto, using(std::proofs::lemmas::List::map_more, std::proofs::lemmas::Grind::common_steps))]
fn record_rings(me: u8, rings: &[Ring], records: &mut Records) -> Result<(), NoMemory>
    ensures { OnOk result (records.new ≡ records.old ++ map (ring_record me) rings.now) }
{
    for ring in rings {
        records.push(ring_record(me, ring))?;
    }
    Ok(())
}

/// What a node records as it starts: that it is up, its rings, and its view.
fn first_records(
    alloc: Global,
    me: u8,
    inc: u32,
    rings: &[Ring],
    view: ViewId,
    members: &[Member],
) -> Result<Records, NoMemory>
    ensures { IfOk result (λ rs. rs ≡ happened.Up me inc ∷ map (ring_record me) rings.now
        ++ happened.In me view members.now ∷ []) }
{
    let mut records = List::new(alloc);
    records.push(Happened::Up { node: me, inc })?;
    record_rings(me, rings, &mut records)?;
    records.push(Happened::In {
        node: me,
        view,
        members: List::of(alloc, members)?,
    })?;
    Ok(records)
}

/// No client is there yet.
fn no_sessions(alloc: Global, me: u8, inc: u32, level: u8) -> SessionState
    ensures { result ≡ record (no_sessions me inc) { level = level } }
{
    SessionState {
        me,
        inc,
        level,
        last_request: 0,
        last_client: 0,
        sessions: List::new(alloc),
        providers: Locals::new(alloc),
        requests: List::new(alloc),
        subs: Subs::new(alloc),
        kept: List::new(alloc),
    }
}

/// The state of a node that starts, with what it records.
#[tactic(auto, unfolding(node_state::specs::Step::started, node_state::specs::State::with_sessions, node_state::specs::Applying::level_set))]
pub fn start_core(alloc: Global, config: Config, me: u8, inc: u32) -> Result<Core, NoMemory>
    ensures { IfOk result (λ s. s ≡ started config me inc) }
{
    let view = first_view(&config, me, inc);
    let rings = own_rings(alloc, &config, me, inc)?;
    let members = first_members(alloc, &config, me, inc)?;
    let records = first_records(alloc, me, inc, rings.as_slice(), view, members.as_slice())?;
    let level = view_level(&config, members.as_slice());
    Ok(Core {
        config,
        views: Views::new(me, inc, view, members),
        names: Names::of_install(alloc, &List::new(alloc))?,
        groups: Table {
            rows: Vec::new(alloc),
        },
        sessions: no_sessions(alloc, me, inc, level),
        rings,
        reach: Reach::new(me, inc),
        sends: List::new(alloc),
        records,
    })
}
