//! What the steps of a node's rings leave.
ghost use Rattle.std.specs.Prelude.{◌≡◌, ◌==◌, ◌<◌, IfOk, IfSome, OnOk, find, fold, length, option_copied};
ghost use Rattle.std.specs.List.{position};
ghost use Rattle.adapter_ring.specs.declared.ring.Ring.{Ring};
ghost use Rattle.adapter_ring.specs.declared.packet.RingSend.{RingSend};
ghost use Rattle.adapter_ring.specs.Rings.{ring_step};
ghost use Rattle.node_groups.specs.Keeps.{Keeps};
ghost use Rattle.node_state.specs.declared.packet.Body.TheVariants as body;
ghost use Rattle.node_state.specs.State.{recorded_all};
ghost use Rattle.node_state.specs.Sending.{send_on};
ghost use Rattle.node_state.specs.Ticks.{ring_put, ring_rule, ring_taken, set_records};

use adapter_ring::{Ring, RingEvent, RingOut, RingPacket, RingSend, RingSet};
use node_sending::send_on;
use node_state::{Body, Core, Happened, Rings};
use rsct_packet::{List, NoMemory};
use std::alloc::Global;

/// Where the first ring of a network stands.
fn place_of(rings: &[Ring], network: u8) -> Option<usize>
    ensures value { result ≡ position (λ (r : Ring). r.net == network) rings.now }
    ensures within { IfSome result (λ i. i < length rings.now) }
{
    rings.iter().position(|ring| ring.net == network)
}

/// The rings with this one in place of that of its network.
#[tactic(auto, using(crate::proofs::RingLaws::put_at, crate::proofs::RingLaws::put_nowhere, std::proofs::lemmas::Grind::common_steps))]
fn with_ring(alloc: Global, rings: &[Ring], ring: &Ring) -> Result<Rings, NoMemory>
    ensures { IfOk result (λ l. l ≡ ring_put rings.now ring.now) }
{
    let Some(i) = place_of(rings, ring.net) else {
        return List::of(alloc, rings);
    };
    let mut with = List::of(alloc, &rings[..i])?;
    with.push(*ring)?;
    with.extend(&rings[i + 1..])?;
    Ok(with)
}

/// Sends what a ring sends.
#[tactic(auto, using(std::proofs::lemmas::List::Sums::fold_more))]
fn send_each(core: &mut Core, sends: &[RingSend]) -> Result<(), NoMemory>
    ensures { OnOk result (core.new ≡ fold (λ u (x : RingSend). send_on u x.network x.to
        (body.Ring x.packet)) core.old sends.now) }
{
    for x in sends {
        send_on(core, x.network, x.to, Body::Ring { packet: x.packet })?;
    }
    Ok(())
}

/// Records that the ring of a network is set.
#[tactic(auto, unfolding(node_state::specs::State::recorded_all, node_state::specs::Ticks::set_records))]
fn record_set(core: &mut Core, node: u8, network: u8, set: Option<RingSet>) -> Result<(), NoMemory>
    ensures { OnOk result (core.new ≡ recorded_all core.old (set_records node network set)) }
{
    match set {
        None => Ok(()),
        Some(set) => core.records.push(Happened::Ring {
            node,
            network,
            ring: set.id,
            members: set.members,
            neighbour: set.neighbour,
        }),
    }
}

/// Takes what a ring's step leaves: the ring itself, what it sends, and the ring that it was set to.
#[tactic(auto, unfolding(node_state::specs::Ticks::ring_taken))]
fn take_step(core: &mut Core, alloc: Global, ring: &Ring, out: &RingOut) -> Result<(), NoMemory>
    ensures { OnOk result (core.new ≡ ring_taken core.old
        (record { ring = ring.now; sends = out.now.sends; set = out.now.set })) }
{
    let me = core.views.me;
    core.rings = with_ring(alloc, core.rings.as_slice(), ring)?;
    send_each(core, out.sends.as_slice())?;
    record_set(core, me, ring.net, out.set)
}

/// A ring takes an event, and what its step leaves is taken.
pub fn step(core: &mut Core, alloc: Global, ring: &Ring, event: RingEvent) -> Result<(), NoMemory>
    ensures rule { OnOk result (core.new ≡ ring_taken core.old (ring_step ring.now event)) }
    ensures keeps { OnOk result (Keeps core.old core.new) }
{
    let mut next = *ring;
    let mut out = RingOut::new(alloc);
    next.step(alloc, event, &mut out)?;
    take_step(core, alloc, &next, &out)
}

fn ring_of(rings: &[Ring], network: u8) -> Option<Ring>
    ensures { result ≡ find (λ (r : Ring). r.net == network) rings.now }
{
    rings.iter().copied().find(|ring| ring.net == network)
}

/// A packet of a ring goes to the ring of its network.
#[tactic(auto, unfolding(node_state::specs::Ticks::ring_rule, node_state::specs::Ticks::ring_rule_of))]
pub fn take_ring_packet(
    core: &mut Core,
    alloc: Global,
    network: u8,
    from: u8,
    inc: u32,
    packet: RingPacket,
) -> Result<(), NoMemory>
    ensures rule { OnOk result (core.new ≡ ring_rule core.old network from inc packet) }
    ensures keeps { OnOk result (Keeps core.old core.new) }
{
    match ring_of(core.rings.as_slice(), network) {
        None => Ok(()),
        Some(ring) => step(core, alloc, &ring, RingEvent::Packet { from, inc, packet }),
    }
}
