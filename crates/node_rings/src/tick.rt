//! The part of a tick on rings.
ghost use Rattle.std.specs.Prelude.{◌≡◌, OnOk, fold};
ghost use Rattle.adapter_ring.specs.declared.ring.Ring.{Ring};
ghost use Rattle.adapter_ring.specs.declared.packet.RingEvent.TheVariants as ring_event;
ghost use Rattle.adapter_ring.specs.Rings.{ring_step};
ghost use Rattle.node_groups.specs.Keeps.{Keeps};
ghost use Rattle.node_state.specs.Ticks.{ring_taken, tick_rings, rings_tick, rings_union};

use crate::reports::send_report;
use crate::rings::step;
use adapter_ring::{Ring, RingEvent};
use node_sending::is_rings;
use node_state::Core;
use rsct_packet::{List, Mask, NoMemory};
use std::alloc::Global;

/// Each of these rings ticks.
fn tick_each(core: &mut Core, alloc: Global, rings: &[Ring]) -> Result<(), NoMemory>
    ensures rule { OnOk result (core.new ≡ fold (λ u (r : Ring). ring_taken u
        (ring_step r ring_event.Tick)) core.old rings.now) }
    ensures keeps { OnOk result (Keeps core.old core.new) }
{
    for ring in rings {
        step(core, alloc, ring, RingEvent::Tick)?;
    }
    Ok(())
}

/// The nodes of the rings.
#[tactic(auto, unfolding(node_state::specs::Ticks::rings_union))]
fn union_of(rings: &[Ring]) -> Mask
    ensures { result ≡ rings_union rings.now }
{
    rings
        .iter()
        .fold(Mask::empty(), |nodes, ring| nodes.union(ring.members))
}

/// The rings tick in network order, and all rows go to the nodes of their union.
#[tactic(auto, unfolding(node_state::specs::Ticks::rings_tick))]
fn tick_all(core: &mut Core, alloc: Global) -> Result<(), NoMemory>
    ensures rule { OnOk result (core.new ≡ rings_tick core.old) }
    ensures keeps { OnOk result (Keeps core.old core.new) }
{
    let rings = List::of(alloc, core.rings.as_slice())?;
    tick_each(core, alloc, rings.as_slice())?;
    let nodes = union_of(core.rings.as_slice());
    send_report(core, alloc, nodes)
}

/// The part of a tick on rings, in mode rings: they tick in network order, and all rows go to the nodes of their
/// union.
#[tactic(auto, unfolding(node_state::specs::Ticks::tick_rings))]
pub fn tick_rings(core: &mut Core, alloc: Global) -> Result<(), NoMemory>
    ensures rule { OnOk result (core.new ≡ tick_rings core.old) }
    ensures keeps { OnOk result (Keeps core.old core.new) }
{
    if !is_rings(core.config.mode) {
        return Ok(());
    }
    tick_all(core, alloc)
}
