//! The lengths of a list that its members acknowledge.
ghost use Rattle.std.specs.Prelude.{◌≡◌, OnOk};
ghost use Rattle.node_groups.specs.Keeps.{Keeps};
ghost use Rattle.node_state.specs.Following.{acked, take_ack};

use node_groups::{forget_least, leads, len_of, note_acked};
use node_state::Core;
use rsct_packet::{Name, NoMemory};
use std::alloc::Global;

/// A member has acknowledged a length; what all members have is forgotten.
#[tactic(auto, unfolding(node_state::specs::Following::acked))]
fn note(core: &mut Core, alloc: Global, from: u8, group: &Name, len: u32) -> Result<(), NoMemory>
    ensures { OnOk result (core.new ≡ acked core.old from group.now len) }
{
    note_acked(core, alloc, group, from, len)?;
    forget_least(core, alloc, group)
}

/// ACK: a length, up to that of a list that the node leads, is acknowledged.
#[tactic(auto, unfolding(node_state::specs::Following::take_ack))]
pub fn take_ack(
    core: &mut Core,
    alloc: Global,
    from: u8,
    group: &Name,
    len: u32,
) -> Result<(), NoMemory>
    ensures rule { OnOk result (core.new ≡ take_ack core.old from group.now len) }
    ensures keeps { OnOk result (Keeps core.old core.new) }
{
    if !leads(core, group.bytes()) || len > len_of(core, group.bytes()) {
        return Ok(());
    }
    note(core, alloc, from, group, len)
}
