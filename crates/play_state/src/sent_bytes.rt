//! Packets that are sent, and how many bytes they have.
ghost use Rattle.std.specs.Prelude.{◌≡◌, ◌+◌, ◌<◌, ◌≤◌, ℕ, OnOk, IsErrOf, Some, None};
ghost use Rattle.std.specs.List.{fold};
ghost use Rattle.world_model.specs.World.{posted};
ghost use Rattle.world_model.specs.World as world;
ghost use Rattle.world_model.specs.Kept.{with_packet};
ghost use Rattle.play_state.specs.Posting.{PacketsStand, bytes_after};

use crate::world_fault::WorldFault;
use node_state::Packet;
use std::alloc::Global;
use world_packets::WorldPackets;

/// Counts the bytes of a packet, which may not pass the limit.
#[tactic(auto, using(crate::proofs::PacketLaws::within_next, crate::proofs::PacketLaws::passes_next))]
fn count(kept: &mut u64, limit: u64, len: usize) -> Result<(), WorldFault>
    ensures within { OnOk result ((kept.new ≡ kept.old + len) × (kept.old + len ≤ limit)) }
    ensures passes { (n : ℕ) → IsErrOf result (WorldFault.TooMuchKept n) → (n ≡ kept.old + len)
        × (limit < kept.old + len) }
{
    let Some(sum) = kept.checked_add(len as u64) else {
        return Err(WorldFault::NoMemory);
    };
    if sum > limit {
        return Err(WorldFault::TooMuchKept(sum));
    }
    *kept = sum;
    Ok(())
}

/// Sends a packet.
#[tactic(auto, using(crate::proofs::PacketLaws::within_next, crate::proofs::PacketLaws::passes_next, crate::proofs::PacketLaws::sent_stands))]
fn post(
    packets: &mut WorldPackets,
    kept: &mut u64,
    alloc: Global,
    limit: u64,
    packet: &Packet,
) -> Result<(), WorldFault>
    ensures packets { OnOk result ((w : world.World) → PacketsStand packets.old w
        → PacketsStand packets.new (posted w packet.now)) }
    ensures within { OnOk result (with_packet limit
        (record { sum = kept.old; passed = None }) packet.now
        ≡ record { sum = kept.new; passed = None }) }
    ensures passes { (n : ℕ) → IsErrOf result (WorldFault.TooMuchKept n)
        → (with_packet limit (record { sum = kept.old; passed = None }) packet.now).passed
        ≡ Some n }
{
    let len = packets.send(alloc, packet)?;
    count(kept, limit, len)
}

/// Sends packets, in order.
#[tactic(auto, using(crate::proofs::PacketLaws::passes_all))]
pub fn post_all(
    packets: &mut WorldPackets,
    kept: &mut u64,
    alloc: Global,
    limit: u64,
    sent: &[Packet],
) -> Result<(), WorldFault>
    ensures packets { OnOk result ((w : world.World) → PacketsStand packets.old w
        → PacketsStand packets.new (fold posted w sent.now)) }
    ensures within { OnOk result (bytes_after limit kept.old sent.now
        ≡ record { sum = kept.new; passed = None }) }
    ensures passes { (n : ℕ) → IsErrOf result (WorldFault.TooMuchKept n)
        → (bytes_after limit kept.old sent.now).passed ≡ Some n }
{
    let mut left = sent;
    while let Some((p, rest)) = left.split_first() {
        if let Err(e) = post(packets, kept, alloc, limit, p) {
            return Err(e);
        }
        left = rest;
    }
    Ok(())
}
