//! Datagrams that leave nodes, and how many bytes they have.
ghost use Rattle.std.specs.Prelude.{◌≡◌, ◌+◌, ◌<◌, ◌≤◌, ℕ, OnOk, IsErrOf, Some, None};
ghost use Rattle.relay_model.specs.Limits.{with_parcel};
ghost use Rattle.relay_model.specs.Relays.{Relayed, leaves};
ghost use Rattle.relay_packets.specs.Leaving.{leaving_in};
ghost use Rattle.relay_packets.specs.Sending.{DatagramsStand};

use crate::datagrams::WorldDatagrams;
use crate::leaving::Departure;
use play_state::WorldFault;
use std::alloc::Global;

/// Counts the bytes of a datagram, which may not pass the limit.
fn count(kept: &mut u64, limit: u64, len: usize) -> Result<(), WorldFault>
    ensures within { OnOk result ((kept.new ≡ kept.old + len) × (kept.old + len ≤ limit)) }
    ensures passes { (n : ℕ) → IsErrOf result (WorldFault.TooMuchKept n)
        → (n ≡ kept.old + len) × (limit < kept.old + len) }
{
    let Some(sum) = kept.checked_add(len as u64) else {
        return Err(WorldFault::NoMemory);
    };
    if sum > limit {
        return Err(WorldFault::TooMuchKept(sum));
    }
    *kept = sum;
    Ok(())
}

/// A datagram leaves a node, and its bytes are counted.
#[tactic(auto, using(crate::proofs::SendLaws::within_next, crate::proofs::SendLaws::passes_next, crate::proofs::SendLaws::sent_stands))]
pub fn send(
    datagrams: &mut WorldDatagrams,
    kept: &mut u64,
    alloc: Global,
    limit: u64,
    departure: Departure,
) -> Result<(), WorldFault>
    ensures datagrams { OnOk result ((r : Relayed) → DatagramsStand datagrams.old r
        → DatagramsStand datagrams.new (leaves r (leaving_in departure))) }
    ensures within { OnOk result (with_parcel limit
        (record { sum = kept.old; passed = None }) departure.parcel
        ≡ record { sum = kept.new; passed = None }) }
    ensures passes { (n : ℕ) → IsErrOf result (WorldFault.TooMuchKept n)
        → (with_parcel limit (record { sum = kept.old; passed = None }) departure.parcel).passed
        ≡ Some n }
{
    let len = datagrams.send(alloc, departure)?;
    count(kept, limit, len)
}
