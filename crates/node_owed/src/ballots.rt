//! Kept ballots.
ghost use Rattle.std.specs.Prelude.{◌≡◌, IfOk, OnOk};
ghost use Rattle.std.specs.List.{fold};
ghost use Rattle.node_groups.specs.Keeps.{Keeps};
ghost use Rattle.node_state.specs.Sending.{send_kept, kept_sent_again, send_votes_again};

use node_groups::{is_running, leader_of};
use node_sending::send_kept_to;
use node_state::Core;
use rsct_packet::{List, NoMemory};
use session_state::KeptBallot;
use std::alloc::Global;
use std::mem;

/// An equal kept ballot.
pub fn copy_kept(alloc: Global, kept: &KeptBallot) -> Result<KeptBallot, NoMemory>
    ensures { IfOk result (λ x. x ≡ kept.now) }
{
    Ok(KeptBallot {
        provider: kept.provider,
        group: kept.group.copy(alloc)?,
        proto: kept.proto,
        phase: kept.phase,
        ballot: kept.ballot.copy(alloc)?,
    })
}

/// Sends a kept ballot that is filled to the leader of its group, where that is known.
#[tactic(auto, unfolding(node_state::specs::Sending::send_kept))]
pub fn send_kept(core: &mut Core, alloc: Global, kept: &KeptBallot) -> Result<(), NoMemory>
    ensures rule { OnOk result (core.new ≡ send_kept core.old kept.now) }
    ensures keeps { OnOk result (Keeps core.old core.new) }
{
    let leader = leader_of(core, kept.group.bytes());
    send_kept_to(core, alloc, kept, leader)
}

/// Sends a kept ballot where its phase runs.
#[tactic(auto, unfolding(node_state::specs::Sending::kept_sent_again, node_state::specs::Sending::kept_sent_if))]
fn send_again(core: &mut Core, alloc: Global, kept: &KeptBallot) -> Result<(), NoMemory>
    ensures { OnOk result (core.new ≡ kept_sent_again core.old kept.now) }
{
    if !is_running(core, kept.group.bytes(), kept.proto, kept.phase) {
        return Ok(());
    }
    send_kept(core, alloc, kept)
}

/// Sends those of these ballots whose phases run.
#[tactic(auto, using(std::proofs::lemmas::List::Sums::fold_more))]
fn send_each_again(core: &mut Core, alloc: Global, kept: &[KeptBallot]) -> Result<(), NoMemory>
    ensures { OnOk result (core.new ≡ fold kept_sent_again core.old kept.now) }
{
    for k in kept {
        send_again(core, alloc, k)?;
    }
    Ok(())
}

/// Sends each kept ballot of a running phase again.
pub fn send_votes_again(core: &mut Core, alloc: Global) -> Result<(), NoMemory>
    ensures rule { OnOk result (core.new ≡ send_votes_again core.old) }
    ensures keeps { OnOk result (Keeps core.old core.new) }
{
    let kept = mem::replace(&mut core.sessions.kept, List::new(alloc));
    let sent = send_each_again(core, alloc, kept.as_slice());
    core.sessions.kept = kept;
    sent
}
