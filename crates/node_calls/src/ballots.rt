//! Calls that vote: the ballot that they fill is recorded and sent.
ghost use Rattle.std.specs.Prelude.{◌≡◌, None, OnOk, Result};
ghost use Rattle.std.specs.List.{last_or};
ghost use Rattle.session_state.specs.declared.fault.GsFault.{GsFault};
ghost use Rattle.session_state.specs.declared.state.SessionState.{SessionState};
ghost use Rattle.session_state.specs.Calls.{Answers, SameSessions};
ghost use Rattle.node_state.specs.declared.state.Core.{Core};
ghost use Rattle.node_state.specs.Calls.{record_ballot, give_ballot, cast_last};
ghost use Rattle.node_state.specs.State.{with_sessions};
ghost use Rattle.node_groups.specs.Keeps.{Stays};

use crate::answers::refuse;
use node_owed::{copy_kept, send_kept};
use node_sending::is_frozen;
use node_state::{Core, Happened};
use rsct_packet::NoMemory;
use session_state::{GsFault, KeptBallot};
use std::alloc::Global;

/// Records a kept ballot, where it is filled.
#[tactic(auto, unfolding(node_state::specs::Calls::record_ballot, node_state::specs::State::recorded), using(crate::proofs::CallLaws::ballot_recorded_keeps))]
fn record_ballot(core: &mut Core, alloc: Global, kept: &KeptBallot) -> Result<(), NoMemory>
    ensures rule { OnOk result
        (core.new ≡ record_ballot core.old kept.now kept.now.ballot.filled) }
    ensures keeps { OnOk result (Stays core.old core.new) }
{
    match kept.ballot.filled() {
        None => Ok(()),
        Some(filled) => {
            let filled = filled.copy(alloc)?;
            core.records.push(Happened::Cast {
                provider: kept.provider,
                proto: kept.proto,
                phase: kept.phase,
                vote: filled.vote,
                value: filled.value,
                message: filled.message,
            })
        }
    }
}

/// Records the ballot that was kept last, and sends it where the node is not frozen.
#[tactic(auto, unfolding(node_state::specs::Calls::cast_last, node_state::specs::Calls::ballot_sent_if), using(crate::proofs::CallLaws::last_there))]
fn cast_last(core: &mut Core, alloc: Global) -> Result<(), NoMemory>
    ensures rule { OnOk result (core.new ≡ cast_last core.old
        (last_or None core.old.sessions.kept)) }
    ensures keeps { OnOk result (Stays core.old core.new) }
{
    let frozen = is_frozen(core);
    let k = match core.sessions.kept.as_slice().last() {
        None => return Ok(()),
        Some(k) => copy_kept(alloc, k)?,
    };
    record_ballot(core, alloc, &k)?;
    if frozen {
        return Ok(());
    }
    send_kept(core, alloc, &k)
}

/// What a call leaves that voted, or was refused.
pub fn give_ballot(
    core: &mut Core,
    alloc: Global,
    client: &[u8],
    answer: Result<(), GsFault>,
) -> Result<(), NoMemory>
    ensures rule { (s : Core) (r : Result SessionState GsFault)
        → Answers answer s.sessions core.old.sessions r
        → core.old ≡ with_sessions s core.old.sessions
        → OnOk result (core.new ≡ give_ballot s client.now r) }
    ensures keeps { (s : Core) → SameSessions s.sessions core.old.sessions
        → core.old ≡ with_sessions s core.old.sessions → OnOk result (Stays s core.new) }
{
    match answer {
        Ok(()) => cast_last(core, alloc),
        Err(fault) => refuse(core, alloc, client, fault),
    }
}
