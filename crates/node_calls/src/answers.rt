//! What a call leaves that changes nothing but the sessions, or that is refused.
ghost use Rattle.std.specs.Prelude.{◌≡◌, OnOk, Result};
ghost use Rattle.session_state.specs.declared.state.SessionState.{SessionState};
ghost use Rattle.session_state.specs.Calls.{Answers, SameSessions};
ghost use Rattle.node_state.specs.declared.state.Core.{Core};
ghost use Rattle.node_state.specs.Calls.{refuse_call, changed};
ghost use Rattle.node_state.specs.State.{with_sessions};
ghost use Rattle.node_groups.specs.Keeps.{Stays};

use node_state::{Core, Happened};
use rsct_packet::{List, NoMemory};
use session_state::GsFault;
use std::alloc::Global;

/// Records that a call is refused. Want of memory is no refusal, and is handed on.
#[tactic(auto, unfolding(node_state::specs::Calls::refuse_call, node_state::specs::State::recorded), using(crate::proofs::CallLaws::refused_keeps))]
pub fn refuse(core: &mut Core, alloc: Global, client: &[u8], fault: GsFault) -> Result<(), NoMemory>
    ensures rule { OnOk result (core.new ≡ refuse_call core.old client.now fault) }
    ensures refusal { OnOk result (¬ (fault ≡ GsFault.NoMemory)) }
    ensures keeps { OnOk result (Stays core.old core.new) }
{
    if let GsFault::NoMemory = fault {
        return Err(NoMemory);
    }
    let client = List::of(alloc, client)?;
    core.records.push(Happened::Refused {
        node: core.views.me,
        client,
        fault,
    })
}

/// What a call leaves that changed nothing but the sessions, or was refused.
pub fn change<X: Drop>(
    core: &mut Core,
    alloc: Global,
    client: &[u8],
    answer: Result<X, GsFault>,
) -> Result<(), NoMemory>
    ensures rule { (s : Core) (r : Result SessionState GsFault)
        → Answers answer s.sessions core.old.sessions r
        → core.old ≡ with_sessions s core.old.sessions
        → OnOk result (core.new ≡ changed s client.now r) }
    ensures keeps { (s : Core) → SameSessions s.sessions core.old.sessions
        → core.old ≡ with_sessions s core.old.sessions → OnOk result (Stays s core.new) }
{
    match answer {
        Ok(_) => Ok(()),
        Err(fault) => refuse(core, alloc, client, fault),
    }
}
