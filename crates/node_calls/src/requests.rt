//! Calls that propose: the request that they make is recorded and sent.
ghost use Rattle.std.specs.Prelude.{◌≡◌, None, OnOk, Result};
ghost use Rattle.std.specs.List.{last_or};
ghost use Rattle.session_state.specs.declared.fault.GsFault.{GsFault};
ghost use Rattle.session_state.specs.declared.state.SessionState.{SessionState};
ghost use Rattle.session_state.specs.Calls.{Answers, SameSessions};
ghost use Rattle.node_state.specs.declared.happened.Happened.TheVariants as happened;
ghost use Rattle.node_state.specs.declared.state.Core.{Core};
ghost use Rattle.node_state.specs.Calls.{ask_last, proposed};
ghost use Rattle.node_state.specs.State.{recorded, with_sessions};
ghost use Rattle.node_groups.specs.Keeps.{Stays};

use crate::answers::refuse;
use node_owed::{copy_request, send_request};
use node_state::{Core, Happened};
use rsct_packet::NoMemory;
use session_state::{GsFault, Request};
use std::alloc::Global;

/// Records that a request is taken.
#[tactic(auto, unfolding(node_state::specs::State::recorded), using(crate::proofs::CallLaws::recorded_keeps))]
fn record_asked(core: &mut Core, alloc: Global, request: &Request) -> Result<(), NoMemory>
    ensures rule { OnOk result (core.new ≡ recorded core.old
        (happened.Asked request.now.provider request.now.request request.now.group
        request.now.proposal)) }
    ensures keeps { OnOk result (Stays core.old core.new) }
{
    core.records.push(Happened::Asked {
        provider: request.provider,
        request: request.request,
        group: request.group.copy(alloc)?,
        proposal: request.proposal.copy(alloc)?,
    })
}

/// Records the outstanding request that was made last, and sends it.
#[tactic(auto, unfolding(node_state::specs::Calls::ask_last), using(crate::proofs::CallLaws::last_there))]
fn ask_last(core: &mut Core, alloc: Global) -> Result<(), NoMemory>
    ensures rule { OnOk result (core.new ≡ ask_last core.old
        (last_or None core.old.sessions.requests)) }
    ensures keeps { OnOk result (Stays core.old core.new) }
{
    let q = match core.sessions.requests.as_slice().last() {
        None => return Ok(()),
        Some(q) => copy_request(alloc, q)?,
    };
    record_asked(core, alloc, &q)?;
    send_request(core, alloc, &q)
}

/// What a call leaves that proposed something, or was refused.
pub fn propose<X: Drop>(
    core: &mut Core,
    alloc: Global,
    client: &[u8],
    answer: Result<X, GsFault>,
) -> Result<(), NoMemory>
    ensures rule { (s : Core) (r : Result SessionState GsFault)
        → Answers answer s.sessions core.old.sessions r
        → core.old ≡ with_sessions s core.old.sessions
        → OnOk result (core.new ≡ proposed s client.now r) }
    ensures keeps { (s : Core) → SameSessions s.sessions core.old.sessions
        → core.old ≡ with_sessions s core.old.sessions → OnOk result (Stays s core.new) }
{
    match answer {
        Ok(_) => ask_last(core, alloc),
        Err(fault) => refuse(core, alloc, client, fault),
    }
}
