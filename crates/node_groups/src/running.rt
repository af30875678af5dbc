//! What runs in a group.
ghost use Rattle.std.specs.Prelude.{◌≡◌, IfNone, IfSome};
ghost use Rattle.proposal_core.specs.Fold.{empty_state, runs};
ghost use Rattle.node_state.specs.State.{state_of};

use crate::reads::list_of;
use node_state::Core;
use proposal_core::{GroupState, Running};
use rsct_packet::ProtoId;

/// The state at the end of the group's list, where the node holds one; else the state is empty.
#[tactic(auto, unfolding(node_state::specs::State::state_of, node_state::specs::State::list_of))]
pub fn held_state<'a>(core: &'a Core, group: &[u8]) -> Option<&'a GroupState>
    ensures held { IfSome result (λ st. st.now ≡ state_of core.now group.now) }
    ensures empty { IfNone result (state_of core.now group.now ≡ empty_state) }
{
    match list_of(core, group) {
        None => None,
        Some(list) => Some(list.state()),
    }
}

/// Is it this phase of this protocol that runs?
#[tactic(auto, unfolding(proposal_core::specs::Fold::runs))]
fn runs(running: &Option<Running>, proto: ProtoId, phase: u16) -> bool
    ensures { result ≡ runs proto phase running.now }
{
    match running {
        None => false,
        Some(run) => phase == run.phase && proto == run.proto,
    }
}

/// Does this phase of this protocol run in the group?
#[tactic(auto, unfolding(proposal_core::specs::Fold::runs))]
pub fn is_running(core: &Core, group: &[u8], proto: ProtoId, phase: u16) -> bool
    ensures { result ≡ runs proto phase (state_of core.now group.now).running }
{
    match held_state(core, group) {
        None => false,
        Some(state) => runs(&state.running, proto, phase),
    }
}
