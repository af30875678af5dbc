//! The limits of a group's list.
ghost use Rattle.std.specs.Prelude.{◌≡◌};
ghost use Rattle.proposal_core.specs.Lists.{is_at_limit};
ghost use Rattle.node_state.specs.Deciding.{full_refusal};

use client_callbacks::Why;
use node_groups::list_of;
use node_state::Core;
use proposal_core::GroupList;

/// Nothing begins in a list of so many places.
pub const MAX_PLACES: u32 = 4096;

/// Nothing begins in a list of so many bytes.
const MAX_BYTES: u32 = 262_144;

/// Has the list so many places or bytes that nothing begins in it?
#[tactic(auto, unfolding(proposal_core::specs::Lists::is_at_limit))]
pub fn is_at_limit(list: &GroupList) -> bool
    ensures { result ≡ is_at_limit list.now }
{
    list.len() >= MAX_PLACES || list.bytes() >= MAX_BYTES
}

/// Why a request is refused whose group's list is full.
#[tactic(auto, unfolding(node_state::specs::Deciding::full_refusal, node_state::specs::State::list_of, proposal_core::specs::Lists::is_at_limit))]
pub fn full_refusal(core: &Core, group: &[u8]) -> Option<Why>
    ensures { result ≡ full_refusal core.now group.now }
{
    match list_of(core, group) {
        None => None,
        Some(list) => {
            if is_at_limit(list) {
                Some(Why::ListFull(list.len(), list.bytes()))
            } else {
                None
            }
        }
    }
}
