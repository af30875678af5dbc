//! What a node knows of the group that is a group's source.
ghost use Rattle.std.specs.Prelude.{◌≡◌, option_copied};
ghost use Rattle.node_state.specs.Deciding.{known_state, lacks_source, source_len};

use node_groups::{len_of, list_of};
use node_state::Core;
use proposal_core::GroupState;
use rsct_packet::Name;
use source_target::allowed;

/// The state of a group, where the node holds a list of it.
#[tactic(auto, unfolding(node_state::specs::Deciding::known_state))]
pub fn known_state<'a>(core: &'a Core, group: &[u8]) -> Option<&'a GroupState>
    ensures { option_copied result ≡ known_state core.now group.now }
{
    match list_of(core, group) {
        None => None,
        Some(list) => Some(list.state()),
    }
}

/// Does no member of the source, where there is one, stand on the node?
#[tactic(auto, unfolding(node_state::specs::Deciding::lacks_source))]
pub fn lacks_source(core: &Core, source: &Option<Name>, node: u8) -> bool
    ensures { result ≡ lacks_source core.now source.now node }
{
    match source {
        None => false,
        Some(g) => !allowed(known_state(core, g.bytes()), node),
    }
}

/// How many entries the source's list has; 0 where there is no source.
#[tactic(auto, unfolding(node_state::specs::Deciding::source_len))]
pub fn source_len(core: &Core, source: &Option<Name>) -> u32
    ensures { result ≡ source_len core.now source.now }
{
    match source {
        None => 0,
        Some(g) => len_of(core, g.bytes()),
    }
}
