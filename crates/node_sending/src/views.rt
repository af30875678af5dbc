//! What a node's views say of it.
ghost use Rattle.std.specs.Prelude.{◌≡◌, IfOk};
ghost use Rattle.view_state.specs.Views.{others_of};
ghost use Rattle.node_state.specs.State.{frozen, coordinates, others};

use node_state::Core;
use rsct_packet::{Member, NoMemory};
use std::alloc::Global;

/// Has the node promised another view than the one that it is in?
#[tactic(auto, unfolding(node_state::specs::State::frozen, view_state::specs::Views::is_frozen))]
pub fn is_frozen(core: &Core) -> bool
    ensures { result ≡ frozen core.now }
{
    core.views.promise != core.views.view
}

/// Is the node the coordinator of its view?
#[tactic(auto, unfolding(node_state::specs::State::coordinates, view_state::specs::Views::is_coordinator))]
pub fn coordinates(core: &Core) -> bool
    ensures { result ≡ coordinates core.now }
{
    core.views.view.coord == core.views.me && core.views.view.inc == core.views.inc
}

/// The members' nodes but for one.
#[tactic(auto, unfolding(view_state::specs::Views::others_of))]
fn others_of(alloc: Global, me: u8, members: &[Member]) -> Result<Vec<u8>, NoMemory>
    ensures { IfOk result (λ v. v.items ≡ others_of me members.now) }
{
    Ok(
        members
            .iter()
            .map(|m| m.node)
            .filter(|n| *n != me)
            .collect(alloc)?,
    )
}

/// The nodes of the other members, ascending.
#[tactic(auto, unfolding(node_state::specs::State::others))]
pub fn others(core: &Core, alloc: Global) -> Result<Vec<u8>, NoMemory>
    ensures { IfOk result (λ v. v.items ≡ others core.now) }
{
    others_of(alloc, core.views.me, core.views.members.as_slice())
}
