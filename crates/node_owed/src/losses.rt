//! The part of a tick on what is owed.
ghost use Rattle.std.specs.Prelude.{◌≡◌, OnOk, IfOk, filter, fold, slice_get};
ghost use Rattle.proposal_core.specs.Fold.{present};
ghost use Rattle.node_groups.specs.Keeps.{Keeps};
ghost use Rattle.node_state.specs.declared.packet.Body.TheVariants as body;
ghost use Rattle.node_state.specs.State.{held_rows, leader_of};
ghost use Rattle.node_state.specs.Sending.{send_if_known};
ghost use Rattle.node_state.specs.Ticks.{is_lost, lost_told, tick_owed};
ghost use Rattle.node_owed.specs.Losses.{told_at};

use crate::ballots::send_votes_again;
use crate::requests::send_requests;
use node_groups::leader_of;
use node_sending::{is_frozen, send_if_known};
use node_state::{Body, Core};
use proposal_core::GroupState;
use rsct_packet::{Name, NoMemory, ProviderId};
use session_delivery::is_live;
use std::alloc::Global;

/// Is the provider of the own incarnation, and no live one of it?
#[tactic(auto, unfolding(node_state::specs::Ticks::is_lost))]
fn is_lost(core: &Core, provider: ProviderId) -> bool
    ensures { result ≡ is_lost core.now provider }
{
    provider.node == core.views.me
        && provider.inc == core.views.inc
        && !is_live(&core.sessions, provider)
}

/// Those who are lost of a group in this state.
fn lost_of(core: &Core, alloc: Global, state: &GroupState) -> Result<Vec<ProviderId>, NoMemory>
    ensures { IfOk result (λ v. v.items ≡ filter (is_lost core.now) (present state.now)) }
{
    let present = state
        .members
        .as_slice()
        .iter()
        .chain(state.joiners().iter());
    Ok(
        present
            .copied()
            .filter(|p| is_lost(core, *p))
            .collect(alloc)?,
    )
}

/// The packet that says that a provider is gone.
fn gone(core: &Core, alloc: Global, group: &Name, provider: ProviderId) -> Result<Body, NoMemory>
    ensures { IfOk result (λ b. b ≡ body.Gone core.now.views.view group.now provider) }
{
    Ok(Body::Gone {
        view: core.views.view,
        name: group.copy(alloc)?,
        provider,
    })
}

/// Tells the group's leader, where that is known, that these are gone.
#[tactic(auto, using(std::proofs::lemmas::List::Sums::fold_more))]
fn tell_gone(
    core: &mut Core,
    alloc: Global,
    group: &Name,
    lost: &[ProviderId],
) -> Result<(), NoMemory>
    ensures { OnOk result (core.new ≡ fold (λ t p. send_if_known t (leader_of t group.now)
        (body.Gone t.views.view group.now p)) core.old lost.now) }
{
    for p in lost {
        let leader = leader_of(core, group.bytes());
        let body = gone(core, alloc, group, *p)?;
        send_if_known(core, leader, body)?;
    }
    Ok(())
}

/// Tells who is lost of the group of a row, where the node holds its list.
#[tactic(auto, unfolding(crate::specs::Losses::told_at, node_state::specs::Ticks::lost_told))]
fn tell_at(core: &mut Core, alloc: Global, place: usize) -> Result<(), NoMemory>
    ensures { OnOk result (core.new ≡ told_at core.old (slice_get core.old.groups place)) }
{
    let Some(row) = core.groups.rows.as_slice().get(place) else {
        return Ok(());
    };
    let Some(list) = &row.list else {
        return Ok(());
    };
    let lost = lost_of(core, alloc, list.state())?;
    let name = row.name.copy(alloc)?;
    tell_gone(core, alloc, &name, lost.as_slice())
}

/// Tells who is lost, group by group.
#[tactic(auto, unfolding(node_state::specs::State::held_rows), using(crate::proofs::LossLaws::told_more, crate::proofs::LossLaws::told_groups, std::proofs::lemmas::Grind::common_steps))]
fn tell_lost(core: &mut Core, alloc: Global) -> Result<(), NoMemory>
    ensures rule { OnOk result (core.new ≡ fold lost_told core.old (held_rows core.old)) }
    ensures keeps { OnOk result (Keeps core.old core.new) }
{
    for i in 0..core.groups.rows.len() {
        tell_at(core, alloc, i)?;
    }
    Ok(())
}

/// The part of a tick on what is owed: requests, then GONE for those who are lost, then votes are sent again.
#[tactic(auto, unfolding(node_state::specs::Ticks::tick_owed))]
pub fn tick_owed(core: &mut Core, alloc: Global) -> Result<(), NoMemory>
    ensures rule { OnOk result (core.new ≡ tick_owed core.old) }
    ensures keeps { OnOk result (Keeps core.old core.new) }
{
    if is_frozen(core) {
        return Ok(());
    }
    send_requests(core, alloc)?;
    tell_lost(core, alloc)?;
    send_votes_again(core, alloc)
}
