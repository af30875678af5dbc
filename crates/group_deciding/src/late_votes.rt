//! At level 2 an entry announces who passes the time limit in a tick.
ghost use Rattle.std.specs.Prelude.{◌≡◌, IfOk, OnOk};
ghost use Rattle.session_clients.specs.Clients.{KeepsScripts};
ghost use Rattle.entry_delivery.specs.Doing.{RuleDoes};
ghost use Rattle.group_leading.specs.Working.{AtWork};
ghost use Rattle.node_state.specs.State.{led_of};
ghost use Rattle.group_deciding.specs.LateVotes.{late_in, late_entry, appended_late};

use client_callbacks::Callbacks;
use group_leading::append_if_fits;
use node_groups::{list_of, tally_of};
use node_state::Core;
use proposal_core::{Entry, Running};
use rsct_packet::{Name, NoMemory};
use std::alloc::Global;
use vote_phases::Tally;

/// The entry that announces the voters of what runs who have not voted, if any pass the limit.
#[tactic(auto, unfolding(crate::specs::LateVotes::late_in))]
fn late_in(
    alloc: Global,
    tally: &Tally,
    passes: bool,
    running: &Option<Running>,
) -> Result<Option<Entry>, NoMemory>
    ensures { IfOk result (λ e. e ≡ late_in tally.now passes running.now) }
{
    let Some(run) = running else {
        return Ok(None);
    };
    if !passes {
        return Ok(None);
    }
    Ok(Some(Entry::Late {
        proto: run.proto,
        phase: run.phase,
        ps: tally.open_voters(alloc)?,
    }))
}

/// The entry that announces who passes the limit in this tick, if any do.
#[tactic(auto, unfolding(crate::specs::LateVotes::late_entry, node_state::specs::State::state_of, node_state::specs::State::list_of), using(crate::proofs::TickLaws::late_missing, std::proofs::lemmas::Grind::common_steps))]
fn late_entry(core: &Core, alloc: Global, group: &Name) -> Result<Option<Entry>, NoMemory>
    ensures { IfOk result
        (λ e. e ≡ late_entry core.now group.now (led_of core.now group.now).tally) }
{
    let Some(tally) = tally_of(core, group.bytes()) else {
        return Ok(None);
    };
    let Some(list) = list_of(core, group.bytes()) else {
        return Ok(None);
    };
    let passes = core.sessions.level == 2 && tally.expires();
    late_in(alloc, tally, passes, &list.state().running)
}

/// Appends the entry that announces who passes the limit in this tick, if any do.
pub fn announce<C: Callbacks>(
    core: &mut Core,
    clients: &mut Vec<C>,
    alloc: Global,
    group: &Name,
) -> Result<(), NoMemory>
    requires work { AtWork core.old clients.old.items }
    ensures work { OnOk result (AtWork core.new clients.new.items) }
    ensures scripts { OnOk result (KeepsScripts C.script clients.old.items clients.new.items) }
    ensures does { OnOk result (RuleDoes C.script C.stands_for clients.old.items clients.new.items
        core.old core.new (λ f. appended_late f core.old group.now
        (late_entry core.old group.now (led_of core.old group.now).tally))) }
{
    match late_entry(core, alloc, group)? {
        None => Ok(()),
        Some(e) => append_if_fits(core, clients, alloc, group, &e),
    }
}
