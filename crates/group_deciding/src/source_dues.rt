//! What a group owes to its source begins.
ghost use Rattle.std.specs.Prelude.{◌≡◌, IfOk, OnOk};
ghost use Rattle.session_clients.specs.Clients.{KeepsScripts};
ghost use Rattle.batch_rules.specs.Waiting.{batches_failures, chosen_of};
ghost use Rattle.group_leading.specs.Working.{AtWork};
ghost use Rattle.source_target.specs.Due as target;
ghost use Rattle.node_state.specs.State.{state_of};
ghost use Rattle.node_state.specs.Deciding.{known_state};
ghost use Rattle.node_state.specs.Ending.{due_begins, source_begins};
ghost use Rattle.group_deciding.specs.Passing.{PassDoes};

use crate::sources::known_state;
use client_callbacks::Callbacks;
use group_attr::Batch;
use group_leading::begin;
use node_groups::state_of;
use node_state::Core;
use proposal_core::{Fallen, GroupState, Proposal};
use rsct_packet::{List, Name, NoMemory, Text};
use source_target::{Due, due};
use std::alloc::Global;

/// All of them where failures are batched, else the first one.
fn chosen_of(alloc: Global, batch: Batch, out: Fallen) -> Result<Fallen, NoMemory>
    ensures { IfOk result (λ chosen. chosen ≡ chosen_of (batches_failures batch) out) }
{
    if matches!(batch, Batch::Failures | Batch::Both) {
        return Ok(out);
    }
    match out.as_slice() {
        [] => Ok(List::new(alloc)),
        [first, ..] => List::of(alloc, &[*first]),
    }
}

/// The value of a group.
fn value_of(core: &Core, alloc: Global, group: &[u8]) -> Result<Text, NoMemory>
    ensures { IfOk result (λ value. value ≡ (state_of core.now group.now).value) }
{
    let state = state_of(core, alloc, group)?;
    state.value.copy(alloc)
}

/// What a group in this state owes to its source `source` begins: a cast-out, of one provider where failures are not
/// batched, or a reflection. Has something begun?
#[tactic(auto, unfolding(node_state::specs::Ending::due_begins))]
fn begin_owed<C: Callbacks>(
    core: &mut Core,
    clients: &mut Vec<C>,
    alloc: Global,
    group: &Name,
    state: &GroupState,
    source: &Name,
) -> Result<bool, NoMemory>
    requires work { AtWork core.old clients.old.items }
    ensures work { OnOk result (AtWork core.new clients.new.items) }
    ensures scripts { OnOk result (KeepsScripts C.script clients.old.items clients.new.items) }
    ensures does { IfOk result (λ began. PassDoes C.script C.stands_for clients.old.items
        clients.new.items core.old core.new began (λ f. due_begins f core.old group.now state.now
        source.now (target.due state.now (known_state core.old source.now)))) }
{
    match due(alloc, state, known_state(core, source.bytes()))? {
        None => Ok(false),
        Some(Due::CastOut(out)) => {
            let out = chosen_of(alloc, state.attrs.batch, out)?;
            begin(
                core,
                clients,
                alloc,
                group,
                &Proposal::Fail { out },
                state.attrs.phases,
            )?;
            Ok(true)
        }
        Some(Due::Reflect(view, place)) => {
            let value = value_of(core, alloc, source.bytes())?;
            let reflection = Proposal::Reflect { view, place, value };
            begin(
                core,
                clients,
                alloc,
                group,
                &reflection,
                state.attrs.source_phases,
            )?;
            Ok(true)
        }
    }
}

/// What a group owes to its source, where it has one, begins. Has something begun?
#[tactic(auto, unfolding(node_state::specs::Ending::source_begins))]
pub fn begin_due<C: Callbacks>(
    core: &mut Core,
    clients: &mut Vec<C>,
    alloc: Global,
    group: &Name,
) -> Result<bool, NoMemory>
    requires work { AtWork core.old clients.old.items }
    ensures work { OnOk result (AtWork core.new clients.new.items) }
    ensures scripts { OnOk result (KeepsScripts C.script clients.old.items clients.new.items) }
    ensures does { IfOk result (λ began. PassDoes C.script C.stands_for clients.old.items
        clients.new.items core.old core.new began (λ f. source_begins f core.old group.now
        (state_of core.old group.now) (state_of core.old group.now).attrs.source)) }
{
    let state = state_of(core, alloc, group.bytes())?;
    match &state.attrs.source {
        None => Ok(false),
        Some(h) => begin_owed(core, clients, alloc, group, &state, h),
    }
}
