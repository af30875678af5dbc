//! How a proposal begins.
ghost use Rattle.std.specs.Prelude.{◌≡◌, OnOk, IsTrue};
ghost use Rattle.session_clients.specs.Clients.{KeepsScripts};
ghost use Rattle.proposal_core.specs.declared.entry.Entry.TheVariants as entry_kinds;
ghost use Rattle.proposal_core.specs.declared.proposal.Proposal.{Proposal};
ghost use Rattle.node_state.specs.State.{fits_at_end};
ghost use Rattle.node_state.specs.Leading.{appended, append_if_fits, tally_opened, closes, begin_many, begins};
ghost use Rattle.entry_delivery.specs.Doing.{RuleDoes};
ghost use Rattle.group_leading.specs.Working.{AtWork};

use crate::entries::{append, append_if_fits};
use crate::phases::{close, open_tally};
use client_callbacks::Callbacks;
use group_attr::Phases;
use node_groups::fits_at_end;
use node_state::Core;
use proposal_core::{Entry, Proposal};
use rsct_packet::{Name, NoMemory};
use std::alloc::Global;

/// Appends the entry that opens a first phase, and opens the tally of that phase.
fn open_phase<C: Callbacks>(
    core: &mut Core,
    clients: &mut Vec<C>,
    alloc: Global,
    group: &Name,
    entry: &Entry,
) -> Result<(), NoMemory>
    requires work { AtWork core.old clients.old.items }
    requires fits { IsTrue (fits_at_end core.old group.now entry.now) }
    ensures work { OnOk result (AtWork core.new clients.new.items) }
    ensures scripts { OnOk result (KeepsScripts C.script clients.old.items clients.new.items) }
    ensures does { OnOk result (RuleDoes C.script C.stands_for clients.old.items clients.new.items
        core.old core.new (λ f. closes f (tally_opened
        (appended f core.old group.now entry.now) group.now) group.now)) }
{
    append(core, clients, alloc, group, entry)?;
    open_tally(core, alloc, group)?;
    close(core, clients, alloc, group)
}

/// Opens a first phase with the entry that begins a proposal, where the entry fits.
fn open_if_fits<C: Callbacks>(
    core: &mut Core,
    clients: &mut Vec<C>,
    alloc: Global,
    group: &Name,
    entry: &Entry,
) -> Result<(), NoMemory>
    requires work { AtWork core.old clients.old.items }
    ensures work { OnOk result (AtWork core.new clients.new.items) }
    ensures scripts { OnOk result (KeepsScripts C.script clients.old.items clients.new.items) }
    ensures does { (x : Proposal) → entry.now ≡ entry_kinds.Begin x
        → OnOk result (RuleDoes C.script C.stands_for clients.old.items clients.new.items core.old
        core.new (λ f. begin_many f core.old group.now x
        (fits_at_end core.old group.now (entry_kinds.Begin x)))) }
{
    if fits_at_end(core, alloc, group.bytes(), entry) {
        return open_phase(core, clients, alloc, group, entry);
    }
    Ok(())
}

/// Begins a proposal of several phases, where its entry fits.
fn begin_many<C: Callbacks>(
    core: &mut Core,
    clients: &mut Vec<C>,
    alloc: Global,
    group: &Name,
    proposal: &Proposal,
) -> Result<(), NoMemory>
    requires work { AtWork core.old clients.old.items }
    ensures work { OnOk result (AtWork core.new clients.new.items) }
    ensures scripts { OnOk result (KeepsScripts C.script clients.old.items clients.new.items) }
    ensures does { OnOk result (RuleDoes C.script C.stands_for clients.old.items clients.new.items
        core.old core.new (λ f. begin_many f core.old group.now proposal.now
        (fits_at_end core.old group.now (entry_kinds.Begin proposal.now)))) }
{
    let e = Entry::Begin(proposal.copy(alloc)?);
    open_if_fits(core, clients, alloc, group, &e)
}

/// Begins a proposal of one phase, where its entry fits.
fn begin_once<C: Callbacks>(
    core: &mut Core,
    clients: &mut Vec<C>,
    alloc: Global,
    group: &Name,
    proposal: &Proposal,
) -> Result<(), NoMemory>
    requires work { AtWork core.old clients.old.items }
    ensures work { OnOk result (AtWork core.new clients.new.items) }
    ensures scripts { OnOk result (KeepsScripts C.script clients.old.items clients.new.items) }
    ensures does { OnOk result (RuleDoes C.script C.stands_for clients.old.items clients.new.items
        core.old core.new (λ f. append_if_fits f core.old group.now (entry_kinds.Once proposal.now)
        (fits_at_end core.old group.now (entry_kinds.Once proposal.now)))) }
{
    let e = Entry::Once(proposal.copy(alloc)?);
    append_if_fits(core, clients, alloc, group, &e)
}

/// Begins a proposal that fits: at once, or with a tally.
#[tactic(auto, unfolding(node_state::specs::Leading::begins))]
pub fn begin<C: Callbacks>(
    core: &mut Core,
    clients: &mut Vec<C>,
    alloc: Global,
    group: &Name,
    proposal: &Proposal,
    phases: Phases,
) -> Result<(), NoMemory>
    requires work { AtWork core.old clients.old.items }
    ensures work { OnOk result (AtWork core.new clients.new.items) }
    ensures scripts { OnOk result (KeepsScripts C.script clients.old.items clients.new.items) }
    ensures does { OnOk result (RuleDoes C.script C.stands_for clients.old.items clients.new.items
        core.old core.new (λ f. begins f core.old group.now proposal.now phases)) }
{
    match phases {
        Phases::One => begin_once(core, clients, alloc, group, proposal),
        Phases::Many => begin_many(core, clients, alloc, group, proposal),
    }
}
