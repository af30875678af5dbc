//! What the rules of views make of a node.
ghost use Rattle.std.specs.Prelude.{◌≡◌, OnOk, IfOk};
ghost use Rattle.session_clients.specs.Clients.{KeepsScripts};
ghost use Rattle.std.specs.List.{fold};
ghost use Rattle.entry_delivery.specs.Doing.{RuleDoes};
ghost use Rattle.group_leading.specs.Working.{AtWork};
ghost use Rattle.view_core.specs.Steps.{view_stepped};
ghost use Rattle.view_state.specs.declared.packet.ViewSend.{ViewSend};
ghost use Rattle.node_state.specs.declared.packet.Body.TheVariants as body;
ghost use Rattle.node_state.specs.Sending.{sent};
ghost use Rattle.node_state.specs.Applying.{own_parts, views_taken};
ghost use Rattle.node_state.specs.Step.{take_order};
ghost use Rattle.node_state.specs.Ticks.{tick_views};
ghost use Rattle.node_views.specs.Arriving.{views_sent};

use crate::entry::apply;
use crate::own_lists::RowLists;
use client_callbacks::Callbacks;
use node_rings::ring_ask;
use node_sending::{is_fixed, send};
use node_state::{Body, Core};
use rsct_packet::{Mask, NoMemory};
use std::alloc::Global;
use view_core::{ViewEvent, ViewOut};
use view_state::{Install, ViewSend, ViewSends};

/// Sends what an event of views sends.
#[tactic(auto, using(std::proofs::lemmas::Grind::common_steps))]
fn send_each(core: &mut Core, sends: ViewSends) -> Result<(), NoMemory>
    ensures { OnOk result (core.new ≡ fold (λ t (x : ViewSend). sent t x.to (body.View x.packet))
        core.old sends) }
{
    for ViewSend { to, packet } in sends.into_items() {
        send(core, to, Body::View { packet })?;
    }
    Ok(())
}

/// Takes an event of views, and gives the install that is to be applied.
#[tactic(auto, unfolding(crate::specs::Arriving::views_sent, node_state::specs::Applying::own_parts, node_state::specs::State::held_rows))]
fn step(core: &mut Core, alloc: Global, event: ViewEvent<'_>) -> Result<Option<Install>, NoMemory>
    ensures install { IfOk result (λ o. o ≡ (view_stepped core.old.views event.entry
        (own_parts core.old)).install) }
    ensures rule { OnOk result (core.new ≡ views_sent core.old
        (view_stepped core.old.views event.entry (own_parts core.old))) }
{
    let mut out = ViewOut::new(alloc);
    let lists = RowLists {
        rows: core.groups.rows.as_slice(),
    };
    view_core::take_event(&mut core.views, alloc, event, &lists, &mut out)?;
    let ViewOut { sends, install } = out;
    send_each(core, sends)?;
    Ok(install)
}

/// What the rules of views make of an order, of a tick or of PREPARE, ANSWER, REFUSE, INSTALL or TAKEN; an install that follows is entered.
pub fn take_view<C: Callbacks>(
    core: &mut Core,
    clients: &mut Vec<C>,
    alloc: Global,
    event: ViewEvent<'_>,
) -> Result<(), NoMemory>
    requires work { AtWork core.old clients.old.items }
    ensures work { OnOk result (AtWork core.new clients.new.items) }
    ensures scripts { OnOk result (KeepsScripts C.script clients.old.items clients.new.items) }
    ensures does { OnOk result (RuleDoes C.script C.stands_for clients.old.items clients.new.items
        core.old core.new (λ f. views_taken f core.old
        (view_stepped core.old.views event.entry (own_parts core.old)))) }
{
    match step(core, alloc, event)? {
        None => Ok(()),
        Some(i) => apply(core, clients, alloc, i),
    }
}

/// An order to ask for a view of these nodes; in mode fixed it does nothing.
pub fn take_order<C: Callbacks>(
    core: &mut Core,
    clients: &mut Vec<C>,
    alloc: Global,
    mask: Mask,
) -> Result<(), NoMemory>
    requires work { AtWork core.old clients.old.items }
    ensures work { OnOk result (AtWork core.new clients.new.items) }
    ensures scripts { OnOk result (KeepsScripts C.script clients.old.items clients.new.items) }
    ensures does { OnOk result (RuleDoes C.script C.stands_for clients.old.items clients.new.items
        core.old core.new (λ f. take_order f core.old mask)) }
{
    if is_fixed(core.config.mode) {
        return Ok(());
    }
    take_view(core, clients, alloc, ViewEvent::Ask { mask })
}

/// The part of a tick on views: asking, or PREPARE again; then INSTALL again.
pub fn tick_views<C: Callbacks>(
    core: &mut Core,
    clients: &mut Vec<C>,
    alloc: Global,
) -> Result<(), NoMemory>
    requires work { AtWork core.old clients.old.items }
    ensures work { OnOk result (AtWork core.new clients.new.items) }
    ensures scripts { OnOk result (KeepsScripts C.script clients.old.items clients.new.items) }
    ensures does { OnOk result (RuleDoes C.script C.stands_for clients.old.items clients.new.items
        core.old core.new (λ f. tick_views f core.old)) }
{
    let ring_ask = ring_ask(core);
    take_view(core, clients, alloc, ViewEvent::Tick { ring_ask })?;
    take_view(core, clients, alloc, ViewEvent::Remind)
}
