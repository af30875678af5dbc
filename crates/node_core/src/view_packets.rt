//! The packets of views that are to be.
ghost use Rattle.std.specs.Prelude.{OnOk};
ghost use Rattle.session_clients.specs.Clients.{KeepsScripts};
ghost use Rattle.view_exchange.specs.SourcesInPlace.{install_in};
ghost use Rattle.view_state.specs.declared.packet.ViewPacket.TheVariants as view_packet;
ghost use Rattle.entry_delivery.specs.Doing.{RuleDoes};
ghost use Rattle.group_leading.specs.Working.{AtWork};
ghost use Rattle.node_state.specs.Step.{view_rule};

use client_callbacks::Callbacks;
use node_state::Core;
use node_views::take_view;
use packet_bodies::{Prepare, Refuse};
use packet_codec::{Answered, PacketRef};
use rsct_packet::{NoMemory, ViewId};
use std::alloc::Global;
use view_core::ViewEvent;
use view_exchange::{AnswerRef, InstallRef};

/// PREPARE.
#[tactic(auto, unfolding(node_state::specs::Step::view_rule, view_core::specs::Steps::view_stepped, view_core::specs::Steps::view_rule))]
pub fn take_prepare<C: Callbacks>(
    core: &mut Core,
    clients: &mut Vec<C>,
    alloc: Global,
    packet: &PacketRef<'_>,
    prepare: &Prepare,
) -> Result<(), NoMemory>
    requires work { AtWork core.old clients.old.items }
    ensures work { OnOk result (AtWork core.new clients.new.items) }
    ensures scripts { OnOk result (KeepsScripts C.script clients.old.items clients.new.items) }
    ensures does { OnOk result (RuleDoes C.script C.stands_for clients.old.items clients.new.items
        core.old core.new (λ f. view_rule f core.old packet.now.from packet.now.inc
        (view_packet.Prepare prepare.now.view prepare.now.mask))) }
{
    let event = ViewEvent::Prepare {
        from: packet.from,
        inc: packet.inc,
        view: prepare.view,
        mask: prepare.mask,
    };
    take_view(core, clients, alloc, event)
}

/// ANSWER.
#[tactic(auto, unfolding(node_state::specs::Step::view_rule, view_core::specs::Steps::view_stepped, view_core::specs::Steps::view_rule))]
pub fn take_answer<C: Callbacks>(
    core: &mut Core,
    clients: &mut Vec<C>,
    alloc: Global,
    packet: &PacketRef<'_>,
    answered: &Answered<'_>,
) -> Result<(), NoMemory>
    requires work { AtWork core.old clients.old.items }
    ensures work { OnOk result (AtWork core.new clients.new.items) }
    ensures scripts { OnOk result (KeepsScripts C.script clients.old.items clients.new.items) }
    ensures does { OnOk result (RuleDoes C.script C.stands_for clients.old.items clients.new.items
        core.old core.new (λ f. view_rule f core.old packet.now.from packet.now.inc
        (view_packet.Answer answered.now.view answered.now.answer.view
        answered.now.answer.parts))) }
{
    let event = ViewEvent::Answer {
        from: packet.from,
        inc: packet.inc,
        view: answered.view,
        answer: AnswerRef {
            view: answered.answer.view,
            parts: answered.answer.parts(),
        },
    };
    take_view(core, clients, alloc, event)
}

/// REFUSE.
#[tactic(auto, unfolding(node_state::specs::Step::view_rule, view_core::specs::Steps::view_stepped, view_core::specs::Steps::view_rule))]
pub fn take_refuse<C: Callbacks>(
    core: &mut Core,
    clients: &mut Vec<C>,
    alloc: Global,
    packet: &PacketRef<'_>,
    refuse: &Refuse,
) -> Result<(), NoMemory>
    requires work { AtWork core.old clients.old.items }
    ensures work { OnOk result (AtWork core.new clients.new.items) }
    ensures scripts { OnOk result (KeepsScripts C.script clients.old.items clients.new.items) }
    ensures does { OnOk result (RuleDoes C.script C.stands_for clients.old.items clients.new.items
        core.old core.new (λ f. view_rule f core.old packet.now.from packet.now.inc
        (view_packet.Refuse refuse.now.view refuse.now.number))) }
{
    let event = ViewEvent::Refuse {
        view: refuse.view,
        number: refuse.number,
    };
    take_view(core, clients, alloc, event)
}

/// INSTALL.
#[tactic(auto, unfolding(node_state::specs::Step::view_rule, view_core::specs::Steps::view_stepped, view_core::specs::Steps::view_rule))]
pub fn take_install<C: Callbacks>(
    core: &mut Core,
    clients: &mut Vec<C>,
    alloc: Global,
    packet: &PacketRef<'_>,
    install: &InstallRef<'_>,
) -> Result<(), NoMemory>
    requires work { AtWork core.old clients.old.items }
    ensures work { OnOk result (AtWork core.new clients.new.items) }
    ensures scripts { OnOk result (KeepsScripts C.script clients.old.items clients.new.items) }
    ensures does { OnOk result (RuleDoes C.script C.stands_for clients.old.items clients.new.items
        core.old core.new (λ f. view_rule f core.old packet.now.from packet.now.inc
        (view_packet.Install (install_in install.now)))) }
{
    let install = install.own(alloc)?;
    take_view(core, clients, alloc, ViewEvent::Install { install })
}

/// TAKEN.
#[tactic(auto, unfolding(node_state::specs::Step::view_rule, view_core::specs::Steps::view_stepped, view_core::specs::Steps::view_rule))]
pub fn take_taken<C: Callbacks>(
    core: &mut Core,
    clients: &mut Vec<C>,
    alloc: Global,
    packet: &PacketRef<'_>,
    view: ViewId,
) -> Result<(), NoMemory>
    requires work { AtWork core.old clients.old.items }
    ensures work { OnOk result (AtWork core.new clients.new.items) }
    ensures scripts { OnOk result (KeepsScripts C.script clients.old.items clients.new.items) }
    ensures does { OnOk result (RuleDoes C.script C.stands_for clients.old.items clients.new.items
        core.old core.new (λ f. view_rule f core.old packet.now.from packet.now.inc
        (view_packet.Taken view))) }
{
    take_view(
        core,
        clients,
        alloc,
        ViewEvent::Taken {
            from: packet.from,
            view,
        },
    )
}
