//! The table of packets: what a node makes of each.
ghost use Rattle.std.specs.Prelude.{◌≡◌, IfSome, OnOk, option_map};
ghost use Rattle.session_clients.specs.Clients.{KeepsScripts};
ghost use Rattle.entry_delivery.specs.Doing.{RuleDoes};
ghost use Rattle.group_leading.specs.Working.{AtWork};
ghost use Rattle.node_groups.specs.Keeps.{Keeps};
ghost use Rattle.node_state.specs.declared.packet.Body.TheVariants as body;
ghost use Rattle.node_state.specs.Bytes.{packet_of};
ghost use Rattle.node_state.specs.Sending.{send_on};
ghost use Rattle.node_state.specs.Status.{status_text};
ghost use Rattle.node_state.specs.Step.{take_body, packet_rule};
ghost use Rattle.node_state.specs.Ticks.{take_report};
ghost use Rattle.packet_codec.specs.InPlace.{packet_in};
ghost use Rattle.node_core.specs.Event.{datagram_rule};
ghost use Rattle.node_core.specs.Parts.{HasParts};

use crate::group_packets::{
    take_ack_packet, take_entry_packet, take_gone_packet, take_lookup_packet, take_name_packet,
    take_request_packet, take_tell_packet, take_vote_packet,
};
use crate::view_packets::{take_answer, take_install, take_prepare, take_refuse, take_taken};
use client_callbacks::Callbacks;
use node_rings::{take_report, take_ring_packet};
use node_sending::send_on;
use node_state::{Body, Core, ReportRow};
use node_text::status_text;
use packet_bodies::Query;
use packet_codec::{BodyRef, PacketRef};
use rsct_packet::{Listed, NoMemory};
use std::alloc::Global;

/// REPORT.
fn take_report_packet(
    core: &mut Core,
    alloc: Global,
    rows: &Listed<'_, ReportRow>,
) -> Result<(), NoMemory>
    ensures rule { OnOk result (core.new ≡ take_report core.old rows.now) }
    ensures keeps { OnOk result (Keeps core.old core.new) }
{
    let rows = rows.own(alloc)?;
    take_report(core, rows.as_slice());
    Ok(())
}

/// QUERY: a reply with the status that it asks for.
#[tactic(auto, using(crate::proofs::StepLaws::sent_on_keeps))]
fn take_query(
    core: &mut Core,
    alloc: Global,
    packet: &PacketRef<'_>,
    query: &Query,
) -> Result<(), NoMemory>
    ensures rule { OnOk result (core.new ≡ send_on core.old packet.now.network packet.now.from
        (body.Reply query.now.question (status_text core.old query.now.what))) }
    ensures keeps { OnOk result (Keeps core.old core.new) }
{
    let reply = Body::Reply {
        question: query.question,
        text: status_text(core, alloc, query.what)?,
    };
    send_on(core, packet.network, packet.from, reply)
}

/// A packet for this node.
#[tactic(auto, unfolding(node_state::specs::Step::take_body), using(crate::proofs::StepLaws::plain_does, group_leading::proofs::WorkLaws::work_kept))]
fn take_body<C: Callbacks>(
    core: &mut Core,
    clients: &mut Vec<C>,
    alloc: Global,
    packet: &PacketRef<'_>,
) -> Result<(), NoMemory>
    requires parts { HasParts (packet_in packet.now).body }
    requires work { AtWork core.old clients.old.items }
    ensures work { OnOk result (AtWork core.new clients.new.items) }
    ensures scripts { OnOk result (KeepsScripts C.script clients.old.items clients.new.items) }
    ensures does { OnOk result (RuleDoes C.script C.stands_for clients.old.items clients.new.items
        core.old core.new (λ f. take_body f core.old (packet_in packet.now)
        (packet_in packet.now).body)) }
{
    match &packet.body {
        BodyRef::Ring(ring_packet) => {
            take_ring_packet(
                core,
                alloc,
                packet.network,
                packet.from,
                packet.inc,
                *ring_packet,
            )
        }
        BodyRef::Report(rows) => take_report_packet(core, alloc, rows),
        BodyRef::Prepare(body) => take_prepare(core, clients, alloc, packet, body),
        BodyRef::Answer(body) => take_answer(core, clients, alloc, packet, body),
        BodyRef::Refuse(body) => take_refuse(core, clients, alloc, packet, body),
        BodyRef::Install(install) => take_install(core, clients, alloc, packet, install),
        BodyRef::Taken(view) => take_taken(core, clients, alloc, packet, *view),
        BodyRef::Lookup(group) => take_lookup_packet(core, alloc, packet, group),
        BodyRef::Name(body) => take_name_packet(core, clients, alloc, packet, body),
        BodyRef::Request(body) => take_request_packet(core, clients, alloc, packet, body),
        BodyRef::Tell(body) => take_tell_packet(core, clients, alloc, packet, body),
        BodyRef::Entry(body) => take_entry_packet(core, clients, alloc, packet, body),
        BodyRef::Ack(body) => take_ack_packet(core, alloc, packet, body),
        BodyRef::Vote(body) => take_vote_packet(core, clients, alloc, packet, body),
        BodyRef::Gone(body) => take_gone_packet(core, clients, alloc, packet, body),
        BodyRef::Query(query) => take_query(core, alloc, packet, query),
        BodyRef::Reply(_) => Ok(()),
    }
}

/// A packet: one for another node is dropped.
#[tactic(auto, unfolding(node_state::specs::Step::packet_rule))]
fn take_packet<C: Callbacks>(
    core: &mut Core,
    clients: &mut Vec<C>,
    alloc: Global,
    packet: &PacketRef<'_>,
) -> Result<(), NoMemory>
    requires parts { HasParts (packet_in packet.now).body }
    requires work { AtWork core.old clients.old.items }
    ensures work { OnOk result (AtWork core.new clients.new.items) }
    ensures scripts { OnOk result (KeepsScripts C.script clients.old.items clients.new.items) }
    ensures does { OnOk result (RuleDoes C.script C.stands_for clients.old.items clients.new.items
        core.old core.new (λ f. packet_rule f core.old (packet_in packet.now))) }
{
    if packet.to != core.views.me {
        return Ok(());
    }
    take_body(core, clients, alloc, packet)
}

/// The packet of a datagram, and what its parts are.
#[tactic(auto, using(crate::proofs::PartLaws::read_parts))]
fn packet_read(bytes: &[u8]) -> Option<PacketRef<'_>>
    ensures value { option_map packet_in result ≡ packet_of bytes.now }
    ensures parts { IfSome result (λ p. HasParts (packet_in p).body) }
{
    PacketRef::read(bytes)
}

/// A datagram: bytes that are no packet are dropped.
#[tactic(auto, unfolding(crate::specs::Event::datagram_rule))]
pub fn take_datagram<C: Callbacks>(
    core: &mut Core,
    clients: &mut Vec<C>,
    alloc: Global,
    bytes: &[u8],
) -> Result<(), NoMemory>
    requires work { AtWork core.old clients.old.items }
    ensures work { OnOk result (AtWork core.new clients.new.items) }
    ensures scripts { OnOk result (KeepsScripts C.script clients.old.items clients.new.items) }
    ensures does { OnOk result (RuleDoes C.script C.stands_for clients.old.items clients.new.items
        core.old core.new (λ f. datagram_rule f core.old (packet_of bytes.now))) }
{
    match packet_read(bytes) {
        None => Ok(()),
        Some(p) => take_packet(core, clients, alloc, &p),
    }
}
