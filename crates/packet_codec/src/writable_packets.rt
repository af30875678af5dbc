//! Packets that have a spelling.
ghost use Rattle.std.specs.Prelude.{◌≡◌, ◌==◌, IsTrue};
ghost use Rattle.rsct_packet.specs.Fields.{AreShort, IsProto, IsProvider, IsU16};
ghost use Rattle.rsct_packet.specs.Format.{EachFits, OptionFits};
ghost use Rattle.rsct_packet.specs.Packet.{is_level, DomainFits};
ghost use Rattle.packet_bodies.specs.Group.{IsGroup};
ghost use Rattle.packet_bodies.specs.Body.{are_report_rows, IsReportRow, IsReport};
ghost use Rattle.node_state.specs.Bodies.{has_phases};
ghost use Rattle.packet_codec.specs.Spelled.{IsRingBody, IsViewBody, IsWhy, IsBody, IsWritable};

use crate::writable_entries::{is_entry, is_proposal};
use crate::writable_ids::{
    is_mask, is_number, is_optional_text, is_place, is_proto, is_provider, is_request, is_ring,
    is_view,
};
use crate::writable_lists::{are_parts, is_install};
use crate::writing::head_of;
use adapter_ring::RingPacket;
use client_callbacks::Why;
use group_attr::Phases;
use node_state::{Body, Packet, ReportRow};
use proposal_core::Proposal;
use rsct_packet::{
    MAX_NODES, Name, ProtoId, ProviderId, Text, ViewId, is_group_kind, is_head, is_node_number,
};
use view_state::ViewPacket;

fn is_ring_body(packet: RingPacket) -> bool
    ensures { IsTrue result → IsRingBody packet }
{
    match packet {
        RingPacket::Heartbeat { ring } => is_ring(ring),
        RingPacket::Proclaim { ring } => is_ring(ring),
        RingPacket::Join { mask } => is_mask(mask),
        RingPacket::Ptc { ring, mask } => is_ring(ring) && is_mask(mask),
        RingPacket::PtcAck { ring } => is_ring(ring),
        RingPacket::Commit { ring, mask } => is_ring(ring) && is_mask(mask),
        RingPacket::Death { ring, node } => is_ring(ring) && is_node_number(node),
    }
}

fn is_view_body(packet: &ViewPacket) -> bool
    ensures { IsTrue result → IsViewBody packet.now }
{
    match packet {
        ViewPacket::Prepare { view, mask } => is_view(*view) && is_mask(*mask),
        ViewPacket::Answer { view, old, parts } => {
            is_view(*view) && is_view(*old) && are_parts(parts.as_slice())
        }
        ViewPacket::Refuse { view, number } => is_place(*view, *number),
        ViewPacket::Install { install } => is_install(install),
        ViewPacket::Taken { view } => is_view(*view),
    }
}

/// Is it a refusal that is told from node to node?
fn is_why(why: Why) -> bool
    ensures { IsTrue result → IsWhy why }
{
    match why {
        Why::Collide(proto) => is_proto(proto),
        Why::NoSource(len) => is_number(len),
        Why::ListFull(places, bytes) => is_number(places) && is_number(bytes),
        Why::GroupFull(n) => is_number(n),
        Why::GroupsFull(_) => false,
        Why::Dissolved => false,
        _ => true,
    }
}

/// A join's phases are 1, since its attributes say how it is decided.
#[tactic(auto, unfolding(node_state::specs::Bodies::has_phases))]
fn has_phases(phases: Phases, proposal: &Proposal) -> bool
    ensures { result ≡ has_phases phases proposal.now }
{
    match phases {
        Phases::One => true,
        Phases::Many => !matches!(proposal, Proposal::Join { .. }),
    }
}

fn are_report_rows(rows: &[ReportRow]) -> bool
    ensures { result ≡ are_report_rows rows.now }
{
    let mut left = rows;
    let mut last: u8 = 0;
    while let Some((row, rest)) = left.split_first() {
        if row.node <= last {
            return false;
        }
        last = row.node;
        left = rest;
    }
    true
}

fn is_report_row(row: ReportRow) -> bool
    ensures { IsTrue result → IsReportRow row }
{
    is_node_number(row.node)
}

fn is_each_row(rows: &[ReportRow]) -> bool
    ensures { IsTrue result → EachFits IsReportRow rows.now }
{
    rows.iter().all(|row| is_report_row(*row))
}

fn is_report(rows: &[ReportRow]) -> bool
    ensures { IsTrue result → IsReport rows.now }
{
    rows.len() <= 255 && is_each_row(rows) && are_report_rows(rows)
}

/// Has a group of a view a spelling?
fn is_group(view: ViewId, name: &Name) -> bool
    ensures { IsTrue result → IsGroup (record { view = view; name = name.now }) }
{
    is_view(view) && !name.bytes().is_empty()
}

/// Has a ballot a spelling?
fn is_ballot(
    proto: ProtoId,
    phase: u16,
    provider: ProviderId,
    value: &Option<Text>,
    message: &Option<Text>,
) -> bool
    ensures proto { IsTrue result → IsProto proto }
    ensures phase { IsTrue result → IsU16 phase }
    ensures p { IsTrue result → IsProvider provider }
    ensures value { IsTrue result → OptionFits AreShort value.now }
    ensures message { IsTrue result → OptionFits AreShort message.now }
{
    is_proto(proto)
        && phase <= u16::MAX
        && is_provider(provider)
        && is_optional_text(value)
        && is_optional_text(message)
}

/// Has the body a spelling?
fn is_body(body: &Body) -> bool
    ensures { IsTrue result → IsBody body.now }
{
    match body {
        Body::Ring { packet } => is_ring_body(*packet),
        Body::Report { rows } => is_report(rows.as_slice()),
        Body::View { packet } => is_view_body(packet),
        Body::Lookup { view, name } => is_group(*view, name),
        Body::Name { view, name, leader } => is_group(*view, name) && *leader <= MAX_NODES,
        Body::Request {
            view,
            name,
            provider,
            request,
            phases,
            proposal,
        } => {
            is_group(*view, name)
                && is_request(*provider, *request)
                && is_proposal(proposal)
                && has_phases(*phases, proposal)
        }
        Body::Tell {
            view,
            name,
            provider,
            request,
            why,
        } => is_group(*view, name) && is_request(*provider, *request) && is_why(*why),
        Body::Entry {
            view,
            name,
            place,
            stable,
            entry,
        } => { is_group(*view, name) && is_number(*place) && is_number(*stable) && is_entry(entry) }
        Body::Ack { view, name, len } => is_group(*view, name) && is_number(*len),
        Body::Vote {
            view,
            name,
            proto,
            phase,
            provider,
            value,
            message,
            ..
        } => is_group(*view, name) && is_ballot(*proto, *phase, *provider, value, message),
        Body::Gone {
            view,
            name,
            provider,
        } => is_group(*view, name) && is_provider(*provider),
        Body::Query { question, .. } => is_number(*question),
        Body::Reply { question, .. } => is_number(*question),
    }
}

/// Does the level fit the kind, and the domain the level?
fn is_level(level: u8, kind: u8, domain: u32) -> bool
    ensures level { IsTrue result → IsTrue (is_level level kind) }
    ensures domain { IsTrue result → DomainFits (level == 1) domain }
{
    if level == 1 {
        domain == 0
    } else {
        level == 2 && is_group_kind(kind) && domain >= 1
    }
}

/// Has the packet a spelling, but for the length of its body?
pub fn is_writable(packet: &Packet) -> bool
    ensures { IsTrue result → IsWritable packet.now }
{
    let head = head_of(packet);
    is_head(head) && is_level(packet.level, head.kind, packet.domain) && is_body(&packet.body)
}
