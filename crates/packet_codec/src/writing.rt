//! Writing packets: each is taken to the end of `out` by its one spelling.
ghost use Rattle.std.specs.Prelude.{◌≡◌, ◌++◌, OnOk, OnErr, IfOk};
ghost use Rattle.rsct_packet.specs.Fields.{u8_text, u16_text, u32_text, provider_text, proto_text, bytes_text, AreShort, IsNode};
ghost use Rattle.group_attr.specs.Codec.{phases_number};
ghost use Rattle.proposal_core.specs.ProposalCodec.{proposal_text, IsProposal};
ghost use Rattle.proposal_core.specs.EntryCodec.{entry_text, IsEntry};
ghost use Rattle.rsct_packet.specs.Format.{OptionFits, optional_text};
ghost use Rattle.node_state.specs.Bodies.{why_code, why_data_text, vote_number, kind_of, ring_kind, view_kind, ring_body_text, view_body_text, named_text, body_text};
ghost use Rattle.node_state.specs.Bytes.{head_of, bytes_of};
ghost use Rattle.packet_codec.specs.Spelled.{IsRingBody, IsViewBody, IsWhy, IsBody, IsWritable, IsSpelled};

use adapter_ring::RingPacket;
use client_callbacks::Why;
use group_attr::Phases;
use group_codec::{phases_number, put_entry, put_proposal};
use node_state::{Body, Packet};
use packet_bodies::{
    Ack, Death, Gone, GroupRef, Leader, Prepare, Query, Refuse, RingMask, put_ack, put_death,
    put_gone, put_group, put_leader, put_prepare, put_query, put_refuse, put_reply, put_report,
    put_ring_mask,
};
use proposal_core::{Entry, Proposal, Vote, optional_bytes};
use rsct_packet::{
    Head, Name, NoMemory, ProtoId, ProviderId, Text, ViewId, put_mask, put_optional_bytes,
    put_proto, put_provider, put_ring, put_u8, put_u16, put_u32, put_view, write_head, write_head2,
};
use std::alloc::Global;
use view_exchange::{put_answer, put_install};
use view_state::ViewPacket;

#[tactic(auto, unfolding(packet_bodies::specs::Body::ring_mask_text, packet_bodies::specs::Body::death_text))]
fn put_ring_packet(out: &mut Vec<u8>, packet: RingPacket) -> Result<(), NoMemory>
    requires { IsRingBody packet }
    ensures { OnOk result (out.new.items ≡ out.old.items ++ ring_body_text packet) }
{
    match packet {
        RingPacket::Heartbeat { ring } => put_ring(out, ring),
        RingPacket::Proclaim { ring } => put_ring(out, ring),
        RingPacket::Join { mask } => put_mask(out, mask),
        RingPacket::Ptc { ring, mask } => put_ring_mask(out, RingMask { ring, mask }),
        RingPacket::PtcAck { ring } => put_ring(out, ring),
        RingPacket::Commit { ring, mask } => put_ring_mask(out, RingMask { ring, mask }),
        RingPacket::Death { ring, node } => put_death(out, Death { ring, node }),
    }
}

#[tactic(auto, unfolding(packet_bodies::specs::Body::prepare_text, packet_bodies::specs::Body::refuse_text))]
fn put_view_packet(alloc: Global, out: &mut Vec<u8>, packet: &ViewPacket) -> Result<(), NoMemory>
    requires { IsViewBody packet.now }
    ensures { OnOk result (out.new.items ≡ out.old.items ++ view_body_text packet.now) }
{
    match packet {
        ViewPacket::Prepare { view, mask } => put_prepare(
            out,
            Prepare {
                view: *view,
                mask: *mask,
            },
        ),
        ViewPacket::Answer { view, old, parts } => {
            put_view(out, *view)?;
            put_answer(alloc, out, *old, parts.as_slice())
        }
        ViewPacket::Refuse { view, number } => put_refuse(
            out,
            Refuse {
                view: *view,
                number: *number,
            },
        ),
        ViewPacket::Install { install } => put_install(alloc, out, install),
        ViewPacket::Taken { view } => put_view(out, *view),
    }
}

fn vote_number(vote: Vote) -> u8
    ensures { result ≡ vote_number vote }
{
    match vote {
        Vote::Approve => 1,
        Vote::Continue => 2,
        Vote::Reject => 3,
    }
}

fn why_code(why: &Why) -> u8
    ensures { result ≡ why_code why.now }
{
    match why {
        Why::NotAMember => 7,
        Why::BadAttributes => 9,
        Why::DuplicateInstance => 10,
        Why::Collide(_) => 12,
        Why::NoSource(_) => 13,
        Why::ListFull(_, _) => 15,
        Why::GroupFull(_) => 16,
        Why::GroupsFull(_) => 17,
        Why::Dissolved => 19,
    }
}

fn put_why_data(out: &mut Vec<u8>, why: &Why) -> Result<(), NoMemory>
    requires { IsWhy why.now }
    ensures { OnOk result (out.new.items ≡ out.old.items ++ why_data_text why.now) }
{
    match why {
        Why::Collide(proto) => put_proto(out, *proto),
        Why::NoSource(len) => put_u32(out, *len),
        Why::ListFull(places, bytes) => {
            put_u32(out, *places)?;
            put_u32(out, *bytes)
        }
        Why::GroupFull(n) => put_u32(out, *n),
        _ => Ok(()),
    }
}

/// A vote with its value and its message.
fn put_filled(
    out: &mut Vec<u8>,
    vote: Vote,
    value: &Option<Text>,
    message: &Option<Text>,
) -> Result<(), NoMemory>
    requires value { OptionFits AreShort value.now }
    requires message { OptionFits AreShort message.now }
    ensures { OnOk result (out.new.items ≡ out.old.items
        ++ (u8_text (vote_number vote) ++ (optional_text bytes_text value.now
        ++ optional_text bytes_text message.now))) }
{
    put_u8(out, vote_number(vote))?;
    put_optional_bytes(out, optional_bytes(value))?;
    put_optional_bytes(out, optional_bytes(message))
}

/// The group of this name in a view.
fn put_named(out: &mut Vec<u8>, view: ViewId, name: &Name) -> Result<(), NoMemory>
    requires { IsNode view.coord }
    ensures { OnOk result (out.new.items ≡ out.old.items ++ named_text view name.now) }
{
    put_group(out, &GroupRef::new(view, name.bytes()))
}

/// What a request has behind its group.
fn put_asked(
    alloc: Global,
    out: &mut Vec<u8>,
    provider: ProviderId,
    request: u32,
    phases: Phases,
    proposal: &Proposal,
) -> Result<(), NoMemory>
    requires node { IsNode provider.node }
    requires proposal { IsProposal proposal.now }
    ensures { OnOk result (out.new.items ≡ out.old.items
        ++ (provider_text provider ++ (u32_text request
        ++ (u8_text (phases_number phases) ++ proposal_text proposal.now)))) }
{
    put_provider(out, provider)?;
    put_u32(out, request)?;
    put_u8(out, phases_number(phases))?;
    put_proposal(alloc, out, proposal)
}

/// What a refusal has behind its group.
fn put_told(
    out: &mut Vec<u8>,
    provider: ProviderId,
    request: u32,
    why: &Why,
) -> Result<(), NoMemory>
    requires node { IsNode provider.node }
    requires why { IsWhy why.now }
    ensures { OnOk result (out.new.items ≡ out.old.items
        ++ (provider_text provider ++ (u32_text request
        ++ (u8_text (why_code why.now) ++ why_data_text why.now)))) }
{
    put_provider(out, provider)?;
    put_u32(out, request)?;
    put_u8(out, why_code(why))?;
    put_why_data(out, why)
}

/// An entry behind its place and the stable length.
fn put_placed(
    alloc: Global,
    out: &mut Vec<u8>,
    place: u32,
    stable: u32,
    entry: &Entry,
) -> Result<(), NoMemory>
    requires { IsEntry entry.now }
    ensures { OnOk result (out.new.items ≡ out.old.items
        ++ (u32_text place ++ (u32_text stable ++ entry_text entry.now))) }
{
    put_u32(out, place)?;
    put_u32(out, stable)?;
    put_entry(alloc, out, entry)
}

/// The phase of a protocol that a voter votes in.
fn put_voter(
    out: &mut Vec<u8>,
    proto: ProtoId,
    phase: u16,
    provider: ProviderId,
) -> Result<(), NoMemory>
    requires coord { IsNode proto.view.coord }
    requires node { IsNode provider.node }
    ensures { OnOk result (out.new.items ≡ out.old.items
        ++ (proto_text proto ++ (u16_text phase ++ provider_text provider))) }
{
    put_proto(out, proto)?;
    put_u16(out, phase)?;
    put_provider(out, provider)
}

/// The body of a packet.
#[tactic(auto, unfolding(node_state::specs::Bodies::body_text, packet_bodies::specs::Body::leader_text, packet_bodies::specs::Body::ack_text, packet_bodies::specs::Body::gone_text, packet_bodies::specs::Body::query_text, packet_bodies::specs::Group::reply_text))]
fn put_body(alloc: Global, out: &mut Vec<u8>, body: &Body) -> Result<(), NoMemory>
    requires { IsBody body.now }
    ensures { OnOk result (out.new.items ≡ out.old.items ++ body_text body.now) }
{
    match body {
        Body::Ring { packet } => put_ring_packet(out, *packet),
        Body::Report { rows } => put_report(out, rows.as_slice()),
        Body::View { packet } => put_view_packet(alloc, out, packet),
        Body::Lookup { view, name } => put_named(out, *view, name),
        Body::Name { view, name, leader } => put_leader(
            out,
            &Leader {
                group: GroupRef::new(*view, name.bytes()),
                leader: *leader,
            },
        ),
        Body::Request {
            view,
            name,
            provider,
            request,
            phases,
            proposal,
        } => {
            put_named(out, *view, name)?;
            put_asked(alloc, out, *provider, *request, *phases, proposal)
        }
        Body::Tell {
            view,
            name,
            provider,
            request,
            why,
        } => {
            put_named(out, *view, name)?;
            put_told(out, *provider, *request, why)
        }
        Body::Entry {
            view,
            name,
            place,
            stable,
            entry,
        } => {
            put_named(out, *view, name)?;
            put_placed(alloc, out, *place, *stable, entry)
        }
        Body::Ack { view, name, len } => put_ack(
            out,
            &Ack {
                group: GroupRef::new(*view, name.bytes()),
                len: *len,
            },
        ),
        Body::Vote {
            view,
            name,
            proto,
            phase,
            provider,
            vote,
            value,
            message,
        } => {
            put_named(out, *view, name)?;
            put_voter(out, *proto, *phase, *provider)?;
            put_filled(out, *vote, value, message)
        }
        Body::Gone {
            view,
            name,
            provider,
        } => put_gone(
            out,
            &Gone {
                group: GroupRef::new(*view, name.bytes()),
                provider: *provider,
            },
        ),
        Body::Query { question, what } => put_query(
            out,
            Query {
                question: *question,
                what: *what,
            },
        ),
        Body::Reply { question, text } => put_reply(out, *question, text.as_slice()),
    }
}

fn ring_kind(packet: &RingPacket) -> u8
    ensures { result ≡ ring_kind packet.now }
{
    match packet {
        RingPacket::Heartbeat { .. } => 1,
        RingPacket::Proclaim { .. } => 2,
        RingPacket::Join { .. } => 3,
        RingPacket::Ptc { .. } => 4,
        RingPacket::PtcAck { .. } => 5,
        RingPacket::Commit { .. } => 6,
        RingPacket::Death { .. } => 7,
    }
}

fn view_kind(packet: &ViewPacket) -> u8
    ensures { result ≡ view_kind packet.now }
{
    match packet {
        ViewPacket::Prepare { .. } => 9,
        ViewPacket::Answer { .. } => 10,
        ViewPacket::Refuse { .. } => 11,
        ViewPacket::Install { .. } => 12,
        ViewPacket::Taken { .. } => 13,
    }
}

fn kind_of(body: &Body) -> u8
    ensures { result ≡ kind_of body.now }
{
    match body {
        Body::Ring { packet } => ring_kind(packet),
        Body::Report { .. } => 8,
        Body::View { packet } => view_kind(packet),
        Body::Lookup { .. } => 14,
        Body::Name { .. } => 15,
        Body::Request { .. } => 16,
        Body::Tell { .. } => 17,
        Body::Entry { .. } => 18,
        Body::Ack { .. } => 19,
        Body::Vote { .. } => 20,
        Body::Gone { .. } => 21,
        Body::Query { .. } => 22,
        Body::Reply { .. } => 23,
    }
}

/// The head of a packet.
pub fn head_of(packet: &Packet) -> Head
    ensures { result ≡ head_of packet.now }
{
    Head {
        kind: kind_of(&packet.body),
        network: packet.network,
        from: packet.from,
        to: packet.to,
        inc: packet.inc,
    }
}

/// The spelling, in memory of its own.
#[tactic(auto, unfolding(node_state::specs::Bytes::bytes_of))]
fn spelled(alloc: Global, packet: &Packet) -> Result<Vec<u8>, NoMemory>
    requires { IsWritable packet.now }
    ensures bytes { IfOk result (λ v. v.items ≡ bytes_of packet.now) }
    ensures spelled { IfOk result (λ _. IsSpelled packet.now) }
{
    let mut body = Vec::new(alloc);
    put_body(alloc, &mut body, &packet.body)?;
    if body.len() > u32::MAX as usize {
        return Err(NoMemory);
    }
    let head = head_of(packet);
    let mut out = Vec::new(alloc);
    if packet.level == 1 {
        write_head(&mut out, &head, body.len() as u32)?;
    } else {
        write_head2(&mut out, &head, packet.domain, body.len() as u32)?;
    }
    out.extend_from_slice(body.as_slice())?;
    Ok(out)
}

/// Takes a packet's one spelling to the end of `out`, and leaves `out` as before where memory has run out. The packet
/// must have a head within its limits, and a body by the grammar of its kind; one whose body 32 bits cannot count
/// counts as want of memory.
pub fn write_packet(alloc: Global, out: &mut Vec<u8>, packet: &Packet) -> Result<(), NoMemory>
    requires { IsWritable packet.now }
    ensures ok { OnOk result (out.new.items ≡ out.old.items ++ bytes_of packet.now) }
    ensures spelled { OnOk result (IsSpelled packet.now) }
    ensures err { OnErr result (out.new.items ≡ out.old.items) }
{
    let text = spelled(alloc, packet)?;
    out.extend_from_slice(text.as_slice())?;
    Ok(())
}
