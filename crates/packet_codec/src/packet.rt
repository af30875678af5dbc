//! A packet in place: what a daemon reads off a datagram.
ghost use Rattle.std.specs.Prelude.{◌≡◌, ◌≤◌, Option, option_map};
ghost use Rattle.node_state.specs.Bodies.{body_at};
ghost use Rattle.node_state.specs.Bytes.{packet_of, is_packet};
ghost use Rattle.packet_codec.specs.InPlace.{body_in, packet_in};

use crate::groups::{
    ack_body, entry_body, gone_body, leader_body, lookup_body, request_body, tell_body, vote_body,
};
use crate::rings::{
    commit_body, death_body, heartbeat_body, join_body, proclaim_body, ptc_ack_body, ptc_body,
    query_body, reply_body, report_body,
};
use crate::views::{answer_body, install_body, prepare_body, refuse_body, taken_body};
use adapter_ring::RingPacket;
use client_callbacks::Why;
use group_attr::Phases;
use group_codec::{EntryRef, ProposalRef};
use packet_bodies::{Ack, Gone, GroupRef, Leader, Prepare, Query, Refuse, Reply, ReportRow};
use proposal_core::Vote;
use rsct_packet::{Listed, Packet, ProtoId, ProviderId, ViewId};
use view_exchange::{AnswerRef, InstallRef};

/// What a node that is asked for a view answers.
#[derive(Drop)]
pub struct Answered<'a> {
    pub view: ViewId,
    pub answer: AnswerRef<'a>,
}

/// A provider's request to the leader of its group.
#[derive(Drop)]
pub struct RequestRef<'a> {
    pub group: GroupRef<'a>,
    pub provider: ProviderId,
    pub request: u32,
    pub phases: Phases,
    pub proposal: ProposalRef<'a>,
}

/// Why a provider's request was refused.
#[derive(Drop)]
pub struct TellRef<'a> {
    pub group: GroupRef<'a>,
    pub provider: ProviderId,
    pub request: u32,
    pub why: Why,
}

/// An entry at its place of a group's list; all members hold the entries below `stable`.
#[derive(Drop)]
pub struct PlacedRef<'a> {
    pub group: GroupRef<'a>,
    pub place: u32,
    pub stable: u32,
    pub entry: EntryRef<'a>,
}

/// A provider's ballot of a phase. The value and the message are at most 65,535 bytes long.
#[derive(Drop)]
pub struct VoteRef<'a> {
    pub group: GroupRef<'a>,
    pub proto: ProtoId,
    pub phase: u16,
    pub provider: ProviderId,
    pub vote: Vote,
    pub value: Option<&'a [u8]>,
    pub message: Option<&'a [u8]>,
}

/// What a packet says, where it stands: lists, texts and entries are parts of the datagram.
#[derive(Drop)]
pub enum BodyRef<'a> {
    Ring(RingPacket),
    Report(Listed<'a, ReportRow>),
    Prepare(Prepare),
    Answer(Answered<'a>),
    Refuse(Refuse),
    Install(InstallRef<'a>),
    Taken(ViewId),
    Lookup(GroupRef<'a>),
    Name(Leader<'a>),
    Request(RequestRef<'a>),
    Tell(TellRef<'a>),
    Entry(PlacedRef<'a>),
    Ack(Ack<'a>),
    Vote(VoteRef<'a>),
    Gone(Gone<'a>),
    Query(Query),
    Reply(Reply<'a>),
}

/// A packet where it stands: the network that it came on, its sender with its incarnation and its receiver (0 for a
/// status client), its level (1 or 2) and at level 2 its domain, else 0.
#[derive(Drop)]
pub struct PacketRef<'a> {
    pub network: u8,
    pub from: u8,
    pub to: u8,
    pub inc: u32,
    pub level: u8,
    pub domain: u32,
    pub body: BodyRef<'a>,
}

/// The body of a packet of this kind, which is one of 1 to 23.
fn read_body(kind: u8, bytes: &[u8]) -> Option<BodyRef<'_>>
    requires low { 1 ≤ kind }
    requires high { kind ≤ 23 }
    ensures { option_map body_in result ≡ body_at kind bytes.now }
{
    match kind {
        1 => heartbeat_body(bytes),
        2 => proclaim_body(bytes),
        3 => join_body(bytes),
        4 => ptc_body(bytes),
        5 => ptc_ack_body(bytes),
        6 => commit_body(bytes),
        7 => death_body(bytes),
        8 => report_body(bytes),
        9 => prepare_body(bytes),
        10 => answer_body(bytes),
        11 => refuse_body(bytes),
        12 => install_body(bytes),
        13 => taken_body(bytes),
        14 => lookup_body(bytes),
        15 => leader_body(bytes),
        16 => request_body(bytes),
        17 => tell_body(bytes),
        18 => entry_body(bytes),
        19 => ack_body(bytes),
        20 => vote_body(bytes),
        21 => gone_body(bytes),
        22 => query_body(bytes),
        23 => reply_body(bytes),
        _ => unreachable!(),
    }
}

impl<'a> PacketRef<'a> {
    /// The packet of a datagram, which copies nothing. None exactly where the bytes are no packet: a head, and a
    /// body of its kind's grammar that takes all that the head names.
    #[tactic(auto, unfolding(node_state::specs::Bytes::packet_of))]
    pub fn read(bytes: &'a [u8]) -> Option<PacketRef<'a>>
        ensures { option_map packet_in result ≡ packet_of bytes.now }
    {
        let packet = Packet::read(bytes)?;
        let body = read_body(packet.head.kind, packet.body)?;
        Some(PacketRef {
            network: packet.head.network,
            from: packet.head.from,
            to: packet.head.to,
            inc: packet.head.inc,
            level: packet.level,
            domain: packet.domain,
            body,
        })
    }
}

/// Are these bytes a packet: a head, and a body of its kind's grammar that takes all that the head names? It copies
/// nothing.
#[tactic(auto, unfolding(node_state::specs::Bytes::is_packet))]
pub fn is_packet(bytes: &[u8]) -> bool
    ensures { result ≡ is_packet bytes.now }
{
    PacketRef::read(bytes).is_some()
}
