//! The packets of daemons, as values.
use adapter_ring::RingPacket;
use client_callbacks::Why;
use group_attr::Phases;
use packet_bodies::{ReportRow, What};
use proposal_core::{Entry, Proposal, Vote};
use rsct_packet::{List, Name, ProtoId, ProviderId, Text, ViewId};
use view_state::ViewPacket;

/// Rows with nodes ascending.
pub type Report = List<ReportRow>;

/// What a packet says.
pub enum Body {
    /// What an adapter's ring says.
    Ring {
        packet: RingPacket,
    },
    Report {
        rows: Report,
    },
    /// What is said of a view that is to be.
    View {
        packet: ViewPacket,
    },
    Lookup {
        view: ViewId,
        name: Name,
    },
    /// The group's leader; 0 where no group more can be had.
    Name {
        view: ViewId,
        name: Name,
        leader: u8,
    },
    Request {
        view: ViewId,
        name: Name,
        provider: ProviderId,
        request: u32,
        phases: Phases,
        proposal: Proposal,
    },
    Tell {
        view: ViewId,
        name: Name,
        provider: ProviderId,
        request: u32,
        why: Why,
    },
    /// An entry at its place; all members hold the entries below `stable`.
    Entry {
        view: ViewId,
        name: Name,
        place: u32,
        stable: u32,
        entry: Entry,
    },
    Ack {
        view: ViewId,
        name: Name,
        len: u32,
    },
    Vote {
        view: ViewId,
        name: Name,
        proto: ProtoId,
        phase: u16,
        provider: ProviderId,
        vote: Vote,
        value: Option<Text>,
        message: Option<Text>,
    },
    Gone {
        view: ViewId,
        name: Name,
        provider: ProviderId,
    },
    Query {
        question: u32,
        what: What,
    },
    Reply {
        question: u32,
        text: List<u8>,
    },
}

// Written out: a drop is one call then, whose proof is made once.
impl Drop for Body {
    fn drop(self) {
        match self {
            Body::Ring { packet: _packet } => {}
            Body::Report { rows: _rows } => {}
            Body::View { packet: _packet } => {}
            Body::Lookup {
                view: _,
                name: _name,
            } => {}
            Body::Name {
                view: _,
                name: _name,
                leader: _,
            } => {}
            Body::Request {
                view: _,
                name: _name,
                provider: _,
                request: _,
                phases: _,
                proposal: _proposal,
            } => {}
            Body::Tell {
                view: _,
                name: _name,
                provider: _,
                request: _,
                why: _,
            } => {}
            Body::Entry {
                view: _,
                name: _name,
                place: _,
                stable: _,
                entry: _entry,
            } => {}
            Body::Ack {
                view: _,
                name: _name,
                len: _,
            } => {}
            Body::Vote {
                view: _,
                name: _name,
                proto: _,
                phase: _,
                provider: _,
                vote: _,
                value: _value,
                message: _message,
            } => {}
            Body::Gone {
                view: _,
                name: _name,
                provider: _,
            } => {}
            Body::Query {
                question: _,
                what: _,
            } => {}
            Body::Reply {
                question: _,
                text: _text,
            } => {}
        }
    }
}

/// A packet: the network that it is sent on, its sender with its incarnation and its receiver (0 for a status
/// client), its level (1 or 2) and at level 2 its domain, else 0.
pub struct Packet {
    pub network: u8,
    pub from: u8,
    pub to: u8,
    pub inc: u32,
    pub level: u8,
    pub domain: u32,
    pub body: Body,
}

impl Drop for Packet {
    fn drop(self) {
        let Packet {
            network: _,
            from: _,
            to: _,
            inc: _,
            level: _,
            domain: _,
            body: _body,
        } = self;
    }
}

/// Packets in the order of sending.
pub type Packets = List<Packet>;
