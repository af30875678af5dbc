//! The records of a run.
use client_callbacks::{Told, Why};
use proposal_core::{Entry, GroupState, Proposal, Vote};
use rsct_packet::{
    List, Mask, Members, Name, ProtoId, ProviderId, Providers, RingId, Text, ViewId,
};
use session_state::GsFault;

/// A record: one thing that happened at a node, in the order in which it happened.
pub enum Happened {
    /// The node starts, in this incarnation.
    Up {
        node: u8,
        inc: u32,
    },
    /// The node stops.
    Down {
        node: u8,
    },
    /// The ring of the node's adapter on this network is set.
    Ring {
        node: u8,
        network: u8,
        ring: RingId,
        members: Mask,
        neighbour: u8,
    },
    /// The node enters the view, whose members these are.
    In {
        node: u8,
        view: ViewId,
        members: Members,
    },
    /// The base of the group in the view, cut from the old view's list at this length.
    Base {
        node: u8,
        view: ViewId,
        group: Name,
        old: ViewId,
        len: u32,
        state: GroupState,
    },
    /// The node appends the entry to its list of the group.
    Put {
        node: u8,
        view: ViewId,
        group: Name,
        place: u32,
        entry: Entry,
    },
    /// The provider's client was handed the entry, with the members and the value after it.
    Heard {
        provider: ProviderId,
        view: ViewId,
        group: Name,
        place: u32,
        entry: Entry,
        members: Providers,
        value: Text,
    },
    /// A ballot of the provider was kept.
    Cast {
        provider: ProviderId,
        proto: ProtoId,
        phase: u16,
        vote: Vote,
        value: Option<Text>,
        message: Option<Text>,
    },
    /// A request of the provider was taken.
    Asked {
        provider: ProviderId,
        request: u32,
        group: Name,
        proposal: Proposal,
    },
    /// The provider's request was refused; `r` is 0 where the provider was dissolved without one.
    Told {
        provider: ProviderId,
        request: u32,
        why: Why,
    },
    /// A subscribed client was handed this note; `place` is none at an install.
    Noted {
        node: u8,
        client: List<u8>,
        view: ViewId,
        place: Option<u32>,
        told: Told,
    },
    /// A session call of the client was refused.
    Refused {
        node: u8,
        client: List<u8>,
        fault: GsFault,
    },
    /// One line of a status that was asked for.
    Shown {
        node: u8,
        line: List<u8>,
    },
}

// Written out: a drop is one call then, whose proof is made once.
impl Drop for Happened {
    fn drop(self) {
        match self {
            Happened::Up { node: _, inc: _ } => {}
            Happened::Down { node: _ } => {}
            Happened::Ring {
                node: _,
                network: _,
                ring: _,
                members: _,
                neighbour: _,
            } => {}
            Happened::In {
                node: _,
                view: _,
                members: _members,
            } => {}
            Happened::Base {
                node: _,
                view: _,
                group: _group,
                old: _,
                len: _,
                state: _state,
            } => {}
            Happened::Put {
                node: _,
                view: _,
                group: _group,
                place: _,
                entry: _entry,
            } => {}
            Happened::Heard {
                provider: _,
                view: _,
                group: _group,
                place: _,
                entry: _entry,
                members: _members,
                value: _value,
            } => {}
            Happened::Cast {
                provider: _,
                proto: _,
                phase: _,
                vote: _,
                value: _value,
                message: _message,
            } => {}
            Happened::Asked {
                provider: _,
                request: _,
                group: _group,
                proposal: _proposal,
            } => {}
            Happened::Told {
                provider: _,
                request: _,
                why: _,
            } => {}
            Happened::Noted {
                node: _,
                client: _client,
                view: _,
                place: _,
                told: _told,
            } => {}
            Happened::Refused {
                node: _,
                client: _client,
                fault: _,
            } => {}
            Happened::Shown {
                node: _,
                line: _line,
            } => {}
        }
    }
}

/// The records of a run, in order.
pub type Records = List<Happened>;
