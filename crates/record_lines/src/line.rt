//! What a line shows.
use client_callbacks::Why;
use proposal_core::{Entry, Vote};
use rsct_packet::{List, Members, Name, ProtoId, ProviderId, Providers, RingId, Text, ViewId};
use session_state::GsFault;
use word_laws::Kind;

/// What was heard of an entry.
#[derive(Clone, Copy, Debug, PartialEq, Eq)]
pub enum What {
    Once(Kind),
    Begin(Kind),
    Phase,
    Approve,
    Reject,
    Late,
}

/// A phase of a protocol that runs.
#[derive(Clone, Copy, Debug, PartialEq, Eq)]
pub struct OpenPhase {
    pub proto: ProtoId,
    pub phase: u16,
}

/// What a group begins with in a view: the list that it goes on from, up to which length, and what that comes to.
pub struct BaseLine {
    pub old: ViewId,
    pub len: u32,
    pub members: Providers,
    pub value: Text,
    pub failed: Providers,
    pub running: Option<OpenPhase>,
}

/// What a subscriber is told: the members and the value of a group, or the hosts of the view.
pub enum Note {
    Group {
        group: Name,
        members: Providers,
        value: Text,
    },
    Hosts {
        members: Members,
    },
}

/// A line of a status: of a ring, the view, a group, or a protocol that runs in a group. `None` is a leader, or whom a
/// phase waits for, that the node does not know.
pub enum Status {
    Ring {
        network: u8,
        ring: RingId,
        members: List<u8>,
        neighbour: u8,
    },
    View {
        view: ViewId,
        members: Members,
        frozen: bool,
    },
    Group {
        group: Name,
        leader: Option<u8>,
        len: u32,
        members: Providers,
        value: Text,
    },
    Vote {
        group: Name,
        proto: ProtoId,
        phase: u16,
        kind: Kind,
        waiting: Option<Providers>,
    },
}

/// A line: what a record shows. It has no message, no attributes of a base, and of what was heard one word.
pub enum Line {
    Up {
        node: u8,
        inc: u32,
    },
    Down {
        node: u8,
    },
    Ring {
        node: u8,
        network: u8,
        ring: RingId,
        members: List<u8>,
        neighbour: u8,
    },
    In {
        node: u8,
        view: ViewId,
        members: Members,
    },
    Base {
        node: u8,
        view: ViewId,
        group: Name,
        base: BaseLine,
    },
    Put {
        node: u8,
        view: ViewId,
        group: Name,
        place: u32,
        entry: Entry,
    },
    Heard {
        provider: ProviderId,
        view: ViewId,
        group: Name,
        place: u32,
        what: What,
        members: Providers,
        value: Text,
    },
    Cast {
        provider: ProviderId,
        proto: ProtoId,
        phase: u16,
        vote: Vote,
        value: Option<Text>,
    },
    Asked {
        provider: ProviderId,
        request: u32,
        group: Name,
        kind: Kind,
    },
    Told {
        provider: ProviderId,
        request: u32,
        why: Why,
    },
    Noted {
        node: u8,
        client: List<u8>,
        view: ViewId,
        place: Option<u32>,
        note: Note,
    },
    Refused {
        node: u8,
        client: List<u8>,
        fault: GsFault,
    },
    Show {
        node: u8,
        status: Status,
    },
}

// Written out: a drop is one call then, whose proof is made once.
impl Drop for BaseLine {
    fn drop(self) {
        let BaseLine {
            old: _,
            len: _,
            members: _members,
            value: _value,
            failed: _failed,
            running: _,
        } = self;
    }
}

impl Drop for Note {
    fn drop(self) {
        match self {
            Note::Group {
                group: _group,
                members: _members,
                value: _value,
            } => {}
            Note::Hosts { members: _members } => {}
        }
    }
}

impl Drop for Status {
    fn drop(self) {
        match self {
            Status::Ring {
                network: _,
                ring: _,
                members: _members,
                neighbour: _,
            } => {}
            Status::View {
                view: _,
                members: _members,
                frozen: _,
            } => {}
            Status::Group {
                group: _group,
                leader: _,
                len: _,
                members: _members,
                value: _value,
            } => {}
            Status::Vote {
                group: _group,
                proto: _,
                phase: _,
                kind: _,
                waiting: _waiting,
            } => {}
        }
    }
}

impl Drop for Line {
    fn drop(self) {
        match self {
            Line::Up { node: _, inc: _ } => {}
            Line::Down { node: _ } => {}
            Line::Ring {
                node: _,
                network: _,
                ring: _,
                members: _members,
                neighbour: _,
            } => {}
            Line::In {
                node: _,
                view: _,
                members: _members,
            } => {}
            Line::Base {
                node: _,
                view: _,
                group: _group,
                base: _base,
            } => {}
            Line::Put {
                node: _,
                view: _,
                group: _group,
                place: _,
                entry: _entry,
            } => {}
            Line::Heard {
                provider: _,
                view: _,
                group: _group,
                place: _,
                what: _,
                members: _members,
                value: _value,
            } => {}
            Line::Cast {
                provider: _,
                proto: _,
                phase: _,
                vote: _,
                value: _value,
            } => {}
            Line::Asked {
                provider: _,
                request: _,
                group: _group,
                kind: _,
            } => {}
            Line::Told {
                provider: _,
                request: _,
                why: _,
            } => {}
            Line::Noted {
                node: _,
                client: _client,
                view: _,
                place: _,
                note: _note,
            } => {}
            Line::Refused {
                node: _,
                client: _client,
                fault: _,
            } => {}
            Line::Show {
                node: _,
                status: _status,
            } => {}
        }
    }
}
