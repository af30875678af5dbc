//! What clients are told.
use rsct_packet::{Members, Name, ProtoId, ProviderId, Providers, Text, ViewId};

/// Why a leader or an install refuses a request: the protocol that runs, the length of the source group's
/// list, places and bytes of a full list, or the limit that was reached.
#[derive(Clone, Copy, Debug, PartialEq, Eq)]
pub enum Why {
    Collide(ProtoId),
    DuplicateInstance,
    NoSource(u32),
    BadAttributes,
    NotAMember,
    ListFull(u32, u32),
    GroupFull(u32),
    GroupsFull(u32),
    Dissolved,
}

/// What a client is told: that the request `r` of its provider `p` was refused, or what a subscribed group
/// or the hosts of the view have become.
pub enum Told {
    Refused {
        provider: ProviderId,
        request: u32,
        why: Why,
    },
    Note {
        group: Name,
        members: Providers,
        value: Text,
    },
    Hosts {
        view: ViewId,
        nodes: Members,
    },
}

// Written out: a drop is one call then, whose proof is made once.
impl Drop for Told {
    fn drop(self) {
        match self {
            Told::Refused {
                provider: _,
                request: _,
                why: _,
            } => {}
            Told::Note {
                group: _group,
                members: _members,
                value: _value,
            } => {}
            Told::Hosts {
                view: _,
                nodes: _nodes,
            } => {}
        }
    }
}
