//! Calls of clients.
use group_attr::{Attrs, Phases};
use proposal_core::Vote;
use rsct_packet::{List, ProviderId};

/// A call of a client, which names the client, and the group in place of the provider or the subscription. The
/// name of a client, the name of a group and a text are bytes of any number: the session refuses what is too
/// long. `Init` makes the client, at this node; `votes` is the word of its votes.
pub enum CallLine {
    Init {
        node: u8,
        name: List<u8>,
        votes: List<u8>,
    },
    Join {
        client: List<u8>,
        group: List<u8>,
        instance: u16,
        attrs: Attrs,
    },
    Leave {
        client: List<u8>,
        group: List<u8>,
        phases: Phases,
    },
    Expel {
        client: List<u8>,
        group: List<u8>,
        phases: Phases,
        out: List<ProviderId>,
    },
    ChangeState {
        client: List<u8>,
        group: List<u8>,
        phases: Phases,
        value: List<u8>,
    },
    SendMessage {
        client: List<u8>,
        group: List<u8>,
        phases: Phases,
        bytes: List<u8>,
    },
    ChangeAttributes {
        client: List<u8>,
        group: List<u8>,
        phases: Phases,
        attrs: Attrs,
    },
    Vote {
        client: List<u8>,
        group: List<u8>,
        vote: Vote,
        value: Option<List<u8>>,
    },
    Subscribe {
        client: List<u8>,
        group: List<u8>,
    },
    Unsubscribe {
        client: List<u8>,
        group: List<u8>,
    },
    Goodbye {
        client: List<u8>,
    },
}

// Written out: a drop is one call then, whose proof is made once.
impl Drop for CallLine {
    fn drop(self) {
        match self {
            CallLine::Init {
                node: _,
                name: _name,
                votes: _votes,
            } => {}
            CallLine::Join {
                client: _client,
                group: _group,
                instance: _,
                attrs: _attrs,
            } => {}
            CallLine::Leave {
                client: _client,
                group: _group,
                phases: _,
            } => {}
            CallLine::Expel {
                client: _client,
                group: _group,
                phases: _,
                out: _out,
            } => {}
            CallLine::ChangeState {
                client: _client,
                group: _group,
                phases: _,
                value: _value,
            } => {}
            CallLine::SendMessage {
                client: _client,
                group: _group,
                phases: _,
                bytes: _bytes,
            } => {}
            CallLine::ChangeAttributes {
                client: _client,
                group: _group,
                phases: _,
                attrs: _attrs,
            } => {}
            CallLine::Vote {
                client: _client,
                group: _group,
                vote: _,
                value: _value,
            } => {}
            CallLine::Subscribe {
                client: _client,
                group: _group,
            } => {}
            CallLine::Unsubscribe {
                client: _client,
                group: _group,
            } => {}
            CallLine::Goodbye { client: _client } => {}
        }
    }
}
