//! What a node has of each group.
use batch_rules::Waiting;
use client_callbacks::Why;
use group_attr::Attrs;
use proposal_core::GroupList;
use rsct_packet::{List, Name, ProviderId, Text};
use std::marker::Model;
use vote_phases::Tally;

/// A table, whose rows are searched and changed in place by the crates that have its calls.
#[derive(Drop)]
pub struct Table<T> {
    pub rows: Vec<T>,
}

impl<T> Model for Table<T> {
    ghost use Rattle.std.specs.Prelude.{List};

    ghost Value = { List T };

    ghost view = { λ t. t.rows.items };
}

/// How many entries of a list a member has acknowledged.
#[derive(Clone, Copy, Debug, PartialEq, Eq)]
pub struct Acked {
    pub node: u8,
    pub len: u32,
}

/// The attributes that a waiting join asked for, where the group was empty and nothing ran.
#[derive(Drop)]
pub struct JoinAttrs {
    pub provider: ProviderId,
    pub attrs: Attrs,
}

/// The last request of a provider that a leader decided, and why it was refused, if it was.
#[derive(Clone, Copy, Debug, PartialEq, Eq)]
pub struct Decision {
    pub provider: ProviderId,
    pub request: u32,
    pub why: Option<Why>,
}

/// The value and the message of a ballot that the tally recorded.
pub struct Given {
    pub provider: ProviderId,
    pub value: Option<Text>,
    pub message: Option<Text>,
}

// Written out: a drop is one call then, whose proof is made once.
impl Drop for Given {
    fn drop(self) {
        let Given {
            provider: _,
            value: _value,
            message: _message,
        } = self;
    }
}

/// What the leader of a group keeps of it: the acknowledged lengths, what waits, the attributes of waiting joins,
/// the tally of the phase that runs, what its ballots carried, who is gone, and the last decision on each
/// requester.
pub struct Led {
    pub acked: Table<Acked>,
    pub waiting: Waiting,
    pub join_attrs: List<JoinAttrs>,
    pub tally: Option<Tally>,
    pub given: List<Given>,
    pub gone: List<ProviderId>,
    pub decided: Table<Decision>,
}

impl Drop for Led {
    fn drop(self) {
        let Led {
            acked: _acked,
            waiting: _waiting,
            join_attrs: _join_attrs,
            tally: _tally,
            given: _given,
            gone: _gone,
            decided: _decided,
        } = self;
    }
}

/// What a node has of a group: its list, if it holds one, its leader, if it is known, and what the node keeps of
/// the group as its leader, which is nothing where another node leads.
pub struct GroupRow {
    pub name: Name,
    pub list: Option<GroupList>,
    pub leader: Option<u8>,
    pub led: Led,
}

impl Drop for GroupRow {
    fn drop(self) {
        let GroupRow {
            name: _name,
            list: _list,
            leader: _,
            led: _led,
        } = self;
    }
}

/// The rows of groups in name order.
pub type Groups = Table<GroupRow>;
