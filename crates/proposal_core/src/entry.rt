//! The entries of a group's list.
ghost use Rattle.std.specs.Prelude.{◌≡◌, IfOk};

use crate::proposal::Proposal;
use crate::texts::copy_text;
use group_attr::DefaultVote;
use rsct_packet::{List, NoMemory, ProtoId, ProviderId, Providers, Text};
use std::alloc::Global;

/// A vote in a phase.
#[derive(Clone, Copy, Debug, PartialEq, Eq)]
pub enum Vote {
    Approve,
    Continue,
    Reject,
}

/// What stands for a voter: its vote, or the default since it was late or failed.
#[derive(Clone, Copy, Debug, PartialEq, Eq)]
pub enum RowVote {
    Cast(Vote),
    Late(DefaultVote),
    Failed(DefaultVote),
}

/// A voter and what stands for it.
#[derive(Clone, Copy, Debug, PartialEq, Eq)]
pub struct Row {
    pub provider: ProviderId,
    pub vote: RowVote,
}

/// The rows of a phase, in voters' order.
pub type Rows = List<Row>;

/// How a phase closed: the protocol, the phase (1 to 200), its rows, and the value and the message that its
/// ballots carried.
pub struct Closed {
    pub proto: ProtoId,
    pub phase: u16,
    pub rows: Rows,
    pub value: Option<Text>,
    pub message: Option<Text>,
}

/// An entry of a group's list.
pub enum Entry {
    /// A one-phase protocol, begun and approved.
    Once(Proposal),
    /// An n-phase protocol begins, and its phase 1 opens.
    Begin(Proposal),
    /// A phase closed, and the next one opens.
    Phase(Closed),
    /// The protocol is approved.
    Approve(Closed),
    /// The protocol is rejected.
    Reject(Closed),
    /// These voters of the phase passed its time limit.
    Late {
        proto: ProtoId,
        phase: u16,
        ps: Providers,
    },
}

// Written out, as for each type whose parts are many: a drop is one call then, whose proof is made once.
impl Drop for Closed {
    fn drop(self) {
        let Closed {
            proto: _,
            phase: _,
            rows: _rows,
            value: _value,
            message: _message,
        } = self;
    }
}

impl Drop for Entry {
    fn drop(self) {
        match self {
            Entry::Once(_x) => {}
            Entry::Begin(_x) => {}
            Entry::Phase(_c) => {}
            Entry::Approve(_c) => {}
            Entry::Reject(_c) => {}
            Entry::Late {
                proto: _,
                phase: _,
                ps: _ps,
            } => {}
        }
    }
}

impl Closed {
    /// An equal record of the phase.
    pub fn copy(&self, alloc: Global) -> Result<Closed, NoMemory>
        ensures { IfOk result (λ c. c ≡ self.now) }
    {
        Ok(Closed {
            proto: self.proto,
            phase: self.phase,
            rows: List::of(alloc, self.rows.as_slice())?,
            value: copy_text(alloc, &self.value)?,
            message: copy_text(alloc, &self.message)?,
        })
    }
}

impl Entry {
    /// An equal entry.
    pub fn copy(&self, alloc: Global) -> Result<Entry, NoMemory>
        ensures { IfOk result (λ e. e ≡ self.now) }
    {
        Ok(match self {
            Entry::Once(x) => Entry::Once(x.copy(alloc)?),
            Entry::Begin(x) => Entry::Begin(x.copy(alloc)?),
            Entry::Phase(c) => Entry::Phase(c.copy(alloc)?),
            Entry::Approve(c) => Entry::Approve(c.copy(alloc)?),
            Entry::Reject(c) => Entry::Reject(c.copy(alloc)?),
            Entry::Late { proto, phase, ps } => Entry::Late {
                proto: *proto,
                phase: *phase,
                ps: ps.copy(alloc)?,
            },
        })
    }
}
