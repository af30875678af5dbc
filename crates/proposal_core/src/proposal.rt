//! What a protocol proposes.
ghost use Rattle.std.specs.Prelude.{◌≡◌, IfOk};
ghost use Rattle.rsct_packet.specs.Providers.{AreProviders};
ghost use Rattle.proposal_core.specs.Fold.{joins_of};

use group_attr::Attrs;
use rsct_packet::{List, NoMemory, ProviderId, Providers, Text, ViewId};
use std::alloc::Global;

/// Why a failure leave removes a provider: its node died, its client said goodbye, or its node has no
/// member of the source group any more.
#[derive(Clone, Copy, Debug, Default, PartialEq, Eq)]
pub enum Cause {
    #[default]
    Died,
    Gone,
    Cast,
}

/// A provider that a failure leave removes, and why.
#[derive(Clone, Copy, Debug, Default, PartialEq, Eq)]
pub struct Failure {
    pub provider: ProviderId,
    pub cause: Cause,
}

/// Whom a failure leave removes.
pub type Fallen = List<Failure>;

/// What a protocol proposes. `r` is the number of the request of provider `p` that proposed it.
pub enum Proposal {
    /// These providers join. `source_len` is the length of the source group's list where it was decided.
    Join {
        ps: Providers,
        attrs: Attrs,
        source_len: Option<u32>,
    },
    /// The provider leaves.
    Leave {
        provider: ProviderId,
        request: u32,
    },
    /// These failed.
    Fail {
        out: Fallen,
    },
    /// These are expelled.
    Expel {
        provider: ProviderId,
        request: u32,
        out: Providers,
    },
    /// The state value becomes this one.
    State {
        provider: ProviderId,
        request: u32,
        value: Text,
    },
    /// A message to all.
    Message {
        provider: ProviderId,
        request: u32,
        bytes: Text,
    },
    /// The attributes become these.
    Attributes {
        provider: ProviderId,
        request: u32,
        attrs: Attrs,
    },
    /// The source group's value at this place of its list in this view.
    Reflect {
        view: ViewId,
        place: u32,
        value: Text,
    },
}

// Written out: a drop is one call then, whose proof is made once.
impl Drop for Proposal {
    fn drop(self) {
        match self {
            Proposal::Join {
                ps: _ps,
                attrs: _attrs,
                source_len: _,
            } => {}
            Proposal::Leave {
                provider: _,
                request: _,
            } => {}
            Proposal::Fail { out: _out } => {}
            Proposal::Expel {
                provider: _,
                request: _,
                out: _out,
            } => {}
            Proposal::State {
                provider: _,
                request: _,
                value: _value,
            } => {}
            Proposal::Message {
                provider: _,
                request: _,
                bytes: _bytes,
            } => {}
            Proposal::Attributes {
                provider: _,
                request: _,
                attrs: _attrs,
            } => {}
            Proposal::Reflect {
                view: _,
                place: _,
                value: _value,
            } => {}
        }
    }
}

impl Proposal {
    /// Those whom a join brings. Nobody where something else is proposed.
    pub fn joiners(&self) -> &[ProviderId]
        ensures value { result.now ≡ joins_of self.now }
        ensures providers { AreProviders (joins_of self.now) }
    {
        match self {
            Proposal::Join { ps, .. } => ps.as_slice(),
            _ => &[],
        }
    }

    /// An equal proposal.
    pub fn copy(&self, alloc: Global) -> Result<Proposal, NoMemory>
        ensures { IfOk result (λ x. x ≡ self.now) }
    {
        Ok(match self {
            Proposal::Join {
                ps,
                attrs,
                source_len,
            } => Proposal::Join {
                ps: ps.copy(alloc)?,
                attrs: attrs.copy(alloc)?,
                source_len: *source_len,
            },
            Proposal::Leave { provider, request } => Proposal::Leave {
                provider: *provider,
                request: *request,
            },
            Proposal::Fail { out } => Proposal::Fail {
                out: List::of(alloc, out.as_slice())?,
            },
            Proposal::Expel {
                provider,
                request,
                out,
            } => Proposal::Expel {
                provider: *provider,
                request: *request,
                out: out.copy(alloc)?,
            },
            Proposal::State {
                provider,
                request,
                value,
            } => Proposal::State {
                provider: *provider,
                request: *request,
                value: value.copy(alloc)?,
            },
            Proposal::Message {
                provider,
                request,
                bytes,
            } => Proposal::Message {
                provider: *provider,
                request: *request,
                bytes: bytes.copy(alloc)?,
            },
            Proposal::Attributes {
                provider,
                request,
                attrs,
            } => Proposal::Attributes {
                provider: *provider,
                request: *request,
                attrs: attrs.copy(alloc)?,
            },
            Proposal::Reflect { view, place, value } => Proposal::Reflect {
                view: *view,
                place: *place,
                value: value.copy(alloc)?,
            },
        })
    }
}
