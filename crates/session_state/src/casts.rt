//! What handing an entry on gives out.
use client_callbacks::Ballot;
use rsct_packet::{List, ProtoId, ProviderId};

/// A provider that was handed a notice, and the ballot that its client filled, with the protocol and the phase
/// that it is for.
pub struct Cast {
    pub provider: ProviderId,
    pub cast: Option<(ProtoId, u16, Ballot)>,
}

// Written out: a drop is one call then, whose proof is made once.
impl Drop for Cast {
    fn drop(self) {
        let Cast {
            provider: _,
            cast: _cast,
        } = self;
    }
}

/// Those that were handed a notice, in that order.
pub type Casts = List<Cast>;
