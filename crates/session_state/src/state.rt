//! What a node has of its clients, apart from the clients themselves.
ghost use Rattle.std.specs.Prelude.{◌≡◌, find, option_copied};
ghost use Rattle.session_state.specs.State.{is_session, client_name};

use crate::locals::Locals;
use client_callbacks::Ballot;
use group_attr::Phases;
use proposal_core::Proposal;
use rsct_packet::{List, Name, ProtoId, ProviderId};
use subscribe_core::{ClientToken, Subs};

/// A provider of a client in a group: the number of its join's request.
#[derive(Clone, Copy, Debug, PartialEq, Eq)]
pub struct MemberToken {
    pub number: u32,
}

/// A live session: its token, and its client's name.
#[derive(Drop)]
pub struct Session {
    pub token: ClientToken,
    pub name: List<u8>,
}

/// A phase in which a provider may vote.
#[derive(Clone, Copy, Debug, PartialEq, Eq)]
pub struct OpenPhase {
    pub proto: ProtoId,
    pub phase: u16,
}

/// A provider, joining or joined: its client and group, whether it takes part, and the phase that is open for
/// it.
#[derive(Drop)]
pub struct Provider {
    pub provider: ProviderId,
    pub client: ClientToken,
    pub group: Name,
    pub takes_part: bool,
    pub opened: Option<OpenPhase>,
}

/// An outstanding request of a provider: its number, and what it proposes, in one phase or many.
pub struct Request {
    pub provider: ProviderId,
    pub request: u32,
    pub group: Name,
    pub phases: Phases,
    pub proposal: Proposal,
}

// Written out: a drop is one call then, whose proof is made once.
impl Drop for Request {
    fn drop(self) {
        let Request {
            provider: _,
            request: _,
            group: _group,
            phases: _,
            proposal: _proposal,
        } = self;
    }
}

/// A ballot that is kept for a provider, protocol and phase until the phase closes.
pub struct KeptBallot {
    pub provider: ProviderId,
    pub group: Name,
    pub proto: ProtoId,
    pub phase: u16,
    pub ballot: Ballot,
}

impl Drop for KeptBallot {
    fn drop(self) {
        let KeptBallot {
            provider: _,
            group: _group,
            proto: _,
            phase: _,
            ballot: _ballot,
        } = self;
    }
}

/// What a node of this number and incarnation has of its clients: the level that limits values, the numbers
/// that were given last, and, oldest first, the live sessions, their providers, the outstanding requests, the
/// subscriptions and the kept ballots.
pub struct SessionState {
    pub me: u8,
    pub inc: u32,
    pub level: u8,
    pub last_request: u32,
    pub last_client: u32,
    pub sessions: List<Session>,
    pub providers: Locals,
    pub requests: List<Request>,
    pub subs: Subs,
    pub kept: List<KeptBallot>,
}

impl SessionState {
    /// The live session of a client.
    fn session_of(&self, client: ClientToken) -> Option<&Session>
        ensures { option_copied result ≡ find (is_session client) self.now.sessions }
    {
        self.sessions.as_slice().iter().find(|x| x.token == client)
    }

    /// The name of a live client.
    #[tactic(auto, unfolding(crate::specs::State::client_name))]
    pub fn client_name(&self, client: ClientToken) -> Option<&[u8]>
        ensures { option_copied result ≡ client_name self.now client }
    {
        match self.session_of(client) {
            None => None,
            Some(x) => Some(x.name.as_slice()),
        }
    }
}

impl Drop for SessionState {
    fn drop(self) {
        let SessionState {
            me: _,
            inc: _,
            level: _,
            last_request: _,
            last_client: _,
            sessions: _sessions,
            providers: _providers,
            requests: _requests,
            subs: _subs,
            kept: _kept,
        } = self;
    }
}
