//! What a node reads of its sessions.
ghost use Rattle.std.specs.Prelude.{◌≡◌, IfOk, is_some, slice_get, option_copied};
ghost use Rattle.subscribe_core.specs.Subs.{notes_of};
ghost use Rattle.session_state.specs.State.{provider_of, client_token, member_token, sub_token, client_name};
ghost use Rattle.session_clients.specs.Clients.{client_named};

use crate::sessions::Sessions;
use client_callbacks::Callbacks;
use proposal_core::GroupState;
use rsct_packet::{NoMemory, ProviderId};
use session_calls::{client_token, member_token, session_place, sub_token};
use session_delivery::is_live;
use session_state::{KeptBallot, MemberToken, Provider, Request};
use std::alloc::Global;
use subscribe_core::{ClientToken, SubToken, Subscription, Tokens};

impl<C: Callbacks> Sessions<C> {
    /// The i-th outstanding request, in the order of their numbers.
    pub fn request(&self, place: usize) -> Option<&Request>
        ensures { option_copied result ≡ slice_get self.now.state.requests place }
    {
        self.state().requests.get(place)
    }

    /// The i-th kept ballot, in the order of keeping.
    pub fn kept(&self, place: usize) -> Option<&KeptBallot>
        ensures { option_copied result ≡ slice_get self.now.state.kept place }
    {
        self.state().kept.get(place)
    }

    /// The i-th live provider, in the order of their joins' numbers.
    pub fn provider(&self, place: usize) -> Option<&Provider>
        ensures { option_copied result ≡ slice_get self.now.state.providers place }
    {
        self.state().providers.as_slice().get(place)
    }

    /// The i-th live subscription, oldest first.
    pub fn sub(&self, place: usize) -> Option<&Subscription>
        ensures { option_copied result ≡ slice_get self.now.state.subs.live place }
    {
        self.state().subs.live().get(place)
    }

    /// Is it a provider, joining or joined, of a live session?
    pub fn live(&self, provider: ProviderId) -> bool
        ensures { result ≡ is_some (provider_of self.now.state provider) }
    {
        is_live(self.state(), provider)
    }

    /// The subscriptions of the group, oldest first, where members or value differ; none otherwise.
    pub fn notes(
        &self,
        alloc: Global,
        group: &[u8],
        before: &GroupState,
        after: &GroupState,
    ) -> Result<Tokens, NoMemory>
        ensures { IfOk result
            (λ l. l ≡ notes_of group.now before.now after.now self.now.state.subs) }
    {
        self.state().subs.notes(alloc, group, before, after)
    }

    /// The client of the live session of this name.
    pub fn client(&self, name: &[u8]) -> Option<&C>
        ensures { option_copied result ≡ client_named self.now name.now }
    {
        match session_place(self.state(), name) {
            None => None,
            Some(i) => self.clients().get(i),
        }
    }

    /// The token of the live session of this name; 0 where there is none.
    pub fn client_token(&self, name: &[u8]) -> ClientToken
        ensures { result ≡ client_token self.now.state name.now }
    {
        client_token(self.state(), name)
    }

    /// The token of the client's provider of the group; 0 where there is none.
    pub fn member_token(&self, client: ClientToken, group: &[u8]) -> MemberToken
        ensures { result ≡ member_token self.now.state client group.now }
    {
        member_token(self.state(), client, group)
    }

    /// The token of the client's subscription to the group; 0 where there is none.
    pub fn sub_token(&self, client: ClientToken, group: &[u8]) -> SubToken
        ensures { result ≡ sub_token self.now.state client group.now }
    {
        sub_token(self.state(), client, group)
    }

    /// The name of a live client.
    pub fn client_name(&self, client: ClientToken) -> Option<&[u8]>
        ensures { option_copied result ≡ client_name self.now.state client }
    {
        self.state().client_name(client)
    }
}
