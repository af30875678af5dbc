//! The subscriptions of a node's clients.
ghost use Rattle.std.specs.Prelude.{◌≡◌, ◌<◌, ◌-◌, ◌^◌, ◌↔◌, IsTrue, IfOk, OnOk, OnErr, IsErrOf, filter, not};
ghost use Rattle.std.specs.List.{list_any};
ghost use Rattle.subscribe_core.specs.Subs.{no_subs, has_token, is_of_client, is_of as is_of_both, is_live, is_subscribed as is_subscribed_in, next_token, subs_add, subs_remove, subs_remove_client, is_unknown, tokens_of, tokens_among, differs, notes_of, rise};
ghost use Rattle.subscribe_core.specs.declared.subs.SubFault.TheVariants as fault;

use group_attr::HOST_MEMBERSHIP;
use proposal_core::GroupState;
use rsct_packet::{List, NoMemory};
use std::alloc::Global;
use std::marker::Model;

/// A client of a node: clients count from 1, and no live client has the number 0.
#[derive(Clone, Copy, Debug, PartialEq, Eq)]
pub struct ClientToken {
    pub number: u32,
}

/// A subscription: they count from 1, and no live subscription has the number 0.
#[derive(Clone, Copy, Debug, PartialEq, Eq)]
pub struct SubToken {
    pub number: u32,
}

/// Why a subscription is refused: the group is neither known nor `HostMembership`, or memory has run out.
#[derive(Clone, Copy, Debug, PartialEq, Eq)]
pub enum SubFault {
    UnknownGroup,
    NoMemory,
}

impl From<NoMemory> for SubFault {
    ghost from_gives = { λ _ e. e ≡ fault.NoMemory };

    fn from(_e: NoMemory) -> SubFault {
        SubFault::NoMemory
    }
}

/// Tokens of subscriptions, oldest first.
pub type Tokens = List<SubToken>;

/// A live subscription: its token, its client, and the group's name.
#[derive(Drop)]
pub struct Subscription {
    pub token: SubToken,
    pub client: ClientToken,
    pub group: List<u8>,
}

/// The live subscriptions of a node, oldest first, and the number of the newest token that was given.
#[derive(Drop)]
pub struct Subs {
    last: u32,
    live: List<Subscription>,
}

impl Model for Subs {
    ghost use Rattle.std.specs.Prelude.{IsTrue};
    ghost use Rattle.subscribe_core.specs.Subs.{SubsView, rise};

    ghost Value = { SubsView };

    ghost view = { λ s. record { last = s.last; live = s.live } };

    ghost invariant = { λ s. IsTrue (rise 0 s.last s.live) };
}

/// Is the token one of theirs?
fn is_token_among(live: &[Subscription], token: SubToken) -> bool
    ensures { result ≡ list_any (has_token token) live.now }
{
    live.iter().any(|x| x.token == token)
}

/// Is the subscription the client's to the group?
fn is_of(subscription: &Subscription, client: ClientToken, group: &[u8]) -> bool
    ensures { result ≡ is_of_both client group.now subscription.now }
{
    subscription.client == client && subscription.group.as_slice() == group
}

/// Is one of them the client's to the group?
fn is_client_among(live: &[Subscription], client: ClientToken, group: &[u8]) -> bool
    ensures { result ≡ list_any (is_of_both client group.now) live.now }
{
    live.iter().any(|x| is_of(x, client, group))
}

/// Takes out the subscription with this token.
fn retain_others(live: &mut List<Subscription>, token: SubToken)
    ensures { live.new ≡ filter (λ x. not (has_token token x)) live.old }
{
    live.retain(|x| x.token != token);
}

/// Takes out the subscriptions of this client.
fn retain_other_clients(live: &mut List<Subscription>, client: ClientToken)
    ensures { live.new ≡ filter (λ x. not (is_of_client client x)) live.old }
{
    live.retain(|x| x.client != client);
}

/// Do members or value differ?
pub fn differ(before: &GroupState, after: &GroupState) -> bool
    ensures { result ≡ differs before.now after.now }
{
    !(before.members.as_slice() == after.members.as_slice()
        && before.value.bytes() == after.value.bytes())
}

/// The tokens of a group's subscriptions.
fn tokens_in(alloc: Global, live: &[Subscription], group: &[u8]) -> Result<Tokens, NoMemory>
    ensures { IfOk result (λ tokens. tokens ≡ tokens_among group.now live.now) }
{
    let mut tokens = List::new(alloc);
    for subscription in live {
        if subscription.group.as_slice() == group {
            tokens.push(subscription.token)?;
        }
    }
    Ok(tokens)
}

impl Subs {
    /// No subscription.
    pub fn new(alloc: Global) -> Subs
        ensures { result ≡ no_subs }
    {
        Subs {
            last: 0,
            live: List::new(alloc),
        }
    }

    /// The number of the newest token; 0 where none was given.
    pub fn last(&self) -> u32
        ensures { result ≡ self.now.last }
    {
        self.last
    }

    /// The live subscriptions, oldest first. Their tokens rise, from 1 at least to the newest at most.
    pub fn live(&self) -> &[Subscription]
        ensures value { result.now ≡ self.now.live }
        ensures rise { IsTrue (rise 0 self.now.last result.now) }
    {
        self.live.as_slice()
    }

    /// Subscribes a client to a group. `UnknownGroup` exactly where the group is neither known nor
    /// `HostMembership`; a refusal changes nothing.
    pub fn add(
        &mut self,
        alloc: Global,
        client: ClientToken,
        group: &[u8],
        known: bool,
    ) -> Result<SubToken, SubFault>
        requires { self.old.last < 2 ^ 32 - 1 }
        ensures token { IfOk result (λ token. token ≡ next_token self.old) }
        ensures subscribed { OnOk result (self.new ≡ subs_add client group.now self.old) }
        ensures unknown { IsErrOf result SubFault.UnknownGroup
            ↔ IsTrue (is_unknown group.now known) }
        ensures err { OnErr result (self.new ≡ self.old) }
    {
        if !known && group != HOST_MEMBERSHIP {
            return Err(SubFault::UnknownGroup);
        }
        let group = List::of(alloc, group)?;
        let token = SubToken {
            number: self.last + 1,
        };
        self.live.push(Subscription {
            token,
            client,
            group,
        })?;
        self.last += 1;
        Ok(token)
    }

    /// Ends a subscription; `true` exactly where it was live.
    pub fn remove(&mut self, token: SubToken) -> bool
        ensures live { result ≡ is_live token self.old }
        ensures removed { self.new ≡ subs_remove token self.old }
    {
        let was_live = is_token_among(self.live.as_slice(), token);
        retain_others(&mut self.live, token);
        was_live
    }

    /// Ends the subscriptions of a client.
    pub fn remove_client(&mut self, client: ClientToken)
        ensures { self.new ≡ subs_remove_client client self.old }
    {
        retain_other_clients(&mut self.live, client);
    }

    /// Has the client a live subscription to the group?
    pub fn is_subscribed(&self, client: ClientToken, group: &[u8]) -> bool
        ensures { result ≡ is_subscribed_in client group.now self.now }
    {
        is_client_among(self.live.as_slice(), client, group)
    }

    /// The live tokens of a group, oldest first.
    pub fn tokens(&self, alloc: Global, group: &[u8]) -> Result<Tokens, NoMemory>
        ensures { IfOk result (λ tokens. tokens ≡ tokens_of group.now self.now) }
    {
        tokens_in(alloc, self.live.as_slice(), group)
    }

    /// Whom a change of a group is noted to: its live tokens, oldest first, where members or value differ, and
    /// none otherwise.
    pub fn notes(
        &self,
        alloc: Global,
        group: &[u8],
        before: &GroupState,
        after: &GroupState,
    ) -> Result<Tokens, NoMemory>
        ensures { IfOk result (λ tokens. tokens ≡ notes_of group.now before.now after.now
            self.now) }
    {
        if differ(before, after) {
            self.tokens(alloc, group)
        } else {
            Ok(List::new(alloc))
        }
    }
}
