//! The sessions of a node, with their clients.
ghost use Rattle.std.specs.Prelude.{◌≡◌, ◌≤◌, ◌++◌, ◌∷◌, [], List, Option, false, ◌<◌, IsTrue, IfOk, OnOk, OnErr, map, option_copied, length};
ghost use Rattle.proposal_core.specs.Fold.{joiners_fit};
ghost use Rattle.subscribe_core.specs.Subs.{is_live};
ghost use Rattle.client_callbacks.specs.declared.ballot.Filled.{Filled};
ghost use Rattle.client_callbacks.specs.Handed.{Handed};
ghost use Rattle.session_state.specs.State.{no_sessions, client_place, place_of};
ghost use Rattle.session_state.specs.Calls.{Answers, AnswersAlways, inited, joined, left, expelled, state_changed, message_sent, attributes_changed, voted, subscribe_taken, unsubscribe_taken, goodbye_taken, removed_at};
ghost use Rattle.session_state.specs.HandOn.{hearers, casts_out, handed_on, takes_telling, take_telling, subscriber_of};
ghost use Rattle.session_clients.specs.Clients.{StandFor, StandAfter, is_at, KeepsAllBut, KeepsScripts};
ghost use Rattle.session_clients.specs.Notices.{notified, hears_at, told_lists, noted_lists, Fillings};

use client_callbacks::{Callbacks, Told, Why};
use group_attr::{Attrs, Phases};
use proposal_core::{Entry, GroupState, Vote};
use rsct_packet::{List, Name, NoMemory, ProviderId, ViewId};
use session_calls::{close_session, has_subscription, open_session, subscriber_of};
use session_clients::{hand_entry_on, tell_at};
use session_delivery::{client_place, place_of, take_telling, takes_telling};
use session_state::{Casts, GsFault, Locals, MemberToken, NewEntry, SessionState};
use std::alloc::Global;
use std::marker::Model;
use subscribe_core::{ClientToken, SubToken, Subs};

/// An entry that was put at a place of a group's list in a view, with the group's states before and after it.
#[derive(Clone, Copy)]
pub struct PutEntry<'a> {
    pub view: ViewId,
    pub group: &'a Name,
    pub place: u32,
    pub entry: &'a Entry,
    pub before: &'a GroupState,
    pub after: &'a GroupState,
}

/// The sessions of a node: what it has of its clients, and the clients.
#[derive(Drop)]
pub struct Sessions<C: Callbacks> {
    state: SessionState,
    clients: Vec<C>,
}

impl<C: Callbacks> Model for Sessions<C> {
    ghost use Rattle.std.specs.Prelude.{◌≡◌, IsTrue, length};
    ghost use Rattle.client_callbacks.specs.Ballots.{is_level};
    ghost use Rattle.session_clients.specs.Clients.{SessionsView};

    ghost Value = { SessionsView C };

    ghost view = { λ s. record { state = s.state; clients = s.clients.items } };

    ghost invariant = { λ s. (length s.clients.items ≡ length s.state.sessions) × IsTrue (is_level s.state.level) };
}

impl<C: Callbacks> Sessions<C> {
    /// No session, at level 1.
    pub fn new(alloc: Global, me: u8, inc: u32) -> Sessions<C>
        ensures { result ≡ record { state = no_sessions me inc; clients = [] } }
    {
        Sessions {
            state: SessionState {
                me,
                inc,
                level: 1,
                last_request: 0,
                last_client: 0,
                sessions: List::new(alloc),
                providers: Locals::new(alloc),
                requests: List::new(alloc),
                subs: Subs::new(alloc),
                kept: List::new(alloc),
            },
            clients: Vec::new(alloc),
        }
    }

    /// What the node has of its clients.
    pub fn state(&self) -> &SessionState
        ensures { result.now ≡ self.now.state }
    {
        &self.state
    }

    /// The clients, in the order of their sessions.
    pub fn clients(&self) -> &[C]
        ensures clients { result.now ≡ self.now.clients }
        ensures aligned { length self.now.clients ≡ length self.now.state.sessions }
    {
        self.clients.as_slice()
    }

    /// Values are limited by this level from now on.
    pub fn set_level(&mut self, level: u8)
        requires low { 1 ≤ level }
        requires high { level ≤ 2 }
        ensures { self.new ≡ record {
          state = record
              (self.old.state) { level = level };
          clients = self.old.clients;
        } }
    {
        self.state.level = level;
    }

    /// Opens a session of this name with this client.
    pub fn init(&mut self, alloc: Global, name: &[u8], client: C) -> Result<ClientToken, GsFault>
        ensures answer { Answers result self.old.state self.new.state
            (inited self.old.state name.now) }
        ensures token { IfOk result (λ t. t.number ≡ self.new.state.last_client) }
        ensures client { OnOk result (self.new.clients ≡ self.old.clients ++ client ∷ []) }
        ensures refused { OnErr result (self.new ≡ self.old) }
    {
        open_session(&mut self.state, &mut self.clients, alloc, name, client)
    }

    /// Adds a joining provider of the client, with its join's request.
    pub fn join(
        &mut self,
        alloc: Global,
        client: ClientToken,
        group: &[u8],
        instance: u16,
        attrs: Attrs,
    ) -> Result<MemberToken, GsFault>
        ensures answer { Answers result self.old.state self.new.state
            (joined self.old.state client group.now instance attrs) }
        ensures token { IfOk result (λ m. m.number ≡ self.new.state.last_request) }
        ensures clients { self.new.clients ≡ self.old.clients }
    {
        session_calls::join(&mut self.state, alloc, client, group, instance, attrs)
    }

    /// Asks that the provider leaves.
    pub fn leave(
        &mut self,
        alloc: Global,
        member: MemberToken,
        phases: Phases,
    ) -> Result<(), GsFault>
        ensures answer { Answers result self.old.state self.new.state
            (left self.old.state member phases) }
        ensures clients { self.new.clients ≡ self.old.clients }
    {
        session_calls::leave(&mut self.state, alloc, member, phases)
    }

    /// Asks that these are expelled: 1 to 64, which differ.
    pub fn expel(
        &mut self,
        alloc: Global,
        member: MemberToken,
        phases: Phases,
        out: &[ProviderId],
    ) -> Result<(), GsFault>
        ensures answer { Answers result self.old.state self.new.state
            (expelled self.old.state member phases out.now) }
        ensures clients { self.new.clients ≡ self.old.clients }
    {
        session_calls::expel(&mut self.state, alloc, member, phases, out)
    }

    /// Asks that the group's value becomes this one, within the limit of the level.
    pub fn change_state(
        &mut self,
        alloc: Global,
        member: MemberToken,
        phases: Phases,
        value: &[u8],
    ) -> Result<(), GsFault>
        ensures answer { Answers result self.old.state self.new.state
            (state_changed self.old.state member phases value.now) }
        ensures clients { self.new.clients ≡ self.old.clients }
    {
        session_calls::change_state(&mut self.state, alloc, member, phases, value)
    }

    /// Asks that this message, of at most 1,024 bytes, is sent to all.
    pub fn send_message(
        &mut self,
        alloc: Global,
        member: MemberToken,
        phases: Phases,
        bytes: &[u8],
    ) -> Result<(), GsFault>
        ensures answer { Answers result self.old.state self.new.state
            (message_sent self.old.state member phases bytes.now) }
        ensures clients { self.new.clients ≡ self.old.clients }
    {
        session_calls::send_message(&mut self.state, alloc, member, phases, bytes)
    }

    /// Asks that the group's attributes become these.
    pub fn change_attributes(
        &mut self,
        alloc: Global,
        member: MemberToken,
        phases: Phases,
        attrs: Attrs,
    ) -> Result<(), GsFault>
        ensures answer { Answers result self.old.state self.new.state
            (attributes_changed self.old.state member phases attrs) }
        ensures clients { self.new.clients ≡ self.old.clients }
    {
        session_calls::change_attributes(&mut self.state, alloc, member, phases, attrs)
    }

    /// Keeps a ballot of the provider for the phase that is open for it.
    pub fn vote(
        &mut self,
        alloc: Global,
        member: MemberToken,
        vote: Vote,
        value: Option<&[u8]>,
    ) -> Result<(), GsFault>
        ensures answer { Answers result self.old.state self.new.state
            (voted self.old.state member vote (option_copied value.entry)) }
        ensures clients { self.new.clients ≡ self.old.clients }
    {
        session_calls::vote(&mut self.state, alloc, member, vote, value)
    }

    /// Subscribes the client to a group; `known` says whether the node holds a list of it.
    pub fn subscribe(
        &mut self,
        alloc: Global,
        client: ClientToken,
        group: &[u8],
        known: bool,
    ) -> Result<SubToken, GsFault>
        ensures answer { Answers result self.old.state self.new.state
            (subscribe_taken self.old.state client group.now known) }
        ensures token { IfOk result (λ s. s.number ≡ self.new.state.subs.last) }
        ensures clients { self.new.clients ≡ self.old.clients }
    {
        session_calls::subscribe(&mut self.state, alloc, client, group, known)
    }

    /// Ends a subscription of the client.
    pub fn unsubscribe(
        &mut self,
        client: ClientToken,
        subscription: SubToken,
    ) -> Result<(), GsFault>
        ensures answer { AnswersAlways result self.old.state self.new.state
            (unsubscribe_taken self.old.state client subscription) }
        ensures clients { self.new.clients ≡ self.old.clients }
    {
        session_calls::unsubscribe(&mut self.state, client, subscription)
    }

    /// Ends the session, with its providers and its subscriptions.
    pub fn goodbye(&mut self, client: ClientToken) -> Result<(), GsFault>
        ensures answer { AnswersAlways result self.old.state self.new.state
            (goodbye_taken self.old.state client) }
        ensures clients { OnOk result (self.new.clients
            ≡ removed_at (client_place self.old.state client) self.old.clients) }
        ensures refused { OnErr result (self.new ≡ self.old) }
    {
        close_session(&mut self.state, &mut self.clients, client)
    }

    /// Hands an entry on: each local provider that takes part hears it, members before the entry first, then
    /// running joiners, then new ones. Its client may fill a ballot where the entry asks for votes. What was handed
    /// and cast goes to the end of `out`: each client stands for its notice with the ballot that is cast. A client
    /// that is handed nothing keeps its value, also where memory runs out.
    pub fn hand_on(
        &mut self,
        alloc: Global,
        put: &PutEntry<'_>,
        out: &mut Casts,
    ) -> Result<(), NoMemory>
        requires { IsTrue (joiners_fit put.now.after.now) }
        ensures scripts { OnOk result (KeepsScripts C.script self.old.clients self.new.clients) }
        ensures others { KeepsAllBut (hears_at self.old.state
            (hearers self.old.state put.now.group.now put.now.before.now put.now.entry.now))
            self.old.clients self.new.clients }
        ensures handed { OnOk result ((bs : List (Option Filled))
            × Fillings (map C.script self.old.clients) self.old.state put.now.entry.now
            put.now.after.now
            (hearers self.old.state put.now.group.now put.now.before.now put.now.entry.now) bs
            × (self.new.state ≡ handed_on self.old.state put.now.group.now put.now.before.now
            put.now.after.now put.now.entry.now bs)
            × (out.new ≡ out.old ++ casts_out self.old.state put.now.group.now put.now.before.now
            put.now.after.now put.now.entry.now bs)
            × StandAfter C.stands_for self.old.clients self.new.clients
            (notified self.old.state put.now.view put.now.group.now put.now.place
            put.now.entry.now put.now.after.now
            (casts_out self.old.state put.now.group.now put.now.before.now put.now.after.now
            put.now.entry.now bs))) }
    {
        let voters = put.after.voters(alloc)?;
        let entry = NewEntry {
            view: put.view,
            group: put.group,
            place: put.place,
            entry: put.entry,
            after: put.after,
            voters: voters.as_slice(),
        };
        hand_entry_on(
            &mut self.state,
            &mut self.clients,
            alloc,
            &entry,
            put.before,
            out,
        )
    }

    /// Tells a provider's client that its request was refused. It answers true exactly where the provider is live
    /// and the request is its outstanding one, or it is dissolved; otherwise it changes nothing. The request is
    /// ended, and the provider is dropped where that was its join, or where it is dissolved. Every other client
    /// keeps its value, also where memory runs out.
    #[tactic(auto, unfolding(session_state::specs::HandOn::take_telling, session_clients::specs::Notices::told_lists))]
    pub fn tell(&mut self, provider: ProviderId, request: u32, why: Why) -> Result<bool, NoMemory>
        ensures answer { IfOk result (λ b. b ≡ takes_telling self.old.state provider request why) }
        ensures untaken { IfOk result (λ b. b ≡ false → self.new ≡ self.old) }
        ensures state { OnOk result
            (self.new.state ≡ take_telling self.old.state provider request why) }
        ensures stand { (hs : List (List Handed)) → StandFor C.stands_for self.old.clients hs
            → OnOk result (StandFor C.stands_for self.new.clients
            (told_lists self.old.state provider request why hs)) }
        ensures scripts { OnOk result (KeepsScripts C.script self.old.clients self.new.clients) }
        ensures others { KeepsAllBut (λ i. is_at i (place_of self.old.state provider))
            self.old.clients self.new.clients }
    {
        if !takes_telling(&self.state, provider, request, why) {
            return Ok(false);
        }
        let told = Told::Refused {
            provider,
            request,
            why,
        };
        tell_at(&mut self.clients, place_of(&self.state, provider), &told)?;
        take_telling(&mut self.state, provider, why);
        Ok(true)
    }

    /// Tells the client of a subscription something. It answers true exactly where the subscription is live;
    /// otherwise it changes nothing. Every other client keeps its value, also where memory runs out.
    #[tactic(auto, unfolding(session_clients::specs::Notices::noted_lists))]
    pub fn note(&mut self, subscription: SubToken, told: &Told) -> Result<bool, NoMemory>
        ensures answer { IfOk result (λ b. b ≡ is_live subscription self.old.state.subs) }
        ensures untaken { IfOk result (λ b. b ≡ false → self.new ≡ self.old) }
        ensures state { self.new.state ≡ self.old.state }
        ensures stand { (hs : List (List Handed)) → StandFor C.stands_for self.old.clients hs
            → OnOk result (StandFor C.stands_for self.new.clients
            (noted_lists self.old.state subscription told.now hs)) }
        ensures scripts { OnOk result (KeepsScripts C.script self.old.clients self.new.clients) }
        ensures others { KeepsAllBut (λ i. is_at i (subscriber_of self.old.state subscription))
            self.old.clients self.new.clients }
    {
        if !has_subscription(&self.state, subscription) {
            return Ok(false);
        }
        tell_at(
            &mut self.clients,
            subscriber_of(&self.state, subscription),
            told,
        )?;
        Ok(true)
    }
}
