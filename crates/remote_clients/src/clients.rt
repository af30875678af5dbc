//! Whose client and whose provider it is.
ghost use Rattle.std.specs.Prelude.{◌≡◌, ◌==◌, not, IfOk, OnOk, OnErr, filter, find, option_copied};
ghost use Rattle.remote_clients.specs.Clients.{no_clients, is_of_key, is_gone, is_live, is_owner_of, is_owned_by, key_of_name, key_of_provider, hearer_of, join_in, join_of, with_record, with_call, goodbye_owed, with_end, admits_first, admits_later, admits};

use node_state::{CallLine, Happened};
use proposal_core::Proposal;
use rsct_packet::{List, NoMemory, ProviderId};
use script_reader::caller;
use std::alloc::Global;
use std::marker::Model;

/// A client that a key made, and its name.
#[derive(Drop)]
pub struct RemoteClient {
    pub key: u32,
    pub name: List<u8>,
}

/// A provider, and the key that asked for its join.
#[derive(Clone, Copy, Debug, PartialEq, Eq)]
pub struct Owner {
    pub provider: ProviderId,
    pub key: u32,
}

/// Is the key among these?
fn is_gone(gone: &[u32], key: u32) -> bool
    ensures { result ≡ is_gone gone.now key }
{
    gone.iter().any(|k| *k == key)
}

/// Has the client this name, and has not said goodbye?
fn is_live(client: &RemoteClient, gone: &[u32], name: &[u8]) -> bool
    ensures { result ≡ is_live gone.now name.now client.now }
{
    client.name.as_slice() == name && !is_gone(gone, client.key)
}

/// The client that the key made.
fn client_of(made: &[RemoteClient], key: u32) -> Option<&RemoteClient>
    ensures { option_copied result ≡ find (is_of_key key) made.now }
{
    made.iter().find(|client| client.key == key)
}

/// The client of this name that has not said goodbye.
fn live_client<'a>(made: &'a [RemoteClient], gone: &[u32], name: &[u8]) -> Option<&'a RemoteClient>
    ensures { option_copied result ≡ find (is_live gone.now name.now) made.entry.now }
{
    made.iter().find(|client| is_live(client, gone, name))
}

/// The key of the client of this name that has not said goodbye.
#[tactic(auto, unfolding(crate::specs::Clients::key_of_name))]
fn key_of_name(made: &[RemoteClient], gone: &[u32], name: &[u8]) -> Option<u32>
    ensures { result ≡ key_of_name made.now gone.now name.now }
{
    match live_client(made, gone, name) {
        None => None,
        Some(client) => Some(client.key),
    }
}

/// Who asked for the join of the provider.
fn owner_of(owners: &[Owner], provider: ProviderId) -> Option<&Owner>
    ensures { option_copied result ≡ find (is_owner_of provider) owners.now }
{
    owners.iter().find(|owner| owner.provider == provider)
}

/// The key that asked for the join of the provider.
#[tactic(auto, unfolding(crate::specs::Clients::key_of_provider))]
fn key_of_provider(owners: &[Owner], provider: ProviderId) -> Option<u32>
    ensures { result ≡ key_of_provider owners.now provider }
{
    match owner_of(owners, provider) {
        None => None,
        Some(owner) => Some(owner.key),
    }
}

/// The provider, where this proposal is its join.
fn join_in(provider: ProviderId, proposal: &Proposal) -> Option<ProviderId>
    ensures { result ≡ join_in provider proposal.now }
{
    match proposal {
        Proposal::Join { .. } => Some(provider),
        _ => None,
    }
}

/// The provider whose join this record takes.
fn join_of(happened: &Happened) -> Option<ProviderId>
    ensures { result ≡ join_of happened.now }
{
    match happened {
        Happened::Asked {
            provider,
            proposal,
            ..
        } => join_in(*provider, proposal),
        _ => None,
    }
}

/// May it be the first call of a key? It makes a client at this node, whose votes are calls alone.
fn admits_first(me: u8, call: &CallLine) -> bool
    ensures { result ≡ admits_first me call.now }
{
    match call {
        CallLine::Init { node, votes, .. } => *node == me && votes.as_slice() == b"-".as_slice(),
        _ => false,
    }
}

/// May it be a later call of the key that made this client? It is of that client, which has not said goodbye.
fn admits_later(gone: &[u32], key: u32, client: &RemoteClient, call: &CallLine) -> bool
    ensures { result ≡ admits_later gone.now key client.now call.now }
{
    if matches!(call, CallLine::Init { .. }) {
        return false;
    }
    client.name.as_slice() == caller(call) && !is_gone(gone, key)
}

/// Takes the key's client off.
fn leave_out_client(made: &mut List<RemoteClient>, key: u32)
    ensures { made.new ≡ filter (λ r. not (is_of_key key r)) made.old }
{
    made.retain(|client| client.key != key);
}

/// Takes the key off.
fn leave_out_key(gone: &mut List<u32>, key: u32)
    ensures { gone.new ≡ filter (λ k. not (k == key)) gone.old }
{
    gone.retain(|other| *other != key);
}

/// Takes the key's providers off.
fn leave_out_owner(owners: &mut List<Owner>, key: u32)
    ensures { owners.new ≡ filter (λ o. not (is_owned_by key o)) owners.old }
{
    owners.retain(|owner| owner.key != key);
}

/// The clients of all keys, at most one of each, in the order in which they were made; the keys whose clients have said
/// goodbye; and the providers whose joins they asked for.
#[derive(Drop)]
pub struct Clients {
    made: List<RemoteClient>,
    gone: List<u32>,
    owners: List<Owner>,
}

impl Model for Clients {
    ghost use Rattle.remote_clients.specs.Clients.{ClientsState};

    ghost Value = { ClientsState };

    ghost view = { λ c. record { made = c.made; gone = c.gone; owners = c.owners } };
}

impl Clients {
    /// None. It takes no memory.
    pub fn new(alloc: Global) -> Clients
        ensures { result ≡ no_clients }
    {
        Clients {
            made: List::new(alloc),
            gone: List::new(alloc),
            owners: List::new(alloc),
        }
    }

    /// Is this call of a key one of the node `me`? A call that makes a client is where it is for that node, its votes
    /// are `-`, and the key made none before; any other where it names the client that the key made, and that one has
    /// not said goodbye.
    #[tactic(auto, unfolding(crate::specs::Clients::admits))]
    pub fn admits(&self, me: u8, key: u32, call: &CallLine) -> bool
        ensures { result ≡ admits self.now me key call.now }
    {
        match client_of(self.made.as_slice(), key) {
            None => admits_first(me, call),
            Some(client) => admits_later(self.gone.as_slice(), key, client, call),
        }
    }

    /// The key of the client of this name that has not said goodbye.
    pub fn key_of(&self, name: &[u8]) -> Option<u32>
        ensures { result ≡ key_of_name self.now.made self.now.gone name.now }
    {
        key_of_name(self.made.as_slice(), self.gone.as_slice(), name)
    }

    /// The key whose client is to hear this record, if one is. `calling`: the key whose call the step was that made it.
    #[tactic(auto, unfolding(crate::specs::Clients::hearer_of))]
    pub fn hearer(&self, calling: Option<u32>, happened: &Happened) -> Option<u32>
        ensures { result ≡ hearer_of self.now calling happened.now }
    {
        let (made, gone) = (self.made.as_slice(), self.gone.as_slice());
        let owners = self.owners.as_slice();
        match happened {
            Happened::Refused { .. } => calling,
            Happened::Noted { client, .. } => key_of_name(made, gone, client.as_slice()),
            Happened::Heard { provider, .. } => key_of_provider(owners, *provider),
            Happened::Cast { provider, .. } => key_of_provider(owners, *provider),
            Happened::Asked { provider, .. } => key_of_provider(owners, *provider),
            Happened::Told { provider, .. } => key_of_provider(owners, *provider),
            _ => None,
        }
    }

    /// A record comes: a join that a key's call asked for makes the provider the key's. Where memory has run out nothing
    /// has changed.
    #[tactic(auto, unfolding(crate::specs::Clients::with_record))]
    pub fn note(&mut self, calling: Option<u32>, happened: &Happened) -> Result<(), NoMemory>
        ensures ok { OnOk result (self.new ≡ with_record calling happened.now self.old) }
        ensures err { OnErr result (self.new ≡ self.old) }
    {
        let Some(key) = calling else {
            return Ok(());
        };
        match join_of(happened) {
            None => Ok(()),
            Some(provider) => self.owners.push(Owner { provider, key }),
        }
    }

    /// A call of the key was taken: its client is made, or has said goodbye. Where memory has run out nothing has changed.
    #[tactic(auto, unfolding(crate::specs::Clients::with_call))]
    pub fn take(&mut self, alloc: Global, key: u32, call: &CallLine) -> Result<(), NoMemory>
        ensures ok { OnOk result (self.new ≡ with_call key call.now self.old) }
        ensures err { OnErr result (self.new ≡ self.old) }
    {
        match call {
            CallLine::Init { name, .. } => {
                let name = List::of(alloc, name.as_slice())?;
                self.made.push(RemoteClient { key, name })
            }
            CallLine::Goodbye { .. } => self.gone.push(key),
            _ => Ok(()),
        }
    }

    /// The goodbye that a key owes: that of the client that it made, where that one has said none.
    #[tactic(auto, unfolding(crate::specs::Clients::goodbye_owed))]
    pub fn goodbye_owed(&self, alloc: Global, key: u32) -> Result<Option<CallLine>, NoMemory>
        ensures { IfOk result (λ call. call ≡ goodbye_owed self.now key) }
    {
        match client_of(self.made.as_slice(), key) {
            None => Ok(None),
            Some(made) => {
                if is_gone(self.gone.as_slice(), key) {
                    return Ok(None);
                }
                let client = List::of(alloc, made.name.as_slice())?;
                Ok(Some(CallLine::Goodbye { client }))
            }
        }
    }

    /// The key has ended: its client is forgotten, and its providers are nobody's.
    #[tactic(auto, unfolding(crate::specs::Clients::with_end))]
    pub fn end(&mut self, key: u32)
        ensures { self.new ≡ with_end key self.old }
    {
        leave_out_client(&mut self.made, key);
        leave_out_key(&mut self.gone, key);
        leave_out_owner(&mut self.owners, key);
    }
}
