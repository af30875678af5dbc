//! The clients that lines have named.
ghost use Rattle.std.specs.Prelude.{◌≡◌, ◌∷◌, ◌==◌, ◌&&◌, [], not, find, OnOk};
ghost use Rattle.std.specs.List.{list_any};
ghost use Rattle.world_model.specs.Reading.{is_client, node_of_client};
ghost use Rattle.script_reader.specs.Clients.{newest_first, client_seen};

use rsct_packet::{List, NoMemory};
use std::alloc::Global;
use std::marker::Model;

/// A client and its node.
#[derive(Drop)]
struct Named {
    name: List<u8>,
    node: u8,
}

/// The clients, kept with the newest last.
#[derive(Drop)]
pub struct Clients {
    named: List<Named>,
}

impl Model for Clients {
    ghost use Rattle.std.specs.Prelude.{List};
    ghost use Rattle.world_model.specs.Reading.{Client};
    ghost use Rattle.script_reader.specs.Clients.{newest_first, client_seen};

    ghost Value = { List Client };

    ghost view = { λ c. newest_first client_seen c.named };
}

#[tactic(auto, unfolding(world_model::specs::Reading::is_client))]
fn has_name(client: &Named, name: &[u8]) -> bool
    ensures { result ≡ is_client name.now (client_seen client.now) }
{
    client.name.as_slice() == name
}

fn is_among(named: &[Named], name: &[u8]) -> bool
    ensures { result ≡ list_any (λ c. is_client name.now (client_seen c)) named.now }
{
    named.iter().any(|c| has_name(c, name))
}

fn is_among_elsewhere(named: &[Named], name: &[u8], node: u8) -> bool
    ensures { result ≡ list_any (λ c. is_client name.now (client_seen c) && not (c.node == node))
        named.now }
{
    named.iter().any(|c| has_name(c, name) && c.node != node)
}

/// The node of the last one of this name; 0 where there is none.
#[tactic(auto, unfolding(world_model::specs::Reading::node_of_client), using(std::proofs::lemmas::List::Sums::fold_more))]
fn last_node(named: &[Named], name: &[u8]) -> u8
    ensures { result ≡ node_of_client (find (is_client name.now)
        (newest_first client_seen named.now)) }
{
    let mut node = 0;
    for c in named {
        if has_name(c, name) {
            node = c.node;
        }
    }
    node
}

impl Clients {
    /// No client.
    pub fn new(alloc: Global) -> Clients
        ensures { result ≡ [] }
    {
        Clients {
            named: List::new(alloc),
        }
    }

    /// With a client more, the newest.
    #[tactic(auto, using(std::proofs::lemmas::Grind::common_steps))]
    pub fn add(&mut self, name: List<u8>, node: u8) -> Result<(), NoMemory>
        ensures { OnOk result (self.new ≡ record { name = name; node = node } ∷ self.old) }
    {
        self.named.push(Named { name, node })
    }

    /// Is there a client of this name?
    #[tactic(auto, using(crate::proofs::ClientLaws::any_newest))]
    pub fn is_known(&self, name: &[u8]) -> bool
        ensures { result ≡ list_any (λ c. is_client name.now c) self.now }
    {
        is_among(self.named.as_slice(), name)
    }

    /// Is there a client of this name at another node?
    #[tactic(auto, using(crate::proofs::ClientLaws::any_newest))]
    pub fn is_elsewhere(&self, name: &[u8], node: u8) -> bool
        ensures { result ≡ list_any (λ c. is_client name.now c && not (c.node == node)) self.now }
    {
        is_among_elsewhere(self.named.as_slice(), name, node)
    }

    /// The node of the newest client of this name; 0 where there is none.
    pub fn node_of(&self, name: &[u8]) -> u8
        ensures { result ≡ node_of_client (find (is_client name.now) self.now) }
    {
        last_node(self.named.as_slice(), name)
    }
}
