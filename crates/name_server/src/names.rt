//! The name table of a view, which its coordinator keeps.
ghost use Rattle.std.specs.Prelude.{◌≡◌, ◌↔◌, ℕ, length, IsTrue, IfOk, OnOk, OnErr, IsErrOf};
ghost use Rattle.name_server.specs.Names.{node_of, table_of, named, names_differ, looked_up, lookup};
ghost use Rattle.name_server.specs.declared.names.NameFault.TheVariants as fault;

use indexmap::IndexMap;
use rsct_packet::{List, Name, NoMemory};
use std::alloc::Global;
use std::marker::Model;

/// From how many names on a new one is refused.
pub const MAX_NAMES: usize = 64;

/// A group's name, and the node that leads the group.
#[derive(Drop)]
pub struct Leader {
    pub group: Name,
    pub node: u8,
}

/// The names that an install brings, each with its node.
pub type Leaders = List<Leader>;

/// Why a look-up is refused: 64 or more names are kept, which carries 64, or memory has run out.
#[derive(Clone, Copy, Debug, PartialEq, Eq)]
pub enum NameFault {
    Full(u32),
    NoMemory,
}

impl From<NoMemory> for NameFault {
    ghost from_gives = { λ _ e. e ≡ fault.NoMemory };

    fn from(_e: NoMemory) -> NameFault {
        NameFault::NoMemory
    }
}

/// The node kept for a name.
fn node_kept(nodes: &IndexMap<Vec<u8>, u8>, group: &[u8]) -> Option<u8>
    ensures { result ≡ node_of group.now (table_of nodes.now.entries) }
{
    nodes.get(group).copied()
}

/// Keeps a node for a name that is new.
#[tactic(auto, using(std::proofs::lemmas::Grind::common_steps))]
fn keep(
    alloc: Global,
    nodes: &mut IndexMap<Vec<u8>, u8>,
    group: &[u8],
    node: u8,
) -> Result<(), NoMemory>
    requires { node_of group.now (table_of nodes.old.entries) ≡ None }
    ensures ok { OnOk result (table_of nodes.new.entries
        ≡ named group.now node (table_of nodes.old.entries)) }
    ensures err { OnErr result (table_of nodes.new.entries ≡ table_of nodes.old.entries) }
{
    let group = Vec::from_slice(alloc, group)?;
    nodes.insert(group, node)?;
    Ok(())
}

/// The map of these names, which differ.
fn nodes_of(alloc: Global, table: &[Leader]) -> Result<IndexMap<Vec<u8>, u8>, NoMemory>
    requires { IsTrue (names_differ table.now) }
    ensures { IfOk result (λ nodes. table_of nodes.entries ≡ table.now) }
{
    let mut nodes = IndexMap::new(alloc);
    for leader in table {
        keep(alloc, &mut nodes, leader.group.bytes(), leader.node)?;
    }
    Ok(nodes)
}

/// The names that were looked up, in the order in which they came, each with its node.
#[derive(Drop)]
pub struct Names {
    nodes: IndexMap<Vec<u8>, u8>,
}

impl Model for Names {
    ghost use Rattle.std.specs.Prelude.{List};
    ghost use Rattle.name_server.specs.declared.names.Leader.{Leader};
    ghost use Rattle.name_server.specs.Names.{table_of};

    ghost Value = { List Leader };

    ghost view = { λ n. table_of n.nodes.entries };
}

impl Names {
    /// The table that an install brings.
    pub fn of_install(alloc: Global, table: &Leaders) -> Result<Names, NoMemory>
        requires { IsTrue (names_differ table.now) }
        ensures { IfOk result (λ names. names ≡ table.now) }
    {
        Ok(Names {
            nodes: nodes_of(alloc, table.as_slice())?,
        })
    }

    /// How many names are kept.
    pub fn len(&self) -> usize
        ensures { result ≡ length self.now }
    {
        self.nodes.len()
    }

    /// The node of a group: a new name is kept with the node that asks, unless 64 or more are kept.
    pub fn lookup(&mut self, alloc: Global, group: &[u8], asker: u8) -> Result<u8, NameFault>
        ensures node { IfOk result (λ n. looked_up group.now asker self.old ≡ Some n) }
        ensures kept { OnOk result (self.new ≡ lookup group.now asker self.old) }
        ensures full { IsErrOf result (NameFault.Full 64)
            ↔ (looked_up group.now asker self.old ≡ None) }
        ensures carries { (n : ℕ) → IsErrOf result (NameFault.Full n) → n ≡ 64 }
        ensures err { OnErr result (self.new ≡ self.old) }
    {
        if let Some(node) = node_kept(&self.nodes, group) {
            return Ok(node);
        }
        if self.nodes.len() >= MAX_NAMES {
            return Err(NameFault::Full(MAX_NAMES as u32));
        }
        keep(alloc, &mut self.nodes, group, asker)?;
        Ok(asker)
    }
}
