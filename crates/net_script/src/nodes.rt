//! The nodes of a world that are up, ascending.
ghost use Rattle.std.specs.Prelude.{◌≡◌, ◌<◌, ◌≤◌, [], length, IfSome, IfOk, OnOk, IsTrue, find, is_some, option_copied, map};
ghost use Rattle.std.specs.List.{position};
ghost use Rattle.rsct_packet.specs.Search.{place_where, front_len, insert_before};
ghost use Rattle.rsct_packet.specs.Lists.{drop_where};
ghost use Rattle.node_state.specs.Step.{Calls};
ghost use Rattle.node_core.specs.Event.{event_in, is_taken};
ghost use Rattle.net_script.specs.Standing.{is_me, comes_before, number_in, StepsIn, with_scripts};
ghost use Rattle.net_script.specs.Hearing.{NodesHear};

use crate::calls::call_node;
use crate::steps::{Left, step_node};
use client_callbacks::{Callbacks, Made};
use node_core::{Node, NodeEvent};
use node_state::CallLine;
use rsct_packet::NoMemory;
use std::alloc::Global;
use std::marker::Model;

/// The nodes that are up, ascending.
#[derive(Drop)]
pub struct Nodes<C: Callbacks> {
    rows: Vec<Node<C>>,
}

impl<C: Callbacks> Model for Nodes<C> {
    ghost use Rattle.std.specs.Prelude.{List};
    ghost use Rattle.node_core.specs.Node.{NodeView};

    ghost Value = { List (NodeView C) };

    ghost view = { λ n. n.rows.items };
}

/// Where a node stands among those that are up.
fn place_alone<C: Callbacks>(nodes: &[Node<C>], node: u8) -> Option<usize>
    ensures { result ≡ position (is_me node) nodes.now }
{
    nodes.iter().position(|x| x.core().views.me == node)
}

#[tactic(auto, using(rsct_packet::proofs::SearchLaws::place_is_position, rsct_packet::proofs::SearchLaws::place_is_in))]
fn place_of<C: Callbacks>(nodes: &[Node<C>], node: u8) -> Option<usize>
    ensures value { result ≡ place_where (is_me node) nodes.now }
    ensures within { IfSome result (λ i. i < length nodes.now) }
{
    place_alone(nodes, node)
}

/// Does the node stand after this number?
fn comes_before<C: Callbacks>(number: u8, node: &Node<C>) -> bool
    ensures { result ≡ comes_before number node.now }
{
    number < node.core().views.me
}

/// Where the first node stands whose number is greater.
fn first_after<C: Callbacks>(nodes: &[Node<C>], node: u8) -> Option<usize>
    ensures { result ≡ position (comes_before node) nodes.now }
{
    nodes.iter().position(|x| comes_before(node, x))
}

/// How many nodes stand before a number.
#[tactic(auto, using(rsct_packet::proofs::SearchLaws::front_is_position, rsct_packet::proofs::SearchLaws::front_is_in))]
fn front<C: Callbacks>(nodes: &[Node<C>], node: u8) -> usize
    ensures value { result ≡ front_len (comes_before node) nodes.now }
    ensures within { result ≤ length nodes.now }
{
    first_after(nodes, node).unwrap_or(nodes.len())
}

impl<C: Callbacks> Nodes<C> {
    /// No node is up.
    pub fn new(alloc: Global) -> Nodes<C>
        ensures { result ≡ [] }
    {
        Nodes {
            rows: Vec::new(alloc),
        }
    }

    /// The node of this number, if it is up.
    pub fn get(&self, node: u8) -> Option<&Node<C>>
        ensures { option_copied result ≡ find (is_me node) self.now }
    {
        self.rows.iter().find(|x| x.core().views.me == node)
    }

    /// Is the node of this number up?
    pub fn is_up(&self, node: u8) -> bool
        ensures { result ≡ is_some (find (is_me node) self.now) }
    {
        self.get(node).is_some()
    }

    /// The numbers of the nodes that are up, ascending.
    #[tactic(auto, using(std::proofs::lemmas::List::map_more))]
    pub fn numbers(&self, alloc: Global) -> Result<Vec<u8>, NoMemory>
        ensures { IfOk result (λ ns. ns.items ≡ map number_in self.now) }
    {
        let mut ns = Vec::new(alloc);
        for x in self.rows.as_slice() {
            ns.push(x.core().views.me)?;
        }
        Ok(ns)
    }

    /// A node that starts stands before those of greater numbers.
    #[tactic(auto, using(rsct_packet::proofs::SearchLaws::insert_at_front))]
    pub fn insert(&mut self, number: u8, node: Node<C>) -> Result<(), NoMemory>
        ensures { OnOk result (self.new ≡ insert_before (comes_before number) node self.old) }
    {
        let i = front(self.rows.as_slice(), number);
        self.rows.insert(i, node)?;
        Ok(())
    }

    /// A node stops; answers whether it was up.
    #[tactic(auto, using(rsct_packet::proofs::SearchLaws::removed_where, rsct_packet::proofs::SearchLaws::removed_nowhere))]
    pub fn remove(&mut self, node: u8) -> bool
        ensures up { result ≡ is_some (find (is_me node) self.old) }
        ensures left { self.new ≡ drop_where (is_me node) self.old }
    {
        let is_up = self.is_up(node);
        if let Some(i) = place_of(self.rows.as_slice(), node) {
            let _ = self.rows.remove(i);
        }
        is_up
    }
}

impl<C: Made> Nodes<C> {
    /// An event happens to a node; answers what that left, or none where it is not up.
    #[tactic(auto, using(crate::proofs::NodeLaws::steps_at, crate::proofs::NodeLaws::stands_nowhere))]
    pub fn step(
        &mut self,
        alloc: Global,
        node: u8,
        event: NodeEvent<'_>,
    ) -> Result<Option<Left>, NoMemory>
        requires taken { IsTrue (is_taken event) }
        ensures steps { IfOk result (λ left. StepsIn C.script C.script_of self.old self.new node
            left (λ x. x) (event_in event.entry)) }
        ensures hears { IfOk result (λ left. NodesHear C.stands_for C.script C.script_of self.old
            self.new node left (event_in event.entry)) }
    {
        match place_of(self.rows.as_slice(), node) {
            None => Ok(None),
            Some(i) => Ok(Some(step_node(&mut self.rows[i], alloc, event)?)),
        }
    }

    /// A client of a node calls; answers what that left, or none where the node is not up.
    #[tactic(auto, using(crate::proofs::CallLaws::call_at, crate::proofs::NodeLaws::stands_nowhere))]
    pub fn call(
        &mut self,
        alloc: Global,
        node: u8,
        call: &CallLine,
    ) -> Result<Option<Left>, NoMemory>
        ensures steps { IfOk result (λ left. StepsIn C.script C.script_of self.old self.new node
            left (with_scripts call.now) (Calls call.now)) }
        ensures hears { IfOk result (λ left. NodesHear C.stands_for C.script C.script_of self.old
            self.new node left (Calls call.now)) }
    {
        match place_of(self.rows.as_slice(), node) {
            None => Ok(None),
            Some(i) => Ok(Some(call_node(&mut self.rows[i], alloc, call)?)),
        }
    }
}
