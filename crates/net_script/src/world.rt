//! What happens in a world.
ghost use Rattle.std.specs.Prelude.{◌≡◌, ℕ, OnOk, IsErrOf, IsTrue, Some, find, option_copied};
ghost use Rattle.node_core.specs.Event.{event_in, is_taken};
ghost use Rattle.world_model.specs.World.{node_at, node_steps};
ghost use Rattle.world_laws.specs.world_answers.Answers.{step_by_if};
ghost use Rattle.net_script.specs.Standing.{is_me, client_in, Goes, Passes, Comes, Settled};
ghost use Rattle.play_state.specs.Posting.{bytes_after};
ghost use Rattle.run_hands.specs.Hands.{NodeHands};
ghost use Rattle.net_script.specs.Hearing.{HearsAs};

use crate::nodes::Nodes;
use crate::steps::Left;
use client_callbacks::{Callbacks, Made, ScriptClient};
use node_core::NodeEvent;
use node_state::{Config, Records};
use play_state::{Starts, WorldFault, post_all};
use std::alloc::Global;
use world_packets::WorldPackets;

/// A world: the nodes that are up, all packets that they ever sent, and how many bytes those have, which may be as
/// many as the limit says. Its clients are of any kind that is made of votes words.
#[derive(Drop)]
pub struct World<C: Callbacks = ScriptClient> {
    pub config: Config,
    pub nodes: Nodes<C>,
    pub starts: Starts,
    pub packets: WorldPackets,
    pub kept: u64,
    pub limit: u64,
}

impl<C: Callbacks> World<C> {
    /// The client of the live session of this name, at this node, if it is up.
    pub fn client(&self, node: u8, name: &[u8]) -> Option<&C>
        ensures { option_copied result ≡ client_in (find (is_me node) self.now.nodes) name.now }
    {
        self.nodes.get(node)?.client(name)
    }
}

impl<C: Made> World<C> {
    /// Sends and records what a step left.
    pub(crate) fn settle(
        &mut self,
        alloc: Global,
        left: Left,
        out: &mut Records,
    ) -> Result<(), WorldFault>
        ensures settled { OnOk result (Settled self.old self.new left out.old out.new) }
        ensures passes { (n : ℕ) → IsErrOf result (WorldFault.TooMuchKept n)
            → ((bytes_after self.old.limit self.old.kept left.sends).passed ≡ Some n)
            × (out.new ≡ out.old) }
    {
        let mut left = left;
        post_all(
            &mut self.packets,
            &mut self.kept,
            alloc,
            self.limit,
            left.sends.as_slice(),
        )?;
        out.append(&mut left.records)?;
        Ok(())
    }

    /// An event happens to a node, if it is up.
    pub(crate) fn step(
        &mut self,
        alloc: Global,
        node: u8,
        event: NodeEvent<'_>,
        out: &mut Records,
    ) -> Result<(), WorldFault>
        requires taken { IsTrue (is_taken event) }
        ensures goes { OnOk result (Comes C.script C.script_of self.old
            (Goes C.script C.script_of self.old self.new out.old out.new)
            (λ f w. step_by_if f w (event_in event.entry) (node_at w node))
            (λ w. node_steps w node (event_in event.entry))) }
        ensures hears { OnOk result (HearsAs C.stands_for C.script C.script_of self.old
            self.new.nodes out.old out.new (λ w rs old new. NodeHands (node_at w node) node
            (event_in event.entry) rs old new)) }
        ensures passes { (k : ℕ) → IsErrOf result (WorldFault.TooMuchKept k)
            → Comes C.script C.script_of self.old (Passes k self.old)
            (λ f w. step_by_if f w (event_in event.entry) (node_at w node))
            (λ w. node_steps w node (event_in event.entry)) }
        ensures kept { (k : ℕ) → IsErrOf result (WorldFault.TooMuchKept k) → out.new ≡ out.old }
    {
        let done = self.nodes.step(alloc, node, event)?;
        match done {
            None => Ok(()),
            Some(left) => self.settle(alloc, left, out),
        }
    }
}
