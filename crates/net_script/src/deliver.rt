//! Packets that are given to nodes.
ghost use Rattle.std.specs.Prelude.{◌≡◌, ℕ, OnOk, IsErrOf, is_some, find, ◌&&◌};
ghost use Rattle.world_model.specs.declared.event.Event.TheVariants as event;
ghost use Rattle.world_model.specs.World.{node_at, kth_in, kth_between, delivers};
ghost use Rattle.world_laws.specs.world_answers.Answers.{delivers_by_if};
ghost use Rattle.world_packets.specs.Packets.{world_pairs, find_pair};
ghost use Rattle.net_script.specs.Standing.{is_me, Goes, Passes, Comes};
ghost use Rattle.net_script.specs.Hearing.{Hears};

use crate::world::World;
use client_callbacks::Made;
use node_core::NodeEvent;
use node_state::Records;
use play_state::WorldFault;
use std::alloc::Global;

impl<C: Made> World<C> {
    /// Is there a k-th packet from one node to another, which is up?
    fn can_give(&self, from: u8, to: u8, number: u32) -> bool
        ensures { result ≡ (is_some (find (is_me to) self.now.nodes)
            && is_some (kth_in number (find_pair from to (world_pairs self.now.packets.pairs)))) }
    {
        self.nodes.is_up(to) && self.packets.kth(from, to, number).is_some()
    }

    /// A node is given the k-th packet that was ever sent to it from another one, if it is up and there is one: it
    /// waits no more.
    pub(crate) fn give(
        &mut self,
        alloc: Global,
        from: u8,
        to: u8,
        number: u32,
        out: &mut Records,
    ) -> Result<(), WorldFault>
        ensures goes { OnOk result (Comes C.script C.script_of self.old
            (Goes C.script C.script_of self.old self.new out.old out.new)
            (λ f w. delivers_by_if f w from to number (node_at w to) (kth_between w from to number))
            (λ w. delivers w from to number)) }
        ensures hears { OnOk result (Hears C.stands_for C.script C.script_of self.old self.new
            out.old out.new (event.Deliver from to number)) }
        ensures passes { (n : ℕ) → IsErrOf result (WorldFault.TooMuchKept n)
            → Comes C.script C.script_of self.old (Passes n self.old)
            (λ f w. delivers_by_if f w from to number (node_at w to) (kth_between w from to number))
            (λ w. delivers w from to number) }
        ensures kept { (n : ℕ) → IsErrOf result (WorldFault.TooMuchKept n) → out.new ≡ out.old }
    {
        if !self.can_give(from, to, number) {
            return Ok(());
        }
        self.packets.take(from, to, number);
        let Some(packet) = self.packets.kth(from, to, number) else {
            return Ok(());
        };
        let done = self
            .nodes
            .step(alloc, to, NodeEvent::Datagram(packet.bytes()))?;
        match done {
            None => Ok(()),
            Some(left) => self.settle(alloc, left, out),
        }
    }
}
