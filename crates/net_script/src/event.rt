//! What happens, in one call.
ghost use Rattle.std.specs.Prelude.{◌≡◌, ℕ, OnOk, IsErrOf};
ghost use Rattle.node_state.specs.Bytes.{event_of};
ghost use Rattle.node_state.specs.Step.{Garbage};
ghost use Rattle.world_model.specs.World.{node_at, node_steps, happens};
ghost use Rattle.world_laws.specs.world_answers.Answers.{step_by_if, happens_by};
ghost use Rattle.net_script.specs.Standing.{Goes, Passes, Comes};
ghost use Rattle.run_hands.specs.Hands.{NodeHands};
ghost use Rattle.net_script.specs.Hearing.{HearsAs, Hears};
ghost use Rattle.net_script.specs.Safe.{AnswersSafely, GoesSafely};

use crate::world::World;
use client_callbacks::Made;
use node_core::{NodeEvent, is_packet};
use node_state::Records;
use play_state::WorldFault;
use std::alloc::Global;
use world_model::Event;

/// What a node is handed of bytes that are to be no packet: the bytes themselves, and none of them where they spell a
/// packet, which no script has. So its reader drops them.
#[tactic(auto, using(crate::proofs::GivingLaws::no_bytes, crate::proofs::GivingLaws::no_packet))]
fn garbage(bytes: &[u8]) -> &[u8]
    ensures { event_of result.now ≡ Garbage }
{
    if is_packet(bytes) {
        b"".as_slice()
    } else {
        bytes
    }
}

impl<C: Made> World<C> {
    /// A node is given bytes that are no packet.
    fn give_garbage(
        &mut self,
        alloc: Global,
        node: u8,
        bytes: &[u8],
        out: &mut Records,
    ) -> Result<(), WorldFault>
        ensures goes { OnOk result (Comes C.script C.script_of self.old
            (Goes C.script C.script_of self.old self.new out.old out.new)
            (λ f w. step_by_if f w Garbage (node_at w node)) (λ w. node_steps w node Garbage)) }
        ensures hears { OnOk result (HearsAs C.stands_for C.script C.script_of self.old
            self.new.nodes out.old out.new (λ w rs old new. NodeHands
            (node_at w node) node Garbage rs old new)) }
        ensures passes { (k : ℕ) → IsErrOf result (WorldFault.TooMuchKept k)
            → Comes C.script C.script_of self.old (Passes k self.old)
            (λ f w. step_by_if f w Garbage (node_at w node)) (λ w. node_steps w node Garbage) }
        ensures kept { (k : ℕ) → IsErrOf result (WorldFault.TooMuchKept k) → out.new ≡ out.old }
    {
        self.step(alloc, node, NodeEvent::Datagram(garbage(bytes)), out)
    }

    /// A plain event happens, each kind by its own call.
    #[tactic(auto, unfolding(world_model::specs::World::happens, world_laws::specs::world_answers::Answers::happens_by))]
    fn happen(&mut self, alloc: Global, event: &Event, out: &mut Records) -> Result<(), WorldFault>
        ensures goes { OnOk result (Comes C.script C.script_of self.old
            (Goes C.script C.script_of self.old self.new out.old out.new)
            (λ f w. happens_by f w event.now) (λ w. happens w event.now)) }
        ensures hears { OnOk result (Hears C.stands_for C.script C.script_of self.old self.new
            out.old out.new event.now) }
        ensures passes { (k : ℕ) → IsErrOf result (WorldFault.TooMuchKept k)
            → Comes C.script C.script_of self.old (Passes k self.old)
            (λ f w. happens_by f w event.now) (λ w. happens w event.now) }
        ensures kept { (k : ℕ) → IsErrOf result (WorldFault.TooMuchKept k) → out.new ≡ out.old }
    {
        match event {
            Event::Start(n) => Ok(self.start(alloc, *n, out)?),
            Event::Stop(n) => Ok(self.stop(*n, out)?),
            Event::Tick(n) => self.step(alloc, *n, NodeEvent::Tick, out),
            Event::Ask(n, mask) => self.step(alloc, *n, NodeEvent::Ask(*mask), out),
            Event::Call(n, c) => self.call(alloc, *n, c, out),
            Event::Show(n, what) => Ok(self.show(alloc, *n, *what, out)?),
            Event::Deliver(a, b, k) => self.give(alloc, *a, *b, *k, out),
            Event::Garbage(n, bytes) => self.give_garbage(alloc, *n, bytes.as_slice(), out),
        }
    }

    /// A plain event happens: what it records comes behind what is in `out`, and the run with this event is safe,
    /// wherever the world stands after events that may happen. The clients answer somehow; where each votes just as its
    /// word says, what happens is the world's own. Where its packets pass the limit, `out` is as it was. After an error
    /// nothing is said of the world.
    pub fn event(
        &mut self,
        alloc: Global,
        event: &Event,
        out: &mut Records,
    ) -> Result<(), WorldFault>
        ensures goes { OnOk result (Comes C.script C.script_of self.old
            (Goes C.script C.script_of self.old self.new out.old out.new)
            (λ f w. happens_by f w event.now) (λ w. happens w event.now)) }
        ensures answers { OnOk result (AnswersSafely C.script C.script_of self.old self.new out.old
            out.new event.now) }
        ensures safe { OnOk result (GoesSafely C.script C.script_of self.old self.new out.old
            out.new event.now) }
        ensures hears { OnOk result (Hears C.stands_for C.script C.script_of self.old self.new
            out.old out.new event.now) }
        ensures passes { (k : ℕ) → IsErrOf result (WorldFault.TooMuchKept k)
            → Comes C.script C.script_of self.old (Passes k self.old)
            (λ f w. happens_by f w event.now) (λ w. happens w event.now) }
        ensures kept { (k : ℕ) → IsErrOf result (WorldFault.TooMuchKept k) → out.new ≡ out.old }
    {
        self.happen(alloc, event, out)
    }
}
