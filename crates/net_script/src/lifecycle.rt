//! Nodes that start, stop and are shown.
ghost use Rattle.std.specs.Prelude.{OnOk};
ghost use Rattle.world_model.specs.declared.event.Event.TheVariants as event;
ghost use Rattle.world_model.specs.World.{node_at, node_starts, started_at, stops_if, shows_if};
ghost use Rattle.world_model.specs.World as world;
ghost use Rattle.net_script.specs.Standing.{Stands, Goes};
ghost use Rattle.run_hands.specs.Hands.{BeginHands};
ghost use Rattle.net_script.specs.Hearing.{HearsAs, Hears};

use crate::world::World;
use client_callbacks::Made;
use node_core::Node;
use node_state::{Happened, Records, What};
use node_text::record_status;
use rsct_packet::NoMemory;
use std::alloc::Global;

impl<C: Made> World<C> {
    /// A node that is not up starts in an incarnation.
    fn begin(
        &mut self,
        alloc: Global,
        number: u8,
        inc: u32,
        out: &mut Records,
    ) -> Result<(), NoMemory>
        ensures goes { OnOk result ((w : world.World) → Stands C.script C.script_of self.old w
            → Goes C.script C.script_of self.old self.new out.old out.new w
            (started_at w number inc)) }
        ensures hears { OnOk result (HearsAs C.stands_for C.script C.script_of self.old
            self.new.nodes out.old out.new (λ w rs old new. BeginHands number rs old new)) }
    {
        let mut node = Node::start(alloc, self.config, number, inc)?;
        let mut records = node.take_records(alloc);
        self.nodes.insert(number, node)?;
        self.starts.note(number, inc)?;
        out.append(&mut records)
    }

    /// A node starts, in its next incarnation, unless it is up or has had the last one.
    pub(crate) fn start(
        &mut self,
        alloc: Global,
        node: u8,
        out: &mut Records,
    ) -> Result<(), NoMemory>
        ensures goes { OnOk result ((w : world.World) → Stands C.script C.script_of self.old w
            → Goes C.script C.script_of self.old self.new out.old out.new w (node_starts w node)) }
        ensures hears { OnOk result (Hears C.stands_for C.script C.script_of self.old self.new
            out.old out.new (event.Start node)) }
    {
        if self.nodes.is_up(node) {
            return Ok(());
        }
        let last = self.starts.last(node);
        if last == u32::MAX {
            return Ok(());
        }
        self.begin(alloc, node, last + 1, out)
    }

    /// A node stops, if it is up.
    pub(crate) fn stop(&mut self, node: u8, out: &mut Records) -> Result<(), NoMemory>
        ensures goes { OnOk result ((w : world.World) → Stands C.script C.script_of self.old w
            → Goes C.script C.script_of self.old self.new out.old out.new w
            (stops_if w node (node_at w node))) }
        ensures hears { OnOk result (Hears C.stands_for C.script C.script_of self.old self.new
            out.old out.new (event.Stop node)) }
    {
        if !self.nodes.remove(node) {
            return Ok(());
        }
        out.push(Happened::Down { node })
    }

    /// A status of a node is shown, if it is up.
    pub(crate) fn show(
        &self,
        alloc: Global,
        number: u8,
        what: What,
        out: &mut Records,
    ) -> Result<(), NoMemory>
        ensures goes { OnOk result ((w : world.World) → Stands C.script C.script_of self.now w
            → Goes C.script C.script_of self.now self.now out.old out.new w
            (shows_if w number what (node_at w number))) }
        ensures hears { OnOk result (Hears C.stands_for C.script C.script_of self.now self.now
            out.old out.new (event.Show number what)) }
    {
        match self.nodes.get(number) {
            None => Ok(()),
            Some(node) => record_status(node.core(), alloc, what, out),
        }
    }
}
