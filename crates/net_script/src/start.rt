//! How a world begins.
ghost use Rattle.std.specs.Prelude.{◌≡◌, [], IfOk, OnOk};
ghost use Rattle.std.specs.List.{fold};
ghost use Rattle.world_model.specs.World.{empty_world, node_starts, world_new};
ghost use Rattle.world_model.specs.World as world;
ghost use Rattle.net_script.specs.Standing.{Stands, Goes, kept_empty};
ghost use Rattle.run_hands.specs.Hands.{LogsStand, empty_logs};
ghost use Rattle.net_script.specs.Safe.{SafeOn};
ghost use Rattle.world_safety.specs.Scripts.{IsSafeRun};

use crate::nodes::Nodes;
use crate::world::World;
use client_callbacks::Made;
use node_state::{Config, Mode, Records};
use play_state::Starts;
use rsct_packet::NoMemory;
use std::alloc::Global;
use world_packets::WorldPackets;

impl<C: Made> World<C> {
    /// No node has started.
    fn empty(alloc: Global, config: Config, limit: u64) -> World<C>
        ensures { result ≡ kept_empty config limit }
    {
        World {
            config,
            nodes: Nodes::new(alloc),
            starts: Starts::new(alloc),
            packets: WorldPackets::new(alloc),
            kept: 0,
            limit,
        }
    }

    /// Nodes start, in this order.
    #[tactic(auto, using(crate::proofs::BeginLaws::starts_done, crate::proofs::EmptyLaws::empty_done))]
    fn start_all(&mut self, alloc: Global, nodes: &[u8], out: &mut Records) -> Result<(), NoMemory>
        ensures goes { OnOk result ((w : world.World) → Stands C.script C.script_of self.old w
            → Goes C.script C.script_of self.old self.new out.old out.new w
            (fold node_starts w nodes.now)) }
        ensures hears { OnOk result ((w : world.World) → Stands C.script C.script_of self.old w
            → LogsStand C.stands_for self.old.nodes (empty_logs w)
            → LogsStand C.stands_for self.new.nodes (empty_logs (fold node_starts w nodes.now))) }
    {
        let mut left = nodes;
        while let Some((n, rest)) = left.split_first() {
            self.start(alloc, *n, out)?;
            left = rest;
        }
        Ok(())
    }

    /// No node has started, or in mode fixed every one.
    fn begun(
        alloc: Global,
        config: Config,
        limit: u64,
        out: &mut Records,
    ) -> Result<World<C>, NoMemory>
        ensures goes { IfOk result (λ c. Goes C.script C.script_of
            (kept_empty config limit) c out.old out.new (empty_world config) (world_new config)) }
        ensures hears { IfOk result (λ c. LogsStand C.stands_for c.nodes
            (empty_logs (world_new config))) }
    {
        let mut world = World::<C>::empty(alloc, config, limit);
        match config.mode {
            Mode::Fixed => {
                let nodes = config.nodes.nodes(alloc)?;
                world.start_all(alloc, nodes.as_slice(), out)?;
                Ok(world)
            }
            Mode::Asked | Mode::Rings => Ok(world),
        }
    }

    /// A world of this domain, whose packets may have as many bytes as the limit says. In mode fixed every node
    /// starts: what that records comes behind what is in `out`, and is a safe run.
    pub fn new(
        alloc: Global,
        config: Config,
        limit: u64,
        out: &mut Records,
    ) -> Result<World<C>, NoMemory>
        ensures goes { IfOk result (λ c. Goes C.script C.script_of
            (kept_empty config limit) c out.old out.new (empty_world config) (world_new config)) }
        ensures hears { IfOk result (λ c. LogsStand C.stands_for c.nodes
            (empty_logs (world_new config))) }
        ensures safe { IfOk result (λ c. SafeOn C.script C.script_of c (world_new config)
            (IsSafeRun config []) [] out.old out.new) }
    {
        World::<C>::begun(alloc, config, limit, out)
    }
}
