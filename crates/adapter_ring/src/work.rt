//! A ring at work: what it sends, and how it is gathered and set.
ghost use Rattle.std.specs.Prelude.{◌≡◌, map, IfOk, OnOk};
ghost use Rattle.adapter_ring.specs.Rings.{ring_send, ring_send_all, ring_set, ring_close, ring_gather_on, ring_gather, ring_alone, ring_rule};

use crate::packet::{RingEvent, RingPacket, RingSend};
use crate::ring::{Gathering, Ring, RingSet};
use ring_commit::Gather;
use rsct_packet::{List, Mask, NoMemory, RingId};
use std::alloc::Global;

/// A ring in the middle of a step, with what it has sent in this step, and the ring that it was set to.
#[derive(Drop)]
pub struct RingWork {
    pub ring: Ring,
    pub sends: List<RingSend>,
    pub set: Option<RingSet>,
}

/// The packet to each of these.
fn sends_to(
    alloc: Global,
    network: u8,
    to: &[u8],
    packet: RingPacket,
) -> Result<Vec<RingSend>, NoMemory>
    ensures { IfOk result (λ v. v.items ≡ map (λ n.
        record { network = network; to = n; packet = packet }) to.now) }
{
    let sends = to.iter().map(|n| RingSend {
        network,
        to: *n,
        packet,
    });
    Ok(sends.collect(alloc)?)
}

impl RingWork {
    #[tactic(auto, unfolding(crate::specs::Rings::ring_send))]
    pub(crate) fn send(&mut self, to: u8, packet: RingPacket) -> Result<(), NoMemory>
        ensures { OnOk result (self.new ≡ ring_send self.old to packet) }
    {
        self.sends.push(RingSend {
            network: self.ring.net,
            to,
            packet,
        })
    }

    #[tactic(auto, unfolding(crate::specs::Rings::ring_send_all))]
    pub(crate) fn send_all(
        &mut self,
        alloc: Global,
        to: &[u8],
        packet: RingPacket,
    ) -> Result<(), NoMemory>
        ensures { OnOk result (self.new ≡ ring_send_all self.old to.now packet) }
    {
        let sends = sends_to(alloc, self.ring.net, to, packet)?;
        self.sends.extend(sends.as_slice())
    }

    /// Sets the ring: its upstream neighbour counts as heard, and nothing is promised.
    #[tactic(auto, unfolding(crate::specs::Rings::ring_set))]
    pub(crate) fn set_ring(&mut self, id: RingId, members: Mask)
        ensures { self.new ≡ ring_set self.old id members }
    {
        self.ring.id = id;
        self.ring.members = members;
        self.ring.silent = 0;
        self.ring.promised = None;
        let neighbour = self.ring.settings.neighbour_in(self.ring.me, members);
        self.set = Some(RingSet {
            id,
            members,
            neighbour,
        });
    }

    /// Closes a gathering: the ring is set with those that acknowledged, and the others hear of it.
    #[tactic(auto, unfolding(crate::specs::Rings::ring_close))]
    pub(crate) fn close(&mut self, alloc: Global, gather: Gather) -> Result<(), NoMemory>
        ensures { OnOk result (self.new ≡ ring_close self.old gather) }
    {
        let members = gather.close();
        let others = members.without(self.ring.me).nodes(alloc)?;
        self.ring.gathering = None;
        self.set_ring(gather.id, members);
        self.send_all(
            alloc,
            others.as_slice(),
            RingPacket::Commit {
                ring: gather.id,
                mask: members,
            },
        )
    }

    /// Goes on with the gathering, or closes it where all have acknowledged.
    #[tactic(auto, unfolding(crate::specs::Rings::ring_gather_on, crate::specs::Rings::ring_gathering))]
    pub(crate) fn gather_on(&mut self, alloc: Global, gathering: Gathering) -> Result<(), NoMemory>
        ensures { OnOk result (self.new ≡ ring_gather_on self.old gathering) }
    {
        if gathering.gather.all() {
            return self.close(alloc, gathering.gather);
        }
        self.ring.gathering = Some(gathering);
        Ok(())
    }

    /// Gathers these for a ring of the next number. Past the last number nothing happens.
    #[tactic(auto, unfolding(crate::specs::Rings::ring_gather, crate::specs::Rings::ring_numbered))]
    pub(crate) fn gather(&mut self, alloc: Global, asked: Mask) -> Result<(), NoMemory>
        ensures { OnOk result (self.new ≡ ring_gather self.old asked) }
    {
        if self.ring.last == u32::MAX {
            return Ok(());
        }
        let id = self.ring.next_ring();
        let gather = Gather::open(id, asked, self.ring.me);
        let others = asked.without(self.ring.me).nodes(alloc)?;
        self.ring.last += 1;
        self.send_all(
            alloc,
            others.as_slice(),
            RingPacket::Ptc {
                ring: id,
                mask: asked,
            },
        )?;
        self.gather_on(alloc, Gathering { gather, age: 0 })
    }

    /// The adapter is alone, in a ring of the next number. Past the last number nothing happens.
    #[tactic(auto, unfolding(crate::specs::Rings::ring_alone))]
    pub(crate) fn be_alone(&mut self)
        ensures { self.new ≡ ring_alone self.old }
    {
        if self.ring.last == u32::MAX {
            return;
        }
        let id = self.ring.next_ring();
        self.ring.last += 1;
        self.ring.gathering = None;
        self.set_ring(id, Mask::empty().with(self.ring.me));
    }

    #[tactic(auto, unfolding(crate::specs::Rings::ring_rule))]
    pub(crate) fn take_event(&mut self, alloc: Global, event: RingEvent) -> Result<(), NoMemory>
        ensures { OnOk result (self.new ≡ ring_rule self.old event) }
    {
        match event {
            RingEvent::Tick => self.tick(alloc),
            RingEvent::Packet { from, inc, packet } => self.packet_rule(alloc, from, inc, packet),
        }
    }
}
