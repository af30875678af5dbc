//! What a ring does with a packet.
ghost use Rattle.std.specs.Prelude.{◌≡◌, OnOk};
ghost use Rattle.adapter_ring.specs.Rings.{heartbeat_rule, answers_proclaim, proclaim_rule, is_lower, all_lower, takes_join, join_rule, may_promise, ptc_rule, ack_rule, is_promised, commit_rule, packet_rule};

use crate::packet::RingPacket;
use crate::ring::{Gathering, Ring};
use crate::work::RingWork;
use rsct_packet::{Mask, NODES, NoMemory, RingId};
use std::alloc::Global;

impl Ring {
    /// Does it lead, without a gathering, and comes the proclamation from a higher node outside?
    #[tactic(auto, unfolding(crate::specs::Rings::answers_proclaim))]
    fn answers_proclaim(&self, from: u8) -> bool
        ensures { result ≡ answers_proclaim self.now from }
    {
        self.leads()
            && self.gathering.is_none()
            && !self.members.has(from)
            && self.settings.has_addr(from)
            && self.settings.is_higher(from, self.me)
    }

    #[tactic(auto, unfolding(crate::specs::Rings::is_lower))]
    fn is_lower(&self, node: u8) -> bool
        ensures { result ≡ is_lower self.now node }
    {
        self.settings.has_addr(node) && self.settings.is_higher(self.me, node)
    }

    #[tactic(auto, unfolding(crate::specs::Rings::all_lower, rsct_packet::specs::Mask::nodes_of))]
    fn all_lower(&self, members: Mask) -> bool
        ensures { result ≡ all_lower self.now members }
    {
        NODES
            .iter()
            .copied()
            .filter(|n| members.has(*n))
            .all(|n| self.is_lower(n))
    }

    /// Does it lead, without a gathering, and are the sender and all that want to join lower nodes?
    #[tactic(auto, unfolding(crate::specs::Rings::takes_join))]
    fn takes_join(&self, from: u8, members: Mask) -> bool
        ensures { result ≡ takes_join self.now from members }
    {
        self.leads() && self.gathering.is_none() && members.has(from) && self.all_lower(members)
    }

    /// Is this node asked, by the ring's leader, which has the highest address of the asked?
    #[tactic(auto, unfolding(crate::specs::Rings::may_promise))]
    fn may_promise(&self, from: u8, inc: u32, id: RingId, members: Mask) -> bool
        ensures { result ≡ may_promise self.now from inc id members }
    {
        id.leader == from
            && id.inc == inc
            && members.has(self.me)
            && members.has(from)
            && self.settings.all_have_addr(members)
            && self.settings.is_highest(from, members)
    }
}

#[tactic(auto, unfolding(crate::specs::Rings::is_promised))]
fn is_promised(promised: Option<RingId>, id: RingId) -> bool
    ensures { result ≡ is_promised promised id }
{
    match promised {
        None => false,
        Some(p) => p == id,
    }
}

impl RingWork {
    /// The upstream neighbour of this ring is alive.
    #[tactic(auto, unfolding(crate::specs::Rings::heartbeat_rule))]
    fn heartbeat_rule(&mut self, from: u8, id: RingId)
        ensures { self.new ≡ heartbeat_rule self.old from id }
    {
        if id == self.ring.id && self.ring.is_shared() && from == self.ring.upstream() {
            self.ring.silent = 0;
        }
    }

    #[tactic(auto, unfolding(crate::specs::Rings::proclaim_rule))]
    fn proclaim_rule(&mut self, from: u8) -> Result<(), NoMemory>
        ensures { OnOk result (self.new ≡ proclaim_rule self.old from) }
    {
        if !self.ring.answers_proclaim(from) {
            return Ok(());
        }
        self.send(
            from,
            RingPacket::Join {
                mask: self.ring.members,
            },
        )
    }

    #[tactic(auto, unfolding(crate::specs::Rings::join_rule))]
    fn join_rule(&mut self, alloc: Global, from: u8, members: Mask) -> Result<(), NoMemory>
        ensures { OnOk result (self.new ≡ join_rule self.old from members) }
    {
        if !self.ring.takes_join(from, members) {
            return Ok(());
        }
        self.gather(alloc, self.ring.members.union(members))
    }

    /// A promise ends a gathering of one's own.
    #[tactic(auto, unfolding(crate::specs::Rings::ptc_rule))]
    fn ptc_rule(&mut self, from: u8, inc: u32, id: RingId, members: Mask) -> Result<(), NoMemory>
        ensures { OnOk result (self.new ≡ ptc_rule self.old from inc id members) }
    {
        if !self.ring.may_promise(from, inc, id, members) {
            return Ok(());
        }
        self.ring.gathering = None;
        self.ring.promised = Some(id);
        self.send(from, RingPacket::PtcAck { ring: id })
    }

    #[tactic(auto, unfolding(crate::specs::Rings::ack_rule, crate::specs::Rings::ack_rule_of))]
    fn ack_rule(&mut self, alloc: Global, from: u8, id: RingId) -> Result<(), NoMemory>
        ensures { OnOk result (self.new ≡ ack_rule self.old from id) }
    {
        let Some(gathering) = self.ring.gathering else {
            return Ok(());
        };
        if gathering.gather.id != id {
            return Ok(());
        }
        let mut gather = gathering.gather;
        gather.ack(from);
        self.gather_on(
            alloc,
            Gathering {
                gather,
                age: gathering.age,
            },
        )
    }

    #[tactic(auto, unfolding(crate::specs::Rings::commit_rule))]
    fn commit_rule(&mut self, from: u8, id: RingId, members: Mask)
        ensures { self.new ≡ commit_rule self.old from id members }
    {
        if is_promised(self.ring.promised, id) && members.has(self.ring.me) && from == id.leader {
            self.set_ring(id, members);
        }
    }

    #[tactic(auto, unfolding(crate::specs::Rings::packet_rule))]
    pub(crate) fn packet_rule(
        &mut self,
        alloc: Global,
        from: u8,
        inc: u32,
        packet: RingPacket,
    ) -> Result<(), NoMemory>
        ensures { OnOk result (self.new ≡ packet_rule self.old from inc packet) }
    {
        match packet {
            RingPacket::Heartbeat { ring } => {
                self.heartbeat_rule(from, ring);
                Ok(())
            }
            RingPacket::Proclaim { .. } => self.proclaim_rule(from),
            RingPacket::Join { mask } => self.join_rule(alloc, from, mask),
            RingPacket::Ptc { ring, mask } => self.ptc_rule(from, inc, ring, mask),
            RingPacket::PtcAck { ring } => self.ack_rule(alloc, from, ring),
            RingPacket::Commit { ring, mask } => {
                self.commit_rule(from, ring, mask);
                Ok(())
            }
            RingPacket::Death { ring, node } => self.death_rule(alloc, ring, node),
        }
    }
}
