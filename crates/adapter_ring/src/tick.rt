//! A ring's tick.
ghost use Rattle.std.specs.Prelude.{◌≡◌, ◌<◌, ◌^◌, OnOk};
ghost use Rattle.adapter_ring.specs.Rings.{patience, send_heartbeat, ring_proclaim, ring_beat, buries, death_counts, death_rule, death_told_to, tell_death, ring_wait_on, ring_wait, ring_age, ring_tick};

use crate::packet::RingPacket;
use crate::ring::{Gathering, Ring, RingSettings};
use crate::work::RingWork;
use rsct_packet::{NoMemory, RingId, risen};
use std::alloc::Global;

impl RingSettings {
    /// After so many silent ticks the upstream neighbour counts as dead.
    #[tactic(auto, unfolding(crate::specs::Rings::patience))]
    fn patience(&self) -> u64
        ensures value { result ≡ patience self.now }
        ensures small { result < 2 ^ 32 }
    {
        self.every as u64 * self.misses as u64
    }
}

impl Ring {
    /// Does this node act on a death? The leader does, and on the leader's the Crown Prince.
    #[tactic(auto, unfolding(crate::specs::Rings::buries))]
    fn buries(&self, dead: u8) -> bool
        ensures { result ≡ buries self.now dead }
    {
        self.leads() || (dead == self.id.leader && self.crown_prince() == self.me)
    }

    /// Is it the death of another member of this very ring, on which this node acts?
    #[tactic(auto, unfolding(crate::specs::Rings::death_counts))]
    fn death_counts(&self, id: RingId, dead: u8) -> bool
        ensures { result ≡ death_counts self.now id dead }
    {
        id == self.id
            && dead != self.me
            && self.members.has(dead)
            && self.gathering.is_none()
            && self.buries(dead)
    }

    /// Who is to hear of the death: the leader, and of its own the Crown Prince.
    #[tactic(auto, unfolding(crate::specs::Rings::death_told_to))]
    fn death_told_to(&self, dead: u8) -> u8
        ensures { result ≡ death_told_to self.now dead }
    {
        if dead == self.id.leader {
            self.crown_prince()
        } else {
            self.id.leader
        }
    }
}

impl RingWork {
    #[tactic(auto, unfolding(crate::specs::Rings::send_heartbeat))]
    fn send_heartbeat(&mut self) -> Result<(), NoMemory>
        ensures { OnOk result (self.new ≡ send_heartbeat self.old) }
    {
        if !self.ring.is_shared() {
            return Ok(());
        }
        let neighbour = self.ring.neighbour();
        self.send(neighbour, RingPacket::Heartbeat { ring: self.ring.id })
    }

    #[tactic(auto, unfolding(crate::specs::Rings::ring_proclaim))]
    fn proclaim(&mut self, alloc: Global) -> Result<(), NoMemory>
        ensures { OnOk result (self.new ≡ ring_proclaim self.old) }
    {
        if !(self.ring.leads() && self.ring.gathering.is_none()) {
            return Ok(());
        }
        let others = self.ring.settings.outside(alloc, self.ring.members)?;
        self.send_all(
            alloc,
            others.as_slice(),
            RingPacket::Proclaim { ring: self.ring.id },
        )
    }

    /// Part 1 of a tick: heartbeat and proclamation, when it is time.
    #[tactic(auto, unfolding(crate::specs::Rings::ring_beat))]
    fn beat(&mut self, alloc: Global) -> Result<(), NoMemory>
        ensures { OnOk result (self.new ≡ ring_beat self.old) }
    {
        let beat = risen(self.ring.beat);
        if beat != self.ring.settings.every as u32 {
            self.ring.beat = beat;
            return Ok(());
        }
        self.ring.beat = 0;
        self.send_heartbeat()?;
        self.proclaim(alloc)
    }

    /// The ring without the dead node is gathered, where this node is to act on that.
    #[tactic(auto, unfolding(crate::specs::Rings::death_rule))]
    pub(crate) fn death_rule(&mut self, alloc: Global, id: RingId, dead: u8) -> Result<(), NoMemory>
        ensures { OnOk result (self.new ≡ death_rule self.old id dead) }
    {
        if !self.ring.death_counts(id, dead) {
            return Ok(());
        }
        self.gather(alloc, self.ring.members.without(dead))
    }

    #[tactic(auto, unfolding(crate::specs::Rings::tell_death))]
    fn tell_death(&mut self, alloc: Global, dead: u8, to: u8) -> Result<(), NoMemory>
        ensures { OnOk result (self.new ≡ tell_death self.old dead to) }
    {
        if to == self.ring.me {
            return self.death_rule(alloc, self.ring.id, dead);
        }
        self.send(
            to,
            RingPacket::Death {
                ring: self.ring.id,
                node: dead,
            },
        )
    }

    #[tactic(auto, unfolding(crate::specs::Rings::ring_wait_on))]
    fn wait_on(&mut self, alloc: Global) -> Result<(), NoMemory>
        ensures { OnOk result (self.new ≡ ring_wait_on self.old) }
    {
        let patience = self.ring.settings.patience();
        if self.ring.silent as u64 == 3 * patience {
            self.be_alone();
            return Ok(());
        }
        if patience > self.ring.silent as u64 {
            return Ok(());
        }
        let dead = self.ring.upstream();
        let to = self.ring.death_told_to(dead);
        self.tell_death(alloc, dead, to)
    }

    /// Part 2 of a tick: the upstream neighbour is silent for one tick more.
    #[tactic(auto, unfolding(crate::specs::Rings::ring_wait))]
    fn wait(&mut self, alloc: Global) -> Result<(), NoMemory>
        ensures { OnOk result (self.new ≡ ring_wait self.old) }
    {
        if !self.ring.is_shared() {
            return Ok(());
        }
        self.ring.silent = risen(self.ring.silent);
        self.wait_on(alloc)
    }

    /// Part 3 of a tick: a gathering ages, and closes at 2.
    #[tactic(auto, unfolding(crate::specs::Rings::ring_age, crate::specs::Rings::ring_ages_of, crate::specs::Rings::ring_gathering))]
    fn age(&mut self, alloc: Global) -> Result<(), NoMemory>
        ensures { OnOk result (self.new ≡ ring_age self.old) }
    {
        let Some(gathering) = self.ring.gathering else {
            return Ok(());
        };
        let age = risen(gathering.age);
        if age == 2 {
            return self.close(alloc, gathering.gather);
        }
        self.ring.gathering = Some(Gathering {
            gather: gathering.gather,
            age,
        });
        Ok(())
    }

    #[tactic(auto, unfolding(crate::specs::Rings::ring_tick))]
    pub(crate) fn tick(&mut self, alloc: Global) -> Result<(), NoMemory>
        ensures { OnOk result (self.new ≡ ring_tick self.old) }
    {
        self.beat(alloc)?;
        self.wait(alloc)?;
        self.age(alloc)
    }
}
