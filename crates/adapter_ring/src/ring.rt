//! The ring of one adapter, as its callers see it.
ghost use Rattle.std.specs.Prelude.{◌≡◌, ◌++◌, ◌<◌, ◌==◌, [], None, OnOk, OnErr};
ghost use Rattle.adapter_ring.specs.Rings.{ring_new, neighbour, upstream, crown_prince, ring_leads, is_shared, next_ring, ring_step};

use crate::packet::{RingEvent, RingSend};
use crate::work::RingWork;
use ring_commit::Gather;
use rsct_packet::{List, Mask, NoMemory, RingId};
use std::alloc::Global;

/// What the rings of one network share: the address of each node's adapter (node `n` at `n - 1`, and 0 where
/// it has none), how many ticks lie between two heartbeats (1 to 100), and how many heartbeats may be missed
/// (2 to 100).
#[derive(Clone, Copy)]
pub struct RingSettings {
    pub addr: [u32; 32],
    pub every: u16,
    pub misses: u16,
}

/// A gathering and its age in ticks.
#[derive(Clone, Copy, Debug, PartialEq, Eq)]
pub struct Gathering {
    pub gather: Gather,
    pub age: u32,
}

/// The ring of an adapter: its network (1 to 4), node (1 to 32) and incarnation; the last number that it gave
/// a ring of its own; the ring's id and members; the gathering that it leads and the ring that it promised, if
/// any; for how many ticks its upstream neighbour has been silent, and how many have passed since its last
/// heartbeat.
#[derive(Clone, Copy)]
pub struct Ring {
    pub net: u8,
    pub me: u8,
    pub inc: u32,
    pub settings: RingSettings,
    pub last: u32,
    pub id: RingId,
    pub members: Mask,
    pub gathering: Option<Gathering>,
    pub promised: Option<RingId>,
    pub silent: u32,
    pub beat: u32,
}

/// A ring that an adapter was set to.
#[derive(Clone, Copy, Debug, PartialEq, Eq)]
pub struct RingSet {
    pub id: RingId,
    pub members: Mask,
    pub neighbour: u8,
}

/// What a step gives out: packets in order, and the ring if it was set.
#[derive(Drop)]
pub struct RingOut {
    pub sends: List<RingSend>,
    pub set: Option<RingSet>,
}

impl RingOut {
    pub fn new(alloc: Global) -> RingOut
        ensures { result ≡ record { sends = []; set = None } }
    {
        RingOut {
            sends: List::new(alloc),
            set: None,
        }
    }
}

impl Ring {
    /// The ring of an adapter that starts: the node alone, in a ring of number 1.
    #[tactic(auto, unfolding(crate::specs::Rings::ring_new))]
    pub fn new(net: u8, me: u8, inc: u32, settings: RingSettings) -> Ring
        ensures { result ≡ ring_new net me inc settings }
    {
        Ring {
            net,
            me,
            inc,
            settings,
            last: 1,
            id: RingId {
                leader: me,
                inc,
                number: 1,
            },
            members: Mask::empty().with(me),
            gathering: None,
            promised: None,
            silent: 0,
            beat: 0,
        }
    }

    pub fn id(&self) -> RingId
        ensures { result ≡ self.now.id }
    {
        self.id
    }

    pub fn members(&self) -> Mask
        ensures { result ≡ self.now.members }
    {
        self.members
    }

    /// The next lower member, and of the lowest the highest.
    #[tactic(auto, unfolding(crate::specs::Rings::neighbour))]
    pub fn neighbour(&self) -> u8
        ensures { result ≡ neighbour self.now }
    {
        self.settings.neighbour_in(self.me, self.members)
    }

    pub fn leader(&self) -> u8
        ensures { result ≡ self.now.id.leader }
    {
        self.id.leader
    }

    /// One event. Where memory has run out the ring is as before.
    #[tactic(auto, unfolding(crate::specs::Rings::ring_step, crate::specs::Rings::at_work))]
    pub fn step(
        &mut self,
        alloc: Global,
        event: RingEvent,
        out: &mut RingOut,
    ) -> Result<(), NoMemory>
        ensures ring { OnOk result (self.new ≡ (ring_step self.old event).ring) }
        ensures sends { OnOk result (out.new.sends
            ≡ out.old.sends ++ (ring_step self.old event).sends) }
        ensures set { OnOk result (out.new.set ≡ (ring_step self.old event).set) }
        ensures err { OnErr result (self.new ≡ self.old) }
    {
        let mut work = RingWork {
            ring: *self,
            sends: List::new(alloc),
            set: None,
        };
        work.take_event(alloc, event)?;
        out.sends.append(&mut work.sends)?;
        out.set = work.set;
        *self = work.ring;
        Ok(())
    }

    /// The next higher member, and of the highest the lowest.
    #[tactic(auto, unfolding(crate::specs::Rings::upstream))]
    pub(crate) fn upstream(&self) -> u8
        ensures { result ≡ upstream self.now }
    {
        self.settings.upstream_in(self.me, self.members)
    }

    /// The member of the second highest address.
    #[tactic(auto, unfolding(crate::specs::Rings::crown_prince))]
    pub(crate) fn crown_prince(&self) -> u8
        ensures { result ≡ crown_prince self.now }
    {
        self.settings.crown_prince_in(self.members)
    }

    #[tactic(auto, unfolding(crate::specs::Rings::ring_leads))]
    pub(crate) fn leads(&self) -> bool
        ensures { result ≡ ring_leads self.now }
    {
        self.id.leader == self.me
    }

    /// Has it two members or more?
    #[tactic(auto, unfolding(crate::specs::Rings::is_shared))]
    pub(crate) fn is_shared(&self) -> bool
        ensures { result ≡ is_shared self.now }
    {
        self.members.len() >= 2
    }

    /// The id with the next number.
    #[tactic(auto, unfolding(crate::specs::Rings::next_ring))]
    pub(crate) fn next_ring(&self) -> RingId
        requires { self.now.last < 4294967295 }
        ensures { result ≡ next_ring self.now }
    {
        RingId {
            leader: self.me,
            inc: self.inc,
            number: self.last + 1,
        }
    }
}
