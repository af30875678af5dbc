//! What is kept of the datagrams of a world.
ghost use Rattle.std.specs.Prelude.{◌≡◌, ◌<◌, ◌++◌, ◌∷◌, [], IfOk, OnOk, filter, not, option_copied, drop};
ghost use Rattle.std.specs.List.{position};
ghost use Rattle.rsct_packet.specs.Lists.{drop_where};
ghost use Rattle.relay_model.specs.Limits.{parcel_len};
ghost use Rattle.relay_model.specs.Relays.{datagram_in, pairs_with};
ghost use Rattle.relay_packets.specs.Datagrams.{relay_pairs, find_pair, is_waiting, is_between, waits_next, first_of};

use crate::leaving::Departure;
use crate::pairs::{Pair, add, kth};
use crate::parcels::KeptParcel;
use crate::waiting::Waiting;
use rsct_packet::NoMemory;
use std::alloc::Global;
use std::collections::VecDeque;
use std::marker::Model;
use std::mem;

/// How many hints there are: one for each two nodes.
const HINTS: usize = 1024;

/// All datagrams of a world, by pairs of nodes, and those that wait to be given, in the order of sending. A hint says where
/// the pair of two nodes stands; one that is not right costs a search.
#[derive(Drop)]
pub struct WorldDatagrams {
    pairs: Vec<Pair>,
    hints: [u16; HINTS],
    waiting: VecDeque<Waiting>,
}

impl Model for WorldDatagrams {
    ghost use Rattle.relay_packets.specs.Datagrams.{Kept, AreApart};

    ghost Value = { Kept };

    ghost view = { λ w. record { pairs = w.pairs.items; waiting = w.waiting.items } };

    ghost invariant = { λ w. AreApart w.pairs.items };
}

/// Which hint is that of two nodes.
fn hint_of(from: u8, to: u8) -> usize
    ensures { result < 1024 }
{
    from as usize % 32 * 32 + to as usize % 32
}

/// Is it the k-th datagram of these two nodes?
fn is_waiting(waiting: &Waiting, from: u8, to: u8, number: u32) -> bool
    ensures { result ≡ is_waiting from to number waiting.now }
{
    waiting.number == number && waiting.from == from && waiting.to == to
}

/// Is it between these two nodes?
fn is_between(waiting: &Waiting, from: u8, to: u8) -> bool
    ensures { result ≡ is_between from to waiting.now }
{
    waiting.from == from && waiting.to == to
}

/// The place of the k-th datagram of two nodes among those that wait.
fn place_of(waiting: &VecDeque<Waiting>, from: u8, to: u8, number: u32) -> Option<usize>
    ensures { result ≡ position (is_waiting from to number) waiting.now.items }
{
    waiting.iter().position(|x| is_waiting(x, from, to, number))
}

/// What waits between other nodes.
fn elsewhere(
    alloc: Global,
    waiting: VecDeque<Waiting>,
    from: u8,
    to: u8,
) -> Result<VecDeque<Waiting>, NoMemory>
    ensures { IfOk result (λ kept. kept.items ≡ filter
        (λ x. not (is_between from to x)) waiting.items) }
{
    let mut left = waiting;
    let mut kept = VecDeque::new(alloc);
    while let Some(x) = left.pop_front() {
        if !is_between(&x, from, to) {
            kept.push_back(x)?;
        }
    }
    Ok(kept)
}

impl WorldDatagrams {
    /// No datagrams.
    pub fn new(alloc: Global) -> WorldDatagrams
        ensures { result ≡ record { pairs = []; waiting = [] } }
    {
        WorldDatagrams {
            pairs: Vec::new(alloc),
            hints: [0; HINTS],
            waiting: VecDeque::new(alloc),
        }
    }

    /// Sends a datagram; answers how many bytes it has.
    pub fn send(&mut self, alloc: Global, departure: Departure) -> Result<usize, NoMemory>
        ensures pairs { OnOk result (relay_pairs self.new.pairs
            ≡ pairs_with departure.from departure.to departure.parcel
            (relay_pairs self.old.pairs)) }
        ensures waiting { OnOk result (self.new.waiting
            ≡ self.old.waiting ++ waits_next (relay_pairs self.old.pairs) departure ∷ []) }
        ensures len { IfOk result (λ n. n ≡ parcel_len departure.parcel) }
    {
        let Departure {
            from,
            to,
            network,
            parcel,
        } = departure;
        let len = parcel.len()?;
        let at = hint_of(from, to);
        let hint = self.hints[at] as usize;
        let number = add(&mut self.pairs, alloc, hint, from, to, parcel)?;
        if number == 1 {
            let last = self.pairs.len().saturating_sub(1);
            self.hints[at] = u16::try_from(last).unwrap_or(0);
        }
        self.waiting.push_back(Waiting {
            from,
            to,
            number,
            network,
        })?;
        Ok(len)
    }

    /// The k-th datagram ever sent from one node to another, from 1 on.
    pub fn kth(&self, from: u8, to: u8, number: u32) -> Option<&KeptParcel>
        ensures { option_copied result
            ≡ datagram_in number (find_pair from to (relay_pairs self.now.pairs)) }
    {
        let hint = self.hints[hint_of(from, to)] as usize;
        kth(self.pairs.as_slice(), hint, from, to, number)
    }

    /// The datagram that waits longest.
    pub fn first(&self) -> Option<Waiting>
        ensures { result ≡ first_of self.now.waiting }
    {
        self.waiting.front().copied()
    }

    /// The datagram that waits longest waits no more.
    pub fn skip_first(&mut self)
        ensures { self.new ≡ record self.old { waiting = drop 1 self.old.waiting } }
    {
        let _ = self.waiting.pop_front();
    }

    /// The k-th datagram of two nodes waits no more.
    #[tactic(auto, using(rsct_packet::proofs::SearchLaws::place_is_position, rsct_packet::proofs::SearchLaws::removed_where, rsct_packet::proofs::SearchLaws::removed_nowhere, std::proofs::lemmas::Grind::common_steps))]
    pub fn take(&mut self, from: u8, to: u8, number: u32)
        ensures { self.new ≡ record self.old {
          waiting = drop_where
              (is_waiting from to number) self.old.waiting;
        } }
    {
        if let Some(i) = place_of(&self.waiting, from, to, number) {
            let _ = self.waiting.remove(i);
        }
    }

    /// What waits between two nodes is lost.
    pub fn lose(&mut self, alloc: Global, from: u8, to: u8) -> Result<(), NoMemory>
        ensures { OnOk result (self.new ≡ record self.old {
          waiting = filter
              (λ x. not (is_between from to x)) self.old.waiting;
        }) }
    {
        let waiting = mem::replace(&mut self.waiting, VecDeque::new(alloc));
        self.waiting = elsewhere(alloc, waiting, from, to)?;
        Ok(())
    }
}
