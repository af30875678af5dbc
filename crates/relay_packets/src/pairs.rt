//! All datagrams from one node to another. Where a pair may stand a hint says, which need not be right.
ghost use Rattle.std.specs.Prelude.{◌≡◌, ◌+◌, find, slice_get, option_copied, IfOk, OnOk};
ghost use Rattle.std.specs.List.{position};
ghost use Rattle.rsct_packet.specs.Search.{place_where};
ghost use Rattle.relay_model.specs.Relays.{datagram_in, count_in, pairs_with};
ghost use Rattle.relay_packets.specs.Datagrams.{is_from, is_right, AreApart, relay_pairs, find_pair};

use crate::parcels::KeptParcel;
use rsct_packet::{List, NoMemory};
use std::alloc::Global;

/// All datagrams that were ever sent from one node to another, in order.
#[derive(Drop)]
pub struct Pair {
    pub from: u8,
    pub to: u8,
    pub parcels: List<KeptParcel>,
}

/// Is it of these two nodes?
fn is_from(pair: &Pair, from: u8, to: u8) -> bool
    ensures { result ≡ is_from from to pair.now }
{
    pair.from == from && pair.to == to
}

/// Does the pair of two nodes stand at the place of the hint?
fn is_right(pairs: &[Pair], hint: usize, from: u8, to: u8) -> bool
    ensures { result ≡ is_right from to (slice_get pairs.now hint) }
{
    match pairs.get(hint) {
        None => false,
        Some(pair) => is_from(pair, from, to),
    }
}

/// The place of the pair of two nodes, by a search.
fn search(pairs: &[Pair], from: u8, to: u8) -> Option<usize>
    ensures { result ≡ position (is_from from to) pairs.now }
{
    pairs.iter().position(|p| is_from(p, from, to))
}

/// The place of the pair of two nodes: that of the hint where it is right, else by a search.
#[tactic(auto, using(rsct_packet::proofs::SearchLaws::place_is_position, crate::proofs::ApartLaws::right_place))]
fn place_of(pairs: &[Pair], hint: usize, from: u8, to: u8) -> Option<usize>
    requires { AreApart pairs.now }
    ensures { result ≡ place_where (is_from from to) pairs.now }
{
    if is_right(pairs, hint, from, to) {
        Some(hint)
    } else {
        search(pairs, from, to)
    }
}

/// The pair of two nodes.
#[tactic(auto, using(rsct_packet::proofs::SearchLaws::place_is_in, rsct_packet::proofs::SearchLaws::read_at_place, rsct_packet::proofs::SearchLaws::missing_at_place))]
fn pair_of(pairs: &[Pair], hint: usize, from: u8, to: u8) -> Option<&Pair>
    requires { AreApart pairs.now }
    ensures { option_copied result ≡ find (is_from from to) pairs.now }
{
    let place = place_of(pairs, hint, from, to)?;
    pairs.get(place)
}

/// The k-th datagram ever sent between two nodes, from 1 on.
#[tactic(auto, using(crate::proofs::PairLaws::kth_missing, crate::proofs::PairLaws::kth_zero, crate::proofs::PairLaws::kth_found, std::proofs::lemmas::Grind::common_steps))]
pub fn kth(pairs: &[Pair], hint: usize, from: u8, to: u8, number: u32) -> Option<&KeptParcel>
    requires { AreApart pairs.now }
    ensures { option_copied result
        ≡ datagram_in number (find_pair from to (relay_pairs pairs.now)) }
{
    if number == 0 {
        return None;
    }
    match pair_of(pairs, hint, from, to) {
        None => None,
        Some(p) => p.parcels.get(number as usize - 1),
    }
}

/// How many datagrams were ever sent between two nodes.
#[tactic(auto, using(crate::proofs::PairLaws::count_missing, crate::proofs::PairLaws::count_found))]
fn count(pairs: &[Pair], hint: usize, from: u8, to: u8) -> usize
    requires { AreApart pairs.now }
    ensures { result ≡ count_in (find_pair from to (relay_pairs pairs.now)) }
{
    match pair_of(pairs, hint, from, to) {
        None => 0,
        Some(p) => p.parcels.len(),
    }
}

/// Puts a datagram behind those of its pair.
#[tactic(auto, using(crate::proofs::PairLaws::put_at, crate::proofs::PairLaws::added_new, crate::proofs::ApartLaws::apart_set, crate::proofs::ApartLaws::apart_push, rsct_packet::proofs::SearchLaws::place_is_in, std::proofs::lemmas::Grind::common_steps))]
fn put(
    pairs: &mut Vec<Pair>,
    alloc: Global,
    hint: usize,
    from: u8,
    to: u8,
    parcel: KeptParcel,
) -> Result<(), NoMemory>
    requires { AreApart pairs.old.items }
    ensures pairs { OnOk result (relay_pairs pairs.new.items
        ≡ pairs_with from to parcel (relay_pairs pairs.old.items)) }
    ensures apart { AreApart pairs.new.items }
{
    match place_of(pairs.as_slice(), hint, from, to) {
        None => {
            let mut parcels = List::new(alloc);
            parcels.push(parcel)?;
            pairs.push(Pair { from, to, parcels })?;
        }
        Some(i) => pairs[i].parcels.push(parcel)?,
    }
    Ok(())
}

/// Adds a datagram to those of its pair; answers how many they are then. A new pair stands behind the others.
pub fn add(
    pairs: &mut Vec<Pair>,
    alloc: Global,
    hint: usize,
    from: u8,
    to: u8,
    parcel: KeptParcel,
) -> Result<u32, NoMemory>
    requires { AreApart pairs.old.items }
    ensures apart { AreApart pairs.new.items }
    ensures pairs { OnOk result (relay_pairs pairs.new.items
        ≡ pairs_with from to parcel (relay_pairs pairs.old.items)) }
    ensures count { IfOk result (λ k. k ≡ count_in
        (find_pair from to (relay_pairs pairs.old.items)) + 1) }
{
    let k = count(pairs.as_slice(), hint, from, to);
    if k >= u32::MAX as usize {
        return Err(NoMemory);
    }
    put(pairs, alloc, hint, from, to, parcel)?;
    Ok(k as u32 + 1)
}
