//! Which nodes are cut off from each other.
ghost use Rattle.std.specs.Prelude.{◌≡◌, [], ◌∷◌, ◌++◌, map, OnOk, filter};
ghost use Rattle.std.specs.List.{list_any};
ghost use Rattle.world_model.specs.Play.{is_cut_of, networks_in, healed, with_cuts};
ghost use Rattle.play_state.specs.Cuts.{cut_in, cut_on, is_other};

use rsct_packet::{NETWORKS, NoMemory};
use std::alloc::Global;
use std::marker::Model;

/// Two nodes that are cut off from each other on a network, the lesser one first.
#[derive(Clone, Copy, Debug, PartialEq, Eq)]
struct Cut {
    low: u8,
    high: u8,
    network: u8,
}

/// All cuts, the earliest first.
#[derive(Drop)]
pub struct Cuts {
    rows: Vec<Cut>,
}

impl Model for Cuts {
    ghost use Rattle.std.specs.Prelude.{List, map};
    ghost use Rattle.world_model.specs.Play.{Cut};
    ghost use Rattle.play_state.specs.Cuts.{cut_in};

    ghost Value = { List Cut };

    ghost view = { λ c. map cut_in c.rows.items };
}

/// Is it the cut of these two nodes on this network?
#[tactic(auto, unfolding(world_model::specs::Play::is_cut_of))]
fn is_cut_of(cut: Cut, first: u8, second: u8, network: u8) -> bool
    ensures { result ≡ is_cut_of first second network (cut_in cut) }
{
    cut.low == first.min(second) && cut.high == first.max(second) && cut.network == network
}

/// Is it a cut of these two nodes on this network, or on any where none is named?
#[tactic(auto, unfolding(world_model::specs::Play::networks_in))]
fn is_cut_among(cut: Cut, first: u8, second: u8, network: Option<u8>) -> bool
    ensures { result ≡ list_any (λ k. is_cut_of first second k (cut_in cut)) (networks_in network) }
{
    match network {
        None => NETWORKS.iter().any(|k| is_cut_of(cut, first, second, *k)),
        Some(k) => is_cut_of(cut, first, second, k),
    }
}

/// Is it one of these cuts?
fn is_among(cuts: &[Cut], first: u8, second: u8, network: u8) -> bool
    ensures { result ≡ list_any (λ c. is_cut_of first second network (cut_in c)) cuts.now }
{
    cuts.iter().any(|c| is_cut_of(*c, first, second, network))
}

/// Is it a cut of other nodes, or of another network where one is named?
fn is_other(cut: Cut, first: u8, second: u8, network: Option<u8>) -> bool
    ensures { result ≡ is_other first second network cut }
{
    !is_cut_among(cut, first, second, network)
}

/// Keeps the others.
fn keep_others(cuts: &mut Vec<Cut>, first: u8, second: u8, network: Option<u8>)
    ensures { cuts.new.items ≡ filter (λ c. is_other first second network c) cuts.old.items }
{
    cuts.retain(|c| is_other(*c, first, second, network));
}

impl Cuts {
    /// No node is cut off.
    pub fn new(alloc: Global) -> Cuts
        ensures { result ≡ [] }
    {
        Cuts {
            rows: Vec::new(alloc),
        }
    }

    /// Are the two nodes cut off from each other on the network?
    pub fn has(&self, first: u8, second: u8, network: u8) -> bool
        ensures { result ≡ list_any (is_cut_of first second network) self.now }
    {
        is_among(self.rows.as_slice(), first, second, network)
    }

    /// The two nodes are cut off from each other no more, on the network or on all.
    pub fn heal(&mut self, first: u8, second: u8, network: Option<u8>)
        ensures { self.new ≡ healed self.old first second (networks_in network) }
    {
        keep_others(&mut self.rows, first, second, network);
    }

    /// Two nodes are cut off from each other on a network.
    fn add(&mut self, first: u8, second: u8, network: u8) -> Result<(), NoMemory>
        ensures { OnOk result (self.new ≡ self.old ++ cut_on first second network ∷ []) }
    {
        self.rows.push(Cut {
            low: first.min(second),
            high: first.max(second),
            network,
        })?;
        Ok(())
    }

    /// Two nodes are cut off from each other, on the network or on all.
    #[tactic(auto, unfolding(world_model::specs::Play::with_cuts, world_model::specs::Play::networks_in))]
    pub fn cut(&mut self, first: u8, second: u8, network: Option<u8>) -> Result<(), NoMemory>
        ensures { OnOk result (self.new ≡ with_cuts self.old first second (networks_in network)) }
    {
        self.heal(first, second, network);
        match network {
            None => {
                self.add(first, second, 1)?;
                self.add(first, second, 2)?;
                self.add(first, second, 3)?;
                self.add(first, second, 4)
            }
            Some(k) => self.add(first, second, k),
        }
    }
}
