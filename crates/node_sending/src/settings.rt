//! What the settings of a domain say.
ghost use Rattle.std.specs.Prelude.{◌≡◌, ◌-◌, ◌&&◌, find, slice_get};
ghost use Rattle.std.specs.List.{list_all};
ghost use Rattle.std.specs.Option.{unwrap_or};
ghost use Rattle.node_state.specs.Settings.{is_fixed, is_rings, networks, address_at, has_adapter, shared_network, speaks_two, view_level};

use node_state::{Config, Mode};
use rsct_packet::{Member, NETWORKS};

/// The number for a node; 0 beyond the last.
fn number_at(numbers: &[u32], node: u8) -> u32
    ensures { result ≡ unwrap_or (slice_get numbers.now (node - 1)) 0 }
{
    match numbers.get(usize::from(node).saturating_sub(1)) {
        None => 0,
        Some(n) => *n,
    }
}

/// Is there one view of all nodes for good?
pub fn is_fixed(mode: Mode) -> bool
    ensures { result ≡ is_fixed mode }
{
    match mode {
        Mode::Fixed => true,
        Mode::Asked => false,
        Mode::Rings => false,
    }
}

/// Do views come from the heartbeat rings?
pub fn is_rings(mode: Mode) -> bool
    ensures { result ≡ is_rings mode }
{
    match mode {
        Mode::Fixed => false,
        Mode::Asked => false,
        Mode::Rings => true,
    }
}

/// The address of a node on a network; 0 where it has no adapter there.
#[tactic(auto, unfolding(node_state::specs::Settings::address_at, node_state::specs::Settings::addresses_on))]
pub fn address(config: &Config, node: u8, network: u8) -> u32
    ensures { result ≡ address_at config.now node network }
{
    match config.addr.get(usize::from(network).saturating_sub(1)) {
        None => 0,
        Some(row) => number_at(row, node),
    }
}

/// Has the node an adapter on the network?
#[tactic(auto, unfolding(node_state::specs::Settings::has_adapter))]
pub fn has_adapter(config: &Config, node: u8, network: u8) -> bool
    ensures { result ≡ has_adapter config.now node network }
{
    address(config, node, network) > 0
}

/// Have both nodes an adapter on the network?
fn joins(config: &Config, first: u8, second: u8, network: u8) -> bool
    ensures { result
        ≡ (has_adapter config.now first network && has_adapter config.now second network) }
{
    has_adapter(config, first, network) && has_adapter(config, second, network)
}

/// The first network on which both nodes have an adapter.
fn first_shared(config: &Config, first: u8, second: u8) -> Option<u8>
    ensures { result ≡ find (λ k. has_adapter config.now first k && has_adapter config.now second k)
        networks }
{
    NETWORKS
        .iter()
        .copied()
        .find(|k| joins(config, first, second, *k))
}

/// The least network on which both nodes have an adapter; 0 where there is none.
pub fn shared_network(config: &Config, first: u8, second: u8) -> u8
    ensures { result ≡ shared_network config.now first second }
{
    match first_shared(config, first, second) {
        None => 0,
        Some(k) => k,
    }
}

/// Does the node speak level 2 in its incarnation?
#[tactic(auto, unfolding(node_state::specs::Settings::speaks_two))]
pub fn speaks_two(config: &Config, member: Member) -> bool
    ensures { result ≡ speaks_two config.now member }
{
    let from = number_at(&config.level_from, member.node);
    from > 0 && from <= member.inc
}

fn all_speak_two(config: &Config, members: &[Member]) -> bool
    ensures { result ≡ list_all (speaks_two config.now) members.now }
{
    members.iter().all(|m| speaks_two(config, *m))
}

/// The level of a view with these members: 2 where all speak it, else 1.
#[tactic(auto, unfolding(node_state::specs::Settings::view_level, node_state::specs::Settings::level_if))]
pub fn view_level(config: &Config, members: &[Member]) -> u8
    ensures { result ≡ view_level config.now members.now }
{
    if all_speak_two(config, members) { 2 } else { 1 }
}
