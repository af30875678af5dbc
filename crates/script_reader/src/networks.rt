//! The addresses of a domain's settings.
ghost use Rattle.std.specs.Prelude.{◌≡◌, ◌==◌, nat_lt};
ghost use Rattle.std.specs.List.{list_all, list_any};
ghost use Rattle.rsct_packet.specs.Mask.{nodes_of};
ghost use Rattle.node_state.specs.Settings.{addresses_on, shared_network};
ghost use Rattle.world_model.specs.Reading.{is_second_adapter, all_share};

use node_sending::{address, shared_network};
use node_state::Config;
use rsct_packet::NODES;

/// The addresses of a network, by node; none for a number that no network has.
#[tactic(auto, unfolding(node_state::specs::Settings::addresses_on))]
fn addresses_on(config: &Config, network: u8) -> &[u32]
    ensures { result.now ≡ addresses_on config.now network }
{
    match config.addr.get(usize::from(network).saturating_sub(1)) {
        None => &[],
        Some(addresses) => addresses.as_slice(),
    }
}

/// Has a node the address on the network?
fn is_address_on(config: &Config, network: u8, wanted: u32) -> bool
    ensures { result ≡ list_any (λ a. a == wanted) (addresses_on config.now network) }
{
    addresses_on(config, network).iter().any(|a| *a == wanted)
}

/// Has the node an adapter on the network, or another one the address there?
#[tactic(auto, unfolding(world_model::specs::Reading::is_second_adapter))]
pub fn is_second_adapter(config: &Config, node: u8, network: u8, wanted: u32) -> bool
    ensures { result ≡ is_second_adapter config.now node network wanted }
{
    address(config, node, network) > 0 || is_address_on(config, network, wanted)
}

#[tactic(auto, unfolding(rsct_packet::specs::Mask::nodes_of))]
fn shares_with_all(config: &Config, node: u8) -> bool
    ensures { result ≡ list_all (λ b. nat_lt 0 (shared_network config.now node b))
        (nodes_of config.now.nodes) }
{
    NODES
        .iter()
        .copied()
        .filter(|b| config.nodes.has(*b))
        .all(|b| shared_network(config, node, b) > 0)
}

/// Does each two nodes share a network, and has each node one?
#[tactic(auto, unfolding(world_model::specs::Reading::all_share, rsct_packet::specs::Mask::nodes_of))]
pub fn all_share(config: &Config) -> bool
    ensures { result ≡ all_share config.now }
{
    NODES
        .iter()
        .copied()
        .filter(|a| config.nodes.has(*a))
        .all(|a| shares_with_all(config, a))
}
