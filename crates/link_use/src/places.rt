//! Where the adapters of a domain are.
ghost use Rattle.std.specs.Prelude.{◌≡◌, ◌≤◌, ◌+◌};
ghost use Rattle.hags_io.specs.Telling.{Did};
ghost use Rattle.daemon_model.specs.Settings.{placing, placings_on, placings, openings};

use hags_io::Outside;
use node_sending::{address, has_adapter};
use node_state::Config;

/// Tells where an adapter is: at the port of its node.
#[tactic(auto, using(crate::proofs::PlaceLaws::placed_one, crate::proofs::PlaceLaws::placed_none))]
fn tell_place<O: Outside>(outside: &mut O, config: &Config, network: u8, node: u8)
    requires node { (1 ≤ node) × (node ≤ 32) }
    requires network { (1 ≤ network) × (network ≤ 4) }
    requires ports { config.now.port + 32 ≤ 65535 }
    ensures { Did (O.told outside.old) (O.told outside.new) (placing config.now network node) }
{
    if has_adapter(config, node, network) {
        let at = address(config, node, network);
        outside.place(node, network, at, config.port + u16::from(node));
    }
}

/// Tells where the adapters on a network are.
#[tactic(auto, using(crate::proofs::PlaceLaws::network_begins, crate::proofs::PlaceLaws::network_next))]
fn tell_network<O: Outside>(outside: &mut O, config: &Config, network: u8)
    requires network { (1 ≤ network) × (network ≤ 4) }
    requires ports { config.now.port + 32 ≤ 65535 }
    ensures { Did (O.told outside.old) (O.told outside.new) (placings_on config.now network 32) }
{
    for before in 0..32u8 {
        tell_place(outside, config, network, before + 1);
    }
}

/// Tells where all adapters of the settings are, each at the port of its node.
#[tactic(auto, using(crate::proofs::PlaceLaws::networks_begin, crate::proofs::PlaceLaws::networks_next, crate::proofs::PlaceLaws::networks_all))]
fn tell_places<O: Outside>(outside: &mut O, config: &Config)
    requires { config.now.port + 32 ≤ 65535 }
    ensures { Did (O.told outside.old) (O.told outside.new) (placings config.now) }
{
    for before in 0..4u8 {
        tell_network(outside, config, before + 1);
    }
}

/// Tells the link where all adapters of the settings are, each at `port` plus its node, and opens it at a port, where
/// 0 is any that is free. False where it could not be opened.
#[tactic(auto, using(hags_io::proofs::DeedLaws::did_on))]
pub fn open_link<O: Outside>(outside: &mut O, config: &Config, port: u16) -> bool
    requires { config.now.port + 32 ≤ 65535 }
    ensures { Did (O.told outside.old) (O.told outside.new) (openings config.now port result) }
{
    tell_places(outside, config);
    outside.open(port)
}
