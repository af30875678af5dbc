//! The settings of a load.
ghost use Rattle.std.specs.Prelude.{◌≡◌};
ghost use Rattle.node_state.specs.declared.config.Mode.TheVariants as mode;
ghost use Rattle.world_model.specs.Load.{eight, mask_of, settings_of};

use node_state::{Config, Mode};
use rsct_packet::Mask;

/// The eight nodes of a load.
#[tactic(auto, unfolding(world_model::specs::Load::mask_of))]
pub fn all_nodes() -> Mask
    ensures { result ≡ mask_of eight }
{
    Mask::empty()
        .with(1)
        .with(2)
        .with(3)
        .with(4)
        .with(5)
        .with(6)
        .with(7)
        .with(8)
}

/// The settings of a load: nodes 1 to 8 in mode asked, with the addresses 10.1.0.1 to 10.1.0.8 on network 1.
pub fn load_settings() -> Config
    ensures { result ≡ settings_of mode.Asked eight }
{
    let addresses = [
        0x0a01_0001,
        0x0a01_0002,
        0x0a01_0003,
        0x0a01_0004,
        0x0a01_0005,
        0x0a01_0006,
        0x0a01_0007,
        0x0a01_0008,
        0,
        0,
        0,
        0,
        0,
        0,
        0,
        0,
        0,
        0,
        0,
        0,
        0,
        0,
        0,
        0,
        0,
        0,
        0,
        0,
        0,
        0,
        0,
        0,
    ];
    Config {
        mode: Mode::Asked,
        nodes: all_nodes(),
        addr: [addresses, [0; 32], [0; 32], [0; 32]],
        every: 1,
        misses: 4,
        port: 12347,
        level_from: [0; 32],
        domain: 1,
    }
}
