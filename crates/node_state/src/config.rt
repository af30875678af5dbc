//! The settings of a domain.
use rsct_packet::Mask;

/// Where views come from: one view of all nodes for good, orders to ask, or the heartbeat rings.
#[derive(Clone, Copy, Debug, PartialEq, Eq)]
pub enum Mode {
    Fixed,
    Asked,
    Rings,
}

/// The settings of a domain. `addr[k - 1][n - 1]` is the address of node `n` on network `k`, 0 where it has no
/// adapter there. `every` (1 to 100) and `misses` (2 to 100) are those of the rings. `level_from[n - 1]` is the
/// incarnation from which on node `n` speaks level 2, 0 where it never does.
#[derive(Clone, Copy)]
pub struct Config {
    pub mode: Mode,
    pub nodes: Mask,
    pub addr: [[u32; 32]; 4],
    pub every: u16,
    pub misses: u16,
    pub port: u16,
    pub level_from: [u32; 32],
    pub domain: u32,
}
