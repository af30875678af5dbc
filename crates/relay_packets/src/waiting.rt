//! What waits to be given.

/// A datagram that waits: that of this number among all ever sent from one node to another, on its network.
#[derive(Clone, Copy, Debug, PartialEq, Eq)]
pub struct Waiting {
    pub from: u8,
    pub to: u8,
    pub number: u32,
    pub network: u8,
}
