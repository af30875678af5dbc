//! The front of an envelope.

/// How often an envelope may be sent on at most.
pub const MAX_HOPS: u8 = 31;

/// How often an envelope may still be sent on (0 to 31), and the nodes (1 to 32) between which its packet goes.
#[derive(Clone, Copy, Debug, PartialEq, Eq)]
pub struct Front {
    pub hops: u8,
    pub origin: u8,
    pub target: u8,
}
