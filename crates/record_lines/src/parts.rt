//! What single words of a line say in two parts.
use proposal_core::Vote;
use rsct_packet::{List, Text};

/// A vote, with its value where one stands behind it.
#[derive(Drop)]
pub struct Ballot {
    pub vote: Vote,
    pub value: Option<Text>,
}

/// A client and its node. The name has 1 to 16 bytes.
#[derive(Drop)]
pub struct ClientName {
    pub node: u8,
    pub name: List<u8>,
}
