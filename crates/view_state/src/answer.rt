//! What a node that is asked for a view answers.
use crate::install::Parts;
use rsct_packet::ViewId;

/// What a node that was asked answers: itself with its incarnation, the view that it comes from, and its lists.
#[derive(Drop)]
pub struct Answer {
    pub node: u8,
    pub inc: u32,
    pub view: ViewId,
    pub parts: Parts,
}
