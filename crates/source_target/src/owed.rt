//! What a target group owes to its source group.
use proposal_core::Fallen;
use rsct_packet::ViewId;

/// What a target is to begin: the cast-out of members whose node has no member of the source, in membership
/// order; or the reflection of the source's value, by the view and the place at which it was set.
#[derive(Drop)]
pub enum Due {
    CastOut(Fallen),
    Reflect(ViewId, u32),
}
