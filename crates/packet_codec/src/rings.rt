//! The bodies of rings, of reports, and of status questions.
ghost use Rattle.std.specs.Prelude.{◌≡◌, Option, option_map};
ghost use Rattle.node_state.specs.Bodies.{body_at};
ghost use Rattle.packet_codec.specs.InPlace.{body_in};

use crate::packet::BodyRef;
use adapter_ring::RingPacket;
use packet_bodies::{
    read_death, read_mask_body, read_query, read_reply, read_report, read_ring_body, read_ring_mask,
};

#[tactic(auto, unfolding(node_state::specs::Bodies::body_at), using(crate::proofs::WholeLaws::whole_made))]
pub fn heartbeat_body(bytes: &[u8]) -> Option<BodyRef<'_>>
    ensures { option_map body_in result ≡ body_at 1 bytes.now }
{
    let ring = read_ring_body(bytes)?;
    Some(BodyRef::Ring(RingPacket::Heartbeat { ring }))
}

#[tactic(auto, unfolding(node_state::specs::Bodies::body_at), using(crate::proofs::WholeLaws::whole_made))]
pub fn proclaim_body(bytes: &[u8]) -> Option<BodyRef<'_>>
    ensures { option_map body_in result ≡ body_at 2 bytes.now }
{
    let ring = read_ring_body(bytes)?;
    Some(BodyRef::Ring(RingPacket::Proclaim { ring }))
}

#[tactic(auto, unfolding(node_state::specs::Bodies::body_at), using(crate::proofs::WholeLaws::whole_made))]
pub fn join_body(bytes: &[u8]) -> Option<BodyRef<'_>>
    ensures { option_map body_in result ≡ body_at 3 bytes.now }
{
    let mask = read_mask_body(bytes)?;
    Some(BodyRef::Ring(RingPacket::Join { mask }))
}

#[tactic(auto, unfolding(node_state::specs::Bodies::body_at), using(crate::proofs::WholeLaws::whole_made))]
pub fn ptc_body(bytes: &[u8]) -> Option<BodyRef<'_>>
    ensures { option_map body_in result ≡ body_at 4 bytes.now }
{
    let x = read_ring_mask(bytes)?;
    Some(BodyRef::Ring(RingPacket::Ptc {
        ring: x.ring,
        mask: x.mask,
    }))
}

#[tactic(auto, unfolding(node_state::specs::Bodies::body_at), using(crate::proofs::WholeLaws::whole_made))]
pub fn ptc_ack_body(bytes: &[u8]) -> Option<BodyRef<'_>>
    ensures { option_map body_in result ≡ body_at 5 bytes.now }
{
    let ring = read_ring_body(bytes)?;
    Some(BodyRef::Ring(RingPacket::PtcAck { ring }))
}

#[tactic(auto, unfolding(node_state::specs::Bodies::body_at), using(crate::proofs::WholeLaws::whole_made))]
pub fn commit_body(bytes: &[u8]) -> Option<BodyRef<'_>>
    ensures { option_map body_in result ≡ body_at 6 bytes.now }
{
    let x = read_ring_mask(bytes)?;
    Some(BodyRef::Ring(RingPacket::Commit {
        ring: x.ring,
        mask: x.mask,
    }))
}

#[tactic(auto, unfolding(node_state::specs::Bodies::body_at), using(crate::proofs::WholeLaws::whole_made))]
pub fn death_body(bytes: &[u8]) -> Option<BodyRef<'_>>
    ensures { option_map body_in result ≡ body_at 7 bytes.now }
{
    let x = read_death(bytes)?;
    Some(BodyRef::Ring(RingPacket::Death {
        ring: x.ring,
        node: x.node,
    }))
}

#[tactic(auto, unfolding(node_state::specs::Bodies::body_at), using(crate::proofs::WholeLaws::whole_made))]
pub fn report_body(bytes: &[u8]) -> Option<BodyRef<'_>>
    ensures { option_map body_in result ≡ body_at 8 bytes.now }
{
    Some(BodyRef::Report(read_report(bytes)?))
}

#[tactic(auto, unfolding(node_state::specs::Bodies::body_at), using(crate::proofs::WholeLaws::whole_made))]
pub fn query_body(bytes: &[u8]) -> Option<BodyRef<'_>>
    ensures { option_map body_in result ≡ body_at 22 bytes.now }
{
    Some(BodyRef::Query(read_query(bytes)?))
}

#[tactic(auto, unfolding(node_state::specs::Bodies::body_at))]
pub fn reply_body(bytes: &[u8]) -> Option<BodyRef<'_>>
    ensures { option_map body_in result ≡ body_at 23 bytes.now }
{
    Some(BodyRef::Reply(read_reply(bytes)?))
}
