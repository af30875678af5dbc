//! What the front of bytes spells, as the definitions of the fields have it: the value, and the bytes after
//! it. They compose by `?` and take no memory.
ghost use Rattle.std.specs.Prelude.{◌≡◌};
ghost use Rattle.std.specs.Int.{w8, w16, w32, w64};
ghost use Rattle.rsct_packet.specs.Reading.{Gives, GivesPart, number_at, part_at};
ghost use Rattle.rsct_packet.specs.Fields.{node_at, node_or_none_at, bytes_at, name_at, mask_at, view_at, ring_at, provider_at, proto_at, member_at};

use crate::ids::{Member, ProtoId, ProviderId, RingId, ViewId};
use crate::mask::{MAX_NODES, Mask, is_node_number};
use crate::text::is_name;

pub(crate) fn u8_at(bytes: &[u8]) -> Option<(u8, &[u8])>
    ensures { Gives result (number_at w8 bytes.now) }
{
    if bytes.len() < 1 {
        return None;
    }
    let (front, back) = bytes.split_at(1);
    Some((front[0], back))
}

pub(crate) fn u16_at(bytes: &[u8]) -> Option<(u16, &[u8])>
    ensures { Gives result (number_at w16 bytes.now) }
{
    if bytes.len() < 2 {
        return None;
    }
    let (front, back) = bytes.split_at(2);
    Some((u16::from_be_bytes([front[0], front[1]]), back))
}

pub(crate) fn u32_at(bytes: &[u8]) -> Option<(u32, &[u8])>
    ensures { Gives result (number_at w32 bytes.now) }
{
    if bytes.len() < 4 {
        return None;
    }
    let (front, back) = bytes.split_at(4);
    Some((
        u32::from_be_bytes([front[0], front[1], front[2], front[3]]),
        back,
    ))
}

pub(crate) fn u64_at(bytes: &[u8]) -> Option<(u64, &[u8])>
    ensures { Gives result (number_at w64 bytes.now) }
{
    if bytes.len() < 8 {
        return None;
    }
    let (front, back) = bytes.split_at(8);
    Some((
        u64::from_be_bytes([
            front[0], front[1], front[2], front[3], front[4], front[5], front[6], front[7],
        ]),
        back,
    ))
}

pub(crate) fn part_at(len: usize, bytes: &[u8]) -> Option<(&[u8], &[u8])>
    ensures { GivesPart result (part_at len bytes.now) }
{
    if bytes.len() < len {
        return None;
    }
    Some(bytes.split_at(len))
}

pub(crate) fn node_at(bytes: &[u8]) -> Option<(u8, &[u8])>
    ensures { Gives result (node_at bytes.now) }
{
    let (n, rest) = u8_at(bytes)?;
    if !is_node_number(n) {
        return None;
    }
    Some((n, rest))
}

pub(crate) fn node_or_none_at(bytes: &[u8]) -> Option<(u8, &[u8])>
    ensures { Gives result (node_or_none_at bytes.now) }
{
    let (n, rest) = u8_at(bytes)?;
    if n > MAX_NODES {
        return None;
    }
    Some((n, rest))
}

#[tactic(auto, unfolding(crate::specs::Fields::bytes_at))]
pub(crate) fn bytes_at(bytes: &[u8]) -> Option<(&[u8], &[u8])>
    ensures { GivesPart result (bytes_at bytes.now) }
{
    let (n, bytes) = u16_at(bytes)?;
    part_at(n as usize, bytes)
}

#[tactic(auto, unfolding(crate::specs::Fields::name_at))]
pub(crate) fn name_at(bytes: &[u8]) -> Option<(&[u8], &[u8])>
    ensures { GivesPart result (name_at bytes.now) }
{
    let (n, bytes) = u8_at(bytes)?;
    let (name, bytes) = part_at(n as usize, bytes)?;
    if !is_name(name) {
        return None;
    }
    Some((name, bytes))
}

#[tactic(auto, unfolding(crate::specs::Fields::mask_at))]
pub(crate) fn mask_at(bytes: &[u8]) -> Option<(Mask, &[u8])>
    ensures { Gives result (mask_at bytes.now) }
{
    let (bits, bytes) = u32_at(bytes)?;
    Some((Mask { bits }, bytes))
}

#[tactic(auto, unfolding(crate::specs::Fields::view_at))]
pub(crate) fn view_at(bytes: &[u8]) -> Option<(ViewId, &[u8])>
    ensures { Gives result (view_at bytes.now) }
{
    let (number, bytes) = u32_at(bytes)?;
    let (coord, bytes) = node_at(bytes)?;
    let (inc, bytes) = u32_at(bytes)?;
    Some((ViewId { number, coord, inc }, bytes))
}

#[tactic(auto, unfolding(crate::specs::Fields::ring_at))]
pub(crate) fn ring_at(bytes: &[u8]) -> Option<(RingId, &[u8])>
    ensures { Gives result (ring_at bytes.now) }
{
    let (number, bytes) = u32_at(bytes)?;
    let (leader, bytes) = node_at(bytes)?;
    let (inc, bytes) = u32_at(bytes)?;
    Some((
        RingId {
            leader,
            inc,
            number,
        },
        bytes,
    ))
}

#[tactic(auto, unfolding(crate::specs::Fields::provider_at))]
pub(crate) fn provider_at(bytes: &[u8]) -> Option<(ProviderId, &[u8])>
    ensures { Gives result (provider_at bytes.now) }
{
    let (node, bytes) = node_at(bytes)?;
    let (inc, bytes) = u32_at(bytes)?;
    let (instance, bytes) = u16_at(bytes)?;
    let (join, bytes) = u32_at(bytes)?;
    Some((
        ProviderId {
            node,
            inc,
            instance,
            join,
        },
        bytes,
    ))
}

#[tactic(auto, unfolding(crate::specs::Fields::proto_at))]
pub(crate) fn proto_at(bytes: &[u8]) -> Option<(ProtoId, &[u8])>
    ensures { Gives result (proto_at bytes.now) }
{
    let (view, bytes) = view_at(bytes)?;
    let (place, bytes) = u32_at(bytes)?;
    Some((ProtoId { view, place }, bytes))
}

#[tactic(auto, unfolding(crate::specs::Fields::member_at))]
pub(crate) fn member_at(bytes: &[u8]) -> Option<(Member, &[u8])>
    ensures { Gives result (member_at bytes.now) }
{
    let (node, bytes) = node_at(bytes)?;
    let (inc, bytes) = u32_at(bytes)?;
    Some((Member { node, inc }, bytes))
}
