//! Readers: each takes a value off the front of bytes, and gives it with the bytes after it. What is read is
//! spelled there (`found`), and what is spelled there is read, whatever follows (`only`): so `None` says that the
//! front spells no such value. They compose by `?` and take no memory.
ghost use Rattle.std.specs.Prelude.{◌≡◌, length};
ghost use Rattle.std.specs.Int.{w8, w16, w32, w64};
ghost use Rattle.rsct_packet.specs.Reading.{Gives, GivesPart, number_at, part_at};
ghost use Rattle.rsct_packet.specs.Format.{IsBytes, IsFoundAt, IsOnlyAt, part_of};
ghost use Rattle.rsct_packet.specs.Text.{IsName};
ghost use Rattle.rsct_packet.specs.Fields.{IsU8, IsU16, IsU32, IsU64, IsNode, IsNodeOrNone, AreShort, IsMask, IsView, IsRing, IsProvider, IsProto, IsMember, u8_text, u16_text, u32_text, u64_text, node_at, node_or_none_at, bytes_at, bytes_text, name_at, name_text, mask_at, mask_text, view_at, view_text, ring_at, ring_text, provider_at, provider_text, proto_at, proto_text, member_at, member_text};

use crate::fronts::{
    bytes_at, mask_at, member_at, name_at, node_at, node_or_none_at, part_at, proto_at,
    provider_at, ring_at, u8_at, u16_at, u32_at, u64_at, view_at,
};
use crate::ids::{Member, ProtoId, ProviderId, RingId, ViewId};
use crate::mask::Mask;

/// The same bytes. A caller knows of them what their type says.
pub fn known(bytes: &[u8]) -> &[u8]
    ensures same { result.now ≡ bytes.now }
    ensures bytes { IsBytes bytes.now }
{
    bytes
}

/// A byte.
#[tactic(auto, using(crate::proofs::FormatLaws::format_reads, crate::proofs::FormatLaws::u8_format))]
pub fn read_u8(bytes: &[u8]) -> Option<(u8, &[u8])>
    ensures value { Gives result (number_at w8 bytes.now) }
    ensures found { IsFoundAt u8_text IsU8 result bytes.now }
    ensures only { IsOnlyAt u8_text IsU8 result bytes.now }
{
    u8_at(known(bytes))
}

/// A number of 2 bytes, the highest first.
#[tactic(auto, using(crate::proofs::FormatLaws::format_reads, crate::proofs::FormatLaws::u16_format))]
pub fn read_u16(bytes: &[u8]) -> Option<(u16, &[u8])>
    ensures value { Gives result (number_at w16 bytes.now) }
    ensures found { IsFoundAt u16_text IsU16 result bytes.now }
    ensures only { IsOnlyAt u16_text IsU16 result bytes.now }
{
    u16_at(known(bytes))
}

/// A number of 4 bytes, the highest first.
#[tactic(auto, using(crate::proofs::FormatLaws::format_reads, crate::proofs::FormatLaws::u32_format))]
pub fn read_u32(bytes: &[u8]) -> Option<(u32, &[u8])>
    ensures value { Gives result (number_at w32 bytes.now) }
    ensures found { IsFoundAt u32_text IsU32 result bytes.now }
    ensures only { IsOnlyAt u32_text IsU32 result bytes.now }
{
    u32_at(known(bytes))
}

/// A number of 8 bytes, the highest first.
#[tactic(auto, using(crate::proofs::FormatLaws::format_reads, crate::proofs::FormatLaws::u64_format))]
pub fn read_u64(bytes: &[u8]) -> Option<(u64, &[u8])>
    ensures value { Gives result (number_at w64 bytes.now) }
    ensures found { IsFoundAt u64_text IsU64 result bytes.now }
    ensures only { IsOnlyAt u64_text IsU64 result bytes.now }
{
    u64_at(known(bytes))
}

/// So many bytes.
#[tactic(auto, using(crate::proofs::FormatLaws::format_reads, crate::proofs::FormatLaws::part_gives, crate::proofs::FormatLaws::part_format))]
pub fn read_part(len: usize, bytes: &[u8]) -> Option<(&[u8], &[u8])>
    ensures value { GivesPart result (part_at len bytes.now) }
    ensures found { IsFoundAt (λ x. x) (λ x. length x ≡ len) (part_of result) bytes.now }
    ensures only { IsOnlyAt (λ x. x) (λ x. length x ≡ len) (part_of result) bytes.now }
{
    part_at(len, known(bytes))
}

/// A node, from 1 to 32.
#[tactic(auto, using(crate::proofs::FormatLaws::format_reads, crate::proofs::FieldLaws::node_format))]
pub fn read_node(bytes: &[u8]) -> Option<(u8, &[u8])>
    ensures value { Gives result (node_at bytes.now) }
    ensures found { IsFoundAt u8_text IsNode result bytes.now }
    ensures only { IsOnlyAt u8_text IsNode result bytes.now }
{
    node_at(known(bytes))
}

/// A node, or 0 for none.
#[tactic(auto, using(crate::proofs::FormatLaws::format_reads, crate::proofs::FieldLaws::node_or_none_format))]
pub fn read_node_or_none(bytes: &[u8]) -> Option<(u8, &[u8])>
    ensures value { Gives result (node_or_none_at bytes.now) }
    ensures found { IsFoundAt u8_text IsNodeOrNone result bytes.now }
    ensures only { IsOnlyAt u8_text IsNodeOrNone result bytes.now }
{
    node_or_none_at(known(bytes))
}

/// A length of two bytes and so many bytes.
#[tactic(auto, using(crate::proofs::FormatLaws::format_reads, crate::proofs::FormatLaws::part_gives, crate::proofs::FieldLaws::bytes_format))]
pub fn read_bytes(bytes: &[u8]) -> Option<(&[u8], &[u8])>
    ensures value { GivesPart result (bytes_at bytes.now) }
    ensures found { IsFoundAt bytes_text AreShort (part_of result) bytes.now }
    ensures only { IsOnlyAt bytes_text AreShort (part_of result) bytes.now }
{
    bytes_at(known(bytes))
}

/// A length of one byte and a group name of so many bytes.
#[tactic(auto, using(crate::proofs::FormatLaws::format_reads, crate::proofs::FormatLaws::part_gives, crate::proofs::FieldLaws::name_format))]
pub fn read_name(bytes: &[u8]) -> Option<(&[u8], &[u8])>
    ensures value { GivesPart result (name_at bytes.now) }
    ensures found { IsFoundAt name_text IsName (part_of result) bytes.now }
    ensures only { IsOnlyAt name_text IsName (part_of result) bytes.now }
{
    name_at(known(bytes))
}

/// A set of nodes.
#[tactic(auto, using(crate::proofs::FormatLaws::format_reads, crate::proofs::FieldLaws::mask_format))]
pub fn read_mask(bytes: &[u8]) -> Option<(Mask, &[u8])>
    ensures value { Gives result (mask_at bytes.now) }
    ensures found { IsFoundAt mask_text IsMask result bytes.now }
    ensures only { IsOnlyAt mask_text IsMask result bytes.now }
{
    mask_at(known(bytes))
}

/// A view, whose coordinator is from 1 to 32.
#[tactic(auto, using(crate::proofs::FormatLaws::format_reads, crate::proofs::FieldLaws::view_format))]
pub fn read_view(bytes: &[u8]) -> Option<(ViewId, &[u8])>
    ensures value { Gives result (view_at bytes.now) }
    ensures found { IsFoundAt view_text IsView result bytes.now }
    ensures only { IsOnlyAt view_text IsView result bytes.now }
{
    view_at(known(bytes))
}

/// A ring, whose leader is from 1 to 32.
#[tactic(auto, using(crate::proofs::FormatLaws::format_reads, crate::proofs::FieldLaws::ring_format))]
pub fn read_ring(bytes: &[u8]) -> Option<(RingId, &[u8])>
    ensures value { Gives result (ring_at bytes.now) }
    ensures found { IsFoundAt ring_text IsRing result bytes.now }
    ensures only { IsOnlyAt ring_text IsRing result bytes.now }
{
    ring_at(known(bytes))
}

/// A provider, whose node is from 1 to 32.
#[tactic(auto, using(crate::proofs::FormatLaws::format_reads, crate::proofs::FieldLaws::provider_format))]
pub fn read_provider(bytes: &[u8]) -> Option<(ProviderId, &[u8])>
    ensures value { Gives result (provider_at bytes.now) }
    ensures found { IsFoundAt provider_text IsProvider result bytes.now }
    ensures only { IsOnlyAt provider_text IsProvider result bytes.now }
{
    provider_at(known(bytes))
}

/// A protocol.
#[tactic(auto, using(crate::proofs::FormatLaws::format_reads, crate::proofs::FieldLaws::proto_format))]
pub fn read_proto(bytes: &[u8]) -> Option<(ProtoId, &[u8])>
    ensures value { Gives result (proto_at bytes.now) }
    ensures found { IsFoundAt proto_text IsProto result bytes.now }
    ensures only { IsOnlyAt proto_text IsProto result bytes.now }
{
    proto_at(known(bytes))
}

/// A node from 1 to 32 with its incarnation.
#[tactic(auto, using(crate::proofs::FormatLaws::format_reads, crate::proofs::FieldLaws::member_format))]
pub fn read_member(bytes: &[u8]) -> Option<(Member, &[u8])>
    ensures value { Gives result (member_at bytes.now) }
    ensures found { IsFoundAt member_text IsMember result bytes.now }
    ensures only { IsOnlyAt member_text IsMember result bytes.now }
{
    member_at(known(bytes))
}
