//! Writers: each takes the one spelling of a value to the end of `out`, and leaves `out` as before where
//! memory has run out.
ghost use Rattle.std.specs.Prelude.{◌≡◌, ◌++◌, ◌<◌, length, OnOk, OnErr};
ghost use Rattle.rsct_packet.specs.Text.{IsName};
ghost use Rattle.rsct_packet.specs.Fields.{IsNode, AreShort, u8_text, u16_text, u32_text, u64_text, bytes_text, name_text, mask_text, view_text, ring_text, provider_text, proto_text, member_text};

use crate::ids::{Member, NoMemory, ProtoId, ProviderId, RingId, ViewId};
use crate::mask::Mask;

pub fn put_u8(out: &mut Vec<u8>, value: u8) -> Result<(), NoMemory>
    ensures ok { OnOk result (out.new.items ≡ out.old.items ++ u8_text value) }
    ensures err { OnErr result (out.new.items ≡ out.old.items) }
{
    out.push(value)?;
    Ok(())
}

#[tactic(auto, unfolding(crate::specs::Fields::u16_text))]
pub fn put_u16(out: &mut Vec<u8>, value: u16) -> Result<(), NoMemory>
    ensures ok { OnOk result (out.new.items ≡ out.old.items ++ u16_text value) }
    ensures err { OnErr result (out.new.items ≡ out.old.items) }
{
    out.extend_from_slice(&value.to_be_bytes())?;
    Ok(())
}

#[tactic(auto, unfolding(crate::specs::Fields::u32_text))]
pub fn put_u32(out: &mut Vec<u8>, value: u32) -> Result<(), NoMemory>
    ensures ok { OnOk result (out.new.items ≡ out.old.items ++ u32_text value) }
    ensures err { OnErr result (out.new.items ≡ out.old.items) }
{
    out.extend_from_slice(&value.to_be_bytes())?;
    Ok(())
}

#[tactic(auto, unfolding(crate::specs::Fields::u64_text))]
pub fn put_u64(out: &mut Vec<u8>, value: u64) -> Result<(), NoMemory>
    ensures ok { OnOk result (out.new.items ≡ out.old.items ++ u64_text value) }
    ensures err { OnErr result (out.new.items ≡ out.old.items) }
{
    out.extend_from_slice(&value.to_be_bytes())?;
    Ok(())
}

/// A length of two bytes and the bytes.
#[tactic(auto, unfolding(crate::specs::Fields::bytes_text))]
pub fn put_bytes(out: &mut Vec<u8>, bytes: &[u8]) -> Result<(), NoMemory>
    requires { AreShort bytes.now }
    ensures ok { OnOk result (out.new.items ≡ out.old.items ++ bytes_text bytes.now) }
    ensures err { OnErr result (out.new.items ≡ out.old.items) }
{
    let before = out.len();
    put_u16(out, bytes.len() as u16)?;
    if let Err(e) = out.extend_from_slice(bytes) {
        out.truncate(before);
        return Err(NoMemory::from(e));
    }
    Ok(())
}

/// A length of one byte and the name.
#[tactic(auto, unfolding(crate::specs::Fields::name_text))]
pub fn put_name(out: &mut Vec<u8>, bytes: &[u8]) -> Result<(), NoMemory>
    requires { IsName bytes.now }
    ensures ok { OnOk result (out.new.items ≡ out.old.items ++ name_text bytes.now) }
    ensures err { OnErr result (out.new.items ≡ out.old.items) }
{
    let before = out.len();
    put_u8(out, bytes.len() as u8)?;
    if let Err(e) = out.extend_from_slice(bytes) {
        out.truncate(before);
        return Err(NoMemory::from(e));
    }
    Ok(())
}

/// A set of nodes.
#[tactic(auto, unfolding(crate::specs::Fields::mask_text))]
pub fn put_mask(out: &mut Vec<u8>, mask: Mask) -> Result<(), NoMemory>
    ensures ok { OnOk result (out.new.items ≡ out.old.items ++ mask_text mask) }
    ensures err { OnErr result (out.new.items ≡ out.old.items) }
{
    put_u32(out, mask.bits)
}

/// A view.
#[tactic(auto, unfolding(crate::specs::Fields::view_text, crate::specs::Fields::u32_text))]
pub fn put_view(out: &mut Vec<u8>, view: ViewId) -> Result<(), NoMemory>
    requires { IsNode view.coord }
    ensures ok { OnOk result (out.new.items ≡ out.old.items ++ view_text view) }
    ensures err { OnErr result (out.new.items ≡ out.old.items) }
{
    let [a, b, c, d] = view.number.to_be_bytes();
    let [e, f, g, h] = view.inc.to_be_bytes();
    out.extend_from_slice(&[a, b, c, d, view.coord, e, f, g, h])?;
    Ok(())
}

/// A ring.
#[tactic(auto, unfolding(crate::specs::Fields::ring_text, crate::specs::Fields::u32_text))]
pub fn put_ring(out: &mut Vec<u8>, ring: RingId) -> Result<(), NoMemory>
    requires { IsNode ring.leader }
    ensures ok { OnOk result (out.new.items ≡ out.old.items ++ ring_text ring) }
    ensures err { OnErr result (out.new.items ≡ out.old.items) }
{
    let [a, b, c, d] = ring.number.to_be_bytes();
    let [e, f, g, h] = ring.inc.to_be_bytes();
    out.extend_from_slice(&[a, b, c, d, ring.leader, e, f, g, h])?;
    Ok(())
}

/// A provider.
#[tactic(auto, unfolding(crate::specs::Fields::provider_text, crate::specs::Fields::u32_text, crate::specs::Fields::u16_text))]
pub fn put_provider(out: &mut Vec<u8>, provider: ProviderId) -> Result<(), NoMemory>
    requires { IsNode provider.node }
    ensures ok { OnOk result (out.new.items ≡ out.old.items ++ provider_text provider) }
    ensures err { OnErr result (out.new.items ≡ out.old.items) }
{
    let [a, b, c, d] = provider.inc.to_be_bytes();
    let [e, f] = provider.instance.to_be_bytes();
    let [g, h, i, j] = provider.join.to_be_bytes();
    out.extend_from_slice(&[provider.node, a, b, c, d, e, f, g, h, i, j])?;
    Ok(())
}

/// A protocol.
#[tactic(auto, unfolding(crate::specs::Fields::proto_text, crate::specs::Fields::view_text, crate::specs::Fields::u32_text))]
pub fn put_proto(out: &mut Vec<u8>, proto: ProtoId) -> Result<(), NoMemory>
    requires { IsNode proto.view.coord }
    ensures ok { OnOk result (out.new.items ≡ out.old.items ++ proto_text proto) }
    ensures err { OnErr result (out.new.items ≡ out.old.items) }
{
    let [a, b, c, d] = proto.view.number.to_be_bytes();
    let [e, f, g, h] = proto.view.inc.to_be_bytes();
    let [i, j, k, l] = proto.place.to_be_bytes();
    out.extend_from_slice(&[a, b, c, d, proto.view.coord, e, f, g, h, i, j, k, l])?;
    Ok(())
}

/// A node with its incarnation.
#[tactic(auto, unfolding(crate::specs::Fields::member_text, crate::specs::Fields::u32_text))]
pub fn put_member(out: &mut Vec<u8>, member: Member) -> Result<(), NoMemory>
    requires { IsNode member.node }
    ensures ok { OnOk result (out.new.items ≡ out.old.items ++ member_text member) }
    ensures err { OnErr result (out.new.items ≡ out.old.items) }
{
    let [a, b, c, d] = member.inc.to_be_bytes();
    out.extend_from_slice(&[member.node, a, b, c, d])?;
    Ok(())
}
