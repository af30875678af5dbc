//! Group parts as they are written. Where memory has run out, what was written so far is of no use.
ghost use Rattle.std.specs.Prelude.{◌≡◌, ◌++◌, IfOk, OnOk, flat_map};
ghost use Rattle.rsct_packet.specs.Format.{EachFits};
ghost use Rattle.view_state.specs.Codec.{sized_entry_text, IsSizedEntry, group_part_text, IsPart, parts_text, IsParts};

use group_codec::{put_entry, put_state};
use proposal_core::Entry;
use rsct_packet::{NoMemory, put_name, put_u8, put_u32};
use std::alloc::Global;
use view_state::Part;

/// An entry behind its length.
#[tactic(auto, unfolding(view_state::specs::Codec::sized_entry_text))]
fn put_sized_entry(alloc: Global, out: &mut Vec<u8>, entry: &Entry) -> Result<(), NoMemory>
    requires { IsSizedEntry entry.now }
    ensures { OnOk result (out.new.items ≡ out.old.items ++ sized_entry_text entry.now) }
{
    let mut text = Vec::new(alloc);
    put_entry(alloc, &mut text, entry)?;
    put_u32(out, text.len() as u32)?;
    out.extend_from_slice(text.as_slice())?;
    Ok(())
}

fn put_entries(alloc: Global, out: &mut Vec<u8>, entries: &[Entry]) -> Result<(), NoMemory>
    requires { EachFits IsSizedEntry entries.now }
    ensures { OnOk result (out.new.items ≡ out.old.items ++ flat_map sized_entry_text entries.now) }
{
    for entry in entries {
        put_sized_entry(alloc, out, entry)?;
    }
    Ok(())
}

#[tactic(auto, unfolding(view_state::specs::Codec::group_part_text, rsct_packet::specs::Fields::u32_text))]
fn put_part(alloc: Global, out: &mut Vec<u8>, part: &Part) -> Result<(), NoMemory>
    requires { IsPart part.now }
    ensures { OnOk result (out.new.items ≡ out.old.items ++ group_part_text part.now) }
{
    put_name(out, part.name.bytes())?;
    put_u32(out, part.start)?;
    put_state(alloc, out, &part.state)?;
    put_u32(out, part.entries.len() as u32)?;
    put_entries(alloc, out, part.entries.as_slice())
}

fn put_each_part(alloc: Global, out: &mut Vec<u8>, parts: &[Part]) -> Result<(), NoMemory>
    requires { EachFits IsPart parts.now }
    ensures { OnOk result (out.new.items ≡ out.old.items ++ flat_map group_part_text parts.now) }
{
    for part in parts {
        put_part(alloc, out, part)?;
    }
    Ok(())
}

/// At most 255 parts, behind their count.
#[tactic(auto, unfolding(view_state::specs::Codec::parts_text))]
pub fn put_parts(alloc: Global, out: &mut Vec<u8>, parts: &[Part]) -> Result<(), NoMemory>
    requires { IsParts parts.now }
    ensures { OnOk result (out.new.items ≡ out.old.items ++ parts_text parts.now) }
{
    put_u8(out, parts.len() as u8)?;
    put_each_part(alloc, out, parts)
}
