//! Maps on lines.
ghost use Rattle.std.specs.Prelude.{◌≡◌, ◌++◌, OnOk};
ghost use Rattle.agreed_table.specs.Pairs.{pairs_of};
ghost use Rattle.table_lines.specs.Lines.{part_byte, part_text, pair_text, more_text, pairs_text, map_text};

use agreed_table::Table;
use rsct_packet::NoMemory;
use std::collections::btree_map::Iter;
use value_words::{put_escaped, put_text};

/// A byte of a key or a value: as in a value, but that `,` and `=` are written out.
#[tactic(auto, unfolding(crate::specs::Lines::part_byte, value_words::specs::Wording::escaped))]
fn put_part_byte(out: &mut Vec<u8>, byte: u8) -> Result<(), NoMemory>
    ensures { OnOk result (out.new.items ≡ out.old.items ++ part_byte byte) }
{
    if byte == b',' {
        put_text(out, b"%2C")
    } else if byte == b'=' {
        put_text(out, b"%3D")
    } else {
        put_escaped(out, &[byte])
    }
}

/// A key or a value.
#[tactic(auto, unfolding(crate::specs::Lines::part_text))]
fn put_part(out: &mut Vec<u8>, bytes: &[u8]) -> Result<(), NoMemory>
    ensures { OnOk result (out.new.items ≡ out.old.items ++ part_text bytes.now) }
{
    for byte in bytes {
        put_part_byte(out, *byte)?;
    }
    Ok(())
}

/// A pair, as `KEY=VALUE`.
#[tactic(auto, unfolding(crate::specs::Lines::pair_text))]
fn put_pair(out: &mut Vec<u8>, key: &[u8], value: &[u8]) -> Result<(), NoMemory>
    ensures { OnOk result (out.new.items ≡ out.old.items ++ pair_text (key.now, value.now)) }
{
    put_part(out, key)?;
    put_text(out, b"=")?;
    put_part(out, value)
}

/// Pairs, each behind a comma.
fn put_more(out: &mut Vec<u8>, pairs: Iter<'_, Vec<u8>, Vec<u8>>) -> Result<(), NoMemory>
    ensures { OnOk result (out.new.items ≡ out.old.items ++ more_text (pairs_of pairs.entry)) }
{
    for (key, value) in pairs {
        put_text(out, b",")?;
        put_pair(out, key.as_slice(), value.as_slice())?;
    }
    Ok(())
}

/// The pairs of a map between commas, `-` for none.
#[tactic(auto, unfolding(crate::specs::Lines::pairs_text, value_words::specs::Wording::joined))]
fn put_pairs(out: &mut Vec<u8>, table: &Table) -> Result<(), NoMemory>
    ensures { OnOk result (out.new.items ≡ out.old.items ++ pairs_text table.now) }
{
    let mut pairs = table.pairs();
    match pairs.next() {
        None => put_text(out, b"-"),
        Some((key, value)) => {
            put_pair(out, key.as_slice(), value.as_slice())?;
            put_more(out, pairs)
        }
    }
}

/// Whether the map is whole, and its pairs.
#[tactic(auto, unfolding(crate::specs::Lines::map_text))]
pub(crate) fn put_map(out: &mut Vec<u8>, map: &Option<Table>) -> Result<(), NoMemory>
    ensures { OnOk result (out.new.items ≡ out.old.items ++ map_text map.now) }
{
    match map {
        None => put_text(out, b"part -"),
        Some(table) => {
            put_text(out, b"whole ")?;
            put_pairs(out, table)
        }
    }
}
