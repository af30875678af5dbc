//! The lines of copies.
ghost use Rattle.std.specs.Prelude.{◌≡◌, ◌++◌, OnOk};
ghost use Rattle.table_lines.specs.Lines.{copy_line, line_of, copies_text};

use crate::parts::put_map;
use rsct_packet::{NoMemory, ProviderId};
use table_client::{TableClient, TableCopy};
use value_words::{put_number_word, put_provider_word, put_text, put_view_word};

/// `table PROVIDER VIEW LEN`, and the map.
#[tactic(auto, unfolding(crate::specs::Lines::copy_line, value_words::specs::Wording::word))]
fn put_copy(out: &mut Vec<u8>, provider: ProviderId, copy: &TableCopy) -> Result<(), NoMemory>
    ensures { OnOk result (out.new.items ≡ out.old.items ++ copy_line provider copy.now) }
{
    put_text(out, b"table ")?;
    put_provider_word(out, provider)?;
    put_view_word(out, copy.view)?;
    put_number_word(out, copy.len)?;
    put_map(out, &copy.map)?;
    put_text(out, b"\n")
}

/// The line of a copy, where it is of this group.
#[tactic(auto, unfolding(crate::specs::Lines::line_of))]
fn put_of_group(
    out: &mut Vec<u8>,
    group: &[u8],
    provider: ProviderId,
    own: &[u8],
    copy: &TableCopy,
) -> Result<(), NoMemory>
    ensures { OnOk result (out.new.items
        ≡ out.old.items ++ line_of group.now (provider, own.now, copy.now)) }
{
    if own == group {
        put_copy(out, provider, copy)
    } else {
        Ok(())
    }
}

/// The lines of a client's copies of this group, in ascending order of providers.
pub fn put_copies(out: &mut Vec<u8>, client: &TableClient, group: &[u8]) -> Result<(), NoMemory>
    ensures { OnOk result (out.new.items ≡ out.old.items ++ copies_text group.now client.now) }
{
    for place in 0..client.len() {
        if let Some((provider, own, copy)) = client.copy_at(place) {
            put_of_group(out, group, provider, own, copy)?;
        }
    }
    Ok(())
}
