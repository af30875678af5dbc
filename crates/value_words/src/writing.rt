//! Bytes at the end of a text.
ghost use Rattle.std.specs.Prelude.{◌≡◌, ◌++◌, ◌<◌, OnOk};
ghost use Rattle.value_words.specs.Wording.{word};

use rsct_packet::NoMemory;

/// These bytes at the end; and likewise below.
pub fn put_text(out: &mut Vec<u8>, bytes: &[u8]) -> Result<(), NoMemory>
    ensures { OnOk result (out.new.items ≡ out.old.items ++ bytes.now) }
{
    out.extend_from_slice(bytes)?;
    Ok(())
}

/// These bytes and a space.
#[tactic(auto, unfolding(crate::specs::Wording::word))]
pub fn put_word(out: &mut Vec<u8>, bytes: &[u8]) -> Result<(), NoMemory>
    ensures { OnOk result (out.new.items ≡ out.old.items ++ word bytes.now) }
{
    put_text(out, bytes)?;
    put_text(out, b" ")
}

/// A label, and bytes behind it.
pub fn put_labelled(out: &mut Vec<u8>, label: &[u8], bytes: &[u8]) -> Result<(), NoMemory>
    ensures { OnOk result (out.new.items ≡ out.old.items ++ (label.now ++ bytes.now)) }
{
    put_text(out, label)?;
    put_text(out, bytes)
}
