//! The summary of a load.
ghost use Rattle.std.specs.Prelude.{◌≡◌, ◌++◌, OnOk, IfOk};
ghost use Rattle.load_script.specs.Counting.{count_line, summary_text};

use crate::counts::Counts;
use rsct_packet::NoMemory;
use std::alloc::Global;

/// A label, and a count behind it to the end of the line.
fn put_count(alloc: Global, out: &mut Vec<u8>, label: &[u8], count: u64) -> Result<(), NoMemory>
    ensures { OnOk result (out.new.items ≡ out.old.items ++ (label.now ++ count_line count)) }
{
    let digits = count.to_string(alloc)?;
    out.extend_from_slice(label)?;
    out.extend_from_slice(digits.as_bytes())?;
    out.extend_from_slice(b"\n")?;
    Ok(())
}

/// The summary of a load of so many steps whose run has these counts: five lines.
pub fn summary(alloc: Global, steps: u32, counts: Counts) -> Result<Vec<u8>, NoMemory>
    ensures { IfOk result (λ text. text.items ≡ summary_text steps counts) }
{
    let mut text = Vec::new(alloc);
    let digits = steps.to_string(alloc)?;
    text.extend_from_slice(b"load ")?;
    text.extend_from_slice(digits.as_bytes())?;
    put_count(alloc, &mut text, b"\nviews ", counts.views)?;
    put_count(alloc, &mut text, b"puts ", counts.puts)?;
    put_count(alloc, &mut text, b"heard ", counts.heard)?;
    put_count(alloc, &mut text, b"told ", counts.told)?;
    Ok(text)
}
