//! Texts that may be absent, and those of bytes.
ghost use Rattle.std.specs.Prelude.{◌≡◌, IfOk, option_copied};
ghost use Rattle.rsct_packet.specs.Fields.{AreShort};
ghost use Rattle.rsct_packet.specs.Format.{OptionFits};

use rsct_packet::{NoMemory, Text};
use std::alloc::Global;

/// An equal text, or none.
pub fn copy_text(alloc: Global, text: &Option<Text>) -> Result<Option<Text>, NoMemory>
    ensures { IfOk result (λ t. t ≡ text.now) }
{
    match text {
        None => Ok(None),
        Some(text) => Ok(Some(text.copy(alloc)?)),
    }
}

/// The text of bytes that are short enough.
pub fn text_of(alloc: Global, bytes: &[u8]) -> Result<Text, NoMemory>
    requires { AreShort bytes.now }
    ensures { IfOk result (λ t. t ≡ bytes.now) }
{
    Ok(Text::of(alloc, bytes)?.unwrap())
}

/// The text of optional bytes that are short enough.
pub fn optional_text_of(alloc: Global, bytes: Option<&[u8]>) -> Result<Option<Text>, NoMemory>
    requires { OptionFits AreShort (option_copied bytes) }
    ensures { IfOk result (λ t. t ≡ option_copied bytes.entry) }
{
    match bytes {
        None => Ok(None),
        Some(bytes) => Ok(Some(text_of(alloc, bytes)?)),
    }
}

/// The bytes of a text, or none.
pub fn optional_bytes(text: &Option<Text>) -> Option<&[u8]>
    ensures value { option_copied result ≡ text.now }
    ensures short { OptionFits AreShort text.now }
{
    match text {
        None => None,
        Some(text) => Some(text.bytes()),
    }
}
