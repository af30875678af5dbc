//! Why something is not read.
ghost use Rattle.std.specs.Prelude.{◌≡◌};
ghost use Rattle.value_words.specs.declared.faults.WordFault.TheVariants as word_fault;

use rsct_packet::NoMemory;

/// Why a word is not read: it is out of its form, or memory has run out.
#[derive(Clone, Copy, Debug, PartialEq, Eq)]
pub enum WordFault {
    BadWord,
    NoMemory,
}

impl From<NoMemory> for WordFault {
    ghost from_gives = { λ _ e. e ≡ word_fault.NoMemory };

    fn from(_e: NoMemory) -> WordFault {
        WordFault::NoMemory
    }
}
