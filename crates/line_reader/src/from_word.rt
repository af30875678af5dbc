//! What one word says.
ghost use Rattle.std.specs.Prelude.{◌≡◌};
ghost use Rattle.record_lines.specs.Reading.{unless};

use crate::ids::{member_word, proto_word, ring_word, u16_word, u32_word, view_word};
use crate::kinds::{kind_word, yes_word};
use rsct_packet::{Member, ProtoId, ProviderId, RingId, ViewId};
use value_words::{is_word, node_word, provider_word};
use word_laws::Kind;

/// What one word says, and takes no memory.
pub trait FromWord: Sized + Drop {
    ghost use Rattle.std.specs.Prelude.{List, Option, ℕ};

    ghost reads: { List ℕ → Option Self };

    /// What the word says; `None` where it says no such thing.
    fn read(word: &[u8]) -> Option<Self>
        ensures { result ≡ reads word.now };
}

/// A node.
impl FromWord for u8 {
    ghost use Rattle.value_words.specs.Words.{node_word};

    ghost reads = { node_word };

    fn read(word: &[u8]) -> Option<u8> {
        node_word(word)
    }
}

impl FromWord for u16 {
    ghost use Rattle.word_laws.specs.Values.{u16_word};

    ghost reads = { u16_word };

    fn read(word: &[u8]) -> Option<u16> {
        u16_word(word)
    }
}

impl FromWord for u32 {
    ghost use Rattle.word_laws.specs.Values.{u32_word};

    ghost reads = { u32_word };

    fn read(word: &[u8]) -> Option<u32> {
        u32_word(word)
    }
}

impl FromWord for bool {
    ghost use Rattle.record_lines.specs.Reading.{yes_read};

    ghost reads = { yes_read };

    fn read(word: &[u8]) -> Option<bool> {
        yes_word(word)
    }
}

impl FromWord for Kind {
    ghost use Rattle.word_laws.specs.Entries.{kind_read};

    ghost reads = { kind_read };

    fn read(word: &[u8]) -> Option<Kind> {
        kind_word(word)
    }
}

impl FromWord for Member {
    ghost use Rattle.word_laws.specs.Values.{member_word};

    ghost reads = { member_word };

    fn read(word: &[u8]) -> Option<Member> {
        member_word(word)
    }
}

impl FromWord for ProviderId {
    ghost use Rattle.value_words.specs.Words.{provider_word};

    ghost reads = { provider_word };

    fn read(word: &[u8]) -> Option<ProviderId> {
        provider_word(word)
    }
}

impl FromWord for ViewId {
    ghost use Rattle.word_laws.specs.Values.{view_word};

    ghost reads = { view_word };

    fn read(word: &[u8]) -> Option<ViewId> {
        view_word(word)
    }
}

impl FromWord for RingId {
    ghost use Rattle.word_laws.specs.Values.{ring_word};

    ghost reads = { ring_word };

    fn read(word: &[u8]) -> Option<RingId> {
        ring_word(word)
    }
}

impl FromWord for ProtoId {
    ghost use Rattle.word_laws.specs.Values.{proto_word};

    ghost reads = { proto_word };

    fn read(word: &[u8]) -> Option<ProtoId> {
        proto_word(word)
    }
}

/// `Some(None)` where the word is the mark, else what it says.
#[tactic(auto, unfolding(record_lines::specs::Reading::unless))]
pub fn unless<T: FromWord>(mark: &[u8], word: &[u8]) -> Option<Option<T>>
    ensures { result ≡ unless mark.now T.reads word.now }
{
    if is_word(word, mark) {
        return Some(None);
    }
    T::read(word).map(Some)
}
