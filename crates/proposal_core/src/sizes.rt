//! The lengths of spellings, in bytes.
ghost use Rattle.std.specs.Prelude.{◌≡◌, ◌<◌, ◌+◌, ◌*◌, ℕ, length};
ghost use Rattle.proposal_core.specs.Sizes.{attrs_len, text_option_len, proposal_len, closed_len, entry_len, in_u32};

use crate::entry::{Closed, Entry};
use crate::proposal::Proposal;
use group_attr::Attrs;
use rsct_packet::Text;

fn text_len(text: &Text) -> u32
    ensures value { result ≡ 2 + length text.now }
    ensures short { result < 65538 }
{
    2 + text.bytes().len() as u32
}

#[tactic(auto, unfolding(crate::specs::Sizes::text_option_len))]
fn text_option_len(text: &Option<Text>) -> u32
    ensures value { result ≡ text_option_len text.now }
    ensures short { result < 65539 }
{
    match text {
        None => 1,
        Some(text) => 1 + text_len(text),
    }
}

#[tactic(auto, unfolding(crate::specs::Sizes::attrs_len, crate::specs::Sizes::name_option_len))]
fn attrs_len(attrs: &Attrs) -> u32
    ensures value { result ≡ attrs_len attrs.now }
    ensures short { result < 43 }
{
    match &attrs.source {
        None => 10,
        Some(name) => 10 + name.bytes().len() as u32,
    }
}

/// Some bytes and twelve for each of these; None where they are over 4,294,967,295.
fn with_rows(rest: u32, rows: usize) -> Option<u32>
    ensures { result ≡ in_u32 (rest + 12 * rows) }
{
    let rows = u32::try_from(rows).ok()?;
    rows.checked_mul(12)?.checked_add(rest)
}

impl Proposal {
    /// The length of its spelling; None exactly where that is over 4,294,967,295.
    #[tactic(auto, unfolding(crate::specs::Sizes::proposal_len, crate::specs::Sizes::number_option_len))]
    pub fn len(&self) -> Option<u32>
        ensures { result ≡ in_u32 (proposal_len self.now) }
    {
        match self {
            Proposal::Join {
                ps,
                attrs,
                source_len,
            } => {
                let number = if source_len.is_some() { 5 } else { 1 };
                Some(2 + 11 * ps.len() as u32 + attrs_len(attrs) + number)
            }
            Proposal::Leave { .. } => Some(16),
            Proposal::Fail { out } => with_rows(2, out.len()),
            Proposal::Expel { out, .. } => Some(17 + 11 * out.len() as u32),
            Proposal::State { value, .. } => Some(16 + text_len(value)),
            Proposal::Message { bytes, .. } => Some(16 + text_len(bytes)),
            Proposal::Attributes { attrs, .. } => Some(16 + attrs_len(attrs)),
            Proposal::Reflect { value, .. } => Some(14 + text_len(value)),
        }
    }
}

impl Closed {
    #[tactic(auto, unfolding(crate::specs::Sizes::closed_len))]
    fn len(&self) -> Option<u32>
        ensures { result ≡ in_u32 (closed_len self.now) }
    {
        let texts = text_option_len(&self.value) + text_option_len(&self.message);
        with_rows(17 + texts, self.rows.len())
    }
}

fn one_more(len: Option<u32>) -> Option<u32>
    ensures { (n : ℕ) → len ≡ in_u32 n → result ≡ in_u32 (1 + n) }
{
    len?.checked_add(1)
}

impl Entry {
    /// The length of its spelling; None exactly where that is over 4,294,967,295.
    #[tactic(auto, unfolding(crate::specs::Sizes::entry_len))]
    pub fn len(&self) -> Option<u32>
        ensures { result ≡ in_u32 (entry_len self.now) }
    {
        match self {
            Entry::Once(x) => one_more(x.len()),
            Entry::Begin(x) => one_more(x.len()),
            Entry::Phase(c) => c.len(),
            Entry::Approve(c) => c.len(),
            Entry::Reject(c) => c.len(),
            Entry::Late { ps, .. } => Some(17 + 11 * ps.len() as u32),
        }
    }
}
