//! The word of a proposal's kind.
ghost use Rattle.std.specs.Prelude.{◌≡◌};
ghost use Rattle.entry_words.specs.Wording.{kind_text};

use proposal_core::Proposal;

/// The word of a proposal's kind.
#[tactic(auto, unfolding(crate::specs::Wording::kind_text))]
pub fn kind_of(proposal: &Proposal) -> &'static [u8]
    ensures { result.now ≡ kind_text proposal.now }
{
    match proposal {
        Proposal::Join { .. } => b"join",
        Proposal::Leave { .. } => b"leave",
        Proposal::Fail { .. } => b"fail",
        Proposal::Expel { .. } => b"expel",
        Proposal::State { .. } => b"state",
        Proposal::Message { .. } => b"message",
        Proposal::Attributes { .. } => b"attrs",
        Proposal::Reflect { .. } => b"reflect",
    }
}
