//! Attributes, proposals, votes, entries, and why something is refused.
ghost use Rattle.std.specs.Prelude.{◌≡◌, ◌++◌, ℕ, List, Some, None, true};
ghost use Rattle.group_attr.specs.declared.attrs.Attrs.{Attrs};
ghost use Rattle.proposal_core.specs.declared.entry.Entry.{Entry};
ghost use Rattle.proposal_core.specs.declared.entry.Vote.{Vote};
ghost use Rattle.proposal_core.specs.declared.proposal.Proposal.{Proposal};
ghost use Rattle.client_callbacks.specs.declared.told.Why.{Why};
ghost use Rattle.session_state.specs.declared.fault.GsFault.{GsFault};
ghost use Rattle.value_words.specs.Words.{split_on, words_in};
ghost use Rattle.value_words.specs.Wording.{value_text};
ghost use Rattle.entry_words.specs.Words.{attr_words};
ghost use Rattle.entry_words.specs.Wording.{attrs_text, entry_text, fault_text, kind_text, proposal_text, vote_text, why_text};
ghost use Rattle.word_laws.specs.Entries.{ballot_read, entry_read, fault_read, kind_of, kind_read, proposal_read, vote_letter, why_read};
ghost use Rattle.word_laws.specs.Ranges.{are_attrs, is_entry, is_fault, is_proposal, is_value, is_why};

/// The attributes of a group, among them those that are left out as they are in a group that nobody has joined.
#[tactic(auto, using(crate::proofs::AttributeLaws::attrs_back))]
pub fn attributes_are_read_back()
    ensures { (a : Attrs) → are_attrs a ≡ true → attr_words (words_in (attrs_text a)) ≡ Some a }
{}

/// The kind of a proposal.
#[tactic(auto, using(crate::proofs::EntryLaws::kind_is))]
pub fn kinds_are_read_back()
    ensures { (x : Proposal) → kind_read (kind_text x) ≡ Some (kind_of x) }
{}

/// A proposal, from its words.
#[tactic(auto, using(crate::proofs::EntryLaws::proposal_back))]
pub fn proposals_are_read_back()
    ensures { (x : Proposal) → is_proposal x ≡ true
        → proposal_read (split_on 32 (proposal_text x)) ≡ Some x }
{}

/// A vote, alone and as a ballot, and a ballot with a value.
#[tactic(auto, using(crate::proofs::EntryLaws::vote_read, crate::proofs::EntryLaws::ballot_is, crate::proofs::EntryLaws::valued_ballot_is))]
pub fn votes_are_read_back()
    ensures vote { (v : Vote) → vote_letter (vote_text v) ≡ Some v }
    ensures ballot { (v : Vote) → ballot_read (vote_text v) ≡ Some (v, None) }
    ensures valued { (v : Vote) (value : List ℕ) → is_value value ≡ true
        → ballot_read (vote_text v ++ value_text value) ≡ Some (v, Some value) }
{}

/// An entry, from its words.
#[tactic(auto, using(crate::proofs::EntryLaws::entry_back))]
pub fn entries_are_read_back()
    ensures { (e : Entry) → is_entry e ≡ true → entry_read (split_on 32 (entry_text e)) ≡ Some e }
{}

/// Why a request and why a call is refused, from its words. A line does not say how great a bad limit is.
#[tactic(auto, using(crate::proofs::RefusalLaws::why_back, crate::proofs::RefusalLaws::fault_back))]
pub fn refusals_are_read_back()
    ensures request { (x : Why) → is_why x ≡ true → why_read (split_on 32 (why_text x)) ≡ Some x }
    ensures call { (x : GsFault) → is_fault x ≡ true
        → fault_read (split_on 32 (fault_text x)) ≡ Some x }
{}
