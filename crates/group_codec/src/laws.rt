//! Laws of spellings.
ghost use Rattle.std.specs.Prelude.{◌≡◌, ℕ, IsTrue, length};
ghost use Rattle.rsct_packet.specs.declared.ids.ViewId.{ViewId};
ghost use Rattle.rsct_packet.specs.Fields.{IsU32, IsView};
ghost use Rattle.proposal_core.specs.declared.entry.Entry.{Entry};
ghost use Rattle.proposal_core.specs.EntryCodec.{entry_text, IsEntry};
ghost use Rattle.proposal_core.specs.Sizes.{entry_len};
ghost use Rattle.proposal_core.specs.declared.group_state.GroupState.{GroupState};
ghost use Rattle.proposal_core.specs.Fold.{fits, apply};
ghost use Rattle.proposal_core.specs.StateCodec.{IsState};

/// The length that is counted for an entry is that of its spelling.
#[tactic(auto, using(crate::proofs::SizeLaws::entry_length))]
pub fn entries_have_their_lengths()
    ensures { (e : Entry) → length (entry_text e) ≡ entry_len e }
{}

/// A state that has a spelling has one after an entry that fits, where the entry and its place have one: its
/// members and its failed are at most 64 providers that differ, the failed are members or running joiners, and
/// what runs is in a phase from 1 to 200.
pub fn states_stay_states()
    ensures { (s : GroupState) (v : ViewId) (i : ℕ) (e : Entry) → IsTrue (fits s e) → IsState s
        → IsEntry e → IsView v → IsU32 i → IsState (apply s v i e) }
{}
