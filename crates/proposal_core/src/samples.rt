//! Worked examples of the fold, computed. `member(n)` is the provider `n.1.1.1`; the entries stand at the places
//! 0, 1, 2 and on of view `1.1.1`.
ghost use Rattle.std.specs.Prelude.{◌≡◌, ◌∷◌, [], Some, None, codes};
ghost use Rattle.group_attr.specs.declared.attrs.Batch.TheVariants.{Joins};
ghost use Rattle.group_attr.specs.Attrs.{empty_attrs};
ghost use Rattle.proposal_core.specs.declared.proposal.Cause.TheVariants.{Died};
ghost use Rattle.proposal_core.specs.declared.proposal.Proposal.TheVariants as proposal;
ghost use Rattle.proposal_core.specs.declared.entry.Entry.TheVariants as entry;
ghost use Rattle.proposal_core.specs.Fold.{empty_state, voters};
ghost use Rattle.proposal_core.specs.Samples.{first_view, place_of, member, joined, closed, after_entries, grown};

/// Who is a member.
#[tactic(auto, unfolding(crate::specs::Fold::fold_opens))]
pub fn who_is_a_member()
    ensures joins { (grown (joined (member 1 ∷ []) ∷ joined (member 2 ∷ []) ∷ [])).members
        ≡ member 1 ∷ member 2 ∷ [] }
    ensures batch { (grown (joined (member 1 ∷ []) ∷ joined (member 3 ∷ member 2 ∷ [])
        ∷ [])).members ≡ member 1 ∷ member 3 ∷ member 2 ∷ [] }
    ensures leave { (grown (joined (member 1 ∷ member 2 ∷ [])
        ∷ entry.Once (proposal.Leave (member 1) 2) ∷ [])).members ≡ member 2 ∷ [] }
    ensures again { (grown (joined (member 1 ∷ []) ∷ joined (member 1 ∷ []) ∷ [])).members
        ≡ member 1 ∷ [] }
    ensures rejected_failure { (grown (joined (member 1 ∷ member 2 ∷ [])
        ∷ entry.Begin (proposal.Fail (record { provider = member 2; cause = Died } ∷ []))
        ∷ entry.Reject (closed 1 1 None) ∷ [])).members ≡ member 1 ∷ [] }
    ensures rejected_leave { (grown (joined (member 1 ∷ member 2 ∷ [])
        ∷ entry.Begin (proposal.Leave (member 2) 2) ∷ entry.Reject (closed 1 1 None) ∷ [])).members
        ≡ member 1 ∷ member 2 ∷ [] }
{}

/// What the value is, and where it was set.
#[tactic(auto, unfolding(crate::specs::Fold::fold_opens))]
pub fn what_the_value_is()
    ensures at_once { (grown (joined (member 1 ∷ [])
        ∷ entry.Once (proposal.State (member 1) 2 (codes "red")) ∷ [])).value ≡ codes "red" }
    ensures voted { (grown (joined (member 1 ∷ [])
        ∷ entry.Begin (proposal.State (member 1) 2 (codes "red"))
        ∷ entry.Phase (closed 1 1 (Some (codes "blue"))) ∷ entry.Approve (closed 1 2 None)
        ∷ [])).value ≡ codes "blue" }
    ensures place { (grown (joined (member 1 ∷ [])
        ∷ entry.Begin (proposal.State (member 1) 2 (codes "red")) ∷ entry.Approve (closed 1 1 None)
        ∷ [])).value_at ≡ Some (place_of 2) }
    ensures rejected { (grown (joined (member 1 ∷ [])
        ∷ entry.Begin (proposal.State (member 1) 2 (codes "red")) ∷ entry.Reject (closed 1 1 None)
        ∷ [])).value ≡ [] }
    ensures message { (grown (joined (member 1 ∷ [])
        ∷ entry.Once (proposal.Message (member 1) 2 (codes "hi")) ∷ [])).value ≡ [] }
{}

/// What else a state keeps.
#[tactic(auto, unfolding(crate::specs::Fold::fold_opens))]
pub fn what_else_is_kept()
    ensures attributes { (grown (joined (member 1 ∷ [])
        ∷ entry.Once (proposal.Attributes (member 1) 2
        (record empty_attrs { batch = Joins; limit = 3 })) ∷ [])).attrs
        ≡ record empty_attrs { batch = Joins; limit = 3 } }
    ensures first_join { (grown (entry.Begin (proposal.Join (member 1 ∷ [])
        (record empty_attrs { limit = 3 }) None) ∷ [])).attrs ≡ record empty_attrs { limit = 3 } }
    ensures reflection { (grown (joined (member 1 ∷ [])
        ∷ entry.Begin (proposal.Reflect first_view 7 (codes "red")) ∷ entry.Reject (closed 1 1 None)
        ∷ [])).reflected_at ≡ Some (place_of 7) }
    ensures failed_joiner { (after_entries (record
        (grown (joined (member 1 ∷ []) ∷ entry.Begin
        (proposal.Join (member 2 ∷ []) empty_attrs None) ∷ [])) { failed = member 2 ∷ [] })
        (entry.Reject (closed 1 1 None) ∷ [])).failed ≡ [] }
    ensures late { grown (joined (member 1 ∷ [])
        ∷ entry.Begin (proposal.State (member 1) 2 (codes "red"))
        ∷ entry.Late (place_of 1) 1 (member 1 ∷ []) ∷ [])
        ≡ grown (joined (member 1 ∷ []) ∷ entry.Begin (proposal.State (member 1) 2 (codes "red"))
        ∷ []) }
    ensures unfit { grown (entry.Approve (closed 0 1 None) ∷ []) ≡ empty_state }
{}

/// Who votes.
#[tactic(auto, unfolding(crate::specs::Fold::fold_opens))]
pub fn who_votes()
    ensures join { voters (grown (joined (member 1 ∷ [])
        ∷ entry.Begin (proposal.Join (member 3 ∷ member 2 ∷ []) empty_attrs None) ∷ []))
        ≡ member 1 ∷ member 3 ∷ member 2 ∷ [] }
    ensures leave { voters (grown (joined (member 1 ∷ member 2 ∷ [])
        ∷ entry.Begin (proposal.Leave (member 1) 2) ∷ [])) ≡ member 2 ∷ [] }
    ensures failure { voters (grown (joined (member 1 ∷ member 2 ∷ [])
        ∷ entry.Begin (proposal.Fail (record { provider = member 2; cause = Died } ∷ [])) ∷ []))
        ≡ member 1 ∷ [] }
    ensures idle { voters (grown (joined (member 1 ∷ []) ∷ [])) ≡ [] }
{}
