//! The rows of the entries that close phases, in every run.

ghost use Rattle.entry_laws.specs.closing_rows.Rows.{RowsAreAlwaysVoters, TalliesAreOfVoters, StepsForget, StepsKeepAcks, LeadersForget, PutsAreInOrder, PutsFit};

/// Each entry that closes a phase has rows that are one for each voter of the state before it, in the voters' order.
#[tactic(auto, using(crate::proofs::closing_rows::Law::rows_are_voters))]
pub fn rows_are_of_voters()
    ensures { RowsAreAlwaysVoters }
{}

/// Each tally that a leader keeps has a slot for each voter of the state of its list, in order.
#[tactic(auto, using(crate::proofs::closing_rows::Law::tallies_are_of_voters))]
pub fn tallies_are_of_voters()
    ensures { TalliesAreOfVoters }
{}

/// In each step, a list of a group that the node does not lead comes to start where it did, or where the step tells it to, whichever is
/// greater: an ENTRY of its view, which it takes, says that all members hold so many entries. In a view that the step enters it
/// starts at 0.
#[tactic(auto, using(crate::proofs::closing_rows::Law::steps_forget))]
pub fn steps_forget()
    ensures { StepsForget }
{}

/// In each step, what a member acknowledged of a group, as its node keeps it, becomes what it was, or what the step tells it, whichever
/// is greater: an ACK of its view, which it takes as the leader. In a view that the step enters it is 0.
#[tactic(auto, using(crate::proofs::closing_rows::Law::steps_keep_acks))]
pub fn steps_keep_acks()
    ensures { StepsKeepAcks }
{}

/// At the node that leads a group the list starts at the least length that a member of its view holds: of the node itself the length of
/// the list, of each other member what it acknowledged.
#[tactic(auto, using(crate::proofs::closing_rows::Law::leaders_forget))]
pub fn leaders_forget()
    ensures { LeadersForget }
{}

/// The places of a node's puts of one view and group are 0, 1, 2 and on.
#[tactic(auto, using(crate::proofs::closing_rows::Places::puts_are_in_order))]
pub fn puts_are_in_order()
    ensures { PutsAreInOrder }
{}

/// Each entry that is put fits the state that its node's records make before it.
#[tactic(auto, using(crate::proofs::closing_rows::Places::puts_fit))]
pub fn puts_fit()
    ensures { PutsFit }
{}
