//! How many packets a step of a node sends at most, as laws about the definitions.
#![tactic(auto)]

ghost use Rattle.send_laws.specs.Laws.{AppendSends, CloseSends, BeginSends, LookupSends, NameSends, RequestSends, TellSends, EntrySends, AckSends, VoteSends, GoneSends, CallSends, RingSends, ReportSends, RingsPartSends, OwedPartSends, LedPartSends, EndSends, StepSends, ReopenedEnds};
ghost use Rattle.send_laws.specs.RunLaws.{RunsAreReady, StepsOfRunsSend, SentInstallsAreFew};

/// An entry that the leader appends: ENTRY to the other members and VOTE for those that hear it.
#[tactic(auto, using(crate::proofs::RuleLaws::append_sends))]
pub fn append_sends_few()
    ensures { AppendSends }
{}

/// Phases that close.
#[tactic(auto, using(crate::proofs::RuleLaws::close_sends))]
pub fn close_sends_few()
    ensures { CloseSends }
{}

/// A protocol that begins.
#[tactic(auto, using(crate::proofs::RuleLaws::begin_sends))]
pub fn begin_sends_few()
    ensures { BeginSends }
{}

/// LOOKUP.
#[tactic(auto, using(crate::proofs::RuleLaws::lookup_sends))]
pub fn lookup_sends_few()
    ensures { LookupSends }
{}

/// NAME.
#[tactic(auto, using(crate::proofs::RuleLaws::name_sends))]
pub fn name_sends_few()
    ensures { NameSends }
{}

/// REQUEST.
#[tactic(auto, using(crate::proofs::RuleLaws::request_sends))]
pub fn request_sends_few()
    ensures { RequestSends }
{}

/// TELL.
#[tactic(auto, using(crate::proofs::RuleLaws::tell_sends))]
pub fn tell_sends_few()
    ensures { TellSends }
{}

/// ENTRY.
#[tactic(auto, using(crate::proofs::RuleLaws::entry_sends))]
pub fn entry_sends_few()
    ensures { EntrySends }
{}

/// ACK.
#[tactic(auto, using(crate::proofs::RuleLaws::ack_sends))]
pub fn ack_sends_few()
    ensures { AckSends }
{}

/// VOTE.
#[tactic(auto, using(crate::proofs::RuleLaws::vote_sends))]
pub fn vote_sends_few()
    ensures { VoteSends }
{}

/// GONE.
#[tactic(auto, using(crate::proofs::RuleLaws::gone_sends))]
pub fn gone_sends_few()
    ensures { GoneSends }
{}

/// A call of a client.
#[tactic(auto, using(crate::proofs::RuleLaws::call_sends))]
pub fn call_sends_few()
    ensures { CallSends }
{}

/// A packet of a ring.
#[tactic(auto, using(crate::proofs::RuleLaws::ring_sends))]
pub fn ring_sends_few()
    ensures { RingSends }
{}

/// REPORT.
#[tactic(auto, using(crate::proofs::RuleLaws::report_sends))]
pub fn report_sends_few()
    ensures { ReportSends }
{}

/// The tick, part (1): rings, and reports of reach.
#[tactic(auto, using(crate::proofs::RuleLaws::rings_part_sends))]
pub fn rings_part_sends_few()
    ensures { RingsPartSends }
{}

/// The tick, part (4): what is owed is sent.
#[tactic(auto, using(crate::proofs::RuleLaws::owed_part_sends))]
pub fn owed_part_sends_few()
    ensures { OwedPartSends }
{}

/// The tick, part (5): what is led.
#[tactic(auto, using(crate::proofs::RuleLaws::led_part_sends))]
pub fn led_part_sends_few()
    ensures { LedPartSends }
{}

/// The end of a step.
#[tactic(auto, using(crate::proofs::RuleLaws::end_sends))]
pub fn end_sends_few()
    ensures { EndSends }
{}

/// A whole step.
#[tactic(auto, using(crate::proofs::RuleLaws::step_sends))]
pub fn step_sends_few()
    ensures { StepSends }
{}

/// A phase that is opened anew.
#[tactic(auto, using(crate::proofs::RuleLaws::no_phase_follows))]
pub fn reopened_phase_ends()
    ensures { ReopenedEnds }
{}

/// Each node of a run has between two events all that the bound on a step asks for, whatever happens to it next.
pub fn runs_are_ready()
    ensures { RunsAreReady }
{}

/// So every step of a run sends few packets.
#[tactic(auto, using(crate::proofs::Law::runs_send))]
pub fn steps_of_runs_send_few()
    ensures { StepsOfRunsSend }
{}

/// Each install that is sent in a run has at most 32 members.
pub fn sent_installs_are_few()
    ensures { SentInstallsAreFew }
{}
