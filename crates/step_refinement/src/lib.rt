//! The step of a node, tied to the lives of groups.
#![tactic(auto)]

ghost use Rattle.step_refinement.specs.Rules.{NothingTied, StartTied, StopTied, BeginTied, EndTied, TakenTied, RefuseTied, PrepareTied, AckTied, EntryTied, LookupTied, NameTied, TellTied, RequestTied, AnswerTied, AskTied, ViewsPartTied, InstallTied, FixedStartTied, OwedPartTied, VoteTied, GoneTied, CallTied, LedPartTied, StepEndTied, StepTied, RingsPartTied, RingTied, ReportTied, QueryTied, ReplyTied, FoundingAnswerTied, FoundingAskTied, FoundingTickTied};
ghost use Rattle.step_refinement.specs.Runs.{NoteTied, RunsAreSafe};

/// Before anything happened, nothing stands for the dawn of each group's life.
#[tactic(auto, using(crate::proofs::Begins::nothing_tied))]
pub fn nothing_is_tied()
    ensures { NothingTied }
{}

/// A step begins.
#[tactic(auto, using(crate::proofs::Begins::begin_tied))]
pub fn begin_is_tied()
    ensures { BeginTied }
{}

/// A step is over.
#[tactic(auto, using(crate::proofs::Begins::end_tied))]
pub fn end_is_tied()
    ensures { EndTied }
{}

/// A node stops.
#[tactic(auto, using(crate::proofs::Begins::stop_tied))]
pub fn stop_is_tied()
    ensures { StopTied }
{}

/// A node starts, outside of mode fixed.
#[tactic(auto, using(crate::proofs::Begins::start_tied))]
pub fn start_is_tied()
    ensures { StartTied }
{}

/// TAKEN.
#[tactic(auto, using(crate::proofs::ViewRules::taken_is_tied))]
pub fn taken_is_tied()
    ensures { TakenTied }
{}

/// REFUSE.
#[tactic(auto, using(crate::proofs::ViewRules::refuse_is_tied))]
pub fn refuse_is_tied()
    ensures { RefuseTied }
{}

/// PREPARE.
#[tactic(auto, using(crate::proofs::ViewRules::prepare_is_tied))]
pub fn prepare_is_tied()
    ensures { PrepareTied }
{}

/// ACK.
#[tactic(auto, using(crate::proofs::Acks::ack_is_tied))]
pub fn ack_is_tied()
    ensures { AckTied }
{}

/// ENTRY.
#[tactic(auto, using(crate::proofs::Entries::entry_is_tied))]
pub fn entry_is_tied()
    ensures { EntryTied }
{}

/// LOOKUP.
#[tactic(auto, using(crate::proofs::Named::lookup_is_tied))]
pub fn lookup_is_tied()
    ensures { LookupTied }
{}

/// NAME.
#[tactic(auto, using(crate::proofs::Named::name_is_tied))]
pub fn name_is_tied()
    ensures { NameTied }
{}

/// TELL.
#[tactic(auto, using(crate::proofs::Tellings::tell_is_tied))]
pub fn tell_is_tied()
    ensures { TellTied }
{}

/// REQUEST. The relation is of all groups at once.
#[tactic(auto, using(crate::proofs::Steps::request_given))]
pub fn request_is_tied()
    ensures { RequestTied }
{}

/// ANSWER, up to the last one.
#[tactic(auto, using(crate::proofs::Gatherings::answer_is_tied))]
pub fn answer_is_tied()
    ensures { AnswerTied }
{}

/// An order to ask, where others are asked too.
#[tactic(auto, using(crate::proofs::Gatherings::ask_is_tied))]
pub fn ask_is_tied()
    ensures { AskTied }
{}

/// The tick of views, parts (2) and (3), where others are asked too if it asks anew.
#[tactic(auto, using(crate::proofs::ViewTicks::views_part_tied))]
pub fn views_part_is_tied()
    ensures { ViewsPartTied }
{}

/// INSTALL.
#[tactic(auto, using(crate::proofs::Installs::install_rule_tied))]
pub fn install_is_tied()
    ensures { InstallTied }
{}

/// Every node starts, in mode fixed.
#[tactic(auto, using(crate::proofs::FixedStart::fixed_start_tied))]
pub fn fixed_start_is_tied()
    ensures { FixedStartTied }
{}

/// The tick, part (4): what is owed is sent.
#[tactic(auto, using(crate::proofs::Owed::owed_part_tied))]
pub fn owed_part_is_tied()
    ensures { OwedPartTied }
{}

/// VOTE.
#[tactic(auto, using(crate::proofs::Votes::vote_is_tied))]
pub fn vote_is_tied()
    ensures { VoteTied }
{}

/// GONE.
#[tactic(auto, using(crate::proofs::Votes::gone_is_tied))]
pub fn gone_is_tied()
    ensures { GoneTied }
{}

/// A call of a client.
#[tactic(auto, using(crate::proofs::Calls::call_is_tied))]
pub fn call_is_tied()
    ensures { CallTied }
{}

/// The tick, part (5): what is led.
#[tactic(auto, using(crate::proofs::LedTicks::led_part_tied))]
pub fn led_part_is_tied()
    ensures { LedPartTied }
{}

/// The end of a step.
#[tactic(auto, using(crate::proofs::Ends::step_end_tied))]
pub fn step_end_is_tied()
    ensures { StepEndTied }
{}

/// The tick, part (1): rings, and reports of reach.
#[tactic(auto, using(crate::proofs::Rings::rings_part_tied))]
pub fn rings_part_is_tied()
    ensures { RingsPartTied }
{}

/// A packet of a ring.
#[tactic(auto, using(crate::proofs::Rings::ring_is_tied))]
pub fn ring_is_tied()
    ensures { RingTied }
{}

/// REPORT.
#[tactic(auto, using(crate::proofs::Rings::report_is_tied))]
pub fn report_is_tied()
    ensures { ReportTied }
{}

/// QUERY.
#[tactic(auto, using(crate::proofs::Rings::query_is_tied))]
pub fn query_is_tied()
    ensures { QueryTied }
{}

/// REPLY.
#[tactic(auto, using(crate::proofs::Rings::reply_is_tied))]
pub fn reply_is_tied()
    ensures { ReplyTied }
{}

/// A whole step.
#[tactic(auto, using(crate::proofs::Steps::step_tied))]
pub fn step_is_tied()
    ensures { StepTied }
{}

/// ANSWER, also the last one: the coordinator founds the view. The relation is of all groups at once.
#[tactic(auto, using(crate::proofs::FoundingRules::founding_answer_tied))]
pub fn founding_answer_is_tied()
    ensures { FoundingAnswerTied }
{}

/// An order to ask, also oneself alone. The relation is of all groups at once.
#[tactic(auto, using(crate::proofs::FoundingRules::founding_ask_tied))]
pub fn founding_ask_is_tied()
    ensures { FoundingAskTied }
{}

/// The tick of views, parts (2) and (3), also where it asks oneself alone. The relation is of all groups at once.
#[tactic(auto, using(crate::proofs::FoundingRules::founding_tick_tied))]
pub fn founding_tick_is_tied()
    ensures { FoundingTickTied }
{}

/// An event by which no node changes, with what is noted.
#[tactic(auto, using(crate::proofs::Noting::note_tied))]
pub fn note_is_tied()
    ensures { NoteTied }
{}

/// Whatever starts, stops and steps, in any order: what each group sees is safe, and each view and group has one list.
pub fn runs_are_safe()
    ensures { RunsAreSafe }
{}
