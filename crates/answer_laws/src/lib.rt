//! What providers are told of their requests.
#![tactic(auto)]

ghost use Rattle.answer_laws.specs.Answers.{AnswersOfScenesAreDue, AnswersOfScenesInOrder};
ghost use Rattle.answer_laws.specs.Runs.{EveryAnswerInOrder, EveryAnswerIsDue};

/// In every run of events that may happen, whatever its clients answer: whatever a provider is told of a request, it asked for that, and
/// in no event before did its node put an entry that carries the request, or was the provider told anything of it. Without a request it
/// is told only that its group was dissolved.
pub fn every_answer_is_due()
    ensures { EveryAnswerIsDue }
{}

/// So it is in every scene that events lead to.
pub fn answers_of_scenes_are_due()
    ensures { AnswersOfScenesAreDue }
{}

/// In every run of events that may happen, also within one event: whatever a provider is told of a request stands behind the record
/// that it asked for that, behind no entry of its own node that carries it, and behind nothing else that it was told of it. So a request
/// is answered once, and never both begun at its node and then refused.
pub fn every_answer_is_in_order()
    ensures { EveryAnswerInOrder }
{}

/// So it is in every scene that events lead to.
pub fn answers_of_scenes_are_in_order()
    ensures { AnswersOfScenesInOrder }
{}
