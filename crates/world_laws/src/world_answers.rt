//! The laws of worlds and plays whose clients are of any kind: what they answer is an input of each event.

ghost use Rattle.world_laws.specs.world_answers.Laws.{WordsAreAnswers, WaitingIsNotRead, PlaysGoOn, WordedPlaysAreOne};

/// Clients that vote by the words of a script are one kind of them.
#[tactic(auto, using(crate::proofs::world_answers::Words::worded_goes))]
pub fn words_are_answers()
    ensures { WordsAreAnswers }
{}

/// What happens in a world does not depend on what waits there.
#[tactic(auto, using(crate::proofs::world_answers::Waits::same_goes))]
pub fn waiting_is_not_read()
    ensures { WaitingIsNotRead }
{}

/// There is a play of any lines.
#[tactic(auto, using(crate::proofs::world_answers::Going::plays_go_on))]
pub fn plays_go_on()
    ensures { PlaysGoOn }
{}

/// Where each client votes just as its word says, it comes to the one world of the definitions.
#[tactic(auto, using(crate::proofs::world_answers::Worded::worded_plays_are_one))]
pub fn worded_plays_are_one()
    ensures { WordedPlaysAreOne }
{}
