//! Lines of clients and of their calls.
ghost use Rattle.std.specs.Prelude.{◌≡◌};
ghost use Rattle.node_state.specs.Calls.{caller_of};
ghost use Rattle.value_words.specs.Words.{each_read, provider_word};
ghost use Rattle.world_model.specs.Lines.{client_votes};
ghost use Rattle.value_words.specs.Escapes.{text_word};
ghost use Rattle.client_callbacks.specs.Votes.{vote_word};
ghost use Rattle.value_words.specs.Answers.{GivesWord};
ghost use Rattle.script_reader.specs.Said.{GivesSaid, GivesVotes, client_said, join_said, leave_said, expel_said, state_said, message_said, attrs_said, vote_said, subscribe_said, unsubscribe_said, goodbye_said};

use crate::said::{BOXED, ClientVotes, Said};
use client_callbacks::{VoteItem, vote_word, votes_word};
use entry_words::{attr_words, phases_word};
use node_state::CallLine;
use rsct_packet::{List, ProviderId};
use std::alloc::Global;
use value_words::{
    WordFault, Words, client_word, group_word, node_word, provider_word, short_word, text_word,
};

/// The name of the client that calls.
#[tactic(auto, unfolding(node_state::specs::Calls::caller_of))]
pub fn caller(call: &CallLine) -> &[u8]
    ensures { result.now ≡ caller_of call.now }
{
    match call {
        CallLine::Init { name, .. } => name.as_slice(),
        CallLine::Join { client, .. } => client.as_slice(),
        CallLine::Leave { client, .. } => client.as_slice(),
        CallLine::Expel { client, .. } => client.as_slice(),
        CallLine::ChangeState { client, .. } => client.as_slice(),
        CallLine::SendMessage { client, .. } => client.as_slice(),
        CallLine::ChangeAttributes { client, .. } => client.as_slice(),
        CallLine::Vote { client, .. } => client.as_slice(),
        CallLine::Subscribe { client, .. } => client.as_slice(),
        CallLine::Unsubscribe { client, .. } => client.as_slice(),
        CallLine::Goodbye { client } => client.as_slice(),
    }
}

/// The bytes of a text's word.
fn text_of(alloc: Global, word: &[u8]) -> Result<List<u8>, WordFault>
    ensures { GivesWord result (text_word word.now) }
{
    match text_word(alloc, word)? {
        None => Err(WordFault::BadWord),
        Some(text) => Ok(text),
    }
}

/// The vote and the value of a word.
fn vote_of(alloc: Global, word: &[u8]) -> Result<VoteItem, WordFault>
    ensures { GivesWord result (vote_word word.now) }
{
    match vote_word(alloc, word)? {
        None => Err(WordFault::BadWord),
        Some(item) => Ok(item),
    }
}

/// How a client votes, by its word.
#[tactic(auto, unfolding(world_model::specs::Lines::client_votes, world_model::specs::Lines::scripted, value_words::specs::Answers::bind_opens))]
fn client_votes(alloc: Global, word: &[u8]) -> Result<ClientVotes, WordFault>
    ensures { GivesVotes result (client_votes word.now) }
{
    if word == BOXED {
        return Ok(ClientVotes::Boxed);
    }
    match votes_word(alloc, word)? {
        None => Err(WordFault::BadWord),
        Some(_) => Ok(ClientVotes::Scripted(List::of(alloc, word)?)),
    }
}

/// The providers of these words.
#[tactic(auto, using(crate::proofs::EachLaws::each_step))]
fn provider_words(alloc: Global, words: &mut Words<'_>) -> Result<List<ProviderId>, WordFault>
    ensures { GivesWord result (each_read provider_word words.old) }
{
    let mut providers = List::new(alloc);
    while let Some(w) = words.take() {
        let Some(provider) = provider_word(w) else {
            return Err(WordFault::BadWord);
        };
        providers.push(provider)?;
    }
    Ok(providers)
}

/// `client NODE NAME VOTES`.
#[tactic(auto, unfolding(crate::specs::Said::client_said, value_words::specs::Answers::bind_opens))]
pub fn says_client(alloc: Global, words: &mut Words<'_>) -> Result<Said, WordFault>
    ensures { GivesSaid result (client_said words.old) }
{
    let (node, name, votes) = words.three().ok_or(WordFault::BadWord)?;
    let node = node_word(node).ok_or(WordFault::BadWord)?;
    let name = client_word(alloc, name)?;
    let votes = client_votes(alloc, votes)?;
    Ok(Said::Client(node, name, votes))
}

/// `join CLIENT GROUP INSTANCE ATTRIBUTE..`.
#[tactic(auto, unfolding(crate::specs::Said::join_said, node_state::specs::Calls::caller_of, value_words::specs::Answers::bind_opens))]
pub fn says_join(alloc: Global, words: &mut Words<'_>) -> Result<Said, WordFault>
    ensures { GivesSaid result (join_said words.old) }
{
    let client = words.first().ok_or(WordFault::BadWord)?;
    let group = words.first().ok_or(WordFault::BadWord)?;
    let instance = words.first().ok_or(WordFault::BadWord)?;
    let instance = short_word(0, u16::MAX, instance).ok_or(WordFault::BadWord)?;
    let attrs = attr_words(alloc, words)?;
    let client = client_word(alloc, client)?;
    let group = group_word(alloc, group)?;
    Ok(Said::Call(CallLine::Join {
        client,
        group,
        instance,
        attrs,
    }))
}

/// `leave CLIENT GROUP PHASES`.
#[tactic(auto, unfolding(crate::specs::Said::leave_said, node_state::specs::Calls::caller_of, value_words::specs::Answers::bind_opens))]
pub fn says_leave(alloc: Global, words: &mut Words<'_>) -> Result<Said, WordFault>
    ensures { GivesSaid result (leave_said words.old) }
{
    let (client, group, phases) = words.three().ok_or(WordFault::BadWord)?;
    let phases = phases_word(phases).ok_or(WordFault::BadWord)?;
    let client = client_word(alloc, client)?;
    let group = group_word(alloc, group)?;
    Ok(Said::Call(CallLine::Leave {
        client,
        group,
        phases,
    }))
}

/// `expel CLIENT GROUP PHASES PROVIDER..`.
#[tactic(auto, unfolding(crate::specs::Said::expel_said, node_state::specs::Calls::caller_of, value_words::specs::Answers::bind_opens))]
pub fn says_expel(alloc: Global, words: &mut Words<'_>) -> Result<Said, WordFault>
    ensures { GivesSaid result (expel_said words.old) }
{
    let client = words.first().ok_or(WordFault::BadWord)?;
    let group = words.first().ok_or(WordFault::BadWord)?;
    let phases = words.first().ok_or(WordFault::BadWord)?;
    let phases = phases_word(phases).ok_or(WordFault::BadWord)?;
    let out = provider_words(alloc, words)?;
    let client = client_word(alloc, client)?;
    let group = group_word(alloc, group)?;
    Ok(Said::Call(CallLine::Expel {
        client,
        group,
        phases,
        out,
    }))
}

/// `state CLIENT GROUP PHASES TEXT`.
#[tactic(auto, unfolding(crate::specs::Said::state_said, node_state::specs::Calls::caller_of, value_words::specs::Answers::bind_opens))]
pub fn says_state(alloc: Global, words: &mut Words<'_>) -> Result<Said, WordFault>
    ensures { GivesSaid result (state_said words.old) }
{
    let (client, group, phases, value) = words.four().ok_or(WordFault::BadWord)?;
    let phases = phases_word(phases).ok_or(WordFault::BadWord)?;
    let value = text_of(alloc, value)?;
    let client = client_word(alloc, client)?;
    let group = group_word(alloc, group)?;
    Ok(Said::Call(CallLine::ChangeState {
        client,
        group,
        phases,
        value,
    }))
}

/// `message CLIENT GROUP PHASES TEXT`.
#[tactic(auto, unfolding(crate::specs::Said::message_said, node_state::specs::Calls::caller_of, value_words::specs::Answers::bind_opens))]
pub fn says_message(alloc: Global, words: &mut Words<'_>) -> Result<Said, WordFault>
    ensures { GivesSaid result (message_said words.old) }
{
    let (client, group, phases, bytes) = words.four().ok_or(WordFault::BadWord)?;
    let phases = phases_word(phases).ok_or(WordFault::BadWord)?;
    let bytes = text_of(alloc, bytes)?;
    let client = client_word(alloc, client)?;
    let group = group_word(alloc, group)?;
    Ok(Said::Call(CallLine::SendMessage {
        client,
        group,
        phases,
        bytes,
    }))
}

/// `attrs CLIENT GROUP PHASES ATTRIBUTE..`.
#[tactic(auto, unfolding(crate::specs::Said::attrs_said, node_state::specs::Calls::caller_of, value_words::specs::Answers::bind_opens))]
pub fn says_attrs(alloc: Global, words: &mut Words<'_>) -> Result<Said, WordFault>
    ensures { GivesSaid result (attrs_said words.old) }
{
    let client = words.first().ok_or(WordFault::BadWord)?;
    let group = words.first().ok_or(WordFault::BadWord)?;
    let phases = words.first().ok_or(WordFault::BadWord)?;
    let phases = phases_word(phases).ok_or(WordFault::BadWord)?;
    let attrs = attr_words(alloc, words)?;
    let client = client_word(alloc, client)?;
    let group = group_word(alloc, group)?;
    Ok(Said::Call(CallLine::ChangeAttributes {
        client,
        group,
        phases,
        attrs,
    }))
}

/// `vote CLIENT GROUP VOTE`.
#[tactic(auto, unfolding(crate::specs::Said::vote_said, node_state::specs::Calls::caller_of, value_words::specs::Answers::bind_opens))]
pub fn says_vote(alloc: Global, words: &mut Words<'_>) -> Result<Said, WordFault>
    ensures { GivesSaid result (vote_said words.old) }
{
    let (client, group, item) = words.three().ok_or(WordFault::BadWord)?;
    let VoteItem { vote, value } = vote_of(alloc, item)?;
    let client = client_word(alloc, client)?;
    let group = group_word(alloc, group)?;
    Ok(Said::Call(CallLine::Vote {
        client,
        group,
        vote,
        value,
    }))
}

/// `subscribe CLIENT GROUP`.
#[tactic(auto, unfolding(crate::specs::Said::subscribe_said, node_state::specs::Calls::caller_of, value_words::specs::Answers::bind_opens))]
pub fn says_subscribe(alloc: Global, words: &mut Words<'_>) -> Result<Said, WordFault>
    ensures { GivesSaid result (subscribe_said words.old) }
{
    let (client, group) = words.two().ok_or(WordFault::BadWord)?;
    let client = client_word(alloc, client)?;
    let group = group_word(alloc, group)?;
    Ok(Said::Call(CallLine::Subscribe { client, group }))
}

/// `unsubscribe CLIENT GROUP`.
#[tactic(auto, unfolding(crate::specs::Said::unsubscribe_said, node_state::specs::Calls::caller_of, value_words::specs::Answers::bind_opens))]
pub fn says_unsubscribe(alloc: Global, words: &mut Words<'_>) -> Result<Said, WordFault>
    ensures { GivesSaid result (unsubscribe_said words.old) }
{
    let (client, group) = words.two().ok_or(WordFault::BadWord)?;
    let client = client_word(alloc, client)?;
    let group = group_word(alloc, group)?;
    Ok(Said::Call(CallLine::Unsubscribe { client, group }))
}

/// `goodbye CLIENT`.
#[tactic(auto, unfolding(crate::specs::Said::goodbye_said, node_state::specs::Calls::caller_of, value_words::specs::Answers::bind_opens))]
pub fn says_goodbye(alloc: Global, words: &mut Words<'_>) -> Result<Said, WordFault>
    ensures { GivesSaid result (goodbye_said words.old) }
{
    let w = words.one().ok_or(WordFault::BadWord)?;
    let client = client_word(alloc, w)?;
    Ok(Said::Call(CallLine::Goodbye { client }))
}
