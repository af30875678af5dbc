//! What a line says.
ghost use Rattle.std.specs.Prelude.{◌≡◌, IfOk};
ghost use Rattle.world_model.specs.Lines.{said};
ghost use Rattle.world_model.specs.Reading.{votes_said};
ghost use Rattle.script_words.specs.Heads.{head_seen};
ghost use Rattle.script_reader.specs.Said.{GivesSaid, votes_seen};

use crate::{calls, events, settings};
use node_state::{CallLine, Mode};
use rsct_packet::{List, NoMemory};
use script_words::Head;
use std::alloc::Global;
use value_words::{WordFault, Words};
use world_model::Line;

/// The word of a client whose votes an object gives.
pub const BOXED: &[u8] = b"boxed";

/// How a client votes: as an object says, or as the word does.
#[derive(Drop)]
pub enum ClientVotes {
    Boxed,
    Scripted(List<u8>),
}

impl ClientVotes {
    /// The word that says so.
    #[tactic(auto, unfolding(world_model::specs::Reading::votes_said))]
    pub fn into_word(self, alloc: Global) -> Result<List<u8>, NoMemory>
        ensures { IfOk result (λ w. w ≡ votes_said (votes_seen self)) }
    {
        match self {
            ClientVotes::Boxed => List::of(alloc, BOXED),
            ClientVotes::Scripted(word) => Ok(word),
        }
    }
}

/// The nodes that a line names.
#[derive(Drop)]
pub enum LineNodes {
    Zero,
    One(u8),
    Two(u8, u8),
    /// A node, and others.
    More(u8, List<u8>),
}

/// What a line says whose words are read.
#[derive(Drop)]
pub enum Said {
    Mode(Mode),
    Node(u8),
    /// A node, a network and its address there.
    Adapter(u8, u8, u32),
    /// How often heartbeats are sent, and how many may be missed.
    Hb(u16, u16),
    Port(u16),
    /// A node, and from which incarnation on it speaks level 2.
    Level(u8, u32),
    Domain(u32),
    Begin,
    /// A line after `begin`, and the nodes that it names.
    Line(LineNodes, Line),
    /// A client of a node, its name and its votes.
    Client(u8, List<u8>, ClientVotes),
    /// A call of a client that an earlier line makes.
    Call(CallLine),
}

/// What a line with this head and these words after it says; a bad word is one that is out of its form.
pub fn read_said(alloc: Global, head: Head, words: &mut Words<'_>) -> Result<Said, WordFault>
    ensures { GivesSaid result (said (head_seen head) words.old) }
{
    match head {
        Head::Mode => settings::says_mode(words).ok_or(WordFault::BadWord),
        Head::Node => settings::says_node(words).ok_or(WordFault::BadWord),
        Head::Adapter => settings::says_adapter(words).ok_or(WordFault::BadWord),
        Head::Hb => settings::says_hb(words).ok_or(WordFault::BadWord),
        Head::Port => settings::says_port(words).ok_or(WordFault::BadWord),
        Head::Level => settings::says_level(words).ok_or(WordFault::BadWord),
        Head::Domain => settings::says_domain(words).ok_or(WordFault::BadWord),
        Head::Begin => settings::says_begin(words).ok_or(WordFault::BadWord),
        Head::Start => events::says_start(words).ok_or(WordFault::BadWord),
        Head::Stop => events::says_stop(words).ok_or(WordFault::BadWord),
        Head::Ask => events::says_ask(alloc, words),
        Head::Tick => events::says_tick(words).ok_or(WordFault::BadWord),
        Head::Run => events::says_run(words).ok_or(WordFault::BadWord),
        Head::Deliver => events::says_deliver(words).ok_or(WordFault::BadWord),
        Head::Drop => events::says_drop(words).ok_or(WordFault::BadWord),
        Head::Flow => events::says_flow(words).ok_or(WordFault::BadWord),
        Head::Cut => events::says_cut(words).ok_or(WordFault::BadWord),
        Head::Heal => events::says_heal(words).ok_or(WordFault::BadWord),
        Head::Garbage => events::says_garbage(alloc, words),
        Head::Show => events::says_show(words).ok_or(WordFault::BadWord),
        Head::Client => calls::says_client(alloc, words),
        Head::Join => calls::says_join(alloc, words),
        Head::Leave => calls::says_leave(alloc, words),
        Head::Expel => calls::says_expel(alloc, words),
        Head::State => calls::says_state(alloc, words),
        Head::Message => calls::says_message(alloc, words),
        Head::Attrs => calls::says_attrs(alloc, words),
        Head::Vote => calls::says_vote(alloc, words),
        Head::Subscribe => calls::says_subscribe(alloc, words),
        Head::Unsubscribe => calls::says_unsubscribe(alloc, words),
        Head::Goodbye => calls::says_goodbye(alloc, words),
    }
}
