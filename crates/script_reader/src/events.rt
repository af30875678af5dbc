//! Lines of events of nodes and networks.
ghost use Rattle.std.specs.Prelude.{◌≡◌, Some, None};
ghost use Rattle.std.specs.List.{fold};
ghost use Rattle.std.specs.Option.{option_map};
ghost use Rattle.rsct_packet.specs.Mask.{no_nodes, with_node};
ghost use Rattle.value_words.specs.Words.{each_read, node_word};
ghost use Rattle.value_words.specs.Answers.{GivesWord};
ghost use Rattle.script_reader.specs.Said.{GivesSaid, said_seen, last_network, start_said, stop_said, tick_said, ask_said, run_said, deliver_said, drop_said, flow_said, cut_said, heal_said, garbage_said, show_said};

use crate::said::{LineNodes, Said};
use rsct_packet::{List, Mask};
use script_words::what_word;
use std::alloc::Global;
use value_words::{WordFault, Words, hex_word, network_word, node_word, number_word, short_word};
use world_model::{Event, Line};

/// The nodes of these words.
#[tactic(auto, using(crate::proofs::EachLaws::each_step))]
fn node_words(alloc: Global, words: &mut Words<'_>) -> Result<List<u8>, WordFault>
    ensures { GivesWord result (each_read node_word words.old) }
{
    let mut nodes = List::new(alloc);
    while let Some(w) = words.take() {
        let Some(node) = node_word(w) else {
            return Err(WordFault::BadWord);
        };
        nodes.push(node)?;
    }
    Ok(nodes)
}

/// The set of these nodes.
#[tactic(auto, using(std::proofs::lemmas::List::Sums::fold_more))]
fn mask_of(nodes: &[u8]) -> Mask
    ensures { result ≡ fold with_node no_nodes nodes.now }
{
    let mut mask = Mask::empty();
    for n in nodes {
        mask = mask.with(*n);
    }
    mask
}

/// The network that the last word names, if there is one more.
#[tactic(auto, unfolding(crate::specs::Said::last_network, value_words::specs::Words::when_true, value_words::specs::Answers::bind_opens))]
fn last_network(words: &mut Words<'_>) -> Option<Option<u8>>
    ensures { result ≡ last_network words.old }
{
    let Some(w) = words.take() else {
        return Some(None);
    };
    if !words.is_empty() {
        return None;
    }
    Some(Some(network_word(w)?))
}

/// `start NODE`.
#[tactic(auto, unfolding(crate::specs::Said::start_said, value_words::specs::Answers::bind_opens))]
pub fn says_start(words: &mut Words<'_>) -> Option<Said>
    ensures { option_map said_seen result ≡ start_said words.old }
{
    let node = node_word(words.one()?)?;
    Some(Said::Line(LineNodes::One(node), Line::Plain(Event::Start(node))))
}

/// `stop NODE`.
#[tactic(auto, unfolding(crate::specs::Said::stop_said, value_words::specs::Answers::bind_opens))]
pub fn says_stop(words: &mut Words<'_>) -> Option<Said>
    ensures { option_map said_seen result ≡ stop_said words.old }
{
    let node = node_word(words.one()?)?;
    Some(Said::Line(LineNodes::One(node), Line::Plain(Event::Stop(node))))
}

/// `tick NODE`.
#[tactic(auto, unfolding(crate::specs::Said::tick_said, value_words::specs::Answers::bind_opens))]
pub fn says_tick(words: &mut Words<'_>) -> Option<Said>
    ensures { option_map said_seen result ≡ tick_said words.old }
{
    let node = node_word(words.one()?)?;
    Some(Said::Line(LineNodes::One(node), Line::Plain(Event::Tick(node))))
}

/// `ask NODE NODE..`: the node, and those of the view that it asks for.
#[tactic(auto, unfolding(crate::specs::Said::ask_said, value_words::specs::Answers::bind_opens))]
pub fn says_ask(alloc: Global, words: &mut Words<'_>) -> Result<Said, WordFault>
    ensures { GivesSaid result (ask_said words.old) }
{
    let node = words.first().ok_or(WordFault::BadWord)?;
    let node = node_word(node).ok_or(WordFault::BadWord)?;
    let others = node_words(alloc, words)?;
    let mask = mask_of(others.as_slice());
    Ok(Said::Line(
        LineNodes::More(node, others),
        Line::Plain(Event::Ask(node, mask)),
    ))
}

/// `run TICKS`.
#[tactic(auto, unfolding(crate::specs::Said::run_said, value_words::specs::Answers::bind_opens))]
pub fn says_run(words: &mut Words<'_>) -> Option<Said>
    ensures { option_map said_seen result ≡ run_said words.old }
{
    let ticks = short_word(1, 10000, words.one()?)?;
    Some(Said::Line(LineNodes::Zero, Line::Run(ticks)))
}

/// `deliver FROM TO PLACE`.
#[tactic(auto, unfolding(crate::specs::Said::deliver_said, value_words::specs::Answers::bind_opens))]
pub fn says_deliver(words: &mut Words<'_>) -> Option<Said>
    ensures { option_map said_seen result ≡ deliver_said words.old }
{
    let (from, to, place) = words.three()?;
    let place = number_word(0, u32::MAX, place)?;
    let from = node_word(from)?;
    let to = node_word(to)?;
    Some(Said::Line(
        LineNodes::Two(from, to),
        Line::Plain(Event::Deliver(from, to, place)),
    ))
}

/// `drop FROM TO`.
#[tactic(auto, unfolding(crate::specs::Said::drop_said, value_words::specs::Answers::bind_opens))]
pub fn says_drop(words: &mut Words<'_>) -> Option<Said>
    ensures { option_map said_seen result ≡ drop_said words.old }
{
    let (from, to) = words.two()?;
    let from = node_word(from)?;
    let to = node_word(to)?;
    Some(Said::Line(LineNodes::Two(from, to), Line::Drop(from, to)))
}

/// `flow`.
#[tactic(auto, unfolding(crate::specs::Said::flow_said, value_words::specs::Answers::bind_opens, value_words::specs::Words::when_true))]
pub fn says_flow(words: &mut Words<'_>) -> Option<Said>
    ensures { option_map said_seen result ≡ flow_said words.old }
{
    if words.is_empty() {
        Some(Said::Line(LineNodes::Zero, Line::Flow))
    } else {
        None
    }
}

/// `cut NODE NODE` on all networks, or with one named at the end.
#[tactic(auto, unfolding(crate::specs::Said::cut_said, value_words::specs::Answers::bind_opens))]
pub fn says_cut(words: &mut Words<'_>) -> Option<Said>
    ensures { option_map said_seen result ≡ cut_said words.old }
{
    let a = words.first()?;
    let b = words.first()?;
    let network = last_network(words)?;
    let a = node_word(a)?;
    let b = node_word(b)?;
    Some(Said::Line(LineNodes::Two(a, b), Line::Cut(a, b, network)))
}

/// `heal NODE NODE` on all networks, or with one named at the end.
#[tactic(auto, unfolding(crate::specs::Said::heal_said, value_words::specs::Answers::bind_opens))]
pub fn says_heal(words: &mut Words<'_>) -> Option<Said>
    ensures { option_map said_seen result ≡ heal_said words.old }
{
    let a = words.first()?;
    let b = words.first()?;
    let network = last_network(words)?;
    let a = node_word(a)?;
    let b = node_word(b)?;
    Some(Said::Line(LineNodes::Two(a, b), Line::Heal(a, b, network)))
}

/// `garbage NODE HEX`.
#[tactic(auto, unfolding(crate::specs::Said::garbage_said, value_words::specs::Answers::bind_opens))]
pub fn says_garbage(alloc: Global, words: &mut Words<'_>) -> Result<Said, WordFault>
    ensures { GivesSaid result (garbage_said words.old) }
{
    let (node, bytes) = words.two().ok_or(WordFault::BadWord)?;
    let bytes = hex_word(alloc, bytes)?;
    let node = node_word(node).ok_or(WordFault::BadWord)?;
    Ok(Said::Line(
        LineNodes::One(node),
        Line::Plain(Event::Garbage(node, bytes)),
    ))
}

/// `show NODE WHAT`.
#[tactic(auto, unfolding(crate::specs::Said::show_said, value_words::specs::Answers::bind_opens))]
pub fn says_show(words: &mut Words<'_>) -> Option<Said>
    ensures { option_map said_seen result ≡ show_said words.old }
{
    let (node, what) = words.two()?;
    let what = what_word(what)?;
    let node = node_word(node)?;
    Some(Said::Line(LineNodes::One(node), Line::Plain(Event::Show(node, what))))
}
