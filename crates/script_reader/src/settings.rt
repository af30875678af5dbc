//! Lines of settings.
ghost use Rattle.std.specs.Prelude.{◌≡◌};
ghost use Rattle.std.specs.Option.{option_map};
ghost use Rattle.script_reader.specs.Said.{said_seen, mode_said, node_said, adapter_said, hb_said, port_said, level_said, domain_said, begin_said};

use crate::said::Said;
use script_words::{address_word, mode_word};
use value_words::{Words, network_word, node_word, number_word, short_word};

/// `mode MODE`.
#[tactic(auto, unfolding(crate::specs::Said::mode_said, value_words::specs::Answers::bind_opens))]
pub fn says_mode(words: &mut Words<'_>) -> Option<Said>
    ensures { option_map said_seen result ≡ mode_said words.old }
{
    let mode = mode_word(words.one()?)?;
    Some(Said::Mode(mode))
}

/// `node NODE`.
#[tactic(auto, unfolding(crate::specs::Said::node_said, value_words::specs::Answers::bind_opens))]
pub fn says_node(words: &mut Words<'_>) -> Option<Said>
    ensures { option_map said_seen result ≡ node_said words.old }
{
    let node = node_word(words.one()?)?;
    Some(Said::Node(node))
}

/// `adapter NODE NETWORK ADDRESS`.
#[tactic(auto, unfolding(crate::specs::Said::adapter_said, value_words::specs::Answers::bind_opens))]
pub fn says_adapter(words: &mut Words<'_>) -> Option<Said>
    ensures { option_map said_seen result ≡ adapter_said words.old }
{
    let (node, network, address) = words.three()?;
    let node = node_word(node)?;
    let network = network_word(network)?;
    let address = address_word(address)?;
    Some(Said::Adapter(node, network, address))
}

/// `hb EVERY MISSES`.
#[tactic(auto, unfolding(crate::specs::Said::hb_said, value_words::specs::Answers::bind_opens))]
pub fn says_hb(words: &mut Words<'_>) -> Option<Said>
    ensures { option_map said_seen result ≡ hb_said words.old }
{
    let (every, misses) = words.two()?;
    let every = short_word(1, 100, every)?;
    let misses = short_word(2, 100, misses)?;
    Some(Said::Hb(every, misses))
}

/// `port PORT`.
#[tactic(auto, unfolding(crate::specs::Said::port_said, value_words::specs::Answers::bind_opens))]
pub fn says_port(words: &mut Words<'_>) -> Option<Said>
    ensures { option_map said_seen result ≡ port_said words.old }
{
    let port = short_word(1, 65000, words.one()?)?;
    Some(Said::Port(port))
}

/// `level NODE INCARNATION`.
#[tactic(auto, unfolding(crate::specs::Said::level_said, value_words::specs::Answers::bind_opens))]
pub fn says_level(words: &mut Words<'_>) -> Option<Said>
    ensures { option_map said_seen result ≡ level_said words.old }
{
    let (node, inc) = words.two()?;
    let node = node_word(node)?;
    let inc = number_word(1, u32::MAX, inc)?;
    Some(Said::Level(node, inc))
}

/// `domain DOMAIN`.
#[tactic(auto, unfolding(crate::specs::Said::domain_said, value_words::specs::Answers::bind_opens))]
pub fn says_domain(words: &mut Words<'_>) -> Option<Said>
    ensures { option_map said_seen result ≡ domain_said words.old }
{
    let domain = number_word(1, u32::MAX, words.one()?)?;
    Some(Said::Domain(domain))
}

/// `begin`.
#[tactic(auto, unfolding(crate::specs::Said::begin_said, value_words::specs::Answers::bind_opens, value_words::specs::Words::when_true))]
pub fn says_begin(words: &mut Words<'_>) -> Option<Said>
    ensures { option_map said_seen result ≡ begin_said words.old }
{
    if words.is_empty() {
        Some(Said::Begin)
    } else {
        None
    }
}
