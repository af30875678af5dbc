//! The first words of lines.
ghost use Rattle.std.specs.Prelude.{◌≡◌, Some, None};
ghost use Rattle.std.specs.Option.{option_map};
ghost use Rattle.value_words.specs.Words.{chosen};
ghost use Rattle.world_model.specs.Lines.{forms};
ghost use Rattle.script_words.specs.Heads.{head_seen, form_seen, frequent_forms, node_forms, group_forms, setting_forms};

use value_words::is_word;

/// What the first word of a line says that the line is.
#[derive(Clone, Copy)]
pub enum Head {
    Mode,
    Node,
    Adapter,
    Hb,
    Port,
    Level,
    Domain,
    Begin,
    Start,
    Stop,
    Ask,
    Tick,
    Run,
    Deliver,
    Drop,
    Flow,
    Cut,
    Heal,
    Garbage,
    Show,
    Client,
    Join,
    Leave,
    Expel,
    State,
    Message,
    Attrs,
    Vote,
    Subscribe,
    Unsubscribe,
    Goodbye,
}

/// The head of a line, how few words follow it, and how many at most, if there is a limit.
#[derive(Clone, Copy)]
pub struct Form {
    pub head: Head,
    pub least: usize,
    pub most: Option<usize>,
}

fn exactly(head: Head, count: usize) -> Form
    ensures { result ≡ record { head = head; least = count; most = Some count } }
{
    Form {
        head,
        least: count,
        most: Some(count),
    }
}

fn at_least(head: Head, least: usize) -> Form
    ensures { result ≡ record { head = head; least = least; most = None } }
{
    Form {
        head,
        least,
        most: None,
    }
}

fn between(head: Head, least: usize, most: usize) -> Form
    ensures { result ≡ record { head = head; least = least; most = Some most } }
{
    Form {
        head,
        least,
        most: Some(most),
    }
}

/// The words of the most frequent lines.
#[tactic(auto, unfolding(value_words::specs::Words::chosen, world_model::specs::Lines::form, world_model::specs::Lines::form_from, world_model::specs::Lines::form_to))]
fn frequent_form(word: &[u8]) -> Option<Form>
    ensures { option_map form_seen result ≡ chosen frequent_forms word.now }
{
    if is_word(b"flow", word) {
        return Some(exactly(Head::Flow, 0));
    }
    if is_word(b"deliver", word) {
        return Some(exactly(Head::Deliver, 3));
    }
    if is_word(b"join", word) {
        return Some(at_least(Head::Join, 3));
    }
    if is_word(b"message", word) {
        return Some(exactly(Head::Message, 4));
    }
    if is_word(b"state", word) {
        return Some(exactly(Head::State, 4));
    }
    if is_word(b"vote", word) {
        return Some(exactly(Head::Vote, 3));
    }
    if is_word(b"client", word) {
        return Some(exactly(Head::Client, 3));
    }
    if is_word(b"ask", word) {
        return Some(at_least(Head::Ask, 2));
    }
    None
}

/// The words of events of nodes and networks.
#[tactic(auto, unfolding(value_words::specs::Words::chosen, world_model::specs::Lines::form, world_model::specs::Lines::form_from, world_model::specs::Lines::form_to))]
fn node_form(word: &[u8]) -> Option<Form>
    ensures { option_map form_seen result ≡ chosen node_forms word.now }
{
    if is_word(b"start", word) {
        return Some(exactly(Head::Start, 1));
    }
    if is_word(b"stop", word) {
        return Some(exactly(Head::Stop, 1));
    }
    if is_word(b"tick", word) {
        return Some(exactly(Head::Tick, 1));
    }
    if is_word(b"run", word) {
        return Some(exactly(Head::Run, 1));
    }
    if is_word(b"drop", word) {
        return Some(exactly(Head::Drop, 2));
    }
    if is_word(b"cut", word) {
        return Some(between(Head::Cut, 2, 3));
    }
    if is_word(b"heal", word) {
        return Some(between(Head::Heal, 2, 3));
    }
    if is_word(b"garbage", word) {
        return Some(exactly(Head::Garbage, 2));
    }
    None
}

/// The words of other calls, and `mode`.
#[tactic(auto, unfolding(value_words::specs::Words::chosen, world_model::specs::Lines::form, world_model::specs::Lines::form_from, world_model::specs::Lines::form_to))]
fn group_form(word: &[u8]) -> Option<Form>
    ensures { option_map form_seen result ≡ chosen group_forms word.now }
{
    if is_word(b"show", word) {
        return Some(exactly(Head::Show, 2));
    }
    if is_word(b"leave", word) {
        return Some(exactly(Head::Leave, 3));
    }
    if is_word(b"expel", word) {
        return Some(at_least(Head::Expel, 4));
    }
    if is_word(b"attrs", word) {
        return Some(at_least(Head::Attrs, 3));
    }
    if is_word(b"subscribe", word) {
        return Some(exactly(Head::Subscribe, 2));
    }
    if is_word(b"unsubscribe", word) {
        return Some(exactly(Head::Unsubscribe, 2));
    }
    if is_word(b"goodbye", word) {
        return Some(exactly(Head::Goodbye, 1));
    }
    if is_word(b"mode", word) {
        return Some(exactly(Head::Mode, 1));
    }
    None
}

/// The words of the other settings, and `begin`.
#[tactic(auto, unfolding(value_words::specs::Words::chosen, world_model::specs::Lines::form, world_model::specs::Lines::form_from, world_model::specs::Lines::form_to))]
fn setting_form(word: &[u8]) -> Option<Form>
    ensures { option_map form_seen result ≡ chosen setting_forms word.now }
{
    if is_word(b"node", word) {
        return Some(exactly(Head::Node, 1));
    }
    if is_word(b"adapter", word) {
        return Some(exactly(Head::Adapter, 3));
    }
    if is_word(b"hb", word) {
        return Some(exactly(Head::Hb, 2));
    }
    if is_word(b"port", word) {
        return Some(exactly(Head::Port, 1));
    }
    if is_word(b"level", word) {
        return Some(exactly(Head::Level, 2));
    }
    if is_word(b"domain", word) {
        return Some(exactly(Head::Domain, 1));
    }
    if is_word(b"begin", word) {
        return Some(exactly(Head::Begin, 0));
    }
    None
}

/// The form of lines that begin with this word.
#[tactic(auto, using(crate::proofs::HeadLaws::in_frequent, crate::proofs::HeadLaws::in_node, crate::proofs::HeadLaws::in_group, crate::proofs::HeadLaws::in_setting))]
pub fn form_of(word: &[u8]) -> Option<Form>
    ensures { option_map form_seen result ≡ chosen forms word.now }
{
    if let Some(form) = frequent_form(word) {
        return Some(form);
    }
    if let Some(form) = node_form(word) {
        return Some(form);
    }
    if let Some(form) = group_form(word) {
        return Some(form);
    }
    setting_form(word)
}
