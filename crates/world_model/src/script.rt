//! What a script says.
ghost use Rattle.std.specs.Prelude.{◌≡◌, ◌∷◌, [], IfSome, IfNone};
ghost use Rattle.std.specs.Option.{option_map};
ghost use Rattle.world_model.specs.Settings.{calls_on, call_at, text_at};

use crate::event::Event;
use node_state::{CallLine, Config};
use rsct_packet::List;

/// A line after `begin`: a plain event, or what is done with the packets that are under way.
pub enum Line {
    Plain(Event),
    /// What is under way from the first node to the second is lost.
    Drop(u8, u8),
    /// What is under way is delivered, with what comes of it.
    Flow,
    /// So often each node ticks, and then all flows.
    Run(u16),
    /// The two nodes are cut off from each other on this network, or on all.
    Cut(u8, u8, Option<u8>),
    Heal(u8, u8, Option<u8>),
}

// Written out: a drop is one call then, whose proof is made once.
impl Drop for Line {
    fn drop(self) {
        match self {
            Line::Plain(_x) => {}
            Line::Drop(_, _) => {}
            Line::Flow => {}
            Line::Run(_) => {}
            Line::Cut(_, _, _) => {}
            Line::Heal(_, _, _) => {}
        }
    }
}

pub type Lines = List<Line>;

/// Why a line is in no script: the first reason that holds, in this order.
#[derive(Clone, Copy, Debug, PartialEq, Eq)]
pub enum LineWhy {
    Long,
    BadByte,
    UnknownWord,
    MissingWord,
    ExtraWord,
    BadWord,
    UnknownNode,
    UnknownClient,
    OutOfPlace,
    NoSharedNetwork,
    IsAPacket,
    BoxedClient,
}

/// For what a script is read.
#[derive(Clone, Copy, Debug, PartialEq, Eq)]
pub enum Aim {
    /// It is played.
    Plays,
    /// A daemon is to serve this node (1 to 32), with so many objects that give votes.
    Serves(u8, u32),
    /// This node (1 to 32) is to be asked.
    Asks(u8),
}

/// A script: its settings, whether it has a `begin` line, and the lines after that. `texts` are the bytes of
/// those lines that are calls, in order and without their line feeds, where the script was read from bytes.
pub struct Script {
    pub config: Config,
    pub begun: bool,
    pub lines: Lines,
    pub texts: List<List<u8>>,
}

impl Drop for Script {
    fn drop(self) {
        let Script {
            config: _config,
            begun: _,
            lines: _lines,
            texts: _texts,
        } = self;
    }
}

/// The call that a line is, with the node of its client.
#[tactic(auto, unfolding(crate::specs::Settings::calls_on))]
fn call_on(line: &Line) -> Option<(u8, &CallLine)>
    ensures call { IfSome result (λ p. calls_on line.now ≡ (p.0, p.1.now) ∷ []) }
    ensures other { IfNone result (calls_on line.now ≡ []) }
{
    match line {
        Line::Plain(Event::Call(node, call)) => Some((*node, call)),
        _ => None,
    }
}

impl Script {
    /// The settings.
    pub fn config(&self) -> &Config
        ensures { result.now ≡ self.now.config }
    {
        &self.config
    }

    /// The call line of this index, from 0 on, with the node of its client; none exactly where there are
    /// not so many. It goes through the lines before it.
    #[tactic(auto, unfolding(crate::specs::Settings::call_at, crate::specs::Settings::calls_of), using(crate::proofs::CallLaws::each_call))]
    pub fn call(&self, index: usize) -> Option<(u8, &CallLine)>
        ensures { option_map (λ p. (p.0, p.1.now)) result ≡ call_at self.now index }
    {
        let mut lines = self.lines.as_slice();
        let mut left = index;
        while let [line, after @ ..] = lines {
            if let Some((node, call)) = call_on(line) {
                if left == 0 {
                    return Some((node, call));
                }
                left -= 1;
            }
            lines = after;
        }
        None
    }

    /// The bytes of that call's line, without its line feed; none exactly where there are not so many. A script
    /// that was not read from bytes has none.
    #[tactic(auto, unfolding(crate::specs::Settings::text_at))]
    pub fn line(&self, index: usize) -> Option<&[u8]>
        ensures { option_map (λ t. t.now) result ≡ text_at self.now index }
    {
        match self.texts.get(index) {
            None => None,
            Some(text) => Some(text.as_slice()),
        }
    }
}
