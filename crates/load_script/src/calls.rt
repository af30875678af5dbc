//! The calls of a load's clients, of which node k has the client ck.
ghost use Rattle.std.specs.Prelude.{◌≡◌, ◌++◌, ◌∷◌, [], codes, decimal, OnOk, IfOk};
ghost use Rattle.group_attr.specs.declared.attrs.Phases.TheVariants as phases;
ghost use Rattle.node_state.specs.declared.call.CallLine.{CallLine};
ghost use Rattle.node_state.specs.declared.call.CallLine.TheVariants as call;
ghost use Rattle.world_model.specs.Load.{client_name, load_group, calls, joins_again, comes};
ghost use Rattle.world_model.specs.declared.script.Line.TheVariants as line;

use group_attr::{Attrs, Phases};
use node_state::CallLine;
use rsct_packet::{List, NoMemory};
use std::alloc::Global;
use world_model::{Event, Line, Lines};

/// A letter, and a number behind it.
fn numbered(alloc: Global, letter: &[u8], number: u32) -> Result<List<u8>, NoMemory>
    ensures { IfOk result (λ bytes. bytes ≡ letter.now ++ decimal number) }
{
    let digits = number.to_string(alloc)?;
    let mut text = List::of(alloc, letter)?;
    text.extend(digits.as_bytes())?;
    Ok(text)
}

#[tactic(auto, unfolding(world_model::specs::Load::client_name))]
fn client_name(alloc: Global, node: u8) -> Result<List<u8>, NoMemory>
    ensures { IfOk result (λ name. name ≡ client_name node) }
{
    numbered(alloc, b"c", u32::from(node))
}

/// The one group of a load.
fn load_group(alloc: Global) -> Result<List<u8>, NoMemory>
    ensures { IfOk result (λ name. name ≡ load_group) }
{
    List::of(alloc, b"g")
}

/// A client of the node calls.
#[tactic(auto, unfolding(world_model::specs::Load::calls))]
fn push_call(lines: &mut Lines, node: u8, call: CallLine) -> Result<(), NoMemory>
    ensures { OnOk result (lines.new ≡ lines.old ++ calls node call ∷ []) }
{
    lines.push(Line::Plain(Event::Call(node, call)))
}

/// The node's client joins, and all flows.
#[tactic(auto, unfolding(world_model::specs::Load::joins_again))]
pub fn push_join(lines: &mut Lines, alloc: Global, node: u8) -> Result<(), NoMemory>
    ensures { OnOk result (lines.new ≡ lines.old ++ joins_again node) }
{
    let client = client_name(alloc, node)?;
    let group = load_group(alloc)?;
    let call = CallLine::Join {
        client,
        group,
        instance: 1,
        attrs: Attrs::empty(),
    };
    push_call(lines, node, call)?;
    lines.push(Line::Flow)
}

/// The node's client begins its session and joins, and all flows.
#[tactic(auto, unfolding(world_model::specs::Load::comes))]
pub fn push_coming(lines: &mut Lines, alloc: Global, node: u8) -> Result<(), NoMemory>
    ensures { OnOk result (lines.new ≡ lines.old ++ comes node) }
{
    let name = client_name(alloc, node)?;
    let votes = List::of(alloc, b"A")?;
    push_call(lines, node, CallLine::Init { node, name, votes })?;
    push_join(lines, alloc, node)
}

/// The node's client sends a message that has this number, and all flows.
pub fn push_message(lines: &mut Lines, alloc: Global, node: u8, number: u32) -> Result<(), NoMemory>
    ensures { OnOk result (lines.new ≡ lines.old
        ++ calls node (call.SendMessage (client_name node) load_group phases.One
        (codes "m" ++ decimal number)) ∷ line.Flow ∷ []) }
{
    let client = client_name(alloc, node)?;
    let group = load_group(alloc)?;
    let bytes = numbered(alloc, b"m", number)?;
    let call = CallLine::SendMessage {
        client,
        group,
        phases: Phases::One,
        bytes,
    };
    push_call(lines, node, call)?;
    lines.push(Line::Flow)
}

/// The node's client asks for a vote on a value that has this number, and all flows.
pub fn push_state(lines: &mut Lines, alloc: Global, node: u8, number: u32) -> Result<(), NoMemory>
    ensures { OnOk result (lines.new ≡ lines.old
        ++ calls node (call.ChangeState (client_name node) load_group phases.Many
        (codes "s" ++ decimal number)) ∷ line.Flow ∷ []) }
{
    let client = client_name(alloc, node)?;
    let group = load_group(alloc)?;
    let value = numbered(alloc, b"s", number)?;
    let call = CallLine::ChangeState {
        client,
        group,
        phases: Phases::Many,
        value,
    };
    push_call(lines, node, call)?;
    lines.push(Line::Flow)
}
