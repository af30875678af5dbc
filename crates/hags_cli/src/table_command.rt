//! The command `table`.
ghost use Rattle.std.specs.Prelude.{◌≡◌, ◌++◌, IfOk, OnOk, option_copied};
ghost use Rattle.hags_io.specs.Edges.{Rose};
ghost use Rattle.hags_cli.specs.Tables.{named_text, node_text, tables_text, TablesEnds};

use crate::ending::Ending;
use crate::input::read_input;
use crate::run_command::MOST_KEPT;
use crate::tell_command::tell;
use hags_io::{Sink, Source};
use net_script::{World, play_as};
use node_core::Node;
use rsct_packet::{Name, NoMemory};
use script_reader::read_script;
use std::alloc::Global;
use table_client::TableClient;
use table_lines::{client_names, put_copies};
use transcript::Kinds;

/// The lines of the copies of the client of a name.
fn put_named(
    out: &mut Vec<u8>,
    group: &[u8],
    node: &Node<TableClient>,
    name: &[u8],
) -> Result<(), NoMemory>
    ensures { OnOk result (out.new.items
        ≡ out.old.items ++ named_text group.now node.now name.now) }
{
    match node.client(name) {
        None => Ok(()),
        Some(client) => put_copies(out, client, group),
    }
}

/// The lines of the copies of a node's clients, in the order of their names.
#[tactic(auto, using(value_words::proofs::TextLaws::item_on), unfolding(crate::specs::Tables::node_text))]
fn put_node(
    alloc: Global,
    out: &mut Vec<u8>,
    group: &[u8],
    node: Option<&Node<TableClient>>,
) -> Result<(), NoMemory>
    ensures { OnOk result (out.new.items
        ≡ out.old.items ++ node_text group.now (option_copied node.entry)) }
{
    let Some(node) = node else {
        return Ok(());
    };
    let names = client_names(alloc, node.core().sessions.sessions.as_slice())?;
    for name in names.as_slice() {
        put_named(out, group, node, name.as_slice())?;
    }
    Ok(())
}

/// The lines of the copies of a world, node after node.
#[tactic(auto, using(value_words::proofs::TextLaws::item_on), unfolding(crate::specs::Tables::tables_text))]
fn tables_of(alloc: Global, world: &World<TableClient>, group: &[u8]) -> Result<Vec<u8>, NoMemory>
    ensures { IfOk result (λ text. text.items ≡ tables_text group.now world.now) }
{
    let mut text = Vec::new(alloc);
    let numbers = world.nodes.numbers(alloc)?;
    for number in numbers.as_slice() {
        put_node(alloc, &mut text, group, world.nodes.get(*number))?;
    }
    Ok(text)
}

/// Reads a script to its end, plays it with clients that keep tables, and writes the lines of the copies of a group.
#[tactic(auto, using(crate::proofs::TableLaws::input_ends, crate::proofs::TableLaws::script_ends))]
pub fn run_tables<S: Source, K: Sink>(
    alloc: Global,
    group: &Name,
    input: &mut S,
    out: &mut K,
) -> Result<(), Ending>
    ensures { TablesEnds result group.now (S.left input.old) (S.left input.new)
        (Rose (S.faults input.old) (S.faults input.new))
        (Rose (K.faults out.old) (K.faults out.new)) (out.new ≡ out.old) (K.held out.old)
        (K.held out.new) }
{
    let front = read_input(alloc, input)?;
    let script = read_script(alloc, front.as_slice())?;
    let world = play_as::<TableClient, K>(alloc, &script, Kinds::none(), MOST_KEPT, out)?;
    let text = tables_of(alloc, &world, group.bytes())?;
    tell(text.as_slice(), out)
}
