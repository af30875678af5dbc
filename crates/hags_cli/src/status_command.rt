//! The command `status`.
ghost use Rattle.std.specs.Prelude.{Some};
ghost use Rattle.hags_cli.specs.Tasks.{EndsAs, seen, asks};

use crate::edges::Edges;
use crate::ending::Ending;
use crate::settings::read_settings;
use crate::tell_command::tell;
use hags_io::{Outside, Source};
use status_client::{Asking, ask};
use std::alloc::Global;

/// Reads the settings to their end, asks the node, and writes the text of its answer.
#[tactic(auto, using(crate::proofs::CommandLaws::asks_settings, crate::proofs::CommandLaws::asks_answered, crate::proofs::CommandLaws::asks_fault, crate::proofs::TaskLaws::untouched))]
pub fn ask_node<S: Source, O: Outside>(
    alloc: Global,
    asking: Asking,
    edges: &mut Edges<S, O>,
) -> Result<(), Ending>
    ensures { EndsAs result (Some (asks asking))
        (seen S.left S.faults O.told edges.old edges.new) }
{
    let settings = read_settings(alloc, asking.node, None, &mut edges.input)?;
    let config = &settings.script.config;
    let text = ask(alloc, config, asking, &mut edges.output.outside)?;
    tell(text.as_slice(), &mut edges.output)
}
