//! The command `client`.
ghost use Rattle.std.specs.Prelude.{◌≡◌, ◌≤◌, ◌+◌, IfOk, IfErr, IfSome, Some};
ghost use Rattle.std.specs.Io.KnownBytes.{IsAtEnd};
ghost use Rattle.rsct_packet.specs.Format.{EachFits};
ghost use Rattle.world_model.specs.Reading.{IsScript};
ghost use Rattle.script_reader.specs.ClientScript.{client_script};
ghost use Rattle.client_run.specs.Running.{IsCall};
ghost use Rattle.hags_cli.specs.Tasks.{CallsEnd, EndsAs, seen, uses};

use crate::edges::Edges;
use crate::ending::Ending;
use crate::input::read_input;
use client_run::{Usage, use_daemon};
use hags_io::{Outside, Source};
use script_reader::read_client;
use std::alloc::Global;
use world_model::Script;

/// Reads the settings and the calls of a client of a node (1 to 32) to their end. The fault is how the command ends.
#[tactic(auto, using(crate::proofs::ClientLaws::calls_are, crate::proofs::ClientLaws::calls_have, crate::proofs::ClientLaws::input_ends, crate::proofs::ClientLaws::script_ends, crate::proofs::SettingsLaws::has_ports))]
fn read_calls<S: Source>(alloc: Global, node: u8, input: &mut S) -> Result<Script, Ending>
    ensures read { IfOk result (λ script. IfSome (S.left input.old)
        (λ b. client_script node b ≡ IsScript script)) }
    ensures end { IfOk result (λ _. IsAtEnd (S.left input.new)) }
    ensures ports { IfOk result (λ script. script.config.port + 32 ≤ 65535) }
    ensures calls { IfOk result (λ script. EachFits IsCall script.texts) }
    ensures fault { IfErr result (CallsEnd node (S.left input.old) (S.faults input.old)
        (S.faults input.new)) }
{
    let front = read_input(alloc, input)?;
    let script = read_client(alloc, front.as_slice(), node)?;
    Ok(script)
}

/// Reads the settings and the calls to their end, and hands the calls to the daemon of the node.
#[tactic(auto, using(crate::proofs::ClientLaws::uses_settings, crate::proofs::ClientLaws::uses_done, crate::proofs::TaskLaws::untouched))]
pub fn use_node<S: Source, O: Outside>(
    alloc: Global,
    usage: Usage,
    edges: &mut Edges<S, O>,
) -> Result<(), Ending>
    ensures { EndsAs result (Some (uses usage))
        (seen S.left S.faults O.told edges.old edges.new) }
{
    let script = read_calls(alloc, usage.node, &mut edges.input)?;
    use_daemon(
        alloc,
        &script.config,
        &script.texts,
        usage,
        &mut edges.output.outside,
    )?;
    Ok(())
}
