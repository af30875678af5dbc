//! The command `daemon`.
ghost use Rattle.std.specs.Prelude.{◌≡◌, ◌≤◌, ◌++◌, Some, length, codes};
ghost use Rattle.daemon_model.specs.SelfLines.{version_text};
ghost use Rattle.hags_words.specs.declared.help.TheConstants.{VERSION};
ghost use Rattle.hags_cli.specs.Tasks.{Incarnates, EndsAs, seen, serves, counted, options_of, program_version};

use crate::edges::Edges;
use crate::ending::Ending;
use crate::settings::read_settings;
use client_callbacks::{Callbacks, DaemonClient};
use daemon_model::{About, Options, RemoteService, Version};
use daemon_run::{Hosts, Objects, Serving, serve};
use hags_io::{Outside, Source};
use hags_words::DaemonOptions;
use std::alloc::Global;

/// What the words ask of a daemon: its node (1 to 32), its incarnation (from 1 on) or none, and how many turns it does
/// (from 1 on); and its options, as they name them.
#[derive(Clone, Copy, Debug, PartialEq, Eq)]
pub struct Service {
    pub node: u8,
    pub incarnation: Option<u32>,
    pub turns: u64,
    pub options: DaemonOptions,
}

/// The version of the program, as `--version` says it.
fn program_version() -> Version
    ensures { result ≡ program_version }
{
    Version {
        major: 0,
        minor: 1,
        patch: 0,
    }
}

/// A daemon tells the version that `--version` says.
pub fn versions_agree()
    ensures { VERSION.now ≡ codes "hags " ++ version_text program_version ++ codes "\n" }
{}

/// The options of a daemon whose settings have this digest, as it takes them.
fn options_of(options: DaemonOptions, digest: u64) -> Options
    ensures { result ≡ options_of options digest }
{
    let remote = if options.remote {
        RemoteService::On {
            entries: options.entries,
        }
    } else {
        RemoteService::Off
    };
    let about = About {
        version: program_version(),
        settings: digest,
    };
    Options {
        service: daemon_model::Service { remote, about },
        silence: options.silence,
        mend: options.mend,
        gap: options.gap,
    }
}

/// How many objects there are, as far as 32 bits count them.
fn count_of(objects: usize) -> u32
    ensures { result ≡ counted objects }
{
    objects.min(u32::MAX as usize) as u32
}

/// The incarnation that the words name, or that the clock gives: the low 32 bits of its seconds, or 1 where these are 0.
#[tactic(auto, using(crate::proofs::CommandLaws::by_clock))]
fn incarnation_of<O: Outside>(named: Option<u32>, outside: &mut O) -> u32
    ensures { Incarnates named (O.told outside.old) (O.told outside.new) result }
{
    match named {
        Some(incarnation) => incarnation,
        None => {
            let seconds = outside.now() / 1_000;
            ((seconds % 4_294_967_296) as u32).max(1)
        }
    }
}

/// Reads the settings to their end, and serves the node with what `hosts` gives for its clients, of so many objects.
#[tactic(auto, using(crate::proofs::CommandLaws::serves_settings, crate::proofs::TaskLaws::untouched))]
fn serve_with<C: Callbacks, H: Hosts<C>, S: Source, O: Outside>(
    alloc: Global,
    service: Service,
    edges: &mut Edges<S, O>,
    objects: usize,
    hosts: &mut H,
) -> Result<(), Ending>
    requires { service.node ≤ 32 }
    ensures { EndsAs result (Some (serves service objects))
        (seen S.left S.faults O.told edges.old edges.new) }
{
    let count = count_of(objects);
    let settings = read_settings(alloc, service.node, Some(count), &mut edges.input)?;
    let script = &settings.script;
    let serving = Serving {
        me: service.node,
        incarnation: incarnation_of(service.incarnation, &mut edges.output.outside),
        turns: service.turns,
        options: options_of(service.options, settings.digest),
    };
    let outcome = serve::<C, H, O>(alloc, script, serving, hosts, &mut edges.output.outside);
    outcome.end?;
    Ok(())
}

/// Reads the settings to their end, and serves the node with these objects for its clients.
pub fn serve_node<S: Source, O: Outside>(
    alloc: Global,
    service: Service,
    edges: &mut Edges<S, O>,
    clients: Vec<Box<dyn Callbacks>>,
) -> Result<(), Ending>
    requires { service.node ≤ 32 }
    ensures { EndsAs result (Some (serves service (length clients.items)))
        (seen S.left S.faults O.told edges.old edges.new) }
{
    let objects = clients.len();
    let mut hosts = Objects { left: clients };
    serve_with::<DaemonClient, Objects, S, O>(alloc, service, edges, objects, &mut hosts)
}
