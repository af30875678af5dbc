//! What the words of a call ask for, and how it is done.
ghost use Rattle.std.specs.Prelude.{◌≡◌, IfSome, IfNone, map, string_bytes, length};
ghost use Rattle.hags_words.specs.Commands.{IsWithin};
ghost use Rattle.hags_cli.specs.Tasks.{Shows, plays, played_as, list_in, task_asked, task_of, subject_of, EndsAs, seen};

use crate::client_command::use_node;
use crate::daemon_command::{Service, serve_node};
use crate::edges::Edges;
use crate::ending::Ending;
use crate::load_command::load_steps;
use crate::run_command::run;
use crate::status_command::ask_node;
use crate::table_command::run_tables;
use crate::tell_command::tell;
use client_callbacks::Callbacks;
use client_run::Usage;
use hags_io::{Outside, Source};
use hags_words::{Command, VERSION, help_text, read_command};
use rsct_packet::List;
use self_questions::SelfWhat;
use status_client::{Asking, Subject};
use std::alloc::Global;
use transcript::Kinds;

/// The kinds that LIST names; all of them where there is no LIST, and none where it is faulty.
#[tactic(auto, using(crate::proofs::TaskLaws::all_shown, crate::proofs::TaskLaws::read_shown, crate::proofs::TaskLaws::read_played, crate::proofs::TaskLaws::read_faulty))]
fn kinds_in(list: &Option<List<u8>>) -> Option<Kinds>
    ensures shown { IfSome result (λ kinds. Shows kinds list.now) }
    ensures played { IfSome result (λ kinds. played_as list.now ≡ Some (plays (list_in list.now))) }
    ensures faulty { IfNone result (played_as list.now ≡ None) }
{
    match list {
        None => Some(Kinds::all()),
        Some(list) => Kinds::read(list.as_slice()),
    }
}

/// What a status asks about, as its question takes it.
fn subject_of(subject: hags_words::Subject) -> Subject
    ensures { result ≡ subject_of subject }
{
    match subject {
        hags_words::Subject::Node(what) => Subject::Node(what),
        hags_words::Subject::Clients => Subject::Daemon(SelfWhat::Hagscl),
        hags_words::Subject::Daemon => Subject::Daemon(SelfWhat::Hagsd),
    }
}

/// Does what the command asks for; no command is usage.
#[tactic(auto, using(crate::proofs::TaskLaws::load_ends, crate::proofs::TaskLaws::tell_ends, crate::proofs::TaskLaws::usage_ends, crate::proofs::TaskLaws::untouched))]
fn perform<S: Source, O: Outside>(
    alloc: Global,
    command: Option<Command>,
    edges: &mut Edges<S, O>,
    clients: Vec<Box<dyn Callbacks>>,
) -> Result<(), Ending>
    requires { IfSome command IsWithin }
    ensures { EndsAs result (task_asked (length clients.items) command)
        (seen S.left S.faults O.told edges.old edges.new) }
{
    match command {
        None => Err(Ending::Usage),
        Some(Command::Run { kinds }) => match kinds_in(&kinds) {
            None => Err(Ending::Usage),
            Some(kinds) => run(alloc, kinds, &mut edges.input, &mut edges.output),
        },
        Some(Command::Load { views }) => load_steps(alloc, views, &mut edges.output),
        Some(
            Command::Daemon {
                node,
                incarnation,
                turns,
                options,
            },
        ) => {
            let service = Service {
                node,
                incarnation,
                turns,
                options,
            };
            serve_node(alloc, service, edges, clients)
        }
        Some(
            Command::Status {
                subject,
                node,
                turns,
            },
        ) => {
            let asking = Asking {
                subject: subject_of(subject),
                node,
                turns,
            };
            ask_node(alloc, asking, edges)
        }
        Some(Command::Client { node, turns, key }) => {
            let usage = Usage { node, turns, key };
            use_node(alloc, usage, edges)
        }
        Some(Command::Table { group }) => {
            run_tables(alloc, &group, &mut edges.input, &mut edges.output)
        }
        Some(Command::Help { about }) => tell(help_text(about), &mut edges.output),
        Some(Command::Version) => tell(VERSION, &mut edges.output),
    }
}

/// Does what the words ask for.
#[tactic(auto, using(crate::proofs::TaskLaws::memory_ends))]
pub fn obey<S: Source, O: Outside>(
    alloc: Global,
    words: &[String],
    edges: &mut Edges<S, O>,
    clients: Vec<Box<dyn Callbacks>>,
) -> Result<(), Ending>
    ensures { EndsAs result (task_of (length clients.items) (map string_bytes words.now))
        (seen S.left S.faults O.told edges.old edges.new) }
{
    let command = read_command(alloc, words)?;
    perform(alloc, command, edges, clients)
}
