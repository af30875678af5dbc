//! The call at the top, and its status.
ghost use Rattle.std.specs.Prelude.{◌≡◌, ◌≢◌, map, string_bytes, length};
ghost use Rattle.hags_cli.specs.Endings.{Says, status_of, said_of, ending_text};
ghost use Rattle.hags_cli.specs.Tasks.{task_of, seen, SaysLine, Ended};

use crate::edges::Edges;
use crate::ending::Ending;
use crate::tasks::obey;
use client_callbacks::Callbacks;
use hags_io::{Outside, Put, Sink, Source};
use link_use::Stop;
use std::alloc::Global;
use transcript::fault_line;

const USAGE: &[u8] =
    b"hags: usage: hags run [--kinds LIST] / load N / daemon --node N [--inc I] [--turns T] / status WHAT --node N [--turns T]\n";

/// The status of an ending.
fn status_of(ending: Ending) -> u8
    ensures { result ≡ status_of ending }
{
    match ending {
        Ending::Usage => 1,
        Ending::BadLine(_, _) => 2,
        Ending::Stop(Stop::NoMemory) => 3,
        Ending::ReadFault => 4,
        Ending::Stop(Stop::WriteFault) => 5,
        Ending::Stop(Stop::LinkFault) => 6,
        Ending::TooMuchKept => 7,
        Ending::Stop(Stop::NoReply) => 9,
        Ending::Stop(Stop::SessionLost) => 10,
        Ending::Stop(Stop::DaemonFull) => 11,
        Ending::Stop(Stop::Paused) => 12,
    }
}

/// What is said on err of an ending; that of a bad line is its own.
fn text_of(ending: Ending) -> &'static [u8]
    ensures { result.now ≡ said_of (status_of ending) }
{
    match ending {
        Ending::BadLine(_, _) => b"",
        Ending::Usage => USAGE,
        Ending::Stop(Stop::NoMemory) => b"hags: no memory\n",
        Ending::ReadFault => b"hags: read fault\n",
        Ending::Stop(Stop::WriteFault) => b"hags: write fault\n",
        Ending::Stop(Stop::LinkFault) => b"hags: link fault\n",
        Ending::TooMuchKept => b"hags: too much kept\n",
        Ending::Stop(Stop::NoReply) => b"hags: no reply\n",
        Ending::Stop(Stop::SessionLost) => b"hags: session lost\n",
        Ending::Stop(Stop::DaemonFull) => b"hags: daemon full\n",
        Ending::Stop(Stop::Paused) => b"hags: paused\n",
    }
}

/// Says the text on err; a fault there changes nothing.
fn say<E: Sink>(err: &mut E, text: &[u8])
    ensures { Says (E.faults err.old) (E.faults err.new) (E.held err.old) (E.held err.new)
        text.now }
{
    let _put: Put = err.put(text);
}

/// Says on err how the call ended. Where there is no memory for the line of a bad line, nothing is said.
fn say_ending<E: Sink>(alloc: Global, ending: Ending, err: &mut E)
    ensures { Says (E.faults err.old) (E.faults err.new) (E.held err.old) (E.held err.new)
        (ending_text ending) }
{
    if let Ending::BadLine(number, why) = ending {
        if let Ok(line) = fault_line(alloc, number, why) {
            say(err, line.as_slice());
        }
    } else {
        say(err, text_of(ending));
    }
}

/// Carries out the command that the words spell, over these edges, and answers its status. A daemon gives these objects,
/// in their order, to those of its clients whose votes are `boxed`. What is said of a failure goes to `err`, whole where
/// `err` takes it; a fault there changes nothing.
///
/// | status | text on err | when |
/// |---|---|---|
/// | 0 | | `run`: the input was read to its end, and the whole text of its run was written, of the kinds that the words name; `load`: the summary of its run; `daemon`: all its turns were done, and the lines of its records were written; `status`: the text of the answer was written; `client`: all its turns were done, each call has its answer, and its answers and what its client heard were written; `table`: the input was read to its end, and the lines of the copies were written; `--help`, `--version`: their text |
/// | 1 | `hags: usage: ..` | only where the words are of no command; there it is this or 3. Nothing was read or written |
/// | 2 | `hags: line L: WHY` | `run`, `table`, `daemon`, `status`, `client`: line L is the first of the input that is in no script, in no settings of the node, or in no calls of a client of it, and WHY the first reason; nothing was written, and the link was not opened |
/// | 3 | `hags: no memory` | memory has run out |
/// | 4 | `hags: read fault` | `run`, `table`, `daemon`, `status`, `client`: the input failed; nothing was written, and the link was not opened |
/// | 5 | `hags: write fault` | `out` failed; a front of the text was written |
/// | 6 | `hags: link fault` | `daemon`, `status`, `client`: the link could not be opened, or 16 receives in a row failed; of `daemon` and `client` all lines up to there were written, of `status` nothing |
/// | 7 | `hags: too much kept` | the packets of the run passed 536,870,912 bytes: of `run` the text up to there was written, of `load` and `table` nothing |
/// | 9 | `hags: no reply` | `status`: none of its receives brought the answer; nothing was written; `client`: all its turns were done, and some call has no answer; all lines were written |
/// | 10 | `hags: session lost` | `client`: its last receive brought word of another incarnation of the daemon; all lines up to there were written |
/// | 11 | `hags: daemon full` | `client`: its last receive brought word that the daemon keeps no more clients; all lines up to there were written |
/// | 12 | `hags: paused` | `daemon`: the moment of a turn was too far above that of the turn before, or of the start; of that turn nothing else was done, and all lines up to there were written |
#[tactic(auto, using(crate::proofs::TaskLaws::done, crate::proofs::TaskLaws::failed, crate::proofs::TaskLaws::says_line, crate::proofs::TaskLaws::says_said, crate::proofs::TaskLaws::says_nothing))]
pub fn hags<S: Source, O: Outside, E: Sink>(
    alloc: Global,
    words: &[String],
    edges: &mut Edges<S, O>,
    err: &mut E,
    clients: Vec<Box<dyn Callbacks>>,
) -> u8
    ensures ended { Ended result (task_of (length clients.items) (map string_bytes words.now))
        (seen S.left S.faults O.told edges.old edges.new) }
    ensures said { result ≢ 2 → Says (E.faults err.old) (E.faults err.new) (E.held err.old)
        (E.held err.new) (said_of result) }
    ensures said_line { result ≡ 2 → SaysLine (task_of (length clients.items)
        (map string_bytes words.now)) (S.left edges.old.input) (E.faults err.old)
        (E.faults err.new) (E.held err.old) (E.held err.new) }
{
    match obey(alloc, words, edges, clients) {
        Ok(()) => 0,
        Err(ending) => {
            say_ending(alloc, ending, err);
            status_of(ending)
        }
    }
}
