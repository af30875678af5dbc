//! The program `hags`: the top call over the process's words and streams, UDP and the system's clock.
#![tactic(auto)]

use client_callbacks::{Callbacks, SteadyClient};
use hags_cli::{Edges, Output, hags};
use hags_io::{History, Parts, StdSink, StdSource, SysClock, UdpLink};
use std::process::ExitCode;
use std::{env, io};

/// How many objects a daemon may give to its clients.
const OBJECTS: usize = 4;

/// The words behind the program's name.
fn words_of(rt: &HostRuntime) -> io::Result<Vec<String>> {
    let mut words: Vec<String> = Vec::new(rt.alloc());
    for word in env::args(rt)?.skip(1) {
        words.push(word)?;
    }
    Ok(words)
}

/// The status of the call with these words and these objects.
fn called(rt: &HostRuntime, words: &[String], clients: Vec<Box<dyn Callbacks>>) -> u8 {
    let Ok(link) = UdpLink::new(rt.alloc(), rt) else {
        return 3;
    };
    let mut edges = Edges {
        input: StdSource::new(rt.stdin()),
        output: Output {
            outside: Parts {
                out: StdSink::new(rt.stdout()),
                link,
                clock: SysClock::new(rt),
                history: History::new(),
            },
        },
    };
    let mut err = StdSink::new(rt.stderr());
    hags(rt.alloc(), words, &mut edges, &mut err, clients)
}

fn main(rt: HostRuntime) -> ExitCode {
    let words = match words_of(&rt) {
        Ok(words) => words,
        Err(e) if e.kind() == io::ErrorKind::OutOfMemory => return ExitCode::from(3),
        Err(_) => Vec::new(rt.alloc()),
    };
    let mut clients: Vec<Box<dyn Callbacks>> = Vec::new(rt.alloc());
    for _ in 0..OBJECTS {
        let Ok(client) = Box::new(rt.alloc(), SteadyClient { alloc: rt.alloc() }) else {
            return ExitCode::from(3);
        };
        if clients.push(client).is_err() {
            return ExitCode::from(3);
        }
    }
    ExitCode::from(called(&rt, words.as_slice(), clients))
}
