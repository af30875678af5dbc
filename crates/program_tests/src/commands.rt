//! Command lines through the whole program, over sources and sinks in memory. A line here is cut into words at each space,
//! so two spaces in a row, or one at the end, make an empty word.
use crate::edges::{silent_edges, sink, sink_of, source, words_of};
use hags_cli::hags;
use hags_io::MemSink;
use std::alloc::{AllocError, Global};
use std::test::Fail;

const USAGE: &[u8] =
    b"hags: usage: hags run [--kinds LIST] / load N / daemon --node N [--inc I] [--turns T] / status WHAT --node N [--turns T]\n";

const VOTES: &[u8] =
    b"mode fixed\nnode 1\nbegin\nclient 1 a -\njoin a db 1 default=reject limit=3\nflow\nstate a db n red\nflow\ntick 1\ntick 1\ntick 1\n";

const VOTES_PUT: &[u8] =
    b"put 1 1.1.1 db 0 once join 1.1.1.1 default=reject limit=3\nput 1 1.1.1 db 1 begin state 1.1.1.1/2 =red\nput 1 1.1.1 db 2 reject 1.1.1/1 1 1.1.1.1=LR\n";

const TABLES: &[u8] =
    b"mode fixed\nnode 1\nbegin\nclient 1 a A\nclient 1 b A\njoin a db 1 phases=n\nflow\nmessage a db 1 x=1\nflow\njoin b db 2 phases=n\nflow\nmessage b db 1 y=2\nflow\n";

const TABLES_OF_DB: &[u8] =
    b"table 1.1.1.1 1.1.1 6 whole x=1,y=2\ntable 1.1.2.3 1.1.1 6 whole x=1,y=2\n";

/// What a call with these words wrote on out and said on err, with its status. The puts of out that `fail` names fail.
fn called(
    alloc: Global,
    line: &str,
    script: &[u8],
    fail: &[u32],
) -> Result<(u8, MemSink, MemSink), AllocError> {
    let words = words_of(alloc, line)?;
    let input = source(alloc, script, &[])?;
    let mut edges = silent_edges(alloc, input, sink(alloc, fail)?)?;
    let mut err = sink(alloc, &[])?;
    let status = hags(
        alloc,
        words.as_slice(),
        &mut edges,
        &mut err,
        Vec::new(alloc),
    );
    Ok((status, sink_of(edges), err))
}

/// Whether the call with these words ends with 0, writes this and says nothing.
fn writes(alloc: Global, line: &str, script: &[u8], text: &[u8]) -> Result<bool, AllocError> {
    let (status, out, err) = called(alloc, line, script, &[])?;
    Ok(status == 0 && out.held() == text && err.held().is_empty())
}

/// Whether the call with these words is told the usage, and writes nothing.
fn is_usage(alloc: Global, line: &str) -> Result<bool, AllocError> {
    let (status, out, err) = called(alloc, line, VOTES, &[])?;
    Ok(status == 1 && out.held().is_empty() && err.held() == USAGE)
}

#[test]
fn only_the_kinds_that_are_named_are_shown(rt: HostRuntime) -> Result<(), Fail> {
    for line in [
        "run --kinds put",
        "run --kinds=put",
        "run --kinds=put --",
        "run --kinds told,put",
        "run --kinds put,told,noted",
    ] {
        assert!(rt; writes(rt.alloc(), line, VOTES, VOTES_PUT)?, "{line}");
    }
    assert!(rt; writes(rt.alloc(), "run --kinds told", VOTES, b"")?);
    Ok(())
}

#[test]
fn a_load_writes_its_summary(rt: HostRuntime) -> Result<(), Fail> {
    let alloc = rt.alloc();
    let one = b"load 1\nviews 32\nputs 86\nheard 58\ntold 1\n".as_slice();
    for line in ["load 1", "load -- 1"] {
        assert!(rt; writes(alloc, line, b"no script", one)?, "{line}");
    }
    let (status, out, err) = called(alloc, "load 1", b"", &[1])?;
    assert_eq!(rt; status, 5);
    assert!(rt; out.held().is_empty());
    assert!(rt; err.held() == b"hags: write fault\n".as_slice());
    Ok(())
}

#[test]
fn the_maps_of_a_group_are_written(rt: HostRuntime) -> Result<(), Fail> {
    let alloc = rt.alloc();
    for (line, text) in [
        ("table db", TABLES_OF_DB),
        ("table -- db", TABLES_OF_DB),
        ("table d", b"".as_slice()),
    ] {
        assert!(rt; writes(alloc, line, TABLES, text)?, "{line}");
    }
    let (status, out, err) = called(alloc, "table db", TABLES, &[1, 2, 3])?;
    assert_eq!(rt; status, 5);
    assert!(rt; out.held().is_empty());
    assert!(rt; err.held() == b"hags: write fault\n".as_slice());
    let (status, out, err) = called(alloc, "table db", b"mode fixed\nnod 1\n", &[])?;
    assert_eq!(rt; status, 2);
    assert!(rt; out.held().is_empty());
    assert!(rt; err.held() == b"hags: line 2: unknown word\n".as_slice());
    Ok(())
}

/// Whether the call with these words ends with 0 and writes a text that begins like this.
fn tells(alloc: Global, line: &str, front: &[u8]) -> Result<bool, AllocError> {
    let (status, out, err) = called(alloc, line, b"", &[])?;
    Ok(status == 0 && out.held().starts_with(front) && err.held().is_empty())
}

#[test]
fn help_and_version_are_written(rt: HostRuntime) -> Result<(), Fail> {
    let alloc = rt.alloc();
    for (line, front) in [
        ("--help", b"hags: group membership".as_slice()),
        ("run --help", b"hags run: plays".as_slice()),
        ("load --help", b"hags load: plays".as_slice()),
        ("daemon --help", b"hags daemon: serves".as_slice()),
        ("status --help", b"hags status: asks".as_slice()),
        ("client --help", b"hags client: uses".as_slice()),
        ("table --help", b"hags table: plays".as_slice()),
        ("--version", b"hags 0".as_slice()),
        ("run --version", b"hags 0".as_slice()),
        ("load --version", b"hags 0".as_slice()),
    ] {
        assert!(rt; tells(alloc, line, front)?, "{line}");
    }
    Ok(())
}

#[test]
fn other_words_are_told_the_whole_usage(rt: HostRuntime) -> Result<(), Fail> {
    for line in [
        "",
        "Run",
        "runs",
        "-- run",
        "--kinds put",
        "run put",
        "run -",
        "run ",
        "run --kinds",
        "run --kinds ",
        "run --kinds=",
        "run --kinds --",
        "run --kinds -- put",
        "run --kinds put,put",
        "run --kinds put,",
        "run --kinds ,put",
        "run --kinds Put",
        "run --kinds put;told",
        "run --kinds shown",
        "run --kinds put --kinds told",
        "run --kinds=put --kinds=put",
        "run --kind put",
        "run -k put",
        "run --node 1",
        "run --help --help",
        "run --version --kinds put",
        "help",
        "-h",
        "load",
        "load 0",
        "load 2001",
        "load 01",
        "load +1",
        "load -1",
        "load 1 2",
        "load 1e3",
        "load 99999999999999999999",
        "load 1 --kinds put",
        "daemon",
        "daemon --node 0",
        "daemon --node 33",
        "daemon --node 1 --inc 0",
        "daemon --node 1 --turns 0",
        "daemon 1 --node 1",
        "daemon --remote",
        "daemon --node 1 --remote --remote",
        "daemon --node 1 --remote=1",
        "daemon --node 1 --lasting --turns 3",
        "daemon --node 1 --lasting --lasting",
        "daemon --node 1 --entries",
        "daemon --node 1 --silence 50",
        "daemon --node 1 --remote --silence 9",
        "daemon --node 1 --mend 9",
        "daemon --node 1 --gap 99",
        "status --node 1",
        "status hat --node 1",
        "status hats",
        "status hats --node 1 --inc 1",
        "status hats --node 1 --remote",
        "client",
        "client 1 --node 1",
        "client --node 1 --inc 1",
        "client --node 1 --turns 0",
        "client --node 1 --remote",
        "client --node 1 --key 0",
        "client --node 1 --key 4294967296",
        "audit",
        "table",
        "table db db",
        "table d+b",
        "table db --gap 600",
    ] {
        assert!(rt; is_usage(rt.alloc(), line)?, "{line}");
    }
    Ok(())
}
