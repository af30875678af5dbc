//! Command lines and what they spell. A line here is cut into words at each space, so two spaces in a row, or one at the
//! end, make an empty word.
use crate::command::CommandName;
use crate::{Command, VERSION, help_text, read_command};
use std::alloc::{AllocError, Global};
use std::str;
use std::test::Fail;

fn words_of(alloc: Global, line: &str) -> Result<Vec<String>, AllocError> {
    let mut words = Vec::new(alloc);
    for word in line.split(' ') {
        words.push(String::from_str(alloc, word)?)?;
    }
    Ok(words)
}

/// The command and what it was given, in one line.
fn text_of(alloc: Global, command: &Command) -> Result<String, AllocError> {
    match command {
        Command::Run { kinds: None } => String::from_str(alloc, "run"),
        Command::Run { kinds: Some(kinds) } => {
            let kinds = str::from_utf8(kinds.as_slice()).unwrap_or("no text");
            format!(in alloc; "run [{kinds}]")
        }
        Command::Load { views } => format!(in alloc; "load {views}"),
        Command::Daemon {
            node,
            incarnation,
            turns,
            options,
        } => {
            let remote = if options.remote { " remote" } else { "" };
            let entries = if options.entries { " entries" } else { "" };
            let own = match (options.silence, options.mend, options.gap) {
                (None, None, None) => String::from_str(alloc, "")?,
                (silence, mend, gap) => format!(in alloc; " {silence:?} {mend:?} {gap:?}")?,
            };
            format!(in alloc; "daemon {node} {incarnation:?} {turns}{remote}{entries}{own}")
        }
        Command::Status {
            subject,
            node,
            turns,
        } => format!(in alloc; "status {subject:?} {node} {turns}"),
        Command::Client { node, turns, key } => format!(in alloc; "client {node} {turns} {key:?}"),
        Command::Table { group } => {
            let group = str::from_utf8(group.bytes()).unwrap_or("no text");
            format!(in alloc; "table {group}")
        }
        Command::Help { about } => format!(in alloc; "help {about:?}"),
        Command::Version => String::from_str(alloc, "version"),
    }
}

/// Whether the words are read, and spell what the text says; `usage` where they are of no command.
fn reads(alloc: Global, words: &[String], want: &str) -> Result<bool, AllocError> {
    match read_command(alloc, words) {
        Ok(Some(command)) => Ok(text_of(alloc, &command)?.as_str() == want),
        Ok(None) => Ok(want == "usage"),
        Err(_) => Ok(false),
    }
}

fn line_reads(alloc: Global, line: &str, want: &str) -> Result<bool, AllocError> {
    let words = words_of(alloc, line)?;
    reads(alloc, words.as_slice(), want)
}

#[test]
fn commands_are_read_in_every_form(rt: HostRuntime) -> Result<(), Fail> {
    for (line, want) in [
        ("run", "run"),
        ("run --kinds put", "run [put]"),
        ("run --kinds=put,heard", "run [put,heard]"),
        ("run --kinds=", "run []"),
        ("run --kinds ", "run []"),
        ("run --kinds=a=b", "run [a=b]"),
        ("run --", "run"),
        ("run --kinds put --", "run [put]"),
        ("load 1", "load 1"),
        ("load 2000", "load 2000"),
        ("load -- 40", "load 40"),
        ("daemon --node 1", "daemon 1 None 4294967295"),
        ("daemon --node=32 --inc=1", "daemon 32 Some(1) 4294967295"),
        (
            "daemon --turns 3 --inc 4294967295 --node 7",
            "daemon 7 Some(4294967295) 3",
        ),
        (
            "daemon --inc=5 --node 1 --turns=4294967295 --",
            "daemon 1 Some(5) 4294967295",
        ),
        (
            "daemon --node 1 --remote",
            "daemon 1 None 4294967295 remote",
        ),
        (
            "daemon --remote --turns=3 --node 2",
            "daemon 2 None 3 remote",
        ),
        (
            "daemon --inc=4 --remote --node 2 --",
            "daemon 2 Some(4) 4294967295 remote",
        ),
        (
            "daemon --node 1 --lasting",
            "daemon 1 None 18446744073709551615",
        ),
        (
            "daemon --lasting --remote --inc 3 --node 2 --",
            "daemon 2 Some(3) 18446744073709551615 remote",
        ),
        (
            "daemon --remote --node=2 --lasting",
            "daemon 2 None 18446744073709551615 remote",
        ),
        (
            "daemon --node 1 --remote --entries --silence 50 --mend 30 --gap 600 --lasting",
            "daemon 1 None 18446744073709551615 remote entries Some(50) Some(30) Some(600)",
        ),
        (
            "daemon --gap=3600000 --mend=10000 --node=1 --silence=1000000 --remote",
            "daemon 1 None 4294967295 remote Some(1000000) Some(10000) Some(3600000)",
        ),
        (
            "daemon --entries --node 1 --remote",
            "daemon 1 None 4294967295 remote entries",
        ),
        (
            "daemon --mend 10 --node 1 --gap 100",
            "daemon 1 None 4294967295 None Some(10) Some(100)",
        ),
        ("status hats --node 1", "status Node(Hats) 1 1000"),
        ("status --node=2 hagsns", "status Node(Hagsns) 2 1000"),
        (
            "status --turns 1 --node 3 -- hagsgr",
            "status Node(Hagsgr) 3 1",
        ),
        (
            "status --node 32 hagsvote --turns=9",
            "status Node(Hagsvote) 32 9",
        ),
        ("status hagscl --node 1", "status Clients 1 1000"),
        ("status --node=32 hagsd --turns 5", "status Daemon 32 5"),
        ("client --node 1", "client 1 1000 None"),
        ("client --turns=5 --node 32", "client 32 5 None"),
        ("client --node 1 --key 1", "client 1 1000 Some(1)"),
        (
            "client --key=4294967295 --node 2 --turns 3",
            "client 2 3 Some(4294967295)",
        ),
        ("client --help", "help Some(Client)"),
        ("client --version", "version"),
        ("table db", "table db"),
        ("table -- -a.b_9", "table -a.b_9"),
        ("table --help", "help Some(Table)"),
        ("--help", "help None"),
        ("run --help", "help Some(Run)"),
        ("daemon --help", "help Some(Daemon)"),
        ("--version", "version"),
        ("status --version", "version"),
    ] {
        assert!(rt; line_reads(rt.alloc(), line, want)?, "{line}");
    }
    Ok(())
}

#[test]
fn faulty_lines_are_usage(rt: HostRuntime) -> Result<(), Fail> {
    for line in [
        "",
        "Run",
        "runs",
        "-- run",
        "--kinds put",
        "run put",
        "run -",
        "run --kinds",
        "run --kinds --",
        "run --kinds -- put",
        "run --kinds put --kinds heard",
        "run --kinds=put --kinds=put",
        "run --kind put",
        "run --Kinds put",
        "run -k put",
        "run --kinds -x",
        "run --node 1",
        "run ",
        "run -- --",
        "run --help --help",
        "run --version --kinds put",
        "help",
        "run -h",
        "load",
        "load 0",
        "load 2001",
        "load 01",
        "load +1",
        "load -1",
        "load -- -1",
        "load 1 2",
        "load 1 -- 2",
        "load 1 ",
        "load 1e3",
        "load 99999999999999999999",
        "load --turns 3 4",
        "daemon",
        "daemon --node 0",
        "daemon --node 33",
        "daemon --node 1 --inc 0",
        "daemon --node 1 --inc 4294967296",
        "daemon --node 1 --turns 0",
        "daemon --node 1 2",
        "daemon --node 1 --node=1",
        "daemon --node=",
        "daemon --node --remote 1",
        "daemon --node 1 --remote --remote",
        "daemon --node 1 --remote=1",
        "daemon --node 1 -- --remote",
        "daemon --node 1 --lasting --lasting",
        "daemon --node 1 --lasting --turns 3",
        "daemon --turns=3 --node 1 --lasting",
        "daemon --node 1 --turns 18446744073709551615",
        "daemon --node --lasting 1",
        "daemon --lasting=1 --node 1",
        "daemon --lasting",
        "daemon --node 1 -- --lasting",
        "client --node 1 --lasting",
        "status hats --node 1 --lasting",
        "run --remote",
        "load --remote 1",
        "status hats --node 1 --remote",
        "client",
        "client --node 0",
        "client --node 33",
        "client 1 --node 1",
        "client --node 1 --inc 1",
        "client --node 1 --turns 0",
        "client --node 1 --remote",
        "client --key 7",
        "client --node 1 --key",
        "client --node 1 --key 0",
        "client --node 1 --key 07",
        "client --node 1 --key 4294967296",
        "client --node 1 --key 7 --key=7",
        "run --key 7",
        "load 1 --key 7",
        "daemon --node 1 --key 7",
        "status hats --node 1 --key 7",
        "table",
        "table ",
        "table a+b",
        "table g23456789012345678901234567890123",
        "table db db",
        "table db --node 1",
        "table db --kinds=put",
        "table db --turns 1",
        "table db --inc 1",
        "table db --key 7",
        "table db --silence 50",
        "table db --mend 30",
        "table db --gap 600",
        "table db --remote",
        "table db --lasting",
        "table db --entries",
        "daemon --node 1 --entries",
        "daemon --node 1 --silence 50",
        "daemon --node 1 --entries --silence 50",
        "daemon --entries --node 1 --lasting",
        "daemon --node 1 --remote --silence 9",
        "daemon --node 1 --remote --silence 1000001",
        "daemon --node 1 --remote --silence 50 --silence 50",
        "daemon --node 1 --remote --entries --entries",
        "daemon --node 1 --remote --entries=1",
        "daemon --node 1 --mend 9",
        "daemon --node 1 --mend 10001",
        "daemon --node 1 --mend",
        "daemon --node 1 --mend=",
        "daemon --node 1 --mend 30 --mend=30",
        "daemon --node 1 --mend --lasting",
        "daemon --node 1 --gap 99",
        "daemon --node 1 --gap 3600001",
        "daemon --node 1 --gap 0600",
        "daemon --node 1 --gap 600 --gap 600",
        "daemon --node 1 --gap",
        "daemon --node 1 --remote --silence",
        "daemon --node 1 --remote --entries --lasting --entries",
        "daemon --node 1 -- --entries",
        "run --silence 50",
        "run --mend 30",
        "run --gap 600",
        "run --entries",
        "load 1 --silence 50",
        "load 1 --mend 30",
        "load 1 --gap 600",
        "load 1 --entries",
        "status hats --node 1 --silence 50",
        "status hats --node 1 --mend 30",
        "status hats --node 1 --gap 600",
        "status hats --node 1 --entries",
        "client --node 1 --silence 50",
        "client --node 1 --mend 30",
        "client --node 1 --gap 600",
        "client --node 1 --entries",
        "daemon --inc 3",
        "status --node 1",
        "status hats",
        "status Hats --node 1",
        "status hagsc --node 1",
        "status hagsdd --node 1",
        "status hats hats --node 1",
        "status hats --node 1 --inc 1",
    ] {
        assert!(rt; line_reads(rt.alloc(), line, "usage")?, "{line}");
    }
    assert!(rt; reads(rt.alloc(), &[], "usage")?);
    Ok(())
}

#[test]
fn help_is_of_each_command(rt: HostRuntime) {
    for about in [
        None,
        Some(CommandName::Run),
        Some(CommandName::Load),
        Some(CommandName::Daemon),
        Some(CommandName::Status),
        Some(CommandName::Client),
        Some(CommandName::Table),
    ] {
        assert!(rt; help_text(about).starts_with(b"hags".as_slice()));
    }
    assert!(rt; VERSION.ends_with(b"\n".as_slice()));
}
