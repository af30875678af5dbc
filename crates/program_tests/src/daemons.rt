//! The commands `daemon` and `status` over links, clocks, sources and sinks in memory.
use crate::edges::{
    MemEdges, clock_at, clock_of, fails, silent_link, sink, sink_of, source, words_of,
};
use hags_cli::{Edges, Output, hags};
use hags_io::{History, MemClock, MemLink, MemSink, Parts};
use std::alloc::{AllocError, Global};
use std::collections::VecDeque;
use std::test::Fail;

const ALONE: &[u8] = b"node 1\nport 4000\nbegin\n";

const ALONE_RECORDS: &[u8] = b"up 1 5\nring 1 1 1.5.1 1 1\nin 1 1.1.5 1.5\n";

/// A datagram to come at moment 7: node 1's answer to question 7, in one piece.
const ANSWER: &[u8] =
    b"RP\x01\x00\x00\x00\x00\x05\x00\x00\x00\x00\x00\x00\x00\x01\x00\x00\x00\x00\x00\x00\x00\x01RG\x01\x17\x01\x01\x00\x00\x00\x00\x00\x05\x00\x00\x00\x07\x00\x00\x00\x07yes";

/// A link to which the answer comes, and then nothing. The receives of these numbers fail.
fn answering_link(alloc: Global, recvs: &[u32]) -> Result<MemLink, AllocError> {
    let mut inbox = VecDeque::new(alloc);
    inbox.push_back((1, Vec::from_slice(alloc, ANSWER)?))?;
    let fails = fails(alloc, &[], recvs)?;
    Ok(MemLink::new(alloc, inbox, fails))
}

/// What a call with these words and these settings leaves, by this clock: its status, its edges, and what it said on err.
pub fn left_by(
    alloc: Global,
    line: &str,
    settings: &[u8],
    clock: MemClock,
    link: MemLink,
) -> Result<(u8, MemEdges, MemSink), AllocError> {
    let words = words_of(alloc, line)?;
    let mut edges = Edges {
        input: source(alloc, settings, &[])?,
        output: Output {
            outside: Parts {
                out: sink(alloc, &[])?,
                link,
                clock,
                history: History::new(),
            },
        },
    };
    let mut err = sink(alloc, &[])?;
    let status = hags(
        alloc,
        words.as_slice(),
        &mut edges,
        &mut err,
        Vec::new(alloc),
    );
    Ok((status, edges, err))
}

/// What such a call wrote on out and said on err, with its status.
fn called_by(
    alloc: Global,
    line: &str,
    settings: &[u8],
    clock: MemClock,
    link: MemLink,
) -> Result<(u8, MemSink, MemSink), AllocError> {
    let (status, edges, err) = left_by(alloc, line, settings, clock, link)?;
    Ok((status, sink_of(edges), err))
}

/// The same, by a clock that stands at this moment.
pub fn called(
    alloc: Global,
    line: &str,
    settings: &[u8],
    moment: u64,
    link: MemLink,
) -> Result<(u8, MemSink, MemSink), AllocError> {
    called_by(alloc, line, settings, clock_at(alloc, moment)?, link)
}

/// Whether such a call of node 1, alone, ends with this status and writes this.
fn ends(
    alloc: Global,
    line: &str,
    moment: u64,
    link: MemLink,
    status: u8,
    text: &[u8],
) -> Result<bool, AllocError> {
    let (ended, out, _err) = called(alloc, line, ALONE, moment, link)?;
    Ok(ended == status && out.held() == text)
}

#[test]
fn a_daemon_alone_is_in_its_first_view(rt: HostRuntime) -> Result<(), Fail> {
    let alloc = rt.alloc();
    let line = "daemon --node 1 --inc 5 --turns 2";
    assert!(rt;
        ends(
            alloc,
            line,
            0,
            silent_link(alloc, &[], &[])?,
            0,
            ALONE_RECORDS
        )?
    );
    assert!(rt; ends(alloc, line, 0, silent_link(alloc, &[1], &[])?, 6, b"")?);
    let remote = "daemon --node 1 --inc 5 --remote --turns 2";
    let link = silent_link(alloc, &[], &[])?;
    assert!(rt; ends(alloc, remote, 0, link, 0, ALONE_RECORDS)?);
    Ok(())
}

#[test]
fn a_pause_ends_a_daemon_that_was_told_a_gap(rt: HostRuntime) -> Result<(), Fail> {
    let alloc = rt.alloc();
    for (line, status, said) in [
        (
            "daemon --node 1 --inc 5 --turns 2 --gap 700",
            12,
            b"hags: paused\n".as_slice(),
        ),
        (
            "daemon --node 1 --inc 5 --turns 2 --gap 701 --remote --entries --silence 10 --mend 10",
            0,
            b"".as_slice(),
        ),
        ("daemon --node 1 --inc 5 --turns 2", 0, b"".as_slice()),
    ] {
        let clock = clock_of(alloc, &[0, 100, 800])?;
        let link = silent_link(alloc, &[], &[])?;
        let (ended, out, err) = called_by(alloc, line, ALONE, clock, link)?;
        assert!(rt;
            ended == status && out.held() == ALONE_RECORDS && err.held() == said,
            "{line}"
        );
    }
    Ok(())
}

#[test]
fn sixteen_failed_receives_end_a_daemon(rt: HostRuntime) -> Result<(), Fail> {
    let alloc = rt.alloc();
    let line = "daemon --node 1 --inc 5 --turns 16";
    let all = [1, 2, 3, 4, 5, 6, 7, 8, 9, 10, 11, 12, 13, 14, 15, 16].as_slice();
    assert!(rt;
        ends(
            alloc,
            line,
            0,
            silent_link(alloc, &[], all)?,
            6,
            ALONE_RECORDS
        )?
    );
    let fifteen = silent_link(alloc, &[], &all[..15])?;
    assert!(rt; ends(alloc, line, 0, fifteen, 0, ALONE_RECORDS)?);
    let lasting = "daemon --lasting --node 1 --inc 5";
    let link = silent_link(alloc, &[], all)?;
    assert!(rt; ends(alloc, lasting, 0, link, 6, ALONE_RECORDS)?);
    Ok(())
}

#[test]
fn the_clock_gives_the_incarnation(rt: HostRuntime) -> Result<(), Fail> {
    let alloc = rt.alloc();
    let line = "daemon --node 1 --turns 1";
    for moment in [5_999, 4_294_967_301_000] {
        assert!(rt;
            ends(
                alloc,
                line,
                moment,
                silent_link(alloc, &[], &[])?,
                0,
                ALONE_RECORDS
            )?
        );
    }
    Ok(())
}

#[test]
fn a_status_writes_the_answer_to_its_question(rt: HostRuntime) -> Result<(), Fail> {
    let alloc = rt.alloc();
    let line = "status hats --node 1 --turns 3";
    assert!(rt; ends(alloc, line, 7, answering_link(alloc, &[])?, 0, b"yes")?);
    assert!(rt; ends(alloc, line, 7, answering_link(alloc, &[1, 2])?, 0, b"yes")?);
    assert!(rt; ends(alloc, line, 7, answering_link(alloc, &[1, 2, 3])?, 9, b"")?);
    assert!(rt; ends(alloc, line, 7, silent_link(alloc, &[1], &[])?, 6, b"")?);
    for (moment, link) in [
        (8, answering_link(alloc, &[])?),
        (7, silent_link(alloc, &[], &[])?),
    ] {
        let (status, out, err) = called(alloc, line, ALONE, moment, link)?;
        assert_eq!(rt; status, 9);
        assert!(rt; out.held().is_empty());
        assert!(rt;
            err.held()
                == b"hags: no reply
"
                    .as_slice()
        );
    }
    Ok(())
}

#[test]
fn faulty_settings_are_named(rt: HostRuntime) -> Result<(), Fail> {
    let alloc = rt.alloc();
    let boxed = b"node 1\nbegin\nclient 1 a boxed\n".as_slice();
    for (line, settings, fault) in [
        (
            "daemon --node 2",
            ALONE,
            b"hags: line 3: unknown node\n".as_slice(),
        ),
        (
            "status hats --node 2",
            ALONE,
            b"hags: line 3: unknown node\n".as_slice(),
        ),
        (
            "daemon --node 1",
            b"".as_slice(),
            b"hags: line 1: missing word\n".as_slice(),
        ),
        (
            "daemon --node 1",
            boxed,
            b"hags: line 3: boxed client\n".as_slice(),
        ),
    ] {
        let (status, out, err) = called(alloc, line, settings, 0, silent_link(alloc, &[1], &[])?)?;
        assert!(rt;
            status == 2 && out.held().is_empty() && err.held() == fault,
            "{line}"
        );
    }
    Ok(())
}
