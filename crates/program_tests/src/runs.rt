//! Runs of the whole program over sources and sinks in memory, with their statuses and faults.
use crate::edges::{silent_edges, sink, sink_of, source, words_of};
use hags_cli::hags;
use hags_io::MemSink;
use std::alloc::{AllocError, Global};
use std::test::Fail;

const ONE_JOIN: &[u8] =
    b"mode fixed\nnode 1\nbegin\nclient 1 a A\njoin a db 7\nflow\nshow 1 hagsgr\n";

const ONE_JOIN_TRANSCRIPT: &[u8] =
    b"up 1 1\nin 1 1.1.1 1.1\nasked 1.1.7.1 1 db join\nput 1 1.1.1 db 0 once join 1.1.7.1\nheard 1.1.7.1 1.1.1 db 0 once-join 1.1.7.1 =\nshow 1 hagsgr db leader=1 len=1 members=1.1.7.1 value=\n";

/// What a run over these objects wrote on out, with its status. Its err always fails, which changes nothing.
fn ran(
    alloc: Global,
    script: &[u8],
    takes: &[u32],
    puts: &[u32],
) -> Result<(u8, MemSink), AllocError> {
    let words = words_of(alloc, "run")?;
    let input = source(alloc, script, takes)?;
    let mut edges = silent_edges(alloc, input, sink(alloc, puts)?)?;
    let mut err = sink(alloc, &[1])?;
    let status = hags(
        alloc,
        words.as_slice(),
        &mut edges,
        &mut err,
        Vec::new(alloc),
    );
    Ok((status, sink_of(edges)))
}

/// What a call with these words said on err, with its status.
fn said(alloc: Global, words: &[String], script: &[u8]) -> Result<(u8, MemSink), AllocError> {
    let input = source(alloc, script, &[])?;
    let mut edges = silent_edges(alloc, input, sink(alloc, &[])?)?;
    let mut err = sink(alloc, &[])?;
    let status = hags(alloc, words, &mut edges, &mut err, Vec::new(alloc));
    Ok((status, err))
}

/// Whether the script gives this transcript.
fn gives(alloc: Global, script: &[u8], transcript: &[u8]) -> Result<bool, AllocError> {
    let (status, out) = ran(alloc, script, &[], &[])?;
    Ok(status == 0 && out.held() == transcript)
}

fn count_lines(text: &[u8]) -> usize {
    text.iter().filter(|b| **b == b'\n').count()
}

#[test]
fn one_join(rt: HostRuntime) -> Result<(), Fail> {
    let alloc = rt.alloc();
    assert!(rt; gives(alloc, ONE_JOIN, ONE_JOIN_TRANSCRIPT)?);
    let words = words_of(alloc, "run")?;
    let (status, err) = said(alloc, words.as_slice(), ONE_JOIN)?;
    assert_eq!(rt; status, 0);
    assert!(rt; err.held().is_empty());
    Ok(())
}

#[test]
fn the_empty_input_writes_nothing(rt: HostRuntime) -> Result<(), Fail> {
    assert!(rt; gives(rt.alloc(), b"", b"")?);
    Ok(())
}

#[test]
fn each_failing_take_is_a_read_fault(rt: HostRuntime) -> Result<(), Fail> {
    for call in 1..=2 {
        let (status, out) = ran(rt.alloc(), ONE_JOIN, &[call], &[])?;
        assert_eq!(rt; status, 4);
        assert!(rt; out.held().is_empty());
    }
    let (status, _out) = ran(rt.alloc(), ONE_JOIN, &[3], &[])?;
    assert_eq!(rt; status, 0);
    Ok(())
}

#[test]
fn a_failing_put_is_a_write_fault(rt: HostRuntime) -> Result<(), Fail> {
    let (status, out) = ran(rt.alloc(), ONE_JOIN, &[], &[1])?;
    assert_eq!(rt; status, 5);
    assert!(rt; out.held().is_empty());
    let (status, _out) = ran(rt.alloc(), ONE_JOIN, &[], &[2])?;
    assert_eq!(rt; status, 0);
    Ok(())
}

/// A script whose transcript has a block and a rest.
fn long_script(alloc: Global) -> Result<Vec<u8>, AllocError> {
    let mut script = Vec::from_slice(alloc, ONE_JOIN)?;
    for _show in 0..1_200 {
        script.extend_from_slice(b"show 1 hagsgr\n")?;
    }
    Ok(script)
}

#[test]
fn a_long_transcript_goes_out_in_blocks(rt: HostRuntime) -> Result<(), Fail> {
    let script = long_script(rt.alloc())?;
    let (status, whole) = ran(rt.alloc(), script.as_slice(), &[], &[])?;
    assert_eq!(rt; status, 0);
    let (status, out) = ran(rt.alloc(), script.as_slice(), &[], &[2])?;
    assert_eq!(rt; status, 5);
    assert!(rt; whole.held().starts_with(out.held()));
    assert_eq!(rt; count_lines(out.held()), 1_195);
    let (status, _out) = ran(rt.alloc(), script.as_slice(), &[], &[3])?;
    assert_eq!(rt; status, 0);
    Ok(())
}

#[test]
fn a_bad_line_is_named(rt: HostRuntime) -> Result<(), Fail> {
    let alloc = rt.alloc();
    let script = b"mode fixed\nnode 1\nbegin\njoi a db 1\n".as_slice();
    let words = words_of(alloc, "run")?;
    let (status, err) = said(alloc, words.as_slice(), script)?;
    assert_eq!(rt; status, 2);
    assert!(rt; err.held() == b"hags: line 4: unknown word\n".as_slice());
    let (status, out) = ran(alloc, script, &[], &[])?;
    assert_eq!(rt; status, 2);
    assert!(rt; out.held().is_empty());
    Ok(())
}

#[test]
fn no_words_are_told_the_usage(rt: HostRuntime) -> Result<(), Fail> {
    let (status, err) = said(rt.alloc(), &[], ONE_JOIN)?;
    assert_eq!(rt; status, 1);
    assert!(rt; err.held().starts_with(b"hags: usage: hags run ".as_slice()));
    Ok(())
}
