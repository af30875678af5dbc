//! Edges in memory, for calls of the program.
ghost use Rattle.std.specs.Prelude.{◌≡◌, ◌<◌, length};
ghost use Rattle.hags_io.specs.LinkMemory.{Ascend};

use hags_cli::{Edges, Output};
use hags_io::{History, LinkFails, MemClock, MemLink, MemSink, MemSource, Parts};
use std::alloc::{AllocError, Global};
use std::collections::VecDeque;

/// Edges that are all in memory.
pub type MemEdges = Edges<MemSource, Parts<MemSink, MemLink, MemClock>>;

/// The words of a line, which is cut at each space.
pub fn words_of(alloc: Global, line: &str) -> Result<Vec<String>, AllocError> {
    let mut words = Vec::new(alloc);
    for word in line.split(' ') {
        words.push(String::from_str(alloc, word)?)?;
    }
    Ok(words)
}

/// A source with these bytes, which fails at these calls.
pub fn source(alloc: Global, bytes: &[u8], fail: &[u32]) -> Result<MemSource, AllocError> {
    let bytes = Vec::from_slice(alloc, bytes)?;
    let fail = Vec::from_slice(alloc, fail)?;
    Ok(MemSource::new(bytes, fail))
}

/// A sink that fails at these calls.
pub fn sink(alloc: Global, fail: &[u32]) -> Result<MemSink, AllocError> {
    Ok(MemSink::new(alloc, Vec::from_slice(alloc, fail)?))
}

/// The calls of a link that fail: the opens and the receives of these numbers.
pub fn fails(alloc: Global, opens: &[u32], recvs: &[u32]) -> Result<LinkFails, AllocError> {
    Ok(LinkFails {
        opens: Vec::from_slice(alloc, opens)?,
        recvs: Vec::from_slice(alloc, recvs)?,
        sends: Vec::new(alloc),
    })
}

/// A link to which nothing comes, whose calls of these numbers fail.
pub fn silent_link(alloc: Global, opens: &[u32], recvs: &[u32]) -> Result<MemLink, AllocError> {
    let fails = fails(alloc, opens, recvs)?;
    Ok(MemLink::new(alloc, VecDeque::new(alloc), fails))
}

/// A clock that gives these moments, and the last of them from then on.
pub fn clock_of(alloc: Global, moments: &[u64]) -> Result<MemClock, AllocError>
    requires some { 0 < length moments.now }
    requires ascend { Ascend moments.now }
{
    Ok(MemClock::new(Vec::from_slice(alloc, moments)?))
}

/// A clock that always gives this moment.
pub fn clock_at(alloc: Global, moment: u64) -> Result<MemClock, AllocError> {
    let mut moments = Vec::new(alloc);
    moments.push(moment)?;
    Ok(MemClock::new(moments))
}

/// Edges over this source and this sink, with a link to which nothing comes, and a clock that stands at 0.
pub fn silent_edges(alloc: Global, input: MemSource, out: MemSink) -> Result<MemEdges, AllocError> {
    Ok(Edges {
        input,
        output: Output {
            outside: Parts {
                out,
                link: silent_link(alloc, &[], &[])?,
                clock: clock_at(alloc, 0)?,
                history: History::new(),
            },
        },
    })
}

/// The sink of these edges.
pub fn sink_of<L: Drop>(edges: Edges<MemSource, Parts<MemSink, L, MemClock>>) -> MemSink {
    let Edges { output, .. } = edges;
    let Output { outside } = output;
    let Parts { out, .. } = outside;
    out
}
