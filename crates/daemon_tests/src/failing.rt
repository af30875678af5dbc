//! Each send and each receive of a daemon that ticks forty times fails in turn.
use crate::runs::{ALONE_TEXT, Edges, Failing, end_of};
use link_use::Stop;
use rsct_packet::NoMemory;
use std::alloc::Global;
use std::test::Fail;

/// Settings of two nodes, of which the other never answers: at each tick node 1 sends it a PROCLAIM.
const PAIR: &[u8] = b"node 1\nnode 2\nport 4000\nbegin\n";

/// The start, and a tick in each of forty turns.
const MOMENTS: &[u64] = &[
    0, 100, 200, 300, 400, 500, 600, 700, 800, 900, 1_000, 1_100, 1_200, 1_300, 1_400, 1_500,
    1_600, 1_700, 1_800, 1_900, 2_000, 2_100, 2_200, 2_300, 2_400, 2_500, 2_600, 2_700, 2_800,
    2_900, 3_000, 3_100, 3_200, 3_300, 3_400, 3_500, 3_600, 3_700, 3_800, 3_900, 4_000,
];

/// The receives from the 20th to the 35th.
const SIXTEEN: &[u32] = &[
    20, 21, 22, 23, 24, 25, 26, 27, 28, 29, 30, 31, 32, 33, 34, 35,
];

/// How a daemon ended, and how often it sent.
type Ended = (Result<(), Stop>, usize);

/// How the forty turns end where these calls fail, and how often it sent; none where it wrote something else.
fn ends(alloc: Global, failing: Failing<'_>) -> Result<Option<Ended>, NoMemory> {
    let mut edges = Edges::new(alloc, &[], MOMENTS, failing)?;
    let ended = end_of(alloc, PAIR, 40, &mut edges);
    Ok(match ended {
        Some(end) if edges.wrote(ALONE_TEXT) => Some((end, edges.sends())),
        _ => None,
    })
}

#[test]
fn one_failed_send_changes_nothing(rt: HostRuntime) -> Result<(), Fail> {
    let alloc = rt.alloc();
    for number in 0..=40 {
        let sends = [number];
        let failing = Failing {
            sends: &sends,
            ..Failing::nothing()
        };
        let ended = ends(alloc, failing)?;
        assert!(rt; ended == Some((Ok(()), 40)), "at send {number}");
    }
    Ok(())
}

#[test]
fn one_failed_receive_changes_nothing(rt: HostRuntime) -> Result<(), Fail> {
    let alloc = rt.alloc();
    for number in 1..=40 {
        let recvs = [number];
        let failing = Failing {
            recvs: &recvs,
            ..Failing::nothing()
        };
        let ended = ends(alloc, failing)?;
        assert!(rt; ended == Some((Ok(()), 40)), "at receive {number}");
    }
    Ok(())
}

#[test]
fn sixteen_failed_receives_in_the_middle_end_it(rt: HostRuntime) -> Result<(), Fail> {
    let alloc = rt.alloc();
    let failing = Failing {
        recvs: SIXTEEN,
        ..Failing::nothing()
    };
    let ended = ends(alloc, failing)?;
    assert!(rt; ended == Some((Err(Stop::LinkFault), 35)));
    Ok(())
}
