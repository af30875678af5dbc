//! How a daemon ends, and settings that are refused.
use crate::runs::{
    ALONE, ALONE_TEXT, Edges, Failing, end_of, served, served_as, serving, settings,
};
use daemon_run::Serving;
use link_use::Stop;
use std::alloc::Global;
use std::test::Fail;

const FIFTEEN: &[u32] = &[1, 2, 3, 4, 5, 6, 7, 8, 9, 10, 11, 12, 13, 14, 15];

const SIXTEEN: &[u32] = &[1, 2, 3, 4, 5, 6, 7, 8, 9, 10, 11, 12, 13, 14, 15, 16];

/// Not sixteen in a row.
const SIXTEEN_APART: &[u32] = &[1, 2, 3, 4, 5, 6, 7, 8, 10, 11, 12, 13, 14, 15, 16, 17];

#[test]
fn a_link_that_does_not_open_ends_it(rt: HostRuntime) -> Result<(), Fail> {
    let alloc = rt.alloc();
    let failing = Failing {
        opens: &[1],
        ..Failing::nothing()
    };
    let mut edges = Edges::new(alloc, &[], &[0], failing)?;
    assert!(rt; end_of(alloc, ALONE, 2, &mut edges) == Some(Err(Stop::LinkFault)));
    assert!(rt; edges.wrote(b""));
    assert!(rt; edges.called(b""));
    assert!(rt; edges.outside.link.opened() == Some((4001, false)));
    Ok(())
}

#[test]
fn one_failed_receive_does_not_end_it(rt: HostRuntime) -> Result<(), Fail> {
    let alloc = rt.alloc();
    let failing = Failing {
        recvs: &[2],
        ..Failing::nothing()
    };
    let mut edges = Edges::new(alloc, &[], &[0], failing)?;
    assert!(rt; end_of(alloc, ALONE, 3, &mut edges) == Some(Ok(())));
    assert!(rt; edges.wrote(ALONE_TEXT));
    assert!(rt; edges.called(b"QFQ"));
    Ok(())
}

#[test]
fn sixteen_failed_receives_in_a_row_end_it(rt: HostRuntime) -> Result<(), Fail> {
    let alloc = rt.alloc();
    for (recvs, turns, want) in [
        (SIXTEEN, 16, Err(Stop::LinkFault)),
        (FIFTEEN, 16, Ok(())),
        (SIXTEEN, 15, Ok(())),
        (SIXTEEN_APART, 40, Ok(())),
    ] {
        let failing = Failing {
            recvs,
            ..Failing::nothing()
        };
        let mut edges = Edges::new(alloc, &[], &[0], failing)?;
        assert!(rt; end_of(alloc, ALONE, turns, &mut edges) == Some(want));
        assert!(rt; edges.wrote(ALONE_TEXT));
    }
    Ok(())
}

/// How a daemon of a node alone ends that is to do so many turns.
fn end_after(alloc: Global, turns: u64, edges: &mut Edges) -> Option<Result<(), Stop>> {
    let script = settings(alloc, ALONE, 0)?;
    let lasting = Serving {
        turns,
        ..serving(1, false)
    };
    let left = Vec::new(alloc);
    Some(served_as(alloc, &script, lasting, edges, left))
}

/// A count of 32 bits would end these daemons after no turn, and after three.
#[test]
fn turns_are_counted_beyond_32_bits(rt: HostRuntime) -> Result<(), Fail> {
    let alloc = rt.alloc();
    for turns in [1 << 32, (1 << 32) + 3, u64::MAX] {
        let failing = Failing {
            recvs: SIXTEEN,
            ..Failing::nothing()
        };
        let mut edges = Edges::new(alloc, &[], &[0], failing)?;
        assert!(rt;
            end_after(alloc, turns, &mut edges) == Some(Err(Stop::LinkFault)),
            "turns {turns}"
        );
        assert!(rt; edges.called(b"FFFFFFFFFFFFFFFF"), "turns {turns}");
    }
    Ok(())
}

#[test]
fn nothing_follows_the_sixteenth(rt: HostRuntime) -> Result<(), Fail> {
    let alloc = rt.alloc();
    let failing = Failing {
        recvs: SIXTEEN,
        ..Failing::nothing()
    };
    let mut edges = Edges::new(alloc, &[], &[0], failing)?;
    assert!(rt; end_of(alloc, ALONE, 20, &mut edges) == Some(Err(Stop::LinkFault)));
    assert!(rt; edges.called(b"FFFFFFFFFFFFFFFF"));
    Ok(())
}

#[test]
fn an_output_that_fails_ends_it(rt: HostRuntime) -> Result<(), Fail> {
    let alloc = rt.alloc();
    let failing = Failing {
        puts: &[1],
        ..Failing::nothing()
    };
    let mut edges = Edges::new(alloc, &[], &[0], failing)?;
    assert!(rt; end_of(alloc, ALONE, 2, &mut edges) == Some(Err(Stop::WriteFault)));
    assert!(rt; edges.wrote(b""));
    assert!(rt; edges.called(b""));
    Ok(())
}

#[test]
fn what_was_written_before_the_output_failed_stands(rt: HostRuntime) -> Result<(), Fail> {
    let alloc = rt.alloc();
    let text = b"node 1\nport 4000\nbegin\nclient 1 a A\njoin a db 7\n";
    let failing = Failing {
        puts: &[2],
        ..Failing::nothing()
    };
    let mut edges = Edges::new(alloc, &[], &[0], failing)?;
    assert!(rt; end_of(alloc, text, 2, &mut edges) == Some(Err(Stop::WriteFault)));
    assert!(rt; edges.wrote(ALONE_TEXT));
    // The packet of the join is not sent, since its record was not written.
    assert!(rt; edges.called(b""));
    Ok(())
}

#[test]
fn an_object_that_is_not_there_halts_it(rt: HostRuntime) -> Result<(), Fail> {
    let alloc = rt.alloc();
    let text = b"node 1\nport 4000\nbegin\nclient 1 a boxed\n";
    let script = settings(alloc, text, 1).ok_or("settings")?;
    let mut edges = Edges::sound(alloc, &[], &[0])?;
    assert!(rt; served(alloc, &script, 2, &mut edges, Vec::new(alloc)) == Err(Stop::NoMemory));
    assert!(rt; edges.wrote(ALONE_TEXT));
    assert!(rt; edges.called(b""));
    Ok(())
}

#[test]
fn settings_are_refused_before_the_link_is_opened(rt: HostRuntime) -> Result<(), Fail> {
    let alloc = rt.alloc();
    for text in [
        b"".as_slice(),
        b"node 1\n".as_slice(),
        b"node 2\nbegin\n".as_slice(),
        b"mode fixed\nnode 1\nbegin\n".as_slice(),
        b"node 1\nbegin\nflow\n".as_slice(),
        b"node 1\nbegin\nclient 1 a boxed\n".as_slice(),
        b"node 1\nbegin\nclient 1 a A\ngoodbye a\n".as_slice(),
    ] {
        let mut edges = Edges::sound(alloc, &[], &[0])?;
        assert!(rt; end_of(alloc, text, 2, &mut edges) == None);
        assert!(rt; edges.outside.link.opened() == None);
    }
    Ok(())
}
