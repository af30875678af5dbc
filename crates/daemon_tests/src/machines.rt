//! Clients on other machines: what a daemon that serves them answers.
use crate::runs::{ALONE, ALONE_TEXT, Edges, end_of, served_as, serving, settings};
use link_use::Stop;
use std::alloc::Global;
use std::test::Fail;

/// The first Up of key 7 in its piece, as the first message of who sends it: its call is `client 1 a -`.
pub(crate) const CLIENT_ASKED: &[u8] =
    b"RP\0\0\0\0\0\0\0\0\0\0\0\0\0\x01\0\0\0\0\0\0\0\x01RS\x01\0\0\0\0\x07\0\0\0\x01\0\0\0\0\0\x0cclient 1 a -";

/// The same Up, as the second message.
pub(crate) const CLIENT_ASKED_AGAIN: &[u8] =
    b"RP\0\0\0\0\0\0\0\0\0\0\0\0\0\x02\0\0\0\0\0\0\0\x01RS\x01\0\0\0\0\x07\0\0\0\x01\0\0\0\0\0\x0cclient 1 a -";

/// The Down that answers it, as the first message of the daemon: one call is answered, and taken; no event.
pub(crate) const CLIENT_TAKEN: &[u8] =
    b"RP\x01\0\0\0\0\x05\0\0\0\0\0\0\0\x01\0\0\0\0\0\0\0\x01RS\x02\0\0\0\0\x07\0\0\0\x05\0\0\0\x01\x01\0\0\0\x01\0";

/// The same, as the second message.
pub(crate) const CLIENT_STILL_TAKEN: &[u8] =
    b"RP\x01\0\0\0\0\x05\0\0\0\0\0\0\0\x02\0\0\0\0\0\0\0\x01RS\x02\0\0\0\0\x07\0\0\0\x05\0\0\0\x01\x01\0\0\0\x01\0";

/// An Up with the second call, `leave a db 1`.
const LEAVE_ASKED: &[u8] =
    b"RP\0\0\0\0\0\0\0\0\0\0\0\0\0\x02\0\0\0\0\0\0\0\x01RS\x01\0\0\0\0\x07\0\0\0\x02\0\0\0\0\0\x0cleave a db 1";

/// Its Down: two calls are answered, the last is refused, and the first event says why.
const LEAVE_REFUSED: &[u8] =
    b"RP\x01\0\0\0\0\x05\0\0\0\0\0\0\0\x02\0\0\0\0\0\0\0\x01RS\x02\0\0\0\0\x07\0\0\0\x05\0\0\0\x02\x02\0\0\0\x01\x01\0\x1crefused 1.a BAD_MEMBER_TOKEN";

/// The first Up of the key, with a call that makes no client of this node.
const STRANGER_ASKED: &[u8] =
    b"RP\0\0\0\0\0\0\0\0\0\0\0\0\0\x01\0\0\0\0\0\0\0\x01RS\x01\0\0\0\0\x07\0\0\0\x01\0\0\0\0\0\x0cclient 2 a -";

/// Its Down: refused, with no event.
const STRANGER_REFUSED: &[u8] =
    b"RP\x01\0\0\0\0\x05\0\0\0\0\0\0\0\x01\0\0\0\0\0\0\0\x01RS\x02\0\0\0\0\x07\0\0\0\x05\0\0\0\x01\x02\0\0\0\x01\0";

/// What a node alone writes whose client on another machine left no group.
const REFUSED_TEXT: &[u8] =
    b"up 1 5\nring 1 1 1.5.1 1 1\nin 1 1.1.5 1.5\nrefused 1.a BAD_MEMBER_TOKEN\n";

/// How a daemon of a node alone ends that serves clients on other machines.
fn end_to_all(alloc: Global, turns: u32, edges: &mut Edges) -> Option<Result<(), Stop>> {
    let script = settings(alloc, ALONE, 0)?;
    let left = Vec::new(alloc);
    Some(served_as(alloc, &script, serving(turns, true), edges, left))
}

#[test]
fn a_call_is_taken_once(rt: HostRuntime) -> Result<(), Fail> {
    let alloc = rt.alloc();
    let mut edges = Edges::sound(alloc, &[CLIENT_ASKED, CLIENT_ASKED_AGAIN], &[0])?;
    assert!(rt; end_to_all(alloc, 2, &mut edges) == Some(Ok(())));
    assert!(rt; edges.called(b"DSDS"));
    assert!(rt; edges.sent_to(0, 1) == Some(CLIENT_TAKEN));
    assert!(rt; edges.sent_to(0, 3) == Some(CLIENT_STILL_TAKEN));
    assert!(rt; edges.wrote(ALONE_TEXT));
    Ok(())
}

#[test]
fn a_client_hears_why_its_call_is_refused(rt: HostRuntime) -> Result<(), Fail> {
    let alloc = rt.alloc();
    let mut edges = Edges::sound(alloc, &[CLIENT_ASKED, LEAVE_ASKED], &[0])?;
    assert!(rt; end_to_all(alloc, 2, &mut edges) == Some(Ok(())));
    assert!(rt; edges.called(b"DSDS"));
    assert!(rt; edges.sent_to(0, 3) == Some(LEAVE_REFUSED));
    assert!(rt; edges.wrote(REFUSED_TEXT));
    Ok(())
}

#[test]
fn a_client_of_another_node_is_turned_down(rt: HostRuntime) -> Result<(), Fail> {
    let alloc = rt.alloc();
    let mut edges = Edges::sound(alloc, &[STRANGER_ASKED], &[0])?;
    assert!(rt; end_to_all(alloc, 1, &mut edges) == Some(Ok(())));
    assert!(rt; edges.called(b"DS"));
    assert!(rt; edges.sent_to(0, 1) == Some(STRANGER_REFUSED));
    assert!(rt; edges.wrote(ALONE_TEXT));
    Ok(())
}

#[test]
fn an_up_is_no_packet_to_who_serves_no_other_machines(rt: HostRuntime) -> Result<(), Fail> {
    let alloc = rt.alloc();
    let mut edges = Edges::sound(alloc, &[CLIENT_ASKED], &[0])?;
    assert!(rt; end_of(alloc, ALONE, 2, &mut edges) == Some(Ok(())));
    assert!(rt; edges.called(b"DQ"));
    assert!(rt; edges.wrote(ALONE_TEXT));
    Ok(())
}
