//! Questions of status clients, which a daemon answers.
use crate::runs::{ALONE, Edges, end_of};
use std::test::Fail;

/// A question in its piece: its number is 7, and it asks of rings.
pub(crate) const RINGS_ASKED: &[u8] =
    b"RP\0\0\0\0\0\0\0\0\0\0\0\0\0\x01\0\0\0\0\0\0\0\x01RG\x01\x16\x01\0\x01\0\0\0\0\0\0\0\0\x05\0\0\0\x07\x01";

/// The answer of a node alone, as its first message.
pub(crate) const RINGS_TOLD: &[u8] =
    b"RP\x01\0\0\0\0\x05\0\0\0\0\0\0\0\x01\0\0\0\0\0\0\0\x01RG\x01\x17\x01\x01\0\0\0\0\0\x05\0\0\0'\0\0\0\x07hats 1 1.5.1 members=1 neighbour=1\n";

const VIEW_ASKED: &[u8] =
    b"RP\0\0\0\0\0\0\0\0\0\0\0\0\0\x01\0\0\0\0\0\0\0\x01RG\x01\x16\x01\0\x01\0\0\0\0\0\0\0\0\x05\0\0\0\x07\x02";

const VIEW_TOLD: &[u8] =
    b"RP\x01\0\0\0\0\x05\0\0\0\0\0\0\0\x01\0\0\0\0\0\0\0\x01RG\x01\x17\x01\x01\0\0\0\0\0\x05\0\0\0/\0\0\0\x07hagsns 1.1.5 coord=1 members=1.5 frozen=no\n";

const GROUPS_ASKED: &[u8] =
    b"RP\0\0\0\0\0\0\0\0\0\0\0\0\0\x01\0\0\0\0\0\0\0\x01RG\x01\x16\x01\0\x01\0\0\0\0\0\0\0\0\x05\0\0\0\x07\x03";

const VOTES_ASKED: &[u8] =
    b"RP\0\0\0\0\0\0\0\0\0\0\0\0\0\x01\0\0\0\0\0\0\0\x01RG\x01\x16\x01\0\x01\0\0\0\0\0\0\0\0\x05\0\0\0\x07\x04";

/// The empty answer: the node has no group.
const NOTHING_TOLD: &[u8] =
    b"RP\x01\0\0\0\0\x05\0\0\0\0\0\0\0\x01\0\0\0\0\0\0\0\x01RG\x01\x17\x01\x01\0\0\0\0\0\x05\0\0\0\x04\0\0\0\x07";

#[test]
fn a_question_is_answered_to_who_asks(rt: HostRuntime) -> Result<(), Fail> {
    let alloc = rt.alloc();
    for (asked, told) in [
        (RINGS_ASKED, RINGS_TOLD),
        (VIEW_ASKED, VIEW_TOLD),
        (GROUPS_ASKED, NOTHING_TOLD),
        (VOTES_ASKED, NOTHING_TOLD),
    ] {
        let mut edges = Edges::sound(alloc, &[asked], &[0])?;
        assert!(rt; end_of(alloc, ALONE, 2, &mut edges) == Some(Ok(())));
        assert!(rt; edges.called(b"DSQ"));
        assert!(rt; edges.sent_to(0, 1) == Some(told));
    }
    Ok(())
}

#[test]
fn a_question_asked_twice_is_answered_twice(rt: HostRuntime) -> Result<(), Fail> {
    let alloc = rt.alloc();
    let mut edges = Edges::sound(alloc, &[RINGS_ASKED, RINGS_ASKED], &[0])?;
    assert!(rt; end_of(alloc, ALONE, 2, &mut edges) == Some(Ok(())));
    assert!(rt; edges.called(b"DSDS"));
    assert!(rt; edges.sent_to(0, 1) == Some(RINGS_TOLD));
    Ok(())
}

#[test]
fn bytes_that_are_no_piece_are_dropped(rt: HostRuntime) -> Result<(), Fail> {
    let alloc = rt.alloc();
    let mut edges = Edges::sound(alloc, &[b"RP", b"", RINGS_ASKED], &[0])?;
    assert!(rt; end_of(alloc, ALONE, 3, &mut edges) == Some(Ok(())));
    assert!(rt; edges.called(b"DDDS"));
    Ok(())
}
