//! Questions about a daemon itself: who asks them takes the reply to the own one, and a daemon says which settings it has.
use crate::daemons::{called, left_by};
use crate::edges::{MemEdges, clock_at};
use crate::users::link_of;
use hags_io::LinkCall;
use std::alloc::{AllocError, Global};
use std::test::Fail;

const ALONE: &[u8] = b"node 1\nport 4000\nbegin\n";

/// Question 7 about the daemon in its piece, and the same about its clients.
const DAEMON_ASKED: &[u8] =
    b"RP\0\0\0\0\0\0\0\0\0\0\0\0\0\x01\0\0\0\0\0\0\0\x01RI\x01\x02\0\0\0\x07";

const CLIENTS_ASKED: &[u8] =
    b"RP\0\0\0\0\0\0\0\0\0\0\0\0\0\x01\0\0\0\0\0\0\0\x01RI\x01\x01\0\0\0\x07";

/// Messages 1 to 4 of a daemon: its reply to question 8, its reply to question 7 about its clients, its node's reply to a
/// question 7, and its reply to question 7 about itself.
const TOLD_ANOTHER: &[u8] =
    b"RP\x01\0\0\0\0\x05\0\0\0\0\0\0\0\x01\0\0\0\0\0\0\0\x01RI\x02\x02\0\0\0\x08other\n";

const CLIENTS_TOLD: &[u8] =
    b"RP\x01\0\0\0\0\x05\0\0\0\0\0\0\0\x02\0\0\0\0\0\0\0\x01RI\x02\x01\0\0\0\x07clients\n";

const NODE_TOLD: &[u8] =
    b"RP\x01\0\0\0\0\x05\0\0\0\0\0\0\0\x03\0\0\0\0\0\0\0\x01RG\x01\x17\x01\x01\0\0\0\0\0\x05\0\0\0\x07\0\0\0\x07yes";

/// What the daemon of these settings replies, as its first message.
const ITSELF_TOLD: &[u8] =
    b"RP\x01\0\0\0\0\x05\0\0\0\0\0\0\0\x01\0\0\0\0\0\0\0\x01RI\x02\x02\0\0\0\x07hagsd 1.5 version=0.1.0 settings=5a76de666483ce5a turns=1 ticks=0 received=1 strays=0 sent=0 failed=0 keys=0 ended=0\n";

const DAEMON_TOLD: &[u8] =
    b"RP\x01\0\0\0\0\x05\0\0\0\0\0\0\0\x04\0\0\0\0\0\0\0\x01RI\x02\x02\0\0\0\x07daemon\n";

/// What the call at this index sent, where it was a send to this node on network 1.
fn sent_to(edges: &MemEdges, node: u8, index: usize) -> Option<&[u8]> {
    match edges.output.outside.link.calls().get(index)? {
        LinkCall::Sent(to, 1, piece, _) => {
            if *to == node {
                Some(piece.as_slice())
            } else {
                None
            }
        }
        _ => None,
    }
}

/// Whether this status of node 1, to which the four messages come, sends this question and writes this text.
fn asks(alloc: Global, line: &str, asked: &[u8], text: &[u8]) -> Result<bool, AllocError> {
    let told = [TOLD_ANOTHER, CLIENTS_TOLD, NODE_TOLD, DAEMON_TOLD];
    let link = link_of(alloc, &told, &[])?;
    let (status, edges, _err) = left_by(alloc, line, ALONE, clock_at(alloc, 7)?, link)?;
    let sent = sent_to(&edges, 1, 0) == Some(asked);
    Ok(sent && status == 0 && edges.output.outside.out.held() == text)
}

#[test]
fn the_first_reply_to_the_question_is_written(rt: HostRuntime) -> Result<(), Fail> {
    let alloc = rt.alloc();
    let daemon = "status hagsd --node 1 --turns 4";
    let clients = "status hagscl --node 1 --turns 4";
    assert!(rt; asks(alloc, daemon, DAEMON_ASKED, b"daemon\n")?);
    assert!(rt; asks(alloc, clients, CLIENTS_ASKED, b"clients\n")?);
    Ok(())
}

#[test]
fn replies_to_other_questions_are_none(rt: HostRuntime) -> Result<(), Fail> {
    let alloc = rt.alloc();
    for (line, told) in [
        ("status hagsd --node 1 --turns 3", CLIENTS_TOLD),
        ("status hagscl --node 1 --turns 3", DAEMON_TOLD),
        ("status hats --node 1 --turns 3", DAEMON_TOLD),
        ("status hagsd --node 1 --turns 3", NODE_TOLD),
        ("status hagsd --node 1 --turns 3", DAEMON_ASKED),
    ] {
        let link = link_of(alloc, &[told], &[])?;
        let (status, out, err) = called(alloc, line, ALONE, 7, link)?;
        assert!(rt; status == 9 && out.held().is_empty(), "{line}");
        assert!(rt; err.held() == b"hags: no reply\n".as_slice());
    }
    Ok(())
}

#[test]
fn a_daemon_tells_the_digest_of_its_settings(rt: HostRuntime) -> Result<(), Fail> {
    let alloc = rt.alloc();
    let line = "daemon --node 1 --inc 5 --turns 1";
    let noted = b"# Alone.\n\nnode  1\n port 4000 \n#\nbegin\nclient 1 a A\n".as_slice();
    for settings in [ALONE, noted] {
        let link = link_of(alloc, &[DAEMON_ASKED], &[])?;
        let (status, edges, _err) = left_by(alloc, line, settings, clock_at(alloc, 0)?, link)?;
        assert_eq!(rt; status, 0);
        assert!(rt; sent_to(&edges, 0, 1) == Some(ITSELF_TOLD));
    }
    Ok(())
}
