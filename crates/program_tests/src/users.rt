//! The command `client` over links, clocks, sources and sinks in memory.
ghost use Rattle.std.specs.Prelude.{map};
ghost use Rattle.hags_io.specs.LinkMemory.{AreWithin};

use crate::daemons::called;
use crate::edges::fails;
use hags_io::MemLink;
use std::alloc::{AllocError, Global};
use std::collections::VecDeque;
use std::test::Fail;

const LINE: &str = "client --node 1 --turns 3";

/// The same with a key of its own.
const KEYED: &str = "client --node 1 --turns 3 --key 7";

const ONE_CALL: &[u8] = b"node 1\nport 4000\nbegin\nclient 1 a -\n";

/// The piece of a Down of key 7, of a daemon of incarnation 5: the first call is taken, and one event is `heard`.
const TAKEN: &[u8] =
    b"RP\x01\x00\x00\x00\x00\x05\x00\x00\x00\x00\x00\x00\x00\x01\x00\x00\x00\x00\x00\x00\x00\x01RS\x02\x00\x00\x00\x00\x07\x00\x00\x00\x05\x00\x00\x00\x01\x01\x00\x00\x00\x01\x01\x00\x05heard";

/// The same with the call refused, and no event.
const REFUSED: &[u8] =
    b"RP\x01\x00\x00\x00\x00\x05\x00\x00\x00\x00\x00\x00\x00\x01\x00\x00\x00\x00\x00\x00\x00\x01RS\x02\x00\x00\x00\x00\x07\x00\x00\x00\x05\x00\x00\x00\x01\x02\x00\x00\x00\x01\x00";

/// That of incarnation 6, with no call done.
const LOST: &[u8] =
    b"RP\x01\x00\x00\x00\x00\x06\x00\x00\x00\x00\x00\x00\x00\x01\x00\x00\x00\x00\x00\x00\x00\x01RS\x02\x00\x00\x00\x00\x07\x00\x00\x00\x06\x00\x00\x00\x00\x00\x00\x00\x00\x01\x00";

/// That of a daemon that keeps no more keys.
const FULL: &[u8] =
    b"RP\x01\x00\x00\x00\x00\x05\x00\x00\x00\x00\x00\x00\x00\x01\x00\x00\x00\x00\x00\x00\x00\x01RS\x02\x00\x00\x00\x00\x07\x00\x00\x00\x05\x00\x00\x00\x00\x03\x00\x00\x00\x01\x00";

/// Puts a datagram before those that are to come.
fn put_first(
    alloc: Global,
    inbox: &mut VecDeque<(u8, Vec<u8>)>,
    piece: &[u8],
) -> Result<(), AllocError>
    requires { AreWithin (map (λ x. (x.0, x.1.items)) inbox.old.items) }
    ensures { AreWithin (map (λ x. (x.0, x.1.items)) inbox.new.items) }
{
    if piece.len() > 65_535 {
        return Err(AllocError);
    }
    inbox.push_front((1, Vec::from_slice(alloc, piece)?))?;
    Ok(())
}

/// A link to which these datagrams come. The opens of these numbers fail.
pub fn link_of(alloc: Global, pieces: &[&[u8]], opens: &[u32]) -> Result<MemLink, AllocError> {
    let mut inbox = VecDeque::new(alloc);
    for piece in pieces.iter().rev() {
        put_first(alloc, &mut inbox, piece)?;
    }
    let fails = fails(alloc, opens, &[])?;
    Ok(MemLink::new(alloc, inbox, fails))
}

/// Whether a client with key 7, of the clock, and one call, to which these datagrams come, ends so, writes this and says
/// that.
fn ends(
    alloc: Global,
    pieces: &[&[u8]],
    status: u8,
    text: &[u8],
    said: &[u8],
) -> Result<bool, AllocError> {
    let link = link_of(alloc, pieces, &[])?;
    let (ended, out, err) = called(alloc, LINE, ONE_CALL, 7, link)?;
    Ok(ended == status && out.held() == text && err.held() == said)
}

#[test]
fn a_client_ends_as_its_daemon_answers(rt: HostRuntime) -> Result<(), Fail> {
    let alloc = rt.alloc();
    assert!(rt; ends(alloc, &[TAKEN], 0, b"did 1 taken\nheard\n", b"")?);
    assert!(rt; ends(alloc, &[REFUSED], 0, b"did 1 refused\n", b"")?);
    assert!(rt; ends(alloc, &[], 9, b"", b"hags: no reply\n")?);
    assert!(rt;
        ends(
            alloc,
            &[TAKEN, LOST],
            10,
            b"did 1 taken\nheard\n",
            b"hags: session lost\n"
        )?
    );
    assert!(rt; ends(alloc, &[FULL], 11, b"", b"hags: daemon full\n")?);
    let (status, out, _err) = called(alloc, LINE, ONE_CALL, 7, link_of(alloc, &[TAKEN], &[1])?)?;
    assert!(rt; status == 6 && out.held().is_empty());
    Ok(())
}

#[test]
fn a_named_key_stands_over_the_clock(rt: HostRuntime) -> Result<(), Fail> {
    let alloc = rt.alloc();
    let (status, out, _err) = called(alloc, KEYED, ONE_CALL, 8, link_of(alloc, &[TAKEN], &[])?)?;
    assert!(rt; status == 0 && out.held() == b"did 1 taken\nheard\n".as_slice());
    let (status, out, _err) = called(alloc, LINE, ONE_CALL, 8, link_of(alloc, &[TAKEN], &[])?)?;
    assert!(rt; status == 9 && out.held().is_empty());
    Ok(())
}

#[test]
fn faulty_calls_are_named(rt: HostRuntime) -> Result<(), Fail> {
    let alloc = rt.alloc();
    for (input, fault) in [
        (
            b"node 1\nbegin\njoin a db 1\n".as_slice(),
            b"hags: line 3: unknown client\n".as_slice(),
        ),
        (
            b"node 1\nbegin\nclient 1 a A\n".as_slice(),
            b"hags: line 3: out of place\n".as_slice(),
        ),
        (
            b"node 1\nbegin\nclient 1 a -\nclient 1 b -\n".as_slice(),
            b"hags: line 4: out of place\n".as_slice(),
        ),
        (
            b"node 1\n".as_slice(),
            b"hags: line 2: missing word\n".as_slice(),
        ),
    ] {
        let (status, out, err) = called(alloc, LINE, input, 7, link_of(alloc, &[], &[1])?)?;
        assert!(rt; status == 2 && out.held().is_empty() && err.held() == fault);
    }
    Ok(())
}
