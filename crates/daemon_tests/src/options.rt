//! What a daemon is asked for: keys that end, and pauses.
ghost use Rattle.std.specs.Prelude.{◌≡◌};

use crate::machines::{CLIENT_ASKED, CLIENT_ASKED_AGAIN, CLIENT_STILL_TAKEN, CLIENT_TAKEN};
use crate::runs::{ALONE, ALONE_TEXT, Edges, Failing, served_as, serving, settings};
use daemon_model::{Options, RemoteService, Service};
use daemon_run::Serving;
use link_use::Stop;
use std::alloc::Global;
use std::test::Fail;

/// The Down of a key that has ended, as the second message of the daemon: of no incarnation, and of no call.
const KEY_ENDED: &[u8] =
    b"RP\x01\0\0\0\0\x05\0\0\0\0\0\0\0\x02\0\0\0\0\0\0\0\x01RS\x02\0\0\0\0\x07\0\0\0\0\0\0\0\0\x03\0\0\0\x01\0";

/// The second Up of key 7, as the second message: its call is `join a db 1`.
const JOIN_ASKED: &[u8] =
    b"RP\0\0\0\0\0\0\0\0\0\0\0\0\0\x02\0\0\0\0\0\0\0\x01RS\x01\0\0\0\0\x07\0\0\0\x02\0\0\0\0\0\x0bjoin a db 1";

/// An Up of key 7 that asks for nothing more, as the third message.
const NEWS_ASKED: &[u8] =
    b"RP\0\0\0\0\0\0\0\0\0\0\0\0\0\x03\0\0\0\0\0\0\0\x01RS\x01\0\0\0\0\x07\0\0\0\x02\0\0\0\0\0\0";

/// What the node sends to itself for that join: who leads the group, that it does itself, and the request.
const LOOKUP: &[u8] =
    b"RP\x01\0\0\0\0\x05\0\0\0\0\0\0\0\x02\0\0\0\0\0\0\0\x01RG\x01\x0e\x01\x01\x01\0\0\0\0\x05\0\0\0\x0c\0\0\0\x01\x01\0\0\0\x05\x02db";

const NAME: &[u8] =
    b"RP\x01\0\0\0\0\x05\0\0\0\0\0\0\0\x04\0\0\0\0\0\0\0\x01RG\x01\x0f\x01\x01\x01\0\0\0\0\x05\0\0\0\x0d\0\0\0\x01\x01\0\0\0\x05\x02db\x01";

const REQUEST: &[u8] =
    b"RP\x01\0\0\0\0\x05\0\0\0\0\0\0\0\x05\0\0\0\0\0\0\0\x01RG\x01\x10\x01\x01\x01\0\0\0\0\x05\0\0\x004\0\0\0\x01\x01\0\0\0\x05\x02db\x01\0\0\0\x05\0\x01\0\0\0\x01\0\0\0\x01\x01\x01\x01\x01\0\0\0\x05\0\x01\0\0\0\x01\x01\0\x01\0\0\x01\0\0\0\0\0";

/// The Down of what the client heard, as the sixth message of the daemon.
const HEARD: &[u8] =
    b"RP\x01\0\0\0\0\x05\0\0\0\0\0\0\0\x06\0\0\0\0\0\0\0\x01RS\x02\0\0\0\0\x07\0\0\0\x05\0\0\0\x02\x01\0\0\0\x01\x02\0\x17asked 1.5.1.1 1 db join\0,heard 1.5.1.1 1.1.5 db 0 once-join 1.5.1.1 =";

/// The same, with the entry itself before it is heard.
const ENTRY_HEARD: &[u8] =
    b"RP\x01\0\0\0\0\x05\0\0\0\0\0\0\0\x06\0\0\0\0\0\0\0\x01RS\x02\0\0\0\0\x07\0\0\0\x05\0\0\0\x02\x01\0\0\0\x01\x03\0\x17asked 1.5.1.1 1 db join\0\"put 1 1.1.5 db 0 once join 1.5.1.1\0,heard 1.5.1.1 1.1.5 db 0 once-join 1.5.1.1 =";

/// What the daemon writes of that.
const JOINED_TEXT: &[u8] =
    b"up 1 5\nring 1 1 1.5.1 1 1\nin 1 1.1.5 1.5\nasked 1.5.1.1 1 db join\nput 1 1.1.5 db 0 once join 1.5.1.1\nheard 1.5.1.1 1.1.5 db 0 once-join 1.5.1.1 =\n";

/// Node 1, for so many turns, with these options.
fn asked(turns: u32, options: Options) -> Serving
    ensures { result.me ≡ 1 }
{
    Serving {
        options,
        ..serving(turns, true)
    }
}

/// How a daemon of a node alone ends with these options.
fn end_as(
    alloc: Global,
    turns: u32,
    options: Options,
    edges: &mut Edges,
) -> Option<Result<(), Stop>> {
    let script = settings(alloc, ALONE, 0)?;
    let left = Vec::new(alloc);
    Some(served_as(alloc, &script, asked(turns, options), edges, left))
}

#[test]
fn a_pause_ends_a_daemon(rt: HostRuntime) -> Result<(), Fail> {
    let alloc = rt.alloc();
    for (gap, end, calls) in [
        (701, Ok(()), b"QQ".as_slice()),
        (700, Err(Stop::Paused), b"Q".as_slice()),
        (100, Err(Stop::Paused), b"".as_slice()),
    ] {
        let options = Options {
            gap: Some(gap),
            ..Options::plain(Service::plain(RemoteService::Off))
        };
        let mut edges = Edges::sound(alloc, &[], &[0, 100, 800])?;
        assert!(rt;
            end_as(alloc, 2, options, &mut edges) == Some(end),
            "gap {gap}"
        );
        assert!(rt; edges.called(calls), "gap {gap}");
        assert!(rt; edges.wrote(ALONE_TEXT), "gap {gap}");
    }
    Ok(())
}

#[test]
fn a_silent_key_ends_and_stays_so(rt: HostRuntime) -> Result<(), Fail> {
    let alloc = rt.alloc();
    let options = Options {
        silence: Some(2),
        ..Options::plain(Service::plain(RemoteService::On { entries: false }))
    };
    let failing = Failing {
        recvs: &[2, 3],
        ..Failing::nothing()
    };
    let inbox = [CLIENT_ASKED, CLIENT_ASKED_AGAIN];
    let mut edges = Edges::new(alloc, &inbox, &[0, 0, 100, 200, 250], failing)?;
    assert!(rt; end_as(alloc, 4, options, &mut edges) == Some(Ok(())));
    assert!(rt; edges.called(b"DSFFDS"));
    assert!(rt; edges.sent_to(0, 1) == Some(CLIENT_TAKEN));
    assert!(rt; edges.sent_to(0, 5) == Some(KEY_ENDED));
    assert!(rt; edges.wrote(ALONE_TEXT));
    Ok(())
}

#[test]
fn without_the_option_a_silent_key_stays(rt: HostRuntime) -> Result<(), Fail> {
    let alloc = rt.alloc();
    let options = Options::plain(Service::plain(RemoteService::On { entries: false }));
    let failing = Failing {
        recvs: &[2, 3],
        ..Failing::nothing()
    };
    let inbox = [CLIENT_ASKED, CLIENT_ASKED_AGAIN];
    let mut edges = Edges::new(alloc, &inbox, &[0, 0, 100, 200, 250], failing)?;
    assert!(rt; end_as(alloc, 4, options, &mut edges) == Some(Ok(())));
    assert!(rt; edges.called(b"DSFFDS"));
    assert!(rt; edges.sent_to(0, 1) == Some(CLIENT_TAKEN));
    assert!(rt; edges.sent_to(0, 5) == Some(CLIENT_STILL_TAKEN));
    Ok(())
}

#[test]
fn entries_come_before_they_are_heard(rt: HostRuntime) -> Result<(), Fail> {
    let alloc = rt.alloc();
    let inbox = [CLIENT_ASKED, JOIN_ASKED, LOOKUP, NAME, REQUEST, NEWS_ASKED];
    for (entries, heard) in [(false, HEARD), (true, ENTRY_HEARD)] {
        let options = Options::plain(Service::plain(RemoteService::On { entries }));
        let mut edges = Edges::sound(alloc, &inbox, &[0])?;
        assert!(rt; end_as(alloc, 6, options, &mut edges) == Some(Ok(())));
        assert!(rt; edges.called(b"DSDSSDSDSDDS"));
        assert!(rt; edges.sent_to(1, 3) == Some(LOOKUP));
        assert!(rt; edges.sent_to(1, 6) == Some(NAME));
        assert!(rt; edges.sent_to(1, 8) == Some(REQUEST));
        assert!(rt; edges.sent_to(0, 11) == Some(heard));
        assert!(rt; edges.wrote(JOINED_TEXT));
    }
    Ok(())
}
