//! What a daemon is asked about itself, and what it replies.
ghost use Rattle.std.specs.Prelude.{◌≡◌};

use crate::machines::CLIENT_ASKED;
use crate::questions::RINGS_ASKED;
use crate::runs::{ALONE, ALONE_TEXT, Edges, end_of, served_as, serving, settings};
use daemon_model::{About, Options, RemoteService, Service, Version};
use daemon_run::Serving;
use std::test::Fail;

/// Question 7 about the clients, in its piece.
const CLIENTS_ASKED: &[u8] =
    b"RP\0\0\0\0\0\0\0\0\0\0\0\0\0\x01\0\0\0\0\0\0\0\x01RI\x01\x01\0\0\0\x07";

/// Question 7 about what the daemon counts.
const COUNTS_ASKED: &[u8] =
    b"RP\0\0\0\0\0\0\0\0\0\0\0\0\0\x01\0\0\0\0\0\0\0\x01RI\x01\x02\0\0\0\x07";

/// A daemon without options, asked at once.
const COUNTS_TOLD: &[u8] =
    b"RP\x01\0\0\0\0\x05\0\0\0\0\0\0\0\x01\0\0\0\0\0\0\0\x01RI\x02\x02\0\0\0\x07hagsd 1.5 version=0.0.0 settings=0000000000000000 turns=1 ticks=0 received=1 strays=0 sent=0 failed=0 keys=0 ended=0\n";

/// As its second message, once it ticked, received a stray and answered a status client.
const COUNTS_TOLD_LATER: &[u8] =
    b"RP\x01\0\0\0\0\x05\0\0\0\0\0\0\0\x02\0\0\0\0\0\0\0\x01RI\x02\x02\0\0\0\x07hagsd 1.5 version=1.2.3 settings=00000000000000ff turns=3 ticks=1 received=3 strays=1 sent=1 failed=0 keys=0 ended=0\n";

/// No client, as its first message.
const NOBODY_TOLD: &[u8] =
    b"RP\x01\0\0\0\0\x05\0\0\0\0\0\0\0\x01\0\0\0\0\0\0\0\x01RI\x02\x01\0\0\0\x07";

/// The client of key 7, a tick after its Up, as its second message.
const CLIENT_TOLD: &[u8] =
    b"RP\x01\0\0\0\0\x05\0\0\0\0\0\0\0\x02\0\0\0\0\0\0\0\x01RI\x02\x01\0\0\0\x07hagscl a key=7 silent=1 unread=0 members=-\n";

#[test]
fn a_daemon_without_options_tells_of_itself(rt: HostRuntime) -> Result<(), Fail> {
    let alloc = rt.alloc();
    for (asked, told) in [(COUNTS_ASKED, COUNTS_TOLD), (CLIENTS_ASKED, NOBODY_TOLD)] {
        let mut edges = Edges::sound(alloc, &[asked], &[0])?;
        assert!(rt; end_of(alloc, ALONE, 2, &mut edges) == Some(Ok(())));
        assert!(rt; edges.called(b"DSQ"));
        assert!(rt; edges.sent_to(0, 1) == Some(told));
        assert!(rt; edges.wrote(ALONE_TEXT));
    }
    Ok(())
}

/// Node 1 with this service, for so many turns.
fn served_by(turns: u32, service: Service) -> Serving
    ensures { result.me ≡ 1 }
{
    Serving {
        options: Options::plain(service),
        ..serving(turns, false)
    }
}

#[test]
fn it_counts_what_came_and_went(rt: HostRuntime) -> Result<(), Fail> {
    let alloc = rt.alloc();
    let about = About {
        version: Version {
            major: 1,
            minor: 2,
            patch: 3,
        },
        settings: 255,
    };
    let service = Service {
        remote: RemoteService::Off,
        about,
    };
    let inbox = [RINGS_ASKED, b"RP".as_slice(), COUNTS_ASKED];
    let mut edges = Edges::sound(alloc, &inbox, &[0, 0, 100, 150])?;
    let Some(script) = settings(alloc, ALONE, 0) else {
        assert!(rt; false, "the settings are refused");
        return Ok(());
    };
    let left = Vec::new(alloc);
    assert!(rt; served_as(alloc, &script, served_by(3, service), &mut edges, left) == Ok(()));
    assert!(rt; edges.called(b"DSDDS"));
    assert!(rt; edges.sent_to(0, 4) == Some(COUNTS_TOLD_LATER));
    Ok(())
}

#[test]
fn it_tells_of_a_client_on_another_machine(rt: HostRuntime) -> Result<(), Fail> {
    let alloc = rt.alloc();
    let service = Service::plain(RemoteService::On { entries: false });
    let inbox = [CLIENT_ASKED, CLIENTS_ASKED];
    let mut edges = Edges::sound(alloc, &inbox, &[0, 0, 100])?;
    let Some(script) = settings(alloc, ALONE, 0) else {
        assert!(rt; false, "the settings are refused");
        return Ok(());
    };
    let left = Vec::new(alloc);
    assert!(rt; served_as(alloc, &script, served_by(2, service), &mut edges, left) == Ok(()));
    assert!(rt; edges.called(b"DSDS"));
    assert!(rt; edges.sent_to(0, 3) == Some(CLIENT_TOLD));
    Ok(())
}
