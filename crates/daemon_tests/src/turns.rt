//! The start of a daemon and its turns.
use crate::questions::{RINGS_ASKED, RINGS_TOLD};
use crate::runs::{ALONE, ALONE_TEXT, Edges, Failing, end_of};
use std::test::Fail;

/// Settings of two nodes.
const TWO: &[u8] = b"node 1\nnode 2\nport 4000\nbegin\n";

/// A piece with the PROCLAIM that node 1 sends to node 2, as its messages 1 and 2.
const PROCLAIM_1: &[u8] =
    b"RP\x01\0\0\0\0\x05\0\0\0\0\0\0\0\x01\0\0\0\0\0\0\0\x01RG\x01\x02\x01\x01\x02\0\0\0\0\x05\0\0\0\x09\0\0\0\x01\x01\0\0\0\x05";

const PROCLAIM_2: &[u8] =
    b"RP\x01\0\0\0\0\x05\0\0\0\0\0\0\0\x02\0\0\0\0\0\0\0\x01RG\x01\x02\x01\x01\x02\0\0\0\0\x05\0\0\0\x09\0\0\0\x01\x01\0\0\0\x05";

/// A PREPARE that node 2, in its incarnation 1, sends to node 1: of the view 0.2.1, which is below what node 1 promised.
const PREPARE_LATE: &[u8] =
    b"RP\x02\0\0\0\0\x01\0\0\0\0\0\0\0\x01\0\0\0\0\0\0\0\x01RG\x01\x09\x01\x02\x01\0\0\0\0\x01\0\0\0\x0d\0\0\0\0\x02\0\0\0\x01\0\0\0\x03";

/// The same of the view 0.3.1, whose coordinator is no node of the settings.
const PREPARE_STRAY: &[u8] =
    b"RP\x02\0\0\0\0\x01\0\0\0\0\0\0\0\x01\0\0\0\0\0\0\0\x01RG\x01\x09\x01\x02\x01\0\0\0\0\x01\0\0\0\x0d\0\0\0\0\x03\0\0\0\x01\0\0\0\x03";

/// What node 1 answers node 2 then, as its message 1: a REFUSE that names the number 1.
const REFUSED: &[u8] =
    b"RP\x01\0\0\0\0\x05\0\0\0\0\0\0\0\x01\0\0\0\0\0\0\0\x01RG\x01\x0b\x01\x01\x02\0\0\0\0\x05\0\0\0\x0d\0\0\0\0\x02\0\0\0\x01\0\0\0\x01";

#[test]
fn a_node_alone_starts_and_sends_nothing(rt: HostRuntime) -> Result<(), Fail> {
    let alloc = rt.alloc();
    let mut edges = Edges::sound(alloc, &[], &[0])?;
    assert!(rt; end_of(alloc, ALONE, 2, &mut edges) == Some(Ok(())));
    assert!(rt; edges.wrote(ALONE_TEXT));
    assert!(rt; edges.called(b"QQ"));
    assert!(rt; edges.outside.link.opened() == Some((4001, true)));
    Ok(())
}

#[test]
fn each_adapter_is_at_the_port_of_its_node(rt: HostRuntime) -> Result<(), Fail> {
    let alloc = rt.alloc();
    let text = b"node 1\nnode 3\nadapter 1 2 10.0.0.1\nadapter 3 2 10.0.0.3\nport 4000\nbegin\n";
    let mut edges = Edges::sound(alloc, &[], &[0])?;
    assert!(rt; end_of(alloc, text, 1, &mut edges) == Some(Ok(())));
    let places = edges.outside.link.places();
    assert!(rt; places.get(1, 2) == Some((0x0a00_0001, 4001)));
    assert!(rt; places.get(3, 2) == Some((0x0a00_0003, 4003)));
    assert!(rt; places.get(1, 1) == None);
    assert!(rt; places.get(2, 2) == None);
    Ok(())
}

#[test]
fn ticks_where_100_milliseconds_have_passed(rt: HostRuntime) -> Result<(), Fail> {
    let alloc = rt.alloc();
    let mut edges = Edges::sound(alloc, &[], &[50, 50, 149, 150, 249, 251, 350, 351])?;
    assert!(rt; end_of(alloc, TWO, 7, &mut edges) == Some(Ok(())));
    assert!(rt; edges.called(b"QQSQQSQQSQ"));
    assert!(rt; edges.sent_to(2, 2) == Some(PROCLAIM_1));
    assert!(rt; edges.sent_to(2, 5) == Some(PROCLAIM_2));
    assert!(rt; edges.wrote(ALONE_TEXT));
    Ok(())
}

#[test]
fn a_late_tick_is_one_tick(rt: HostRuntime) -> Result<(), Fail> {
    let alloc = rt.alloc();
    let mut edges = Edges::sound(alloc, &[], &[0, 1000, 1000, 1099, 1100])?;
    assert!(rt; end_of(alloc, TWO, 4, &mut edges) == Some(Ok(())));
    assert!(rt; edges.called(b"SQQQSQ"));
    Ok(())
}

#[test]
fn a_failed_send_is_a_lost_packet(rt: HostRuntime) -> Result<(), Fail> {
    let alloc = rt.alloc();
    for (lost, calls) in [
        (1, b"LQSQSQ".as_slice()),
        (2, b"SQLQSQ".as_slice()),
        (3, b"SQSQLQ".as_slice()),
    ] {
        let failing = Failing {
            sends: &[lost],
            ..Failing::nothing()
        };
        let mut edges = Edges::new(alloc, &[], &[0, 100, 200, 300], failing)?;
        assert!(rt;
            end_of(alloc, TWO, 3, &mut edges) == Some(Ok(())),
            "send {lost}"
        );
        assert!(rt; edges.called(calls), "send {lost}");
        assert!(rt; edges.wrote(ALONE_TEXT), "send {lost}");
    }
    Ok(())
}

#[test]
fn a_view_below_the_promise_is_refused(rt: HostRuntime) -> Result<(), Fail> {
    let alloc = rt.alloc();
    let mut edges = Edges::sound(alloc, &[PREPARE_LATE], &[0])?;
    assert!(rt; end_of(alloc, TWO, 2, &mut edges) == Some(Ok(())));
    assert!(rt; edges.called(b"DSQ"));
    assert!(rt; edges.sent_to(2, 1) == Some(REFUSED));
    Ok(())
}

#[test]
fn a_refusal_to_a_node_that_the_settings_lack_is_lost(rt: HostRuntime) -> Result<(), Fail> {
    let alloc = rt.alloc();
    let mut edges = Edges::sound(alloc, &[PREPARE_STRAY, RINGS_ASKED], &[0])?;
    assert!(rt; end_of(alloc, TWO, 3, &mut edges) == Some(Ok(())));
    assert!(rt; edges.called(b"DDSQ"));
    assert!(rt; edges.sent_to(0, 2) == Some(RINGS_TOLD));
    Ok(())
}
