//! What is kept of the lines of a transcript, and what is then said of the next one.
use rsct_packet::{List, Member, RingId, ViewId};
use run_audit::{Fault, Rings, Rule, Starts, Stays, Views, in_fault};
use std::test::Fail;

const VIEW: ViewId = ViewId {
    number: 2,
    coord: 1,
    inc: 1,
};

const MEMBER: Member = Member { node: 1, inc: 4 };

const RING: RingId = RingId {
    leader: 1,
    inc: 4,
    number: 7,
};

/// What is said where a line breaks the rule, and this line shows it.
fn broken(rule: Rule, line: u32) -> Option<Fault> {
    Some(Fault {
        rule,
        with_line: Some(line),
    })
}

#[test]
fn starts(rt: HostRuntime) -> Result<(), Fail> {
    let mut starts = Starts::new(rt.alloc());
    assert!(rt; starts.fault(1, 0).is_none());
    starts.note(1, 4, 1)?;
    assert!(rt; starts.inc(1) == Some(4));
    assert!(rt; starts.inc(2).is_none());
    assert!(rt; starts.fault(1, 5).is_none());
    assert!(rt; starts.fault(1, 4) == broken(Rule::Life, 1));
    Ok(())
}

#[test]
fn rings(rt: HostRuntime) -> Result<(), Fail> {
    let alloc = rt.alloc();
    let mut rings = Rings::new(alloc);
    assert!(rt; rings.fault(1, 1, RING, &[1, 2], 2).is_none());
    rings.note(1, RING, List::of(alloc, &[1, 2])?, 3)?;
    rings.note(1, RING, List::of(alloc, &[1])?, 4)?;
    assert!(rt; rings.fault(2, 1, RING, &[1, 2], 1).is_none());
    assert!(rt; rings.fault(1, 1, RING, &[1], 1) == broken(Rule::Ring, 3));
    assert!(rt; rings.fault(1, 2, RING, &[1], 1).is_none());
    Ok(())
}

#[test]
fn views(rt: HostRuntime) -> Result<(), Fail> {
    let alloc = rt.alloc();
    let mut starts = Starts::new(alloc);
    let mut stays = Stays::new(alloc);
    let mut views = Views::new(alloc);
    starts.note(1, 4, 1)?;
    stays.note_up(1)?;
    assert!(rt; stays.view(1).is_none());
    assert!(rt; in_fault(&starts, &stays, &views, 1, VIEW, &[MEMBER]).is_none());
    stays.note_in(1, VIEW)?;
    views.note(1, VIEW, List::of(alloc, &[MEMBER])?, 2)?;
    assert!(rt; stays.view(1) == Some(VIEW));
    assert!(rt; views.first_node(VIEW) == Some(1));
    assert!(rt; views.first_line(VIEW) == Some(2));
    assert!(rt; in_fault(&starts, &stays, &views, 1, VIEW, &[MEMBER]) == broken(Rule::In, 2));
    stays.note_up(1)?;
    assert!(rt; stays.view(1).is_none());
    Ok(())
}
