//! Bodies of packets: bytes that were composed by hand.
use packet_bodies::{
    Ack, Death, Gone, GroupRef, Leader, Prepare, Query, Refuse, ReportRow, RingMask, What, put_ack,
    put_death, put_gone, put_group, put_leader, put_prepare, put_query, put_refuse, put_reply,
    put_report, put_ring_mask, read_ack, read_death, read_gone, read_leader, read_lookup,
    read_prepare, read_query, read_refuse, read_reply, read_report, read_ring_body, read_ring_mask,
};
use rsct_packet::{Mask, NoMemory, ProviderId, RingId, ViewId, put_ring};
use std::alloc::Global;

const RING: RingId = RingId {
    leader: 3,
    inc: 1,
    number: 2,
};

const VIEW: ViewId = ViewId {
    number: 2,
    coord: 1,
    inc: 1,
};

/// A ring's identity is read, to the end of the bytes.
fn ring_is_read(alloc: Global) -> Result<bool, NoMemory> {
    let mut out = Vec::new(alloc);
    put_ring(&mut out, RING)?;
    let whole = read_ring_body(&out) == Some(RING);
    out.push(0)?;
    Ok(whole && read_ring_body(&out).is_none())
}

/// A ring with a mask is read as it was written.
fn ring_mask_is_read(alloc: Global) -> Result<bool, NoMemory> {
    let asked = RingMask {
        ring: RING,
        mask: Mask { bits: 5 },
    };
    let mut out = Vec::new(alloc);
    put_ring_mask(&mut out, asked)?;
    Ok(read_ring_mask(&out) == Some(asked))
}

/// A death is read as it was written.
fn death_is_read(alloc: Global) -> Result<bool, NoMemory> {
    let death = Death {
        ring: RING,
        node: 2,
    };
    let mut out = Vec::new(alloc);
    put_death(&mut out, death)?;
    Ok(read_death(&out) == Some(death))
}

#[test]
fn bodies_of_rings(rt: HostRuntime) {
    let alloc = rt.alloc();
    assert!(rt; ring_is_read(alloc).expect(&rt, "memory"));
    assert!(rt; ring_mask_is_read(alloc).expect(&rt, "memory"));
    assert!(rt; death_is_read(alloc).expect(&rt, "memory"));
}

/// A prepare is read as it was written.
fn prepare_is_read(alloc: Global) -> Result<bool, NoMemory> {
    let prepare = Prepare {
        view: VIEW,
        mask: Mask { bits: 3 },
    };
    let mut out = Vec::new(alloc);
    put_prepare(&mut out, prepare)?;
    Ok(read_prepare(&out) == Some(prepare))
}

/// A refusal is read as it was written.
fn refuse_is_read(alloc: Global) -> Result<bool, NoMemory> {
    let refuse = Refuse {
        view: VIEW,
        number: 9,
    };
    let mut out = Vec::new(alloc);
    put_refuse(&mut out, refuse)?;
    Ok(read_refuse(&out) == Some(refuse))
}

#[test]
fn bodies_of_views(rt: HostRuntime) {
    let alloc = rt.alloc();
    assert!(rt; prepare_is_read(alloc).expect(&rt, "memory"));
    assert!(rt; refuse_is_read(alloc).expect(&rt, "memory"));
}

/// The rows of nodes 1 and 2.
const ROWS: [ReportRow; 2] = [
    ReportRow {
        node: 1,
        inc: 1,
        seq: 4,
        mask: Mask { bits: 3 },
    },
    ReportRow {
        node: 2,
        inc: 1,
        seq: 7,
        mask: Mask { bits: 3 },
    },
];

/// A report with two rows of node 1.
const TWICE: [u8; 27] = [
    2, 1, 0, 0, 0, 1, 0, 0, 0, 4, 0, 0, 0, 3, 1, 0, 0, 0, 1, 0, 0, 0, 5, 0, 0, 0, 3,
];

#[test]
fn a_report_is_read_in_place(rt: HostRuntime) {
    let mut out = Vec::new(rt.alloc());
    put_report(&mut out, &ROWS).expect(&rt, "memory");
    let read = read_report(&out).expect(&rt, "a report");
    let rows = read.own(rt.alloc()).expect(&rt, "memory");
    assert!(rt; rows.as_slice() == ROWS.as_slice());
    assert!(rt; read_report(&TWICE).is_none());
}

/// A question for the leader of a group is read as it was written.
fn lookup_is_read(alloc: Global) -> Result<bool, NoMemory> {
    let mut out = Vec::new(alloc);
    put_group(&mut out, &GroupRef::new(VIEW, b"db"))?;
    match read_lookup(&out) {
        None => Ok(false),
        Some(group) => Ok(group.view() == VIEW && group.name() == b"db".as_slice()),
    }
}

/// The leader of a group is read as it was written.
fn leader_is_read(alloc: Global) -> Result<bool, NoMemory> {
    let leader = Leader {
        group: GroupRef::new(VIEW, b"db"),
        leader: 0,
    };
    let mut out = Vec::new(alloc);
    put_leader(&mut out, &leader)?;
    match read_leader(&out) {
        None => Ok(false),
        Some(read) => Ok(read.leader == 0),
    }
}

/// The length that is acknowledged is read as it was written.
fn ack_is_read(alloc: Global) -> Result<bool, NoMemory> {
    let ack = Ack {
        group: GroupRef::new(VIEW, b"db"),
        len: 4,
    };
    let mut out = Vec::new(alloc);
    put_ack(&mut out, &ack)?;
    match read_ack(&out) {
        None => Ok(false),
        Some(read) => Ok(read.len == 4),
    }
}

/// The provider that is gone is read as it was written.
fn gone_is_read(alloc: Global) -> Result<bool, NoMemory> {
    let provider = ProviderId {
        node: 1,
        inc: 1,
        instance: 7,
        join: 1,
    };
    let gone = Gone {
        group: GroupRef::new(VIEW, b"db"),
        provider,
    };
    let mut out = Vec::new(alloc);
    put_gone(&mut out, &gone)?;
    match read_gone(&out) {
        None => Ok(false),
        Some(read) => Ok(read.provider == provider),
    }
}

#[test]
fn bodies_of_groups(rt: HostRuntime) {
    let alloc = rt.alloc();
    assert!(rt; lookup_is_read(alloc).expect(&rt, "memory"));
    assert!(rt; leader_is_read(alloc).expect(&rt, "memory"));
    assert!(rt; ack_is_read(alloc).expect(&rt, "memory"));
    assert!(rt; gone_is_read(alloc).expect(&rt, "memory"));
}

/// A question is read as it was written.
fn query_is_read(alloc: Global) -> Result<bool, NoMemory> {
    let query = Query {
        question: 6,
        what: What::Hagsvote,
    };
    let mut out = Vec::new(alloc);
    put_query(&mut out, query)?;
    Ok(read_query(&out) == Some(query))
}

/// An answer is read as it was written.
fn reply_is_read(alloc: Global) -> Result<bool, NoMemory> {
    let mut out = Vec::new(alloc);
    put_reply(&mut out, 6, b"members=")?;
    match read_reply(&out) {
        None => Ok(false),
        Some(reply) => Ok(reply.question() == 6 && reply.text() == b"members=".as_slice()),
    }
}

#[test]
fn a_question_and_its_answer(rt: HostRuntime) {
    let alloc = rt.alloc();
    assert!(rt; query_is_read(alloc).expect(&rt, "memory"));
    assert!(rt; reply_is_read(alloc).expect(&rt, "memory"));
}
