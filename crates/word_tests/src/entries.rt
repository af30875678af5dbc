//! Attributes, proposals, votes, entries, and why something is refused.
use client_callbacks::Why;
use entry_words::{
    attr_words, put_attrs, put_entry, put_fault, put_phase, put_proposal, put_running,
    put_what_word, put_why,
};
use group_attr::{AttrFault, Attrs, Batch, DefaultVote, Phases};
use proposal_core::{Cause, Closed, Entry, Failure, Proposal, Row, RowVote, Running, Vote};
use rsct_packet::{List, Name, ProtoId, ProviderId, Providers, Text, ViewId};
use session_state::{Field, GsFault};
use std::alloc::Global;
use std::process::Abort;
use std::test::Fail;
use value_words::{WordFault, Words};

const PROVIDER: ProviderId = ProviderId {
    node: 1,
    inc: 2,
    instance: 7,
    join: 3,
};

const PROTO: ProtoId = ProtoId {
    view: ViewId {
        number: 3,
        coord: 1,
        inc: 2,
    },
    place: 4,
};

fn text(rt: &impl Abort, alloc: Global, bytes: &[u8]) -> Text {
    Text::of(alloc, bytes)
        .ok()
        .expect(rt, "memory")
        .expect(rt, "a text")
}

/// Attributes of which none is as in the empty state.
fn all_attrs(rt: &impl Abort, alloc: Global) -> Attrs {
    let source = Name::of(alloc, b"up")
        .ok()
        .expect(rt, "memory")
        .expect(rt, "a name");
    Attrs {
        phases: Phases::Many,
        batch: Batch::Joins,
        default_vote: DefaultVote::Reject,
        limit: 5,
        source: Some(source),
        source_phases: Phases::Many,
        source_limit: 6,
    }
}

#[test]
fn attributes(rt: HostRuntime) -> Result<(), Fail> {
    let alloc = rt.alloc();
    let attrs = all_attrs(&rt, alloc);
    let mut out = Vec::new(alloc);
    put_attrs(&mut out, &attrs)?;
    let words = b" phases=n batch=joins default=reject limit=5 source=up sphases=n slimit=6";
    assert_eq!(rt; out.as_slice(), words.as_slice());
    let read = attr_words(alloc, &mut Words::of(words)).expect(&rt, "attributes");
    assert!(rt; read.agrees(&attrs));
    assert!(rt; read.limit == 5 && read.source_limit == 6);
    let mut plain = Vec::new(alloc);
    put_attrs(&mut plain, &Attrs::empty())?;
    assert!(rt; plain.is_empty());
    let twice = attr_words(alloc, &mut Words::of(b"limit=1 limit=2"));
    assert!(rt; twice.err() == Some(WordFault::BadWord));
    Ok(())
}

fn proposed(rt: &impl Abort, alloc: Global, proposal: &Proposal, want: &[u8]) {
    let mut out = Vec::new(alloc);
    put_proposal(&mut out, proposal).expect(rt, "memory");
    assert_eq!(rt; out.as_slice(), want);
}

#[test]
fn proposals(rt: HostRuntime) -> Result<(), Fail> {
    let alloc = rt.alloc();
    let join = Proposal::Join {
        ps: Providers::one(alloc, PROVIDER)?,
        attrs: all_attrs(&rt, alloc),
        source_len: Some(9),
    };
    let words =
        b"join 1.2.7.3 phases=n batch=joins default=reject limit=5 source=up sphases=n slimit=6 src=9";
    proposed(&rt, alloc, &join, words);
    let leave = Proposal::Leave {
        provider: PROVIDER,
        request: 5,
    };
    proposed(&rt, alloc, &leave, b"leave 1.2.7.3/5");
    let failures = [
        Failure {
            provider: PROVIDER,
            cause: Cause::Died,
        },
        Failure {
            provider: PROVIDER,
            cause: Cause::Cast,
        },
    ];
    let fail = Proposal::Fail {
        out: List::of(alloc, failures.as_slice())?,
    };
    proposed(&rt, alloc, &fail, b"fail 1.2.7.3:died,1.2.7.3:cast");
    let expel = Proposal::Expel {
        provider: PROVIDER,
        request: 5,
        out: Providers::one(alloc, PROVIDER)?,
    };
    proposed(&rt, alloc, &expel, b"expel 1.2.7.3/5 1.2.7.3");
    let state = Proposal::State {
        provider: PROVIDER,
        request: 5,
        value: text(&rt, alloc, b"a b"),
    };
    proposed(&rt, alloc, &state, b"state 1.2.7.3/5 =a%20b");
    let message = Proposal::Message {
        provider: PROVIDER,
        request: 5,
        bytes: text(&rt, alloc, b""),
    };
    proposed(&rt, alloc, &message, b"message 1.2.7.3/5 =");
    let attrs = Proposal::Attributes {
        provider: PROVIDER,
        request: 5,
        attrs: Attrs::empty(),
    };
    proposed(&rt, alloc, &attrs, b"attrs 1.2.7.3/5");
    let reflect = Proposal::Reflect {
        view: PROTO.view,
        place: 4,
        value: text(&rt, alloc, b"x"),
    };
    proposed(&rt, alloc, &reflect, b"reflect 3.1.2/4 =x");
    Ok(())
}

fn put(rt: &impl Abort, alloc: Global, entry: &Entry, want: &[u8]) {
    let mut out = Vec::new(alloc);
    put_what_word(&mut out, entry).expect(rt, "memory");
    put_entry(&mut out, entry).expect(rt, "memory");
    assert_eq!(rt; out.as_slice(), want);
}

fn closed(alloc: Global, value: Option<Text>) -> Result<Closed, Fail> {
    let rows = [
        Row {
            provider: PROVIDER,
            vote: RowVote::Cast(Vote::Continue),
        },
        Row {
            provider: PROVIDER,
            vote: RowVote::Late(DefaultVote::Reject),
        },
        Row {
            provider: PROVIDER,
            vote: RowVote::Failed(DefaultVote::Approve),
        },
    ];
    Ok(Closed {
        proto: PROTO,
        phase: 2,
        rows: List::of(alloc, rows.as_slice())?,
        value,
        message: None,
    })
}

#[test]
fn entries(rt: HostRuntime) -> Result<(), Fail> {
    let alloc = rt.alloc();
    let leave = Proposal::Leave {
        provider: PROVIDER,
        request: 5,
    };
    put(
        &rt,
        alloc,
        &Entry::Once(leave),
        b"once-leave once leave 1.2.7.3/5",
    );
    let fail = Proposal::Fail {
        out: List::new(alloc),
    };
    put(&rt, alloc, &Entry::Begin(fail), b"begin-fail begin fail -");
    let phase = Entry::Phase(closed(alloc, None)?);
    put(
        &rt,
        alloc,
        &phase,
        b"phase phase 3.1.2/4 2 1.2.7.3=C,1.2.7.3=LR,1.2.7.3=FA -",
    );
    let approve = Entry::Approve(closed(alloc, Some(text(&rt, alloc, b"v")))?);
    put(
        &rt,
        alloc,
        &approve,
        b"approve approve 3.1.2/4 2 1.2.7.3=C,1.2.7.3=LR,1.2.7.3=FA =v",
    );
    let reject = Entry::Reject(closed(alloc, None)?);
    put(
        &rt,
        alloc,
        &reject,
        b"reject reject 3.1.2/4 2 1.2.7.3=C,1.2.7.3=LR,1.2.7.3=FA",
    );
    let late = Entry::Late {
        proto: PROTO,
        phase: 2,
        ps: Providers::one(alloc, PROVIDER)?,
    };
    put(&rt, alloc, &late, b"late late 3.1.2/4 2 1.2.7.3");
    Ok(())
}

#[test]
fn what_runs(rt: HostRuntime) -> Result<(), Fail> {
    let alloc = rt.alloc();
    let run = Running {
        proto: PROTO,
        proposal: Proposal::Leave {
            provider: PROVIDER,
            request: 5,
        },
        phase: 2,
        proposed: None,
    };
    let mut out = Vec::new(alloc);
    put_phase(&mut out, PROTO, 200)?;
    put_running(&mut out, &Some(run))?;
    put_running(&mut out, &None)?;
    assert_eq!(rt; out.as_slice(), b"3.1.2/4 200 3.1.2/4:2-".as_slice());
    Ok(())
}

#[test]
fn refusals(rt: HostRuntime) -> Result<(), Fail> {
    let mut out = Vec::new(rt.alloc());
    put_why(&mut out, Why::Collide(PROTO))?;
    out.push(b';')?;
    put_why(&mut out, Why::ListFull(7, 8))?;
    out.push(b';')?;
    put_why(&mut out, Why::NoSource(9))?;
    out.push(b';')?;
    put_fault(&mut out, GsFault::BadParameter(Field::Targets))?;
    out.push(b';')?;
    put_fault(
        &mut out,
        GsFault::BadGroupAttributes(AttrFault::SourceLimit(3)),
    )?;
    out.push(b';')?;
    put_fault(&mut out, GsFault::Collide(4))?;
    let want =
        b"COLLIDE 3.1.2/4;LIST_FULL 7/8;NO_SOURCE_GROUP_PROVIDER 9;BAD_PARAMETER targets;BAD_GROUP_ATTRIBUTES slimit;COLLIDE 4";
    assert_eq!(rt; out.as_slice(), want.as_slice());
    Ok(())
}
