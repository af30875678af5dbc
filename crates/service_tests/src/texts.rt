//! Lines of transcripts.
use client_callbacks::{Told, Why};
use node_state::Happened;
use rsct_packet::{List, Name, ProtoId, ProviderId, Providers, Text, ViewId};
use std::alloc::Global;
use std::process::Abort;
use std::test::Fail;
use transcript::{Kind, Kinds, fault_line, line_of};
use world_model::LineWhy;

fn view(number: u32) -> ViewId {
    ViewId {
        number,
        coord: 1,
        inc: 1,
    }
}

fn provider() -> ProviderId {
    ProviderId {
        node: 1,
        inc: 1,
        instance: 7,
        join: 1,
    }
}

fn name(rt: &impl Abort, alloc: Global) -> Name {
    Name::of(alloc, b"db")
        .ok()
        .expect(rt, "memory")
        .expect(rt, "a name")
}

#[test]
fn refusals_and_notes(rt: HostRuntime) -> Result<(), Fail> {
    let alloc = rt.alloc();
    let told = Happened::Told {
        provider: provider(),
        request: 4,
        why: Why::Collide(ProtoId {
            view: view(2),
            place: 3,
        }),
    };
    let line = line_of(alloc, &told)?;
    assert_eq!(rt;
        line.as_slice(),
        b"told 1.1.7.1 4 COLLIDE 2.1.1/3\n".as_slice()
    );
    let noted = Happened::Noted {
        node: 1,
        client: List::of(alloc, b"a")?,
        view: view(2),
        place: None,
        told: Told::Note {
            group: name(&rt, alloc),
            members: Providers::one(alloc, provider())?,
            value: Text::new(alloc),
        },
    };
    let line = line_of(alloc, &noted)?;
    assert_eq!(rt;
        line.as_slice(),
        b"noted 1.a 2.1.1 db - 1.1.7.1 =\n".as_slice()
    );
    let kinds = Kinds::read(b"noted").expect(&rt, "kinds");
    assert!(rt; kinds.shows(&noted));
    assert!(rt; !kinds.shows(&told));
    Ok(())
}

#[test]
fn words_of_kinds(rt: HostRuntime) {
    let mut kinds = Kinds::none();
    kinds.insert(Kind::Told);
    kinds.insert(Kind::Put);
    assert!(rt; kinds.contains(Kind::Told));
    assert!(rt; !kinds.contains(Kind::Noted));
    assert!(rt; Kinds::read(b"put,told") == Some(kinds));
    let all = b"up,down,ring,in,base,put,heard,cast,asked,told,noted,refused,show";
    assert!(rt; Kinds::read(all) == Some(Kinds::all()));
    for word in [
        b"".as_slice(),
        b"put,put".as_slice(),
        b"put,".as_slice(),
        b"put,shown".as_slice(),
        b"put told".as_slice(),
    ] {
        assert!(rt; Kinds::read(word).is_none());
    }
}

#[test]
fn faults(rt: HostRuntime) {
    let line = fault_line(rt.alloc(), 4_294_967_295, LineWhy::NoSharedNetwork);
    let line = line.expect(&rt, "memory");
    assert!(rt; line.as_slice() == b"hags: line 4294967295: no shared network\n".as_slice());
}
