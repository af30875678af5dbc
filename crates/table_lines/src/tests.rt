//! Lines of copies, as they are printed, and names in order.
use super::*;
use crate::parts::put_map;
use agreed_table::Table;
use client_callbacks::{Ballot, Callbacks, Notice};
use group_attr::Attrs;
use proposal_core::{Entry, GroupState, Proposal};
use rsct_packet::{List, NoMemory, ProviderId, Providers, ViewId};
use session_state::Session;
use std::alloc::Global;
use subscribe_core::ClientToken;
use table_client::TableClient;

const VIEW: ViewId = ViewId {
    number: 2,
    coord: 1,
    inc: 3,
};

const FIRST: ProviderId = ProviderId {
    node: 1,
    inc: 3,
    instance: 7,
    join: 1,
};

const SECOND: ProviderId = ProviderId {
    node: 1,
    inc: 3,
    instance: 8,
    join: 2,
};

/// The text of the map that these messages write.
fn map_text(alloc: Global, messages: &[&[u8]]) -> Result<Vec<u8>, NoMemory> {
    let mut table = Table::new(alloc);
    for message in messages {
        if message.len() <= 100 {
            table.write(alloc, message)?;
        }
    }
    let mut out = Vec::new(alloc);
    put_map(&mut out, &Some(table))?;
    Ok(out)
}

/// Hands a client the first entry of a group's list, by which its own provider joins.
fn join(
    alloc: Global,
    client: &mut TableClient,
    provider: ProviderId,
    group: &[u8],
) -> Result<(), NoMemory> {
    let entry = Entry::Once(Proposal::Join {
        ps: Providers::one(alloc, provider)?,
        attrs: Attrs::empty(),
        source_len: None,
    });
    let mut state = GroupState::empty(alloc);
    if state.fits(&entry) && state.do_joiners_fit() {
        state.apply(alloc, VIEW, 0, &entry)?;
    }
    let notice = Notice {
        provider,
        view: VIEW,
        group,
        place: 0,
        entry: &entry,
        after: &state,
        votes: false,
    };
    client.notice(&notice, &mut Ballot::new(false, 1))
}

/// The lines of the copies of a group, of a client that has joined two.
fn copies_text(alloc: Global, group: &[u8]) -> Result<Vec<u8>, NoMemory> {
    let mut client = TableClient::new(alloc);
    join(alloc, &mut client, SECOND, b"db")?;
    join(alloc, &mut client, FIRST, b"log")?;
    let mut out = Vec::new(alloc);
    put_copies(&mut out, &client, group)?;
    Ok(out)
}

fn session(alloc: Global, number: u32, name: &[u8]) -> Result<Session, NoMemory> {
    Ok(Session {
        token: ClientToken { number },
        name: List::of(alloc, name)?,
    })
}

/// The names of four sessions, each behind a space.
fn ordered(alloc: Global) -> Result<Vec<u8>, NoMemory> {
    let mut sessions = Vec::new(alloc);
    sessions.push(session(alloc, 1, b"b")?)?;
    sessions.push(session(alloc, 2, b"a.b")?)?;
    sessions.push(session(alloc, 4, b"ab")?)?;
    sessions.push(session(alloc, 9, b"a")?)?;
    let names = client_names(alloc, sessions.as_slice())?;
    let mut text = Vec::new(alloc);
    for name in names.as_slice() {
        text.push(b' ')?;
        text.extend_from_slice(name.as_slice())?;
    }
    Ok(text)
}

#[test]
fn pairs_are_escaped(rt: HostRuntime) {
    let alloc = rt.alloc();
    let none = map_text(alloc, &[]).expect(&rt, "memory");
    assert!(rt; none.as_slice() == b"whole -".as_slice());
    let two = map_text(alloc, &[b"y= =%".as_slice(), b"a,b=".as_slice()]).expect(&rt, "memory");
    assert!(rt; two.as_slice() == b"whole a%2Cb=,y=%20%3D%25".as_slice());
}

#[test]
fn lines_are_of_one_group(rt: HostRuntime) {
    let alloc = rt.alloc();
    let db = copies_text(alloc, b"db").expect(&rt, "memory");
    assert!(rt; db.as_slice() == b"table 1.3.8.2 2.1.3 1 whole -\n".as_slice());
    let log = copies_text(alloc, b"log").expect(&rt, "memory");
    assert!(rt; log.as_slice() == b"table 1.3.7.1 2.1.3 1 whole -\n".as_slice());
    let none = copies_text(alloc, b"d").expect(&rt, "memory");
    assert!(rt; none.is_empty());
}

#[test]
fn names_are_in_the_order_of_their_bytes(rt: HostRuntime) {
    let names = ordered(rt.alloc()).expect(&rt, "memory");
    assert!(rt; names.as_slice() == b" a a.b ab b".as_slice());
}
