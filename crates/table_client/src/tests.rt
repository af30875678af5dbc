//! What no clause says: that a client that is handed notices has its copies, and that what one voter sends is what a joiner
//! reads.
use super::*;
use client_callbacks::{Ballot, Callbacks, Made, Notice, Told, Why};
use group_attr::Attrs;
use proposal_core::{Closed, Entry, GroupState, Proposal, Vote};
use rsct_packet::{List, NoMemory, ProtoId, ProviderId, Providers, Text, ViewId};
use std::alloc::Global;

const VIEW: ViewId = ViewId {
    number: 1,
    coord: 1,
    inc: 1,
};

const FIRST: ProviderId = ProviderId {
    node: 1,
    inc: 1,
    instance: 1,
    join: 1,
};

const SECOND: ProviderId = ProviderId {
    node: 1,
    inc: 1,
    instance: 2,
    join: 3,
};

/// A group as its list makes it, and a client of both providers.
#[derive(Drop)]
struct Heard {
    client: TableClient,
    state: GroupState,
    place: u32,
}

/// Is a vote asked for?
fn opens(entry: &Entry) -> bool {
    match entry {
        Entry::Begin(_) => true,
        Entry::Phase(_) => true,
        _ => false,
    }
}

impl Heard {
    fn new(alloc: Global) -> Heard {
        Heard {
            client: TableClient::new(alloc),
            state: GroupState::empty(alloc),
            place: 0,
        }
    }

    /// Hands an entry to the client for a provider; answers the ballot.
    fn hand(
        &mut self,
        alloc: Global,
        provider: ProviderId,
        entry: &Entry,
    ) -> Result<Ballot, NoMemory> {
        let votes = opens(entry);
        let mut ballot = Ballot::new(votes, 1);
        let notice = Notice {
            provider,
            view: VIEW,
            group: b"db",
            place: self.place,
            entry,
            after: &self.state,
            votes,
        };
        self.client.notice(&notice, &mut ballot)?;
        Ok(ballot)
    }

    /// The next entry of the list, for both providers; answers the ballot of the first.
    fn next(&mut self, alloc: Global, entry: &Entry) -> Result<Ballot, NoMemory> {
        if self.state.fits(entry) && self.state.do_joiners_fit() {
            self.state.apply(alloc, VIEW, self.place, entry)?;
        }
        let ballot = self.hand(alloc, FIRST, entry)?;
        if self.state.is_present(SECOND) {
            self.hand(alloc, SECOND, entry)?;
        }
        self.place = self.place.saturating_add(1);
        Ok(ballot)
    }

    /// The second provider joins by a vote, to which the first one's message goes; then the first one writes once more.
    fn second_joins(&mut self, alloc: Global) -> Result<Ballot, NoMemory> {
        let begun = self.place;
        let ballot = self.next(alloc, &join_of(alloc, SECOND)?)?;
        let message = match ballot.get() {
            Some((_, _, Some(bytes))) => Text::of(alloc, bytes)?,
            _ => None,
        };
        self.next(alloc, &approve_of(alloc, begun, message))?;
        self.next(alloc, &message_of(alloc, b"y=2")?)?;
        Ok(ballot)
    }
}

fn join_of(alloc: Global, provider: ProviderId) -> Result<Entry, NoMemory> {
    Ok(Entry::Begin(Proposal::Join {
        ps: Providers::one(alloc, provider)?,
        attrs: Attrs::empty(),
        source_len: None,
    }))
}

fn approve_of(alloc: Global, begun: u32, message: Option<Text>) -> Entry {
    Entry::Approve(Closed {
        proto: ProtoId {
            view: VIEW,
            place: begun,
        },
        phase: 1,
        rows: List::new(alloc),
        value: None,
        message,
    })
}

fn message_of(alloc: Global, bytes: &[u8]) -> Result<Entry, NoMemory> {
    let bytes = match Text::of(alloc, bytes)? {
        None => Text::new(alloc),
        Some(bytes) => bytes,
    };
    Ok(Entry::Once(Proposal::Message {
        provider: FIRST,
        request: 2,
        bytes,
    }))
}

/// The first provider joins by a vote and writes `x=1`.
fn one_member(alloc: Global) -> Result<Heard, NoMemory> {
    let mut heard = Heard::new(alloc);
    heard.next(alloc, &join_of(alloc, FIRST)?)?;
    heard.next(alloc, &approve_of(alloc, 0, None))?;
    heard.next(alloc, &message_of(alloc, b"x=1")?)?;
    Ok(heard)
}

/// Is the copy of a provider whole, of so many entries, and the map from `x` to `1` and from `y` to `2`?
fn has_both_pairs(client: &TableClient, provider: ProviderId, len: u32) -> bool {
    match client.copy(provider) {
        None => false,
        Some(copy) => match &copy.map {
            None => false,
            Some(map) => {
                copy.view == VIEW
                    && copy.len == len
                    && map.pairs().count() == 2
                    && map.get(b"x") == Some(b"1".as_slice())
                    && map.get(b"y") == Some(b"2".as_slice())
            }
        },
    }
}

/// The only chunk of the map from `x` to `1`.
const CHUNK: [u8; 11] = [b'T', 0, 0, 0, 1, 0, 1, b'x', 0, 1, b'1'];

#[test]
fn a_joiner_gets_the_map_with_the_vote(rt: HostRuntime) {
    let alloc = rt.alloc();
    let mut heard = one_member(alloc).expect(&rt, "memory");
    let ballot = heard.second_joins(alloc).expect(&rt, "memory");
    assert!(rt; ballot.get() == Some((Vote::Approve, None, Some(CHUNK.as_slice()))));
    assert!(rt; has_both_pairs(&heard.client, FIRST, 6));
    assert!(rt; has_both_pairs(&heard.client, SECOND, 6));
}

#[test]
fn copies_stand_by_provider_until_dissolved(rt: HostRuntime) {
    let alloc = rt.alloc();
    let mut heard = one_member(alloc).expect(&rt, "memory");
    heard.second_joins(alloc).expect(&rt, "memory");
    let (provider, group, _) = heard.client.copy_at(1).expect(&rt, "a copy");
    assert!(rt; provider == SECOND);
    assert!(rt; group == b"db".as_slice());
    assert!(rt; heard.client.copy_at(2).is_none());
    let told = Told::Refused {
        provider: FIRST,
        request: 0,
        why: Why::Dissolved,
    };
    heard.client.told(&told).expect(&rt, "memory");
    assert!(rt; heard.client.copy(FIRST).is_none());
    assert!(rt; has_both_pairs(&heard.client, SECOND, 6));
}

#[test]
fn any_votes_word_makes_a_client(rt: HostRuntime) {
    let alloc = rt.alloc();
    assert!(rt;
        TableClient::made(alloc, b"R")
            .expect(&rt, "memory")
            .is_some()
    );
    assert!(rt;
        TableClient::made(alloc, b"boxed")
            .expect(&rt, "memory")
            .is_none()
    );
}
