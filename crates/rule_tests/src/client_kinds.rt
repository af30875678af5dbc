//! What no clause says: that the calls succeed where there is memory, and what each kind of client does.
ghost use Rattle.std.specs.Prelude.{None};

use client_callbacks::{
    Ballot, BoxedClient, Callbacks, DaemonClient, Made, Notice, ScriptClient, SteadyClient, Told,
    VoteItem, vote_word, votes_word,
};
use proposal_core::{Entry, GroupState, Vote};
use rsct_packet::{List, NoMemory, ProtoId, ProviderId, Providers, ViewId};
use std::alloc::Global;
use std::process::Abort;
use value_words::text_word;

/// An object that rejects wherever a vote is asked for.
#[derive(Drop)]
struct Rejecting {
    alloc: Global,
}

impl Callbacks for Rejecting {
    ghost stands_for = { λ c h. Unit {0} };

    ghost script = { λ c. None };

    fn notice(&mut self, _n: &Notice<'_>, ballot: &mut Ballot) -> Result<(), NoMemory> {
        ballot.set(self.alloc, Vote::Reject, None, None)?;
        Ok(())
    }

    fn told(&mut self, _t: &Told) -> Result<(), NoMemory> {
        Ok(())
    }
}

const VIEW: ViewId = ViewId {
    number: 1,
    coord: 1,
    inc: 1,
};

const PROVIDER: ProviderId = ProviderId {
    node: 1,
    inc: 1,
    instance: 7,
    join: 1,
};

/// The ballot that a client leaves at a notice of an empty state.
fn ballot_of<C: Callbacks>(rt: &impl Abort, alloc: Global, client: &mut C) -> Ballot {
    let entry = Entry::Late {
        proto: ProtoId {
            view: VIEW,
            place: 0,
        },
        phase: 1,
        ps: Providers::new(alloc),
    };
    let after = GroupState::empty(alloc);
    let n = Notice {
        provider: PROVIDER,
        view: VIEW,
        group: b"db",
        place: 0,
        entry: &entry,
        after: &after,
        votes: true,
    };
    let mut b = Ballot::new(true, 1);
    client.notice(&n, &mut b).expect(rt, "memory");
    b
}

/// A client of a daemon that votes as a votes word says; none where it is none.
fn scripted(rt: &impl Abort, alloc: Global, votes: &[u8]) -> Option<DaemonClient> {
    match ScriptClient::made(alloc, votes).expect(rt, "memory") {
        None => None,
        Some(c) => Some(DaemonClient::Script(c)),
    }
}

/// Is it filled with this vote and value, and no message?
fn is_cast(ballot: &Ballot, vote: Vote, value: &[u8]) -> bool {
    match ballot.get() {
        Some((v, Some(bytes), None)) => v == vote && bytes == value,
        _ => false,
    }
}

/// Does a client with this votes word continue with this value?
fn continues(rt: &impl Abort, alloc: Global, votes: &[u8], value: &[u8]) -> bool {
    let mut c = scripted(rt, alloc, votes).expect(rt, "a client");
    is_cast(&ballot_of(rt, alloc, &mut c), Vote::Continue, value)
}

#[test]
fn scripts_vote(rt: HostRuntime) {
    let alloc = rt.alloc();
    assert!(rt; continues(&rt, alloc, b"C=%41,-,R", b"A"));
    assert!(rt; scripted(&rt, alloc, b"boxed").is_none());
}

/// Is it filled with this vote?
fn has_vote(ballot: &Ballot, vote: Vote) -> bool {
    match ballot.filled() {
        None => false,
        Some(f) => f.vote == vote,
    }
}

/// The ballot of the object of this test's own, as a daemon holds it.
fn boxed_ballot(rt: &impl Abort, alloc: Global) -> Ballot {
    let inner: Box<dyn Callbacks> = Box::new(alloc, Rejecting { alloc }).expect(rt, "memory");
    ballot_of(rt, alloc, &mut DaemonClient::Boxed(BoxedClient { inner }))
}

#[test]
fn objects_vote(rt: HostRuntime) {
    let alloc = rt.alloc();
    let steady = ballot_of(&rt, alloc, &mut SteadyClient { alloc });
    assert!(rt; has_vote(&steady, Vote::Approve));
    assert!(rt; has_vote(&boxed_ballot(&rt, alloc), Vote::Reject));
}

/// Fills a ballot with an approval, this value and the message `hi`, and answers whether it could.
fn fill(rt: &impl Abort, alloc: Global, ballot: &mut Ballot, value: &[u8]) -> bool {
    ballot
        .set(alloc, Vote::Approve, Some(value), Some(b"hi"))
        .expect(rt, "memory")
}

/// Is it filled with an approval, this value and the message `hi`?
fn is_filled(ballot: &Ballot, value: &[u8]) -> bool {
    match ballot.get() {
        Some((Vote::Approve, Some(v), Some(m))) => v == value && m == b"hi".as_slice(),
        _ => false,
    }
}

/// An equal ballot.
fn copied(rt: &impl Abort, alloc: Global, ballot: &Ballot) -> Ballot {
    ballot.copy(alloc).expect(rt, "memory")
}

#[test]
fn limits_of_ballots(rt: HostRuntime) {
    let alloc = rt.alloc();
    let long = [65u8; 257];
    let mut b = Ballot::new(true, 1);
    assert!(rt; !fill(&rt, alloc, &mut b, &long));
    assert!(rt; fill(&rt, alloc, &mut b, &long[..256]));
    assert!(rt; !fill(&rt, alloc, &mut b, b"x"));
    assert!(rt; is_filled(&copied(&rt, alloc, &b), &long[..256]));
}

/// The text that a word stands for.
fn text(rt: &impl Abort, alloc: Global, word: &[u8]) -> Option<List<u8>> {
    text_word(alloc, word).expect(rt, "memory")
}

/// Is it there, with these bytes?
fn is_text(text: &Option<List<u8>>, bytes: &[u8]) -> bool {
    match text {
        None => false,
        Some(text) => text.as_slice() == bytes,
    }
}

/// Is it a rejection with an empty value?
fn is_bare_rejection(item: &VoteItem) -> bool {
    match &item.value {
        None => false,
        Some(value) => item.vote == Vote::Reject && value.is_empty(),
    }
}

/// The vote that a word stands for.
fn vote(rt: &impl Abort, alloc: Global, word: &[u8]) -> VoteItem {
    let item = vote_word(alloc, word).expect(rt, "memory");
    item.expect(rt, "a vote word")
}

/// How many items a votes word has.
fn count_of(rt: &impl Abort, alloc: Global, word: &[u8]) -> usize {
    let items = votes_word(alloc, word).expect(rt, "memory");
    items.expect(rt, "a votes word").len()
}

#[test]
fn words(rt: HostRuntime) {
    let alloc = rt.alloc();
    assert!(rt; is_text(&text(&rt, alloc, b"%41b"), b"Ab"));
    assert!(rt; text(&rt, alloc, b"%4").is_none());
    assert!(rt; is_bare_rejection(&vote(&rt, alloc, b"R=~")));
    assert!(rt; count_of(&rt, alloc, b"A,-") == 2);
}
