//! Ballots of clients: what an object of someone else's fills, and a vote that comes later.
ghost use Rattle.std.specs.Prelude.{None};

use crate::calls::{letters, refused, taken};
use crate::hand::{hand_on, join_db, new_list, sessions, value};
use client_callbacks::{
    Ballot, BoxedClient, Callbacks, DaemonClient, Made, Notice, ScriptClient, Told,
};
use client_session::Sessions;
use proposal_core::{Entry, GroupList, Proposal, Vote};
use rsct_packet::{NoMemory, ProviderId};
use session_state::{Casts, Field, GsFault, MemberToken};
use std::alloc::Global;
use std::process::Abort;

/// An object that rejects wherever a vote is asked for.
#[derive(Drop)]
struct Rejecting {
    alloc: Global,
}

impl Callbacks for Rejecting {
    ghost stands_for = { λ c h. Unit {0} };

    ghost script = { λ c. None };

    fn notice(&mut self, _n: &Notice<'_>, ballot: &mut Ballot) -> Result<(), NoMemory> {
        ballot.set(self.alloc, Vote::Reject, None, None)?;
        Ok(())
    }

    fn told(&mut self, _t: &Told) -> Result<(), NoMemory> {
        Ok(())
    }
}

/// Hands on that the provider begins to set the value `x` by its second request.
fn begin<C: Callbacks>(
    rt: &impl Abort,
    alloc: Global,
    sessions: &mut Sessions<C>,
    list: &mut GroupList,
    provider: ProviderId,
) -> Casts {
    let value = value(rt, alloc);
    let e = Entry::Begin(Proposal::State {
        provider,
        request: 2,
        value,
    });
    hand_on(rt, alloc, sessions, list, &e)
}

/// The phase and the vote of the first cast, where a ballot was filled.
fn first_cast(casts: &Casts) -> Option<(u16, Vote)> {
    let (_, phase, ballot) = casts.get(0)?.cast.as_ref()?;
    Some((*phase, ballot.filled()?.vote))
}

/// The phase and the vote of the first kept ballot.
fn first_kept<C: Callbacks>(sessions: &Sessions<C>) -> Option<(u16, Vote)> {
    let kept = sessions.kept(0)?;
    Some((kept.phase, kept.ballot.filled()?.vote))
}

/// The vote that is cast at once where a provider of this client begins a protocol.
fn cast_at_once<C: Callbacks>(
    rt: &impl Abort,
    alloc: Global,
    sessions: &mut Sessions<C>,
    client: C,
) -> Option<(u16, Vote)> {
    let mut list = new_list(alloc);
    let (_, p) = join_db(rt, alloc, sessions, &mut list, client);
    let casts = begin(rt, alloc, sessions, &mut list, p);
    first_cast(&casts)
}

/// The ballot of a client that rejects is given out, and kept once.
fn rejects<C: Callbacks>(rt: &impl Abort, alloc: Global, client: C) {
    let mut s = sessions(alloc);
    let cast = cast_at_once(rt, alloc, &mut s, client);
    assert!(rt; cast == Some((1, Vote::Reject)));
    assert!(rt; first_kept(&s) == Some((1, Vote::Reject)));
    assert!(rt; s.kept(1).is_none());
}

#[test]
fn an_object_rejects(rt: HostRuntime) {
    let alloc = rt.alloc();
    let inner: Box<dyn Callbacks> = Box::new(alloc, Rejecting { alloc }).expect(&rt, "memory");
    rejects(&rt, alloc, DaemonClient::Boxed(BoxedClient { inner }));
}

/// The provider approves with this value.
fn cast(alloc: Global, sessions: &mut Sessions<ScriptClient>, value: &[u8]) -> Result<(), GsFault> {
    sessions.vote(alloc, MemberToken { number: 1 }, Vote::Approve, Some(value))
}

/// The provider approves with a value of so many bytes.
fn approve(
    alloc: Global,
    sessions: &mut Sessions<ScriptClient>,
    len: usize,
) -> Result<(), GsFault> {
    let value = letters(alloc, len)?;
    cast(alloc, sessions, value.as_slice())
}

/// A client that fills no ballot.
fn silent(rt: &impl Abort, alloc: Global) -> ScriptClient {
    let c = ScriptClient::made(alloc, b"-").expect(rt, "memory");
    c.expect(rt, "a client")
}

/// Nothing is cast at once, and the provider may vote.
fn open(rt: &impl Abort, alloc: Global, sessions: &mut Sessions<ScriptClient>) {
    let cast = cast_at_once(rt, alloc, sessions, silent(rt, alloc));
    assert!(rt; cast.is_none());
}

#[test]
fn a_vote_later(rt: HostRuntime) {
    let alloc = rt.alloc();
    let mut s = sessions(alloc);
    open(&rt, alloc, &mut s);
    let long = approve(alloc, &mut s, 257);
    refused(&rt, long, GsFault::BadParameter(Field::Value));
    taken(&rt, approve(alloc, &mut s, 256));
    refused(&rt, approve(alloc, &mut s, 1), GsFault::VoteNotExpected);
    assert!(rt; first_kept(&s) == Some((1, Vote::Approve)));
}

#[test]
fn no_vote_is_open(rt: HostRuntime) {
    let alloc = rt.alloc();
    let mut s = sessions(alloc);
    let mut list = new_list(alloc);
    join_db(&rt, alloc, &mut s, &mut list, silent(&rt, alloc));
    refused(&rt, approve(alloc, &mut s, 1), GsFault::VoteNotExpected);
}
