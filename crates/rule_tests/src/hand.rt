//! Handing the entries of the group `db` on, with no clause.
use client_callbacks::Callbacks;
use client_session::{PutEntry, Sessions};
use group_attr::Attrs;
use proposal_core::{Entry, GroupList, GroupState, Proposal};
use rsct_packet::{List, Name, ProviderId, Providers, Text, ViewId};
use session_state::{Casts, MemberToken};
use std::alloc::Global;
use std::process::Abort;
use subscribe_core::ClientToken;

const VIEW: ViewId = ViewId {
    number: 1,
    coord: 1,
    inc: 1,
};

/// No session, of node 1.
pub fn sessions<C: Callbacks>(alloc: Global) -> Sessions<C> {
    Sessions::new(alloc, 1, 1)
}

/// The list of a group that nobody has joined.
#[tactic(auto, unfolding(proposal_core::specs::Fold::joiners_fit, proposal_core::specs::Fold::joiners_fit_at))]
pub fn new_list(alloc: Global) -> GroupList {
    GroupList::new(alloc, GroupState::empty(alloc))
}

/// The name `db`.
fn db(rt: &impl Abort, alloc: Global) -> Name {
    let name = Name::of(alloc, b"db").expect(rt, "memory");
    name.expect(rt, "a name")
}

/// The value `x`.
pub fn value(rt: &impl Abort, alloc: Global) -> Text {
    let text = Text::of(alloc, b"x").expect(rt, "memory");
    text.expect(rt, "a text")
}

/// Puts an equal entry at the end of the list, and answers its place.
fn put(rt: &impl Abort, alloc: Global, list: &mut GroupList, entry: &Entry) -> u32 {
    let entry = entry.copy(alloc).expect(rt, "memory");
    assert!(rt; list.state().fits(&entry));
    assert!(rt; list.has_room(&entry));
    list.put(alloc, VIEW, entry).expect(rt, "memory")
}

/// Hands an entry on that stands at a place of the list, with the state before it.
fn hand<C: Callbacks>(
    rt: &impl Abort,
    alloc: Global,
    sessions: &mut Sessions<C>,
    place: u32,
    before: &GroupState,
    list: &GroupList,
    entry: &Entry,
) -> Casts {
    let g = db(rt, alloc);
    let put = PutEntry {
        view: VIEW,
        group: &g,
        place,
        entry,
        before,
        after: list.state(),
    };
    let mut out = List::new(alloc);
    sessions.hand_on(alloc, &put, &mut out).expect(rt, "memory");
    out
}

/// An equal state to that at the end of the list.
fn state(rt: &impl Abort, alloc: Global, list: &GroupList) -> GroupState {
    list.state().copy(alloc).expect(rt, "memory")
}

/// Puts an entry at the end of the list, and hands it on.
pub fn hand_on<C: Callbacks>(
    rt: &impl Abort,
    alloc: Global,
    sessions: &mut Sessions<C>,
    list: &mut GroupList,
    entry: &Entry,
) -> Casts {
    let before = state(rt, alloc, list);
    let place = put(rt, alloc, list, entry);
    hand(rt, alloc, sessions, place, &before, list, entry)
}

/// Opens the session of a client.
fn init<C: Callbacks>(
    rt: &impl Abort,
    alloc: Global,
    sessions: &mut Sessions<C>,
    client: C,
) -> ClientToken {
    sessions.init(alloc, b"a", client).expect(rt, "a session")
}

/// The client joins the group.
fn join<C: Callbacks>(
    rt: &impl Abort,
    alloc: Global,
    sessions: &mut Sessions<C>,
    client: ClientToken,
) -> MemberToken {
    sessions
        .join(alloc, client, b"db", 7, Attrs::empty())
        .expect(rt, "a provider")
}

/// The oldest provider.
pub fn first_provider<C: Callbacks>(rt: &impl Abort, sessions: &Sessions<C>) -> ProviderId {
    sessions.provider(0).expect(rt, "a provider").provider
}

/// The entry by which a provider joins.
fn join_of(rt: &impl Abort, alloc: Global, provider: ProviderId) -> Entry {
    Entry::Once(Proposal::Join {
        ps: Providers::one(alloc, provider).expect(rt, "memory"),
        attrs: Attrs::empty(),
        source_len: None,
    })
}

/// Hands the join of a provider on, which is handed to it alone.
fn hand_join_on<C: Callbacks>(
    rt: &impl Abort,
    alloc: Global,
    sessions: &mut Sessions<C>,
    list: &mut GroupList,
    provider: ProviderId,
) {
    let e = join_of(rt, alloc, provider);
    let casts = hand_on(rt, alloc, sessions, list, &e);
    assert!(rt; casts.len() == 1);
}

/// Has the provider joined, and has it no request?
fn has_joined<C: Callbacks>(sessions: &Sessions<C>, provider: ProviderId) -> bool {
    sessions.live(provider) && sessions.request(0).is_none()
}

/// Opens a session whose client joins the group, and hands the join on.
pub fn join_db<C: Callbacks>(
    rt: &impl Abort,
    alloc: Global,
    sessions: &mut Sessions<C>,
    list: &mut GroupList,
    client: C,
) -> (MemberToken, ProviderId) {
    let t = init(rt, alloc, sessions, client);
    let m = join(rt, alloc, sessions, t);
    let p = first_provider(rt, sessions);
    hand_join_on(rt, alloc, sessions, list, p);
    assert!(rt; has_joined(sessions, p));
    (m, p)
}
