//! What a leader decides of requests.
ghost use Rattle.std.specs.Prelude.{◌≡◌, []};

use client_callbacks::{SteadyClient, Why};
use group_attr::{Attrs, Phases};
use group_deciding::{decide, known_state, lacks_source, refuse, source_len};
use name_server::Names;
use node_groups::waiting_joins;
use node_reach::Reach;
use node_state::{Body, Config, Core, Mode, Table};
use proposal_core::Proposal;
use rsct_packet::{List, Mask, Name, ProviderId, Providers, ViewId};
use session_state::{Locals, Request, SessionState};
use std::alloc::Global;
use std::process::Abort;
use subscribe_core::Subs;
use view_state::Views;

const VIEW: ViewId = ViewId {
    number: 1,
    coord: 1,
    inc: 1,
};

fn provider(instance: u16) -> ProviderId {
    ProviderId {
        node: 1,
        inc: 1,
        instance,
        join: u32::from(instance),
    }
}

fn config() -> Config {
    Config {
        mode: Mode::Fixed,
        nodes: Mask::empty(),
        addr: [[0; 32]; 4],
        every: 10,
        misses: 4,
        port: 12348,
        level_from: [0; 32],
        domain: 0,
    }
}

fn sessions(alloc: Global) -> SessionState
    ensures none { result.sessions ≡ [] }
    ensures level { result.level ≡ 1 }
{
    SessionState {
        me: 1,
        inc: 1,
        level: 1,
        last_request: 0,
        last_client: 0,
        sessions: List::new(alloc),
        providers: Locals::new(alloc),
        requests: List::new(alloc),
        subs: Subs::new(alloc),
        kept: List::new(alloc),
    }
}

/// Node 1 of a view in which it has no group and no client.
fn node(rt: &impl Abort, alloc: Global) -> Core
    ensures groups { result.groups ≡ [] }
    ensures none { result.sessions.sessions ≡ [] }
    ensures level { result.sessions.level ≡ 1 }
{
    Core {
        config: config(),
        views: Views::new(1, 1, VIEW, List::new(alloc)),
        names: Names::of_install(alloc, &List::new(alloc)).expect(rt, "memory"),
        groups: Table {
            rows: Vec::new(alloc),
        },
        sessions: sessions(alloc),
        rings: List::new(alloc),
        reach: Reach::new(1, 1),
        sends: List::new(alloc),
        records: List::new(alloc),
    }
}

fn name(rt: &impl Abort, alloc: Global) -> Name {
    let name = Name::of(alloc, b"db").expect(rt, "memory");
    name.expect(rt, "a name")
}

fn asks(rt: &impl Abort, alloc: Global, provider: ProviderId, proposal: Proposal) -> Request {
    Request {
        provider,
        request: provider.join,
        group: name(rt, alloc),
        phases: Phases::One,
        proposal,
    }
}

fn join(rt: &impl Abort, alloc: Global, provider: ProviderId) -> Proposal {
    Proposal::Join {
        ps: Providers::one(alloc, provider).expect(rt, "memory"),
        attrs: Attrs::empty(),
        source_len: None,
    }
}

/// Why the last packet tells that a request is refused.
fn told(core: &Core) -> Option<Why> {
    let packets = core.sends.as_slice();
    match &packets.last()?.body {
        Body::Tell { why, .. } => Some(*why),
        _ => None,
    }
}

#[test]
fn joins_wait_and_strangers_are_refused(rt: HostRuntime) {
    let alloc = rt.alloc();
    let g = name(&rt, alloc);
    let mut core = node(&rt, alloc);
    let mut clients: Vec<SteadyClient> = Vec::new(alloc);
    let first = asks(&rt, alloc, provider(1), join(&rt, alloc, provider(1)));
    decide(&mut core, &mut clients, alloc, &first).expect(&rt, "memory");
    assert!(rt; waiting_joins(&core, g.bytes()) == 1);
    assert!(rt; told(&core).is_none());
    decide(&mut core, &mut clients, alloc, &first).expect(&rt, "memory");
    assert!(rt; told(&core) == Some(Why::DuplicateInstance));
    let leave = Proposal::Leave {
        provider: provider(2),
        request: 2,
    };
    let second = asks(&rt, alloc, provider(2), leave);
    decide(&mut core, &mut clients, alloc, &second).expect(&rt, "memory");
    assert!(rt; told(&core) == Some(Why::NotAMember));
    refuse(&mut core, alloc, &g, provider(3), 3, Why::BadAttributes).expect(&rt, "memory");
    assert!(rt; told(&core) == Some(Why::BadAttributes));
}

#[test]
fn a_group_without_a_list_is_no_source(rt: HostRuntime) {
    let alloc = rt.alloc();
    let core = node(&rt, alloc);
    let source = Some(name(&rt, alloc));
    assert!(rt; known_state(&core, b"db").is_none());
    assert!(rt; lacks_source(&core, &source, 1));
    assert!(rt; !lacks_source(&core, &None, 1));
    assert!(rt; source_len(&core, &source) == 0);
}
