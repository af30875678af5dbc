//! The last numbers, which no test reaches by the calls of sessions alone.
use crate::calls::{answered, refused};
use group_attr::Attrs;
use rsct_packet::List;
use session_calls::{add_session, check_init};
use session_state::{GsFault, Locals, SessionState};
use std::alloc::Global;
use subscribe_core::{ClientToken, Subs};

/// The state of a node of which one client's and one request's number are left.
fn nearly_spent(alloc: Global) -> SessionState {
    SessionState {
        me: 1,
        inc: 1,
        level: 1,
        last_request: u32::MAX - 1,
        last_client: u32::MAX - 1,
        sessions: List::new(alloc),
        providers: Locals::new(alloc),
        requests: List::new(alloc),
        subs: Subs::new(alloc),
        kept: List::new(alloc),
    }
}

/// Adds a session of this name, and answers its number.
fn add(alloc: Global, sessions: &mut SessionState, name: &[u8]) -> Result<u32, GsFault> {
    check_init(sessions, name)?;
    let t = add_session(sessions, alloc, name)?;
    Ok(t.number)
}

/// The client of the last number joins a group, and the provider's number is answered.
fn join(alloc: Global, sessions: &mut SessionState, group: &[u8]) -> Result<u32, GsFault> {
    let t = ClientToken { number: u32::MAX };
    let m = session_calls::join(sessions, alloc, t, group, 7, Attrs::empty())?;
    Ok(m.number)
}

#[test]
fn last_numbers(rt: HostRuntime) {
    let alloc = rt.alloc();
    let mut s = nearly_spent(alloc);
    answered(&rt, add(alloc, &mut s, b"a"), u32::MAX);
    refused(&rt, add(alloc, &mut s, b"b"), GsFault::Spent);
    answered(&rt, join(alloc, &mut s, b"db"), u32::MAX);
    refused(&rt, join(alloc, &mut s, b"dc"), GsFault::Spent);
}
