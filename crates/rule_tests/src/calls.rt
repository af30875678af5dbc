//! The calls of sessions whose clients always approve, with no clause: so the proof of a test that makes them sees
//! types alone.
use crate::hand::{first_provider, join_db, new_list};
use client_callbacks::{SteadyClient, Why};
use client_session::Sessions;
use group_attr::{Attrs, Phases};
use proposal_core::Proposal;
use rsct_packet::{List, NoMemory, ProviderId};
use session_state::{GsFault, MemberToken};
use std::alloc::Global;
use std::process::Abort;
use subscribe_core::ClientToken;

/// Sessions of clients that always approve.
pub type Steady = Sessions<SteadyClient>;

/// So many bytes.
pub fn letters(alloc: Global, len: usize) -> Result<List<u8>, NoMemory> {
    let mut bytes = List::new(alloc);
    for _ in 0..len {
        bytes.push(b'A')?;
    }
    Ok(bytes)
}

/// The call was refused with this fault.
pub fn refused<T: Drop>(rt: &impl Abort, answer: Result<T, GsFault>, fault: GsFault) {
    assert!(rt; answer.err() == Some(fault));
}

/// The call was taken, and answered this.
pub fn answered(rt: &impl Abort, answer: Result<u32, GsFault>, number: u32) {
    assert!(rt; answer.ok() == Some(number));
}

/// The call was taken.
pub fn taken(rt: &impl Abort, answer: Result<(), GsFault>) {
    assert!(rt; answer.is_ok());
}

/// Opens a session of this name, and answers its number.
pub fn init(alloc: Global, steady: &mut Steady, name: &[u8]) -> Result<u32, GsFault> {
    let t = steady.init(alloc, name, SteadyClient { alloc })?;
    Ok(t.number)
}

/// Ends the session of this number.
pub fn goodbye(steady: &mut Steady, client: u32) -> Result<(), GsFault> {
    steady.goodbye(ClientToken { number: client })
}

/// Joins a group with the instance number 7, and answers the provider's number.
pub fn join(
    alloc: Global,
    steady: &mut Steady,
    client: u32,
    group: &[u8],
    attrs: Attrs,
) -> Result<u32, GsFault> {
    let m = steady.join(alloc, ClientToken { number: client }, group, 7, attrs)?;
    Ok(m.number)
}

/// Asks that the provider leaves.
pub fn leave(alloc: Global, steady: &mut Steady, member: u32) -> Result<(), GsFault> {
    steady.leave(alloc, MemberToken { number: member }, Phases::One)
}

/// Asks that these are expelled.
pub fn expel(
    alloc: Global,
    steady: &mut Steady,
    member: u32,
    out: &List<ProviderId>,
) -> Result<(), GsFault> {
    steady.expel(
        alloc,
        MemberToken { number: member },
        Phases::One,
        out.as_slice(),
    )
}

/// Asks for a value of so many bytes.
pub fn change_state(
    alloc: Global,
    steady: &mut Steady,
    member: u32,
    len: usize,
) -> Result<(), GsFault> {
    let value = letters(alloc, len)?;
    steady.change_state(
        alloc,
        MemberToken { number: member },
        Phases::One,
        value.as_slice(),
    )
}

/// Asks that a message of so many bytes is sent.
pub fn send_message(
    alloc: Global,
    steady: &mut Steady,
    member: u32,
    len: usize,
) -> Result<(), GsFault> {
    let message = letters(alloc, len)?;
    steady.send_message(
        alloc,
        MemberToken { number: member },
        Phases::One,
        message.as_slice(),
    )
}

/// Asks for these attributes.
pub fn change_attributes(
    alloc: Global,
    steady: &mut Steady,
    member: u32,
    attrs: Attrs,
) -> Result<(), GsFault> {
    steady.change_attributes(alloc, MemberToken { number: member }, Phases::One, attrs)
}

/// The oldest request.
pub fn first_request(steady: &Steady) -> Option<&Proposal> {
    Some(&steady.request(0)?.proposal)
}

/// The number of the oldest request.
pub fn first_number(steady: &Steady) -> Option<u32> {
    Some(steady.request(0)?.request)
}

/// Tells the client that its request was refused, and answers whether it was told.
fn tell(rt: &impl Abort, steady: &mut Steady, provider: ProviderId, request: u32) -> bool {
    steady
        .tell(provider, request, Why::NotAMember)
        .expect(rt, "memory")
}

/// Ends the oldest request, which is refused.
pub fn end_request(rt: &impl Abort, steady: &mut Steady) {
    let p = first_provider(rt, steady);
    let r = first_number(steady).expect(rt, "a request");
    assert!(rt; tell(rt, steady, p, r));
}

/// Opens a session whose client joins `db`, hands the join on, and answers the provider's number.
pub fn member(rt: &impl Abort, alloc: Global, steady: &mut Steady) -> u32 {
    let mut list = new_list(alloc);
    let (m, _) = join_db(rt, alloc, steady, &mut list, SteadyClient { alloc });
    m.number
}
