//! The spelling of a proposal and of an entry of each kind, and the calls that take memory.
ghost use Rattle.rsct_packet.specs.Fields.{AreShort};
ghost use Rattle.proposal_core.specs.ProposalCodec.{IsProposal};
ghost use Rattle.proposal_core.specs.EntryCodec.{IsEntry};

use group_codec::{put_entry, put_proposal, read_entry, read_proposal};
use proposal_core::{Entry, Proposal, copy_text, optional_bytes, optional_text_of};
use rsct_packet::Text;
use std::alloc::Global;
use std::process::Abort;

// 1.1.1.1 joins with empty attributes, at length 7 of the source's list
const JOIN: [u8; 28] = [
    1, 1, 1, 0, 0, 0, 1, 0, 1, 0, 0, 0, 1, 1, 0, 1, 0, 0, 1, 0, 0, 0, 0, 1, 0, 0, 0, 7,
];

// 1.1.1.1 leaves by its second request
const LEAVE: [u8; 16] = [2, 1, 0, 0, 0, 1, 0, 1, 0, 0, 0, 1, 0, 0, 0, 2];

// 2.1.1.1 leaves since its node died
const FAIL: [u8; 14] = [3, 1, 2, 0, 0, 0, 1, 0, 1, 0, 0, 0, 1, 1];

// 1.1.1.1 expels 2.1.1.1 by its third request
const EXPEL: [u8; 28] = [
    4, 1, 0, 0, 0, 1, 0, 1, 0, 0, 0, 1, 0, 0, 0, 3, 1, 2, 0, 0, 0, 1, 0, 1, 0, 0, 0, 1,
];

// 1.1.1.1 sets the value `red` by its second request
const STATE: [u8; 21] = [
    5, 1, 0, 0, 0, 1, 0, 1, 0, 0, 0, 1, 0, 0, 0, 2, 0, 3, 114, 101, 100,
];

// 1.1.1.1 says `hi` by its second request
const MESSAGE: [u8; 20] = [
    6, 1, 0, 0, 0, 1, 0, 1, 0, 0, 0, 1, 0, 0, 0, 2, 0, 2, 104, 105,
];

// 1.1.1.1 sets the time limit 300 by its second request
const ATTRIBUTES: [u8; 26] = [
    7, 1, 0, 0, 0, 1, 0, 1, 0, 0, 0, 1, 0, 0, 0, 2, 1, 0, 1, 1, 44, 1, 0, 0, 0, 0,
];

// the source's value `x` at place 7 of 1.1.1
const REFLECT: [u8; 17] = [8, 0, 0, 0, 1, 1, 0, 0, 0, 1, 0, 0, 0, 7, 0, 1, 120];

// 1.1.1.1 leaves at once, by its second request
const ONCE: [u8; 17] = [1, 2, 1, 0, 0, 0, 1, 0, 1, 0, 0, 0, 1, 0, 0, 0, 2];

// 1.1.1.1 begins to set the value `red` by its second request
const BEGIN: [u8; 22] = [
    2, 5, 1, 0, 0, 0, 1, 0, 1, 0, 0, 0, 1, 0, 0, 0, 2, 0, 3, 114, 101, 100,
];

// phase 1 of 1.1.1/1 closed with CONTINUE and the value `x`
const PHASE: [u8; 34] = [
    3, 0, 0, 0, 1, 1, 0, 0, 0, 1, 0, 0, 0, 1, 0, 1, 1, 1, 0, 0, 0, 1, 0, 1, 0, 0, 0, 1, 2, 1, 0, 1,
    120, 0,
];

// phase 2 of 1.1.1/1 closed with APPROVE and the message `hi`
const APPROVE: [u8; 35] = [
    4, 0, 0, 0, 1, 1, 0, 0, 0, 1, 0, 0, 0, 1, 0, 2, 1, 1, 0, 0, 0, 1, 0, 1, 0, 0, 0, 1, 1, 0, 1, 0,
    2, 104, 105,
];

// phase 2 of 1.1.1/1 closed with a default REJECT for a late voter
const REJECT: [u8; 31] = [
    5, 0, 0, 0, 1, 1, 0, 0, 0, 1, 0, 0, 0, 1, 0, 2, 1, 1, 0, 0, 0, 1, 0, 1, 0, 0, 0, 1, 5, 0, 0,
];

// 1.1.1.1 is late in phase 2 of 1.1.1/1
const LATE: [u8; 28] = [
    6, 0, 0, 0, 1, 1, 0, 0, 0, 1, 0, 0, 0, 1, 0, 2, 1, 1, 0, 0, 0, 1, 0, 1, 0, 0, 0, 1,
];

/// The proposal of these bytes.
fn proposal_of(rt: &impl Abort, alloc: Global, spelled: &[u8]) -> Proposal
    ensures { IsProposal result }
{
    let (read, _rest) = read_proposal(spelled).expect(rt, "a proposal");
    read.own(alloc).expect(rt, "memory")
}

/// The spelling of an equal proposal.
fn proposal_bytes(rt: &impl Abort, alloc: Global, proposal: &Proposal) -> Vec<u8>
    requires { IsProposal proposal.now }
{
    let copy = proposal.copy(alloc).expect(rt, "memory");
    let mut out = Vec::new(alloc);
    put_proposal(alloc, &mut out, &copy).expect(rt, "memory");
    out
}

/// Is what is read of a spelling spelled so again, and of its length?
fn is_proposal_again(rt: &impl Abort, alloc: Global, spelled: &[u8]) -> bool {
    let x = proposal_of(rt, alloc, spelled);
    proposal_bytes(rt, alloc, &x).as_slice() == spelled
        && x.len() == u32::try_from(spelled.len()).ok()
}

#[test]
fn proposals_are_spelled_and_read(rt: HostRuntime) {
    let alloc = rt.alloc();
    assert!(rt; is_proposal_again(&rt, alloc, &JOIN));
    assert!(rt; is_proposal_again(&rt, alloc, &LEAVE));
    assert!(rt; is_proposal_again(&rt, alloc, &FAIL));
    assert!(rt; is_proposal_again(&rt, alloc, &EXPEL));
    assert!(rt; is_proposal_again(&rt, alloc, &STATE));
    assert!(rt; is_proposal_again(&rt, alloc, &MESSAGE));
    assert!(rt; is_proposal_again(&rt, alloc, &ATTRIBUTES));
    assert!(rt; is_proposal_again(&rt, alloc, &REFLECT));
}

/// The entry of these bytes.
pub fn entry_of(rt: &impl Abort, alloc: Global, spelled: &[u8]) -> Entry
    ensures { IsEntry result }
{
    let read = read_entry(spelled).expect(rt, "an entry");
    read.own(alloc).expect(rt, "memory")
}

/// The spelling of an equal entry.
fn entry_bytes(rt: &impl Abort, alloc: Global, entry: &Entry) -> Vec<u8>
    requires { IsEntry entry.now }
{
    let copy = entry.copy(alloc).expect(rt, "memory");
    let mut out = Vec::new(alloc);
    put_entry(alloc, &mut out, &copy).expect(rt, "memory");
    out
}

/// Is what is read of a spelling spelled so again, and of its length?
fn is_entry_again(rt: &impl Abort, alloc: Global, spelled: &[u8]) -> bool {
    let e = entry_of(rt, alloc, spelled);
    entry_bytes(rt, alloc, &e).as_slice() == spelled && e.len() == u32::try_from(spelled.len()).ok()
}

#[test]
fn entries_are_spelled_and_read(rt: HostRuntime) {
    let alloc = rt.alloc();
    assert!(rt; is_entry_again(&rt, alloc, &ONCE));
    assert!(rt; is_entry_again(&rt, alloc, &BEGIN));
    assert!(rt; is_entry_again(&rt, alloc, &PHASE));
    assert!(rt; is_entry_again(&rt, alloc, &APPROVE));
    assert!(rt; is_entry_again(&rt, alloc, &REJECT));
    assert!(rt; is_entry_again(&rt, alloc, &LATE));
}

/// An equal text to one that is there, with these bytes.
fn copied_text(rt: &impl Abort, alloc: Global, bytes: &[u8]) -> Option<Text>
    requires { AreShort bytes.now }
{
    let text = optional_text_of(alloc, Some(bytes)).expect(rt, "memory");
    copy_text(alloc, &text).expect(rt, "memory")
}

#[test]
fn texts_are_copied(rt: HostRuntime) {
    let copy = copied_text(&rt, rt.alloc(), b"red");
    assert!(rt; optional_bytes(&copy) == Some(b"red".as_slice()));
}
