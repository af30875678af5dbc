//! Answers, installs and bases.
use crate::samples::{FIRST, INSTALL, SECOND};
use rsct_packet::{List, Mask, NoMemory};
use std::alloc::Global;
use std::process::Abort;
use view_exchange::{AnswerRef, add_answer, put_install, read_install};
use view_state::{Answer, Base, Exchange, Install};

/// From 1.1.1; one part, `db`, from its start on. Its state has the member 1.1.7.1, the empty value and one-phase
/// attributes, and its one entry is a leave of that, decided at once, behind its length.
const SHORT: [u8; 70] = [
    0, 0, 0, 1, 1, 0, 0, 0, 1, 1, 2, 100, 98, 0, 0, 0, 0, 1, 1, 0, 0, 0, 1, 0, 7, 0, 0, 0, 1, 0, 0,
    1, 0, 1, 0, 0, 1, 0, 0, 0, 0, 0, 0, 0, 0, 0, 0, 0, 1, 0, 0, 0, 17, 1, 2, 1, 0, 0, 0, 1, 0, 7,
    0, 0, 0, 1, 0, 0, 0, 2,
];

/// The same with the entry twice.
const LONG: [u8; 91] = [
    0, 0, 0, 1, 1, 0, 0, 0, 1, 1, 2, 100, 98, 0, 0, 0, 0, 1, 1, 0, 0, 0, 1, 0, 7, 0, 0, 0, 1, 0, 0,
    1, 0, 1, 0, 0, 1, 0, 0, 0, 0, 0, 0, 0, 0, 0, 0, 0, 2, 0, 0, 0, 17, 1, 2, 1, 0, 0, 0, 1, 0, 7,
    0, 0, 0, 1, 0, 0, 0, 2, 0, 0, 0, 17, 1, 2, 1, 0, 0, 0, 1, 0, 7, 0, 0, 0, 1, 0, 0, 0, 2,
];

/// Nodes 1 and 2 are asked for 2.1.1.
fn asking(alloc: Global) -> Exchange {
    Exchange::open(alloc, SECOND, Mask::empty().with(1).with(2))
}

/// Is the answer of these bytes taken, from this node?
fn takes(
    rt: &impl Abort,
    alloc: Global,
    exchange: &mut Exchange,
    node: u8,
    inc: u32,
    bytes: &[u8],
) -> bool {
    let answer = AnswerRef::read(bytes).expect(rt, "an answer");
    add_answer(exchange, alloc, node, inc, &answer).expect(rt, "memory")
}

/// Are these the nodes that have not answered?
fn are_unanswered(alloc: Global, exchange: &Exchange, nodes: &[u8]) -> Result<bool, NoMemory> {
    Ok(exchange.unanswered(alloc)?.as_slice() == nodes)
}

#[test]
fn the_first_answer_of_who_was_asked_counts(rt: HostRuntime) {
    let alloc = rt.alloc();
    let mut x = asking(alloc);
    assert!(rt; takes(&rt, alloc, &mut x, 1, 1, &SHORT));
    assert!(rt; !takes(&rt, alloc, &mut x, 1, 1, &SHORT));
    assert!(rt; !takes(&rt, alloc, &mut x, 3, 1, &SHORT));
    assert!(rt; !x.all());
    assert!(rt; are_unanswered(alloc, &x, &[2]).expect(&rt, "memory"));
}

/// The install of an answer of node 1 with one entry, and one of node 2 with two.
fn of_two_answers(rt: &impl Abort, alloc: Global) -> Install {
    let mut x = asking(alloc);
    assert!(rt; takes(rt, alloc, &mut x, 1, 1, &SHORT));
    assert!(rt; takes(rt, alloc, &mut x, 2, 4, &LONG));
    x.install(alloc).expect(rt, "memory")
}

/// Is the list of `db` in 1.1.1 carried, with two entries, and none of 2.1.1?
fn carries_two_entries(install: &Install) -> bool {
    install.len(FIRST, b"db") == Some(2)
        && install.len(SECOND, b"db").is_none()
        && install.entry(FIRST, b"db", 1).is_some()
        && install.entry(FIRST, b"db", 2).is_none()
}

/// Are nodes 1 and 2, which come from 1.1.1, the members of 2.1.1?
fn has_two_members(install: &Install) -> bool {
    install.view() == SECOND
        && install.members().len() == 2
        && install.has_member(2, 4)
        && install.came_from(2) == Some(FIRST)
        && install.came_from(3).is_none()
}

#[test]
fn the_longest_list_is_installed(rt: HostRuntime) {
    assert!(rt; carries_two_entries(&of_two_answers(&rt, rt.alloc())));
}

/// An equal install.
fn copied(rt: &impl Abort, alloc: Global, install: &Install) -> Install {
    install.copy(alloc).expect(rt, "memory")
}

#[test]
fn who_answered_is_a_member(rt: HostRuntime) {
    let alloc = rt.alloc();
    assert!(rt; has_two_members(&copied(&rt, alloc, &of_two_answers(&rt, alloc))));
}

/// Is `db` with two entries the one part of the long answer?
fn has_one_part() -> bool {
    let Some(answer) = AnswerRef::read(&LONG) else {
        return false;
    };
    let mut parts = answer.parts();
    let Some(part) = parts.take_first() else {
        return false;
    };
    part.name == b"db".as_slice()
        && part.len() == 2
        && part.entry(1).is_some()
        && part.entry(2).is_none()
        && parts.take_first().is_none()
}

#[test]
fn parts_stand_in_place(rt: HostRuntime) {
    assert!(rt; has_one_part());
}

/// Node 1 is asked alone, and its own answer has no list.
fn asking_itself(rt: &impl Abort, alloc: Global) -> Exchange {
    let own = Answer {
        node: 1,
        inc: 1,
        view: FIRST,
        parts: List::new(alloc),
    };
    Exchange::open_with(alloc, SECOND, Mask::empty().with(1), own).expect(rt, "memory")
}

/// How many members the install of an exchange has.
fn count_members(rt: &impl Abort, alloc: Global, exchange: Exchange) -> usize {
    exchange.install(alloc).expect(rt, "memory").members().len()
}

#[test]
fn one_answer_is_enough_for_one(rt: HostRuntime) {
    let alloc = rt.alloc();
    let x = asking_itself(&rt, alloc);
    assert!(rt; x.all());
    assert!(rt; count_members(&rt, alloc, x) == 1);
}

/// The spelling of what is read of these bytes.
fn spelled_again(rt: &impl Abort, alloc: Global, bytes: &[u8]) -> Vec<u8> {
    let i = read_install(alloc, bytes).expect(rt, "memory");
    let i = i.expect(rt, "an install");
    let mut out = Vec::new(alloc);
    put_install(alloc, &mut out, &i).expect(rt, "memory");
    out
}

#[test]
fn an_install_is_read_and_written(rt: HostRuntime) {
    let again = spelled_again(&rt, rt.alloc(), &INSTALL);
    assert!(rt; again.as_slice() == INSTALL.as_slice());
}

/// The base of `db` in the install of these bytes.
fn base_of(rt: &impl Abort, alloc: Global, bytes: &[u8]) -> Base {
    let i = read_install(alloc, bytes).expect(rt, "memory");
    let i = i.expect(rt, "an install");
    let base = view_bases::base_of(&i, alloc, b"db").expect(rt, "memory");
    base.expect(rt, "a base")
}

/// Is it led by node 1, one entry long, with one member and nobody failed?
fn is_short(base: &Base) -> bool {
    base.leader == 1
        && base.len == 1
        && base.state.members.len() == 1
        && base.state.failed.len() == 0
}

#[test]
fn an_install_has_a_base(rt: HostRuntime) {
    assert!(rt; is_short(&base_of(&rt, rt.alloc(), &INSTALL)));
}
