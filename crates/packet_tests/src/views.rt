//! Views: who is asked, what is answered, and what is installed.
ghost use Rattle.std.specs.Prelude.{[]};

use crate::samples::{FIRST, INSTALL, SECOND};
use proposal_core::{GroupList, GroupState};
use rsct_packet::{List, Mask, Member, NoMemory, ViewId};
use std::alloc::Global;
use std::process::Abort;
use view_bases::{lacking_of, name_after};
use view_core::{OwnLists, ViewEvent, ViewOut, take_event};
use view_exchange::{AnswerRef, read_install};
use view_state::{Install, Parts, ViewPacket, Views};

/// A node without lists.
struct Nothing;

impl OwnLists for Nothing {
    ghost parts_of = { λ _. [] };

    fn count(&self) -> usize {
        0
    }

    fn parts(&self, alloc: Global) -> Result<Parts, NoMemory> {
        Ok(List::new(alloc))
    }
}

/// From 1.2.1, without lists.
const ANSWER: [u8; 10] = [0, 0, 0, 1, 2, 0, 0, 0, 1, 0];

fn both() -> Mask {
    Mask::empty().with(1).with(2)
}

/// The view in which a node starts.
fn start(node: u8) -> ViewId {
    ViewId {
        number: 1,
        coord: node,
        inc: 1,
    }
}

/// A node that starts alone.
fn alone(rt: &impl Abort, alloc: Global, node: u8) -> Views {
    let members = List::of(alloc, &[Member { node, inc: 1 }]).expect(rt, "memory");
    Views::new(node, 1, start(node), members)
}

/// What an event gives out.
fn step(rt: &impl Abort, alloc: Global, views: &mut Views, event: ViewEvent) -> ViewOut {
    let mut out = ViewOut::new(alloc);
    take_event(views, alloc, event, &Nothing, &mut out).expect(rt, "memory");
    out
}

/// How many packets an event gives out.
fn sends(rt: &impl Abort, alloc: Global, views: &mut Views, event: ViewEvent) -> usize {
    step(rt, alloc, views, event).sends.len()
}

/// The install that an event gives out.
fn installs(rt: &impl Abort, alloc: Global, views: &mut Views, event: ViewEvent) -> Install {
    step(rt, alloc, views, event)
        .install
        .expect(rt, "an install")
}

/// Nodes 1 and 2 are asked for a view.
fn ask() -> ViewEvent<'static> {
    ViewEvent::Ask { mask: both() }
}

/// A tick at which the rings ask for no view.
fn tick() -> ViewEvent<'static> {
    ViewEvent::Tick { ring_ask: None }
}

/// PREPARE of node 1 for a view.
fn prepare(view: ViewId) -> ViewEvent<'static> {
    ViewEvent::Prepare {
        from: 1,
        inc: 1,
        view,
        mask: both(),
    }
}

/// Has it promised this view, and is it frozen?
fn has_promised(views: &Views, view: ViewId) -> bool {
    views.promise() == view && views.frozen()
}

#[test]
fn who_asks_promises_and_asks_again(rt: HostRuntime) {
    let alloc = rt.alloc();
    let mut one = alone(&rt, alloc, 1);
    assert!(rt; sends(&rt, alloc, &mut one, ask()) == 1);
    assert!(rt; has_promised(&one, SECOND));
    assert!(rt; sends(&rt, alloc, &mut one, tick()) == 1);
}

/// Is the last of these packets an answer?
fn is_answered(out: &ViewOut) -> bool {
    match out.sends.as_slice().last() {
        Some(sent) => matches!(&sent.packet, ViewPacket::Answer { .. }),
        None => false,
    }
}

/// Is the last of these packets a refusal?
fn is_refused(out: &ViewOut) -> bool {
    match out.sends.as_slice().last() {
        Some(sent) => matches!(&sent.packet, ViewPacket::Refuse { .. }),
        None => false,
    }
}

#[test]
fn who_is_asked_promises_and_answers(rt: HostRuntime) {
    let alloc = rt.alloc();
    let mut two = alone(&rt, alloc, 2);
    assert!(rt; is_answered(&step(&rt, alloc, &mut two, prepare(SECOND))));
    assert!(rt; two.promise() == SECOND);
}

#[test]
fn a_lower_view_is_refused(rt: HostRuntime) {
    let alloc = rt.alloc();
    let mut two = alone(&rt, alloc, 2);
    assert!(rt; is_refused(&step(&rt, alloc, &mut two, prepare(FIRST))));
    assert!(rt; two.promise() == start(2));
}

/// The answer of node 2.
fn answer(rt: &impl Abort) -> ViewEvent<'static> {
    ViewEvent::Answer {
        from: 2,
        inc: 1,
        view: SECOND,
        answer: AnswerRef::read(&ANSWER).expect(rt, "an answer"),
    }
}

/// Node 1 asks node 2 for 2.1.1, and has its answer.
fn installing(rt: &impl Abort, alloc: Global, one: &mut Views) -> Install {
    step(rt, alloc, one, ask());
    installs(rt, alloc, one, answer(rt))
}

/// A node enters the view of its install.
fn enter(rt: &impl Abort, alloc: Global, views: &mut Views, install: Install) {
    views.enter(alloc, install).expect(rt, "memory");
}

/// Is it in 2.1.1 with two members, and not frozen?
fn has_entered(views: &Views) -> bool {
    views.current() == SECOND && views.members().len() == 2 && !views.frozen()
}

#[test]
fn who_promised_enters(rt: HostRuntime) {
    let alloc = rt.alloc();
    let mut two = alone(&rt, alloc, 2);
    step(&rt, alloc, &mut two, prepare(SECOND));
    let install = installing(&rt, alloc, &mut alone(&rt, alloc, 1));
    let applied = installs(&rt, alloc, &mut two, ViewEvent::Install { install });
    enter(&rt, alloc, &mut two, applied);
    assert!(rt; has_entered(&two));
}

/// Node 1 after its install for both was entered.
fn installed(rt: &impl Abort, alloc: Global) -> Views {
    let mut one = alone(rt, alloc, 1);
    let install = installing(rt, alloc, &mut one);
    enter(rt, alloc, &mut one, install);
    one
}

/// Node 2 has entered 2.1.1.
fn taken() -> ViewEvent<'static> {
    ViewEvent::Taken {
        from: 2,
        view: SECOND,
    }
}

#[test]
fn an_install_goes_out_until_it_is_taken(rt: HostRuntime) {
    let alloc = rt.alloc();
    let mut one = installed(&rt, alloc);
    assert!(rt; sends(&rt, alloc, &mut one, ViewEvent::Remind) == 1);
    step(&rt, alloc, &mut one, taken());
    assert!(rt; sends(&rt, alloc, &mut one, ViewEvent::Remind) == 0);
}

/// The list of a group that nobody has joined.
#[tactic(auto, unfolding(proposal_core::specs::Fold::joiners_fit, proposal_core::specs::Fold::joiners_fit_at))]
fn new_list(alloc: Global) -> GroupList {
    GroupList::new(alloc, GroupState::empty(alloc))
}

/// How many entries a list lacks of the one of `db` that comes from 1.1.1.
fn lacking(alloc: Global, install: &Install, list: &GroupList) -> Result<Option<usize>, NoMemory> {
    let Some(part) = install.part(FIRST, b"db") else {
        return Ok(None);
    };
    match lacking_of(part, alloc, FIRST, list)? {
        None => Ok(None),
        Some(entries) => Ok(Some(entries.len())),
    }
}

/// Is `db` its only group?
fn has_one_group(install: &Install) -> bool {
    let first = name_after(install, None);
    first == Some(b"db".as_slice()) && name_after(install, first).is_none()
}

/// The install of the sample's bytes.
fn sample(rt: &impl Abort, alloc: Global) -> Install {
    let i = read_install(alloc, &INSTALL).expect(rt, "memory");
    i.expect(rt, "an install")
}

#[test]
fn a_new_list_lacks_what_is_carried(rt: HostRuntime) {
    let alloc = rt.alloc();
    let i = sample(&rt, alloc);
    assert!(rt; has_one_group(&i));
    assert!(rt; lacking(alloc, &i, &new_list(alloc)).expect(&rt, "memory") == Some(1));
}
