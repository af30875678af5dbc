//! The clients of a daemon: those that a votes word says, and objects that are handed to it.
ghost use Rattle.std.specs.Prelude.{None};

use crate::runs::{ALONE_TEXT, Edges, served, settings};
use client_callbacks::{Ballot, Callbacks, Notice, SteadyClient, Told};
use proposal_core::Vote;
use rsct_packet::NoMemory;
use std::alloc::Global;
use std::test::Fail;

/// An object that rejects wherever a vote is asked for.
#[derive(Drop)]
struct Rejecting {
    alloc: Global,
}

impl Callbacks for Rejecting {
    ghost stands_for = { λ c h. Unit {0} };

    ghost script = { λ c. None };

    fn notice(&mut self, _n: &Notice<'_>, ballot: &mut Ballot) -> Result<(), NoMemory> {
        ballot.set(self.alloc, Vote::Reject, None, None)?;
        Ok(())
    }

    fn told(&mut self, _t: &Told) -> Result<(), NoMemory> {
        Ok(())
    }
}

/// What node 1 sends to itself for the join of its client `a`, each in its piece.
const LOOKUP: &[u8] =
    b"RP\x01\0\0\0\0\x05\0\0\0\0\0\0\0\x01\0\0\0\0\0\0\0\x01RG\x01\x0e\x01\x01\x01\0\0\0\0\x05\0\0\0\x0c\0\0\0\x01\x01\0\0\0\x05\x02db";

const NAME: &[u8] =
    b"RP\x01\0\0\0\0\x05\0\0\0\0\0\0\0\x02\0\0\0\0\0\0\0\x01RG\x01\x0f\x01\x01\x01\0\0\0\0\x05\0\0\0\x0d\0\0\0\x01\x01\0\0\0\x05\x02db\x01";

const REQUEST: &[u8] =
    b"RP\x01\0\0\0\0\x05\0\0\0\0\0\0\0\x03\0\0\0\0\0\0\0\x01RG\x01\x10\x01\x01\x01\0\0\0\0\x05\0\0\04\0\0\0\x01\x01\0\0\0\x05\x02db\x01\0\0\0\x05\0\x07\0\0\0\x01\0\0\0\x01\x01\x01\x01\x01\0\0\0\x05\0\x07\0\0\0\x01\x02\0\x01\0\0\x01\0\0\0\0\0";

/// Its ballot: an approval, and a rejection.
const APPROVAL: &[u8] =
    b"RP\x01\0\0\0\0\x05\0\0\0\0\0\0\0\x04\0\0\0\0\0\0\0\x01RG\x01\x14\x01\x01\x01\0\0\0\0\x05\0\0\0)\0\0\0\x01\x01\0\0\0\x05\x02db\0\0\0\x01\x01\0\0\0\x05\0\0\0\0\0\x01\x01\0\0\0\x05\0\x07\0\0\0\x01\x01\0\0";

const REJECTION: &[u8] =
    b"RP\x01\0\0\0\0\x05\0\0\0\0\0\0\0\x04\0\0\0\0\0\0\0\x01RG\x01\x14\x01\x01\x01\0\0\0\0\x05\0\0\0)\0\0\0\x01\x01\0\0\0\x05\x02db\0\0\0\x01\x01\0\0\0\x05\0\0\0\0\0\x01\x01\0\0\0\x05\0\x07\0\0\0\x01\x03\0\0";

/// A client of votes that an object gives, which joins.
const BOXED: &[u8] = b"node 1\nbegin\nclient 1 a boxed\njoin a db 7 phases=n\n";

/// Two such clients, of which the second joins.
const TWO_BOXED: &[u8] =
    b"node 1\nbegin\nclient 1 a boxed\nclient 1 b boxed\njoin b db 7 phases=n\n";

const APPROVED: &[u8] =
    b"up 1 5\nring 1 1 1.5.1 1 1\nin 1 1.1.5 1.5\nasked 1.5.7.1 1 db join\nput 1 1.1.5 db 0 begin join 1.5.7.1 phases=n\nheard 1.5.7.1 1.1.5 db 0 begin-join - =\ncast 1.5.7.1 1.1.5/0 1 A\n";

const REJECTED: &[u8] =
    b"up 1 5\nring 1 1 1.5.1 1 1\nin 1 1.1.5 1.5\nasked 1.5.7.1 1 db join\nput 1 1.1.5 db 0 begin join 1.5.7.1 phases=n\nheard 1.5.7.1 1.1.5 db 0 begin-join - =\ncast 1.5.7.1 1.1.5/0 1 R\n";

/// What is left where these objects are handed to a daemon for three turns, in which what it sends comes back to it;
/// none where it stops before.
fn joined(
    alloc: Global,
    text: &[u8],
    inbox: &[&[u8]],
    objects: Vec<Box<dyn Callbacks>>,
) -> Result<Option<Edges>, NoMemory> {
    let mut edges = Edges::sound(alloc, inbox, &[0])?;
    let Some(script) = settings(alloc, text, 2) else {
        return Ok(None);
    };
    if served(alloc, &script, 3, &mut edges, objects).is_ok() {
        Ok(Some(edges))
    } else {
        Ok(None)
    }
}

#[test]
fn a_steady_object_approves(rt: HostRuntime) -> Result<(), Fail> {
    let alloc = rt.alloc();
    let mut objects: Vec<Box<dyn Callbacks>> = Vec::new(alloc);
    objects.push(Box::new(alloc, SteadyClient { alloc })?)?;
    let edges = joined(alloc, BOXED, &[LOOKUP, NAME, REQUEST], objects)?.ok_or("its end")?;
    assert!(rt; edges.wrote(APPROVED));
    assert!(rt; edges.called(b"SDSDSDS"));
    assert!(rt; edges.sent_to(1, 0) == Some(LOOKUP));
    assert!(rt; edges.sent_to(1, 2) == Some(NAME));
    assert!(rt; edges.sent_to(1, 4) == Some(REQUEST));
    assert!(rt; edges.sent_to(1, 6) == Some(APPROVAL));
    Ok(())
}

#[test]
fn an_object_that_rejects_is_the_one_that_is_asked(rt: HostRuntime) -> Result<(), Fail> {
    let alloc = rt.alloc();
    let mut objects: Vec<Box<dyn Callbacks>> = Vec::new(alloc);
    objects.push(Box::new(alloc, Rejecting { alloc })?)?;
    let edges = joined(alloc, BOXED, &[LOOKUP, NAME, REQUEST], objects)?.ok_or("its end")?;
    assert!(rt; edges.wrote(REJECTED));
    assert!(rt; edges.sent_to(1, 6) == Some(REJECTION));
    Ok(())
}

#[test]
fn objects_are_taken_in_the_order_of_their_lines(rt: HostRuntime) -> Result<(), Fail> {
    let alloc = rt.alloc();
    let mut objects: Vec<Box<dyn Callbacks>> = Vec::new(alloc);
    objects.push(Box::new(alloc, SteadyClient { alloc })?)?;
    objects.push(Box::new(alloc, Rejecting { alloc })?)?;
    let edges = joined(alloc, TWO_BOXED, &[LOOKUP, NAME, REQUEST], objects)?.ok_or("its end")?;
    assert!(rt; edges.wrote(REJECTED));
    Ok(())
}

#[test]
fn a_votes_word_needs_no_object(rt: HostRuntime) -> Result<(), Fail> {
    let alloc = rt.alloc();
    for (text, written) in [
        (
            b"node 1\nbegin\nclient 1 a A\njoin a db 7 phases=n\n".as_slice(),
            APPROVED,
        ),
        (
            b"node 1\nbegin\nclient 1 a R\njoin a db 7 phases=n\n".as_slice(),
            REJECTED,
        ),
    ] {
        let edges = joined(alloc, text, &[LOOKUP, NAME, REQUEST], Vec::new(alloc))?;
        assert!(rt; edges.ok_or("its end")?.wrote(written));
    }
    Ok(())
}

#[test]
fn a_refused_call_is_a_record(rt: HostRuntime) -> Result<(), Fail> {
    let alloc = rt.alloc();
    for (text, written) in [
        (
            b"node 1\nbegin\nclient 1 a A\njoin a HostMembership 1\n".as_slice(),
            b"up 1 5\nring 1 1 1.5.1 1 1\nin 1 1.1.5 1.5\nrefused 1.a BAD_PARAMETER name\n".as_slice(),
        ),
        (
            b"node 1\nbegin\nclient 1 a A\nsubscribe a db\n".as_slice(),
            b"up 1 5\nring 1 1 1.5.1 1 1\nin 1 1.1.5 1.5\nrefused 1.a UNKNOWN_GROUP\n".as_slice(),
        ),
    ] {
        let edges = joined(alloc, text, &[], Vec::new(alloc))?.ok_or("its end")?;
        assert!(rt; edges.wrote(written));
        assert!(rt; edges.called(b"QQQ"));
    }
    Ok(())
}

#[test]
fn calls_of_other_nodes_are_skipped(rt: HostRuntime) -> Result<(), Fail> {
    let alloc = rt.alloc();
    let text = b"node 1\nnode 2\nbegin\nclient 2 b A\njoin b db 1\nclient 1 a A\n";
    let edges = joined(alloc, text, &[], Vec::new(alloc))?.ok_or("its end")?;
    assert!(rt; edges.wrote(ALONE_TEXT));
    assert!(rt; edges.called(b"QQQ"));
    Ok(())
}
