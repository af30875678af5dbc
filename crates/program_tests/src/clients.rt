//! A play whose clients are of a kind of its own, which no votes word describes.
ghost use Rattle.std.specs.Prelude.{◌≡◌, None};
ghost use Rattle.program_tests.specs.Clients.{places_heard};

use client_callbacks::{Ballot, Callbacks, Made, Notice, Told, votes_word};
use hags_io::MemSink;
use net_script::{World, play_as};
use proposal_core::Vote;
use rsct_packet::{List, NoMemory};
use script_reader::read_script;
use std::alloc::Global;
use std::test::Fail;
use transcript::Kinds;

/// A client that approves where a vote is asked for first, and rejects from then on, whatever its votes word says. It
/// keeps the places that it heard.
#[derive(Drop)]
struct Changing {
    alloc: Global,
    has_voted: bool,
    heard: List<u32>,
}

impl Callbacks for Changing {
    ghost stands_for = { λ c h. c.heard ≡ places_heard h };

    ghost script = { λ c. None };

    #[tactic(auto, using(crate::proofs::PlaceLaws::heard_more))]
    fn notice(&mut self, notice: &Notice<'_>, ballot: &mut Ballot) -> Result<(), NoMemory> {
        self.heard.push(notice.place)?;
        let vote = if self.has_voted {
            Vote::Reject
        } else {
            Vote::Approve
        };
        if ballot.set(self.alloc, vote, None, None)? {
            self.has_voted = true;
        }
        Ok(())
    }

    #[tactic(auto, using(crate::proofs::PlaceLaws::told_more))]
    fn told(&mut self, _t: &Told) -> Result<(), NoMemory> {
        Ok(())
    }
}

impl Made for Changing {
    ghost script_of = { λ items. None };

    fn made(alloc: Global, votes: &[u8]) -> Result<Option<Changing>, NoMemory> {
        match votes_word(alloc, votes)? {
            None => Ok(None),
            Some(_) => Ok(Some(Changing {
                alloc,
                has_voted: false,
                heard: List::new(alloc),
            })),
        }
    }
}

/// By its votes word the client would be silent: the join would not be decided.
const TWO_VOTES: &[u8] =
    b"mode fixed\nnode 1\nbegin\nclient 1 a -\njoin a db 1 phases=n\nflow\nstate a db n red\nflow\nshow 1 hagsgr\n";

const TWO_VOTES_TRANSCRIPT: &[u8] =
    b"up 1 1\nin 1 1.1.1 1.1\nasked 1.1.1.1 1 db join\nput 1 1.1.1 db 0 begin join 1.1.1.1 phases=n\nheard 1.1.1.1 1.1.1 db 0 begin-join - =\ncast 1.1.1.1 1.1.1/0 1 A\nput 1 1.1.1 db 1 approve 1.1.1/0 1 1.1.1.1=A -\nheard 1.1.1.1 1.1.1 db 1 approve 1.1.1.1 =\nasked 1.1.1.1 2 db state\nput 1 1.1.1 db 2 begin state 1.1.1.1/2 =red\nheard 1.1.1.1 1.1.1 db 2 begin-state 1.1.1.1 =\ncast 1.1.1.1 1.1.1/2 1 R\nput 1 1.1.1 db 3 reject 1.1.1/2 1 1.1.1.1=R\nheard 1.1.1.1 1.1.1 db 3 reject 1.1.1.1 =\nshow 1 hagsgr db leader=1 len=4 members=1.1.1.1 value=\n";

/// Did the one client of node 1 hear the four places of its group?
fn has_heard_four(world: &World<Changing>) -> bool {
    match world.nodes.get(1) {
        None => false,
        Some(node) => match node.clients() {
            [client] => client.heard.as_slice() == [0, 1, 2, 3].as_slice(),
            _ => false,
        },
    }
}

#[test]
fn clients_of_another_kind_answer_for_themselves(rt: HostRuntime) -> Result<(), Fail> {
    let alloc = rt.alloc();
    let script = read_script(alloc, TWO_VOTES)?;
    let mut out = MemSink::new(alloc, Vec::new(alloc));
    let ended = play_as::<Changing, MemSink>(alloc, &script, Kinds::all(), 1_000_000, &mut out);
    assert!(rt; out.held() == TWO_VOTES_TRANSCRIPT);
    assert!(rt; ended.is_ok());
    if let Ok(world) = &ended {
        assert!(rt; has_heard_four(world));
    }
    Ok(())
}
