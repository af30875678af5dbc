//! A play whose clients answer with values and messages by what they heard, over three nodes of which the leader stops:
//! the log of each client, whole.
ghost use Rattle.std.specs.Prelude.{◌≡◌, None, IfOk};
ghost use Rattle.program_tests.specs.Clients.{places_heard};
ghost use Rattle.program_tests.specs.Answers.{values_heard, message_in, messages_heard, ballots_filled};

use client_callbacks::{Ballot, Callbacks, Filled, Made, Notice, Told, votes_word};
use hags_io::MemSink;
use net_script::{World, play_as};
use proposal_core::{Entry, Vote};
use rsct_packet::{List, NoMemory, Text};
use script_reader::read_script;
use std::alloc::Global;
use std::test::Fail;
use transcript::{Kind, Kinds};

/// A client that approves where it is asked, with the number of notices before as the value and `hi` as the message;
/// it is silent where its votes word is `-`. It keeps the place of each notice, the group's value after it, the message
/// that it brought, and the ballot that it filled.
#[derive(Drop)]
struct Answering {
    alloc: Global,
    is_silent: bool,
    places: List<u32>,
    values: List<Text>,
    messages: List<Option<Text>>,
    ballots: List<Option<Filled>>,
}

/// An equal text.
fn text_of(alloc: Global, text: &Option<Text>) -> Result<Option<Text>, NoMemory>
    ensures { IfOk result (λ t. t ≡ text.now) }
{
    match text {
        None => Ok(None),
        Some(t) => Ok(Some(t.copy(alloc)?)),
    }
}

/// The message that the ballots of a phase leave.
fn message_of(alloc: Global, entry: &Entry) -> Result<Option<Text>, NoMemory>
    ensures { IfOk result (λ m. m ≡ message_in entry.now) }
{
    match entry {
        Entry::Once(_) => Ok(None),
        Entry::Begin(_) => Ok(None),
        Entry::Phase(c) => text_of(alloc, &c.message),
        Entry::Approve(c) => text_of(alloc, &c.message),
        Entry::Reject(c) => text_of(alloc, &c.message),
        Entry::Late { .. } => Ok(None),
    }
}

/// What the ballot is filled with.
fn filled_of(alloc: Global, ballot: &Ballot) -> Result<Option<Filled>, NoMemory>
    ensures { IfOk result (λ b. b ≡ ballot.now.filled) }
{
    match ballot.filled() {
        None => Ok(None),
        Some(f) => Ok(Some(f.copy(alloc)?)),
    }
}

/// The digit of a number, `9` for all from nine on.
fn digit(number: usize) -> u8 {
    if number < 9 {
        b'0' + number as u8
    } else {
        b'9'
    }
}

impl Callbacks for Answering {
    ghost stands_for = { λ c h. (c.places ≡ places_heard h) × (c.values ≡ values_heard h)
        × (c.messages ≡ messages_heard h) × (c.ballots ≡ ballots_filled h) };

    ghost script = { λ c. None };

    #[tactic(auto, using(crate::proofs::PlaceLaws::heard_more, crate::proofs::AnswerLaws::values_more, crate::proofs::AnswerLaws::messages_more, crate::proofs::AnswerLaws::ballots_more))]
    fn notice(&mut self, notice: &Notice<'_>, ballot: &mut Ballot) -> Result<(), NoMemory> {
        if !self.is_silent {
            let value = [digit(self.places.len())];
            ballot.set(self.alloc, Vote::Approve, Some(&value), Some(b"hi"))?;
        }
        let filled = filled_of(self.alloc, ballot)?;
        let message = message_of(self.alloc, notice.entry)?;
        let value = notice.after.value.copy(self.alloc)?;
        self.places.push(notice.place)?;
        self.values.push(value)?;
        self.messages.push(message)?;
        self.ballots.push(filled)
    }

    #[tactic(auto, using(crate::proofs::PlaceLaws::told_more, crate::proofs::AnswerLaws::values_told, crate::proofs::AnswerLaws::messages_told, crate::proofs::AnswerLaws::ballots_told))]
    fn told(&mut self, _t: &Told) -> Result<(), NoMemory> {
        Ok(())
    }
}

impl Made for Answering {
    ghost script_of = { λ items. None };

    fn made(alloc: Global, votes: &[u8]) -> Result<Option<Answering>, NoMemory> {
        match votes_word(alloc, votes)? {
            None => Ok(None),
            Some(_) => Ok(Some(Answering {
                alloc,
                is_silent: votes == b"-".as_slice(),
                places: List::new(alloc),
                values: List::new(alloc),
                messages: List::new(alloc),
                ballots: List::new(alloc),
            })),
        }
    }
}

/// Node 2 leads, and stops when the others have voted; node 1 closes the phase with their ballots, which they send again.
const TAKEOVER: &[u8] =
    b"mode asked\nnode 1\nnode 2\nnode 3\nbegin\nstart 1\nstart 2\nstart 3\nask 1 1 2 3\nflow\nclient 2 a -\nclient 1 b A\nclient 3 c A\njoin a db 1\nflow\njoin b db 1\nflow\njoin c db 1\nflow\nstate c db n up\nflow\nstop 2\nask 1 1 3\nflow\n";

/// What is heard and cast, and the entry that closes the phase.
const HEARD: &[u8] =
    b"heard 2.1.1.1 2.1.1 db 0 once-join 2.1.1.1 =\nheard 2.1.1.1 2.1.1 db 1 once-join 2.1.1.1,1.1.1.1 =\nheard 1.1.1.1 2.1.1 db 1 once-join 2.1.1.1,1.1.1.1 =\nheard 2.1.1.1 2.1.1 db 2 once-join 2.1.1.1,1.1.1.1,3.1.1.1 =\nheard 1.1.1.1 2.1.1 db 2 once-join 2.1.1.1,1.1.1.1,3.1.1.1 =\nheard 3.1.1.1 2.1.1 db 2 once-join 2.1.1.1,1.1.1.1,3.1.1.1 =\nheard 2.1.1.1 2.1.1 db 3 begin-state 2.1.1.1,1.1.1.1,3.1.1.1 =\nheard 1.1.1.1 2.1.1 db 3 begin-state 2.1.1.1,1.1.1.1,3.1.1.1 =\ncast 1.1.1.1 2.1.1/3 1 A=2\nheard 3.1.1.1 2.1.1 db 3 begin-state 2.1.1.1,1.1.1.1,3.1.1.1 =\ncast 3.1.1.1 2.1.1/3 1 A=1\nheard 1.1.1.1 3.1.1 db 0 approve 2.1.1.1,1.1.1.1,3.1.1.1 =2\nheard 1.1.1.1 3.1.1 db 1 once-fail 1.1.1.1,3.1.1.1 =2\nheard 3.1.1.1 3.1.1 db 0 approve 2.1.1.1,1.1.1.1,3.1.1.1 =2\nheard 3.1.1.1 3.1.1 db 1 once-fail 1.1.1.1,3.1.1.1 =2\n";

/// Is it filled with an approval, this value and the message `hi`?
fn is_cast(filled: &Option<Filled>, value: &[u8]) -> bool {
    match filled {
        Some(
            Filled {
                vote: Vote::Approve,
                value: Some(v),
                message: Some(m),
            },
        ) => v.bytes() == value && m.bytes() == b"hi".as_slice(),
        _ => false,
    }
}

/// Is the message there, and `hi`?
fn is_hi(message: &Option<Text>) -> bool {
    match message {
        None => false,
        Some(m) => m.bytes() == b"hi".as_slice(),
    }
}

/// Did the client of node 1 fill the value `2` at its third notice, and nothing else?
fn has_filled_two(client: &Answering) -> bool {
    match client.ballots.as_slice() {
        [None, None, filled, None, None] => is_cast(filled, b"2"),
        _ => false,
    }
}

/// Did the client of node 3 fill the value `1` at its second notice, and nothing else?
fn has_filled_one(client: &Answering) -> bool {
    match client.ballots.as_slice() {
        [None, filled, None, None] => is_cast(filled, b"1"),
        _ => false,
    }
}

/// Did no notice bring a message but that of the approval, which is the last but one?
fn has_one_message(client: &Answering) -> bool {
    match client.messages.as_slice() {
        [None, None, None, m, None] => is_hi(m),
        [None, None, m, None] => is_hi(m),
        _ => false,
    }
}

/// Was the value empty up to the approval, which is the last notice but one, and `2` from then on?
fn has_values(client: &Answering) -> bool {
    match client.values.as_slice() {
        [a, b, c, d, e] => {
            a.bytes() == b"".as_slice()
                && b.bytes() == b"".as_slice()
                && c.bytes() == b"".as_slice()
                && d.bytes() == b"2".as_slice()
                && e.bytes() == b"2".as_slice()
        }
        [a, b, c, d] => {
            a.bytes() == b"".as_slice()
                && b.bytes() == b"".as_slice()
                && c.bytes() == b"2".as_slice()
                && d.bytes() == b"2".as_slice()
        }
        _ => false,
    }
}

/// Is this the whole log of node 1's client?
fn has_first_log(world: &World<Answering>) -> bool {
    match world.client(1, b"b") {
        None => false,
        Some(c) => {
            c.places.as_slice() == [1, 2, 3, 0, 1].as_slice()
                && has_filled_two(c)
                && has_one_message(c)
                && has_values(c)
        }
    }
}

/// Is this the whole log of node 3's client?
fn has_third_log(world: &World<Answering>) -> bool {
    match world.client(3, b"c") {
        None => false,
        Some(c) => {
            c.places.as_slice() == [2, 3, 0, 1].as_slice()
                && has_filled_one(c)
                && has_one_message(c)
                && has_values(c)
        }
    }
}

/// The records of what is heard and cast.
fn heard_and_cast() -> Kinds {
    let mut kinds = Kinds::none();
    kinds.insert(Kind::Heard);
    kinds.insert(Kind::Cast);
    kinds
}

#[test]
fn what_clients_answer_is_what_is_counted(rt: HostRuntime) -> Result<(), Fail> {
    let alloc = rt.alloc();
    let script = read_script(alloc, TAKEOVER)?;
    let mut out = MemSink::new(alloc, Vec::new(alloc));
    let ended = play_as::<Answering, MemSink>(
        alloc,
        &script,
        heard_and_cast(),
        1_000_000,
        &mut out,
    );
    assert!(rt; out.held() == HEARD);
    assert!(rt; ended.is_ok());
    if let Ok(world) = &ended {
        assert!(rt; has_first_log(world));
        assert!(rt; has_third_log(world));
        assert!(rt; world.client(2, b"a").is_none());
    }
    Ok(())
}
