//! The turns of a client.
ghost use Rattle.std.specs.Prelude.{◌≡◌, ◌≤◌, ◌<◌, ◌∷◌, [], length, OnOk, OnErr, IfOk, IfErr, Some, Err};
ghost use Rattle.hags_io.specs.Deeds.{Exchanged};
ghost use Rattle.hags_io.specs.Telling.{Did};
ghost use Rattle.hags_io.specs.Fronts.{Went, WentFront, written, EndsByWrite, EndsByReceive};
ghost use Rattle.link_use.specs.Stops.{StopsBy, StopsClient};
ghost use Rattle.rsct_packet.specs.Format.{EachFits};
ghost use Rattle.client_run.specs.Turns.{call_made, up_piece, up_call, up_sent, told_text, told_with, text_in};
ghost use Rattle.client_run.specs.Running.{IsCall, IsLost, IsFull, EndsTurn, Hears, Ends, ReceivesAs, ReceiveEnds, ReceiveFront, TurnsAs, TurnEnds, TurnFront, Answered, Unanswered, Ended, Failing, Front};

use crate::text::{put_answer, put_events};
use hags_io::{Outside, Put};
use link_use::{MOST_FAILED, Receiving, Stop};
use piece_link::{PieceHead, put_piece};
use remote_session::{DownSeen, Far};
use rsct_packet::{List, NoMemory, risen};
use std::alloc::Global;

/// A client that runs: the node of its daemon (1 to 32) and the network (1 to 4) by which it reaches that; its end of
/// the session; what it receives; the number of the next message that it sends; how many calls it made, how many of them
/// were answered, and how many events it wrote.
#[derive(Drop)]
pub struct Client {
    pub node: u8,
    pub network: u8,
    pub far: Far,
    pub receiving: Receiving,
    pub number: u64,
    pub made: u32,
    pub answered: u32,
    pub told: u32,
}

/// The one piece of an Up, as the message of this number of sender 0.
#[tactic(auto, unfolding(crate::specs::Turns::up_piece))]
fn piece_of(alloc: Global, far: &Far, number: u64) -> Result<Vec<u8>, NoMemory>
    ensures { IfOk result (λ piece. piece.items ≡ up_piece far.now number) }
{
    let mut up = Vec::new(alloc);
    far.up(&mut up)?;
    let head = PieceHead {
        sender: 0,
        incarnation: 0,
        number,
        index: 0,
        count: 1,
    };
    let mut piece = Vec::new(alloc);
    put_piece(&mut piece, &head, up.as_slice())?;
    Ok(piece)
}

/// Writes a text, where it is not empty.
#[tactic(auto, using(crate::proofs::TurnLaws::empty_written, crate::proofs::TurnLaws::text_written, crate::proofs::TurnLaws::text_failed, hags_io::proofs::FrontLaws::still_went, hags_io::proofs::FrontLaws::ends_by_write))]
fn write<O: Outside>(text: &[u8], outside: &mut O) -> Result<(), Stop>
    ensures done { OnOk result (Went (O.told outside.old) (O.told outside.new)
        (written text.now)) }
    ensures front { OnErr result (WentFront (O.told outside.old) (O.told outside.new)
        (written text.now)) }
    ensures fault { IfErr result (StopsBy (O.told outside.new)) }
{
    if text.is_empty() {
        return Ok(());
    }
    match outside.write(text) {
        Put::Done => Ok(()),
        Put::Failed => Err(Stop::WriteFault),
        Put::NoMemory => Err(Stop::NoMemory),
    }
}

impl Client {
    /// The next call is made, where there is one and the last one has its answer.
    #[tactic(auto, using(crate::proofs::TurnLaws::call_at, crate::proofs::TurnLaws::made_none, crate::proofs::TurnLaws::made_call, crate::proofs::TurnLaws::made_no_call))]
    fn make_call(&mut self, alloc: Global, lines: &List<List<u8>>) -> Result<(), NoMemory>
        requires { EachFits IsCall lines.now }
        ensures { OnOk result (self.new ≡ call_made lines.now self.old) }
    {
        let Some(line) = lines.get(self.made as usize) else {
            return Ok(());
        };
        if self.far.call(alloc, line.as_slice())? {
            self.made = risen(self.made);
        }
        Ok(())
    }

    /// The Up of this moment is sent. One that the link fails to send is lost.
    #[tactic(auto, using(crate::proofs::TurnLaws::up_went, hags_io::proofs::DeedLaws::did_none))]
    fn send_up<O: Outside>(&mut self, alloc: Global, outside: &mut O) -> Result<(), NoMemory>
        ensures done { OnOk result (Went (O.told outside.old) (O.told outside.new)
            (Exchanged (up_call self.old) ∷ [])) }
        ensures state { OnOk result (self.new ≡ up_sent self.old) }
        ensures broke { OnErr result (Did (O.told outside.old) (O.told outside.new) []) }
    {
        let Some(next) = self.number.checked_add(1) else {
            return Err(NoMemory);
        };
        let piece = piece_of(alloc, &self.far, self.number)?;
        self.number = next;
        match outside.send(self.node, self.network, piece.as_slice()) {
            Put::Done => Ok(()),
            Put::Failed => Ok(()),
            Put::NoMemory => Err(NoMemory),
        }
    }

    /// Writes the answer, if there is one, to the next call that had none, and the events that were not written yet.
    #[tactic(auto, unfolding(crate::specs::Turns::told_with, crate::specs::Turns::told_text), using(hags_io::proofs::FrontLaws::none_went))]
    fn tell<O: Outside>(
        &mut self,
        alloc: Global,
        answer: Option<bool>,
        outside: &mut O,
    ) -> Result<(), Stop>
        ensures told { OnOk result (self.new ≡ told_with self.old answer) }
        ensures done { OnOk result (Went (O.told outside.old) (O.told outside.new)
            (written (told_text self.old answer))) }
        ensures front { OnErr result (WentFront (O.told outside.old) (O.told outside.new)
            (written (told_text self.old answer))) }
        ensures same { self.new.receiving ≡ self.old.receiving }
        ensures fault { IfErr result (StopsBy (O.told outside.new)) }
    {
        let mut text = Vec::new(alloc);
        if let Some(taken) = answer {
            self.answered = risen(self.answered);
            put_answer(&mut text, self.answered, taken)?;
        }
        self.told = put_events(&mut text, &self.far, self.told)?;
        write(text.as_slice(), outside)
    }

    /// A whole message, which may be a Down.
    #[tactic(auto, using(crate::proofs::TurnLaws::hears_as, crate::proofs::TurnLaws::ends_as, crate::proofs::TurnLaws::front_as, crate::proofs::TurnLaws::step_ends, hags_io::proofs::FrontLaws::went_nothing, hags_io::proofs::FrontLaws::none_went))]
    fn hear<O: Outside>(
        &mut self,
        alloc: Global,
        message: &[u8],
        outside: &mut O,
    ) -> Result<(), Stop>
        ensures done { OnOk result (Hears self.old self.new message.now
            (O.told outside.old) (O.told outside.new)) }
        ensures lost { result ≡ Err Stop.SessionLost → Ends IsLost self.old message.now
            (O.told outside.old) (O.told outside.new) }
        ensures full { result ≡ Err Stop.DaemonFull → Ends IsFull self.old message.now
            (O.told outside.old) (O.told outside.new) }
        ensures front { OnErr result (WentFront (O.told outside.old) (O.told outside.new)
            (written (text_in self.old (Some message.now)))) }
        ensures same { OnOk result (self.new.receiving ≡ self.old.receiving) }
        ensures fault { IfErr result (EndsTurn (O.told outside.new)) }
    {
        match self.far.down(alloc, message)? {
            DownSeen::NoMessage => {}
            DownSeen::Nothing => self.tell(alloc, None, outside)?,
            DownSeen::Answer(taken) => self.tell(alloc, Some(taken), outside)?,
            DownSeen::Lost(_, _) => return Err(Stop::SessionLost),
            DownSeen::Full => return Err(Stop::DaemonFull),
        }
        Ok(())
    }

    /// A receive, with what comes of it.
    #[tactic(auto, using(crate::proofs::TurnLaws::receives_nothing, crate::proofs::TurnLaws::receives_message, crate::proofs::TurnLaws::receive_ends, crate::proofs::TurnLaws::front_message, crate::proofs::TurnLaws::front_none))]
    fn receive<O: Outside>(
        &mut self,
        alloc: Global,
        buf: &mut [u8],
        outside: &mut O,
    ) -> Result<(), Stop>
        requires { 65536 ≤ length buf.old }
        ensures done { OnOk result (ReceivesAs self.old self.new (O.told outside.old)
            (O.told outside.new)) }
        ensures lost { result ≡ Err Stop.SessionLost → ReceiveEnds IsLost self.old
            (O.told outside.old) (O.told outside.new) }
        ensures full { result ≡ Err Stop.DaemonFull → ReceiveEnds IsFull self.old
            (O.told outside.old) (O.told outside.new) }
        ensures broke { OnErr result (ReceiveFront self.old (O.told outside.old)
            (O.told outside.new)) }
        ensures failed { OnOk result (0 < self.new.receiving.failed
            → EndsByReceive (O.told outside.new)) }
        ensures len { length buf.new ≡ length buf.old }
        ensures fault { IfErr result (EndsTurn (O.told outside.new)) }
    {
        match self.receiving.receive(alloc, buf, outside)? {
            None => Ok(()),
            Some(whole) => self.hear(alloc, whole.message.as_slice(), outside),
        }
    }

    /// A turn: the next call is made where it can be, the Up is sent, and one receive.
    #[tactic(auto, using(crate::proofs::TurnLaws::turns_as, crate::proofs::TurnLaws::turn_ends, crate::proofs::TurnLaws::turn_front, crate::proofs::TurnLaws::turn_unbegun, crate::proofs::TurnLaws::turn_unsent))]
    fn turn<O: Outside>(
        &mut self,
        alloc: Global,
        lines: &List<List<u8>>,
        buf: &mut [u8],
        outside: &mut O,
    ) -> Result<(), Stop>
        requires calls { EachFits IsCall lines.now }
        requires room { 65536 ≤ length buf.old }
        ensures done { OnOk result (TurnsAs lines.now self.old self.new (O.told outside.old)
            (O.told outside.new)) }
        ensures lost { result ≡ Err Stop.SessionLost → TurnEnds IsLost lines.now self.old
            (O.told outside.old) (O.told outside.new) }
        ensures full { result ≡ Err Stop.DaemonFull → TurnEnds IsFull lines.now self.old
            (O.told outside.old) (O.told outside.new) }
        ensures broke { OnErr result (TurnFront lines.now self.old (O.told outside.old)
            (O.told outside.new)) }
        ensures failed { OnOk result (0 < self.new.receiving.failed
            → EndsByReceive (O.told outside.new)) }
        ensures len { length buf.new ≡ length buf.old }
        ensures fault { IfErr result (EndsTurn (O.told outside.new)) }
    {
        self.make_call(alloc, lines)?;
        self.send_up(alloc, outside)?;
        self.receive(alloc, buf, outside)
    }

    /// So many turns; fewer where 16 receives fail in a row, or the session is over.
    #[tactic(auto, using(crate::proofs::RunLaws::done_none, crate::proofs::RunLaws::done_next, crate::proofs::RunLaws::answered, crate::proofs::RunLaws::unanswered, crate::proofs::RunLaws::ended, crate::proofs::RunLaws::failing, crate::proofs::RunLaws::front, crate::proofs::RunLaws::front_last, crate::proofs::RunLaws::front_all, crate::proofs::TurnLaws::stops_client))]
    pub(crate) fn take_turns<O: Outside>(
        &mut self,
        alloc: Global,
        turns: u32,
        lines: &List<List<u8>>,
        buf: &mut [u8],
        outside: &mut O,
    ) -> Result<(), Stop>
        requires calls { EachFits IsCall lines.now }
        requires room { 65536 ≤ length buf.old }
        ensures answered { OnOk result (Answered lines.now self.old turns (O.told outside.old)
            (O.told outside.new)) }
        ensures unanswered { result ≡ Err Stop.NoReply → Unanswered lines.now self.old
            turns (O.told outside.old) (O.told outside.new) }
        ensures lost { result ≡ Err Stop.SessionLost → Ended IsLost lines.now self.old turns
            (O.told outside.old) (O.told outside.new) }
        ensures full { result ≡ Err Stop.DaemonFull → Ended IsFull lines.now self.old turns
            (O.told outside.old) (O.told outside.new) }
        ensures failing { result ≡ Err Stop.LinkFault → Failing lines.now
            self.old turns (O.told outside.old) (O.told outside.new) }
        ensures ever { Front lines.now self.old turns (O.told outside.old)
            (O.told outside.new) }
        ensures written { result ≡ Err Stop.WriteFault
            → EndsByWrite (O.told outside.new) }
        ensures failed { result ≡ Err Stop.LinkFault
            → EndsByReceive (O.told outside.new) }
        ensures stops { IfErr result StopsClient }
    {
        for _ in 0..turns {
            self.turn(alloc, lines, buf, outside)?;
            if self.receiving.failed >= MOST_FAILED {
                return Err(Stop::LinkFault);
            }
        }
        if (self.answered as usize) < lines.len() {
            return Err(Stop::NoReply);
        }
        Ok(())
    }
}
