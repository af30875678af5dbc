//! The receives of a status client.
ghost use Rattle.std.specs.Prelude.{◌≡◌, ◌≤◌, ◌<◌, IfOk, IfErr, OnOk, Err, length};
ghost use Rattle.std.specs.Option.{option_map};
ghost use Rattle.hags_io.specs.Fronts.{EndsByReceive};
ghost use Rattle.link_use.specs.Stops.{StopsQuestion};
ghost use Rattle.status_client.specs.Asked.{IsUnwritten, Hears, Answered, Unanswered, Failing};

use crate::question::{Question, reply_to};
use hags_io::Outside;
use link_use::{MOST_FAILED, Receiving, Stop};
use rsct_packet::NoMemory;
use std::alloc::Global;

/// A status client that waits: for the answer to which question, and what it receives.
#[derive(Drop)]
pub struct Waiting {
    pub question: Question,
    pub receiving: Receiving,
}

impl Waiting {
    /// One receive: the text of the answer, where it completes it.
    #[tactic(auto, using(crate::proofs::WaitLaws::hears_none, crate::proofs::WaitLaws::hears_whole, crate::proofs::UnwrittenLaws::receive_unwritten, crate::proofs::UnwrittenLaws::lost_unwritten))]
    fn hear<O: Outside>(
        &mut self,
        alloc: Global,
        buf: &mut [u8],
        outside: &mut O,
    ) -> Result<Option<Vec<u8>>, NoMemory>
        requires { 65536 ≤ length buf.old }
        ensures hears { IfOk result (λ text. Hears self.old self.new
            (option_map (λ t. t.items) text) (O.told outside.old) (O.told outside.new)) }
        ensures failed { OnOk result (0 < self.new.receiving.failed
            → EndsByReceive (O.told outside.new)) }
        ensures unwritten { IsUnwritten (O.told outside.old) (O.told outside.new) }
        ensures len { length buf.new ≡ length buf.old }
    {
        let Some(whole) = self.receiving.receive(alloc, buf, outside)? else {
            return Ok(None);
        };
        match reply_to(self.question, whole.message.as_slice()) {
            None => Ok(None),
            Some(text) => Ok(Some(Vec::from_slice(alloc, text)?)),
        }
    }

    /// So many receives, until one completes the answer, or the sixteenth in a row fails.
    #[tactic(auto, using(crate::proofs::WaitLaws::waits_none, crate::proofs::WaitLaws::waits_next, crate::proofs::WaitLaws::waits_answered, crate::proofs::WaitLaws::waits_failing, crate::proofs::WaitLaws::waits_all, crate::proofs::UnwrittenLaws::still_unwritten, crate::proofs::UnwrittenLaws::unwritten_on))]
    pub fn receive<O: Outside>(
        &mut self,
        alloc: Global,
        turns: u32,
        buf: &mut [u8],
        outside: &mut O,
    ) -> Result<Vec<u8>, Stop>
        requires { 65536 ≤ length buf.old }
        ensures answered { IfOk result (λ text. Answered self.old.question turns self.old.receiving
            text.items (O.told outside.old) (O.told outside.new)) }
        ensures unanswered { result ≡ Err Stop.NoReply → Unanswered self.old.question turns
            self.old.receiving (O.told outside.old) (O.told outside.new) }
        ensures failing { result ≡ Err Stop.LinkFault → Failing self.old.question turns
            self.old.receiving (O.told outside.old) (O.told outside.new) }
        ensures unwritten { IsUnwritten (O.told outside.old) (O.told outside.new) }
        ensures stops { IfErr result StopsQuestion }
    {
        for _ in 0..turns {
            if let Some(text) = self.hear(alloc, buf, outside)? {
                return Ok(text);
            }
            if self.receiving.failed >= MOST_FAILED {
                return Err(Stop::LinkFault);
            }
        }
        Err(Stop::NoReply)
    }
}
