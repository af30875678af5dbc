//! Datagrams that are received, and the messages that they make whole.
ghost use Rattle.std.specs.Prelude.{◌≡◌, ◌≤◌, ◌<◌, vec_len, length, IfOk, IfSome, OnOk, OnErr};
ghost use Rattle.hags_io.specs.Fronts.{EndsByReceive};
ghost use Rattle.link_use.specs.Receiving.{Receives, ReceivesFront, whole_in, nothing_received};

use daemon_model::ReceiveCounts;
use hags_io::{DATAGRAM_ROOM, Got, Outside};
use piece_link::Joiner;
use rsct_packet::NoMemory;
use std::alloc::Global;

/// So many receives that fail in a row end who works over an outside.
pub const MOST_FAILED: u8 = 16;

/// The memory into which datagrams are received.
pub fn buffer(alloc: Global) -> Result<Vec<u8>, NoMemory>
    ensures { IfOk result (λ v. vec_len v ≡ 65536) }
{
    Ok(vec![in alloc; 0u8; DATAGRAM_ROOM]?)
}

/// What is received: the pieces that are joined; how many receives failed in a row, up to 16; and what came so far.
#[derive(Drop)]
pub struct Receiving {
    pub joiner: Joiner,
    pub failed: u8,
    pub counts: ReceiveCounts,
}

/// A message that is whole, and the network on which its last piece came.
#[derive(Drop)]
pub struct Whole {
    pub network: u8,
    pub message: Vec<u8>,
}

impl Receiving {
    /// Before the first receive.
    pub fn new() -> Receiving
        ensures { result ≡ nothing_received }
    {
        Receiving {
            joiner: Joiner::new(),
            failed: 0,
            counts: ReceiveCounts::new(),
        }
    }

    /// One receive, and the message that is whole by it, if one is. Where memory has run out, the datagram may be lost.
    #[tactic(auto, using(crate::proofs::ReceiveLaws::receives_none, crate::proofs::ReceiveLaws::receives_whole, crate::proofs::ReceiveLaws::receives_quiet, crate::proofs::ReceiveLaws::receives_failed, crate::proofs::ReceiveLaws::front_none, crate::proofs::ReceiveLaws::front_lost, hags_io::proofs::FrontLaws::ends_by_receive))]
    pub fn receive<O: Outside>(
        &mut self,
        alloc: Global,
        buf: &mut [u8],
        outside: &mut O,
    ) -> Result<Option<Whole>, NoMemory>
        requires { 65536 ≤ length buf.old }
        ensures received { IfOk result (λ whole. Receives self.old self.new (whole_in whole)
            (O.told outside.old) (O.told outside.new)) }
        ensures broke { OnErr result (ReceivesFront (O.told outside.old) (O.told outside.new)) }
        ensures failed { OnOk result (0 < self.new.failed → EndsByReceive (O.told outside.new)) }
        ensures clear { IfOk result (λ whole. IfSome whole (λ _. self.new.failed ≡ 0)) }
        ensures len { length buf.new ≡ length buf.old }
    {
        match outside.recv(buf) {
            Got::Datagram(len, network) => {
                self.failed = 0;
                let datagram = &buf[..len];
                self.counts.note_datagram(datagram);
                match self.joiner.take(alloc, datagram)? {
                    None => Ok(None),
                    Some(message) => Ok(Some(Whole { network, message })),
                }
            }
            Got::Quiet => {
                self.failed = 0;
                self.counts.note_quiet();
                Ok(None)
            }
            Got::Failed => {
                self.failed = self.failed.saturating_add(1).min(MOST_FAILED);
                self.counts.note_failure();
                Ok(None)
            }
            Got::NoMemory => Err(NoMemory),
        }
    }
}
