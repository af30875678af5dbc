//! What is sent: messages and packets, in pieces.
ghost use Rattle.std.specs.Prelude.{◌≡◌, ◌≤◌, ◌<◌, ◌^◌, ◌⊎◌, ◌∷◌, [], length, map, IfOk, OnOk, OnErr};
ghost use Rattle.hags_io.specs.Deeds.{Exchanged};
ghost use Rattle.hags_io.specs.Telling.{Did};
ghost use Rattle.hags_io.specs.Fronts.{Went, WentFront};
ghost use Rattle.piece_link.specs.Pieces.{can_cut};
ghost use Rattle.daemon_model.specs.Counts.{sent_more};
ghost use Rattle.daemon_model.specs.Sent.{piece_to, number_if, message_calls, packet_calls, number_past, number_over, numbered, carried, sent_calls, number_after, IsSpelled};
ghost use Rattle.daemon_model.specs.Doings.{Exchanges, Made, MadeFront};

use hags_io::{Outside, Put};
use node_state::Packet;
use packet_codec::Datagram;
use piece_link::cut;
use rsct_packet::NoMemory;
use std::alloc::Global;

/// To which node something is sent, and on which network. Node 0 is the sender of the datagram that came last.
#[derive(Clone, Copy, Debug, PartialEq, Eq)]
pub struct Receiver {
    pub node: u8,
    pub network: u8,
}

/// Sends a piece. One that the link fails to send is lost.
#[tactic(auto, using(hags_io::proofs::FrontLaws::went_one))]
fn send_piece<O: Outside>(outside: &mut O, to: Receiver, piece: &[u8]) -> Result<(), NoMemory>
    ensures done { OnOk result (Went (O.told outside.old) (O.told outside.new)
        (Exchanged (piece_to to.node to.network piece.now) ∷ [])) }
    ensures broke { OnErr result (Did (O.told outside.old) (O.told outside.new) []) }
{
    match outside.send(to.node, to.network, piece) {
        Put::Done => Ok(()),
        Put::Failed => Ok(()),
        Put::NoMemory => Err(NoMemory),
    }
}

/// Sends pieces, in this order.
#[tactic(auto, using(crate::proofs::SendLaws::to_begin, crate::proofs::SendLaws::piece_next, crate::proofs::SendLaws::piece_front, crate::proofs::SendLaws::pieces_done))]
fn send_pieces<O: Outside>(
    outside: &mut O,
    to: Receiver,
    pieces: &[Vec<u8>],
) -> Result<(), NoMemory>
    ensures done { OnOk result (Went (O.told outside.old) (O.told outside.new)
        (map Exchanged (map (piece_to to.node to.network) (map (λ d. d.items) pieces.now)))) }
    ensures broke { OnErr result (WentFront (O.told outside.old) (O.told outside.new)
        (map Exchanged (map (piece_to to.node to.network) (map (λ d. d.items) pieces.now)))) }
{
    for piece in pieces {
        send_piece(outside, to, piece.as_slice())?;
    }
    Ok(())
}

/// Who sends: the number of its node, which is at most 32, or 0 for a client; its incarnation; and the number of the
/// next message that it cuts.
#[derive(Clone, Copy, Debug, PartialEq, Eq)]
pub struct Outbox {
    pub me: u8,
    pub incarnation: u32,
    pub number: u64,
}

impl Outbox {
    /// Sends a message as the next one, and answers how many datagrams it sent, as if each went out. One that is too long
    /// to cut is lost, and takes no number. A number past the last one counts as want of memory.
    #[tactic(auto, using(hags_io::proofs::FrontLaws::none_went, crate::proofs::SendLaws::message_lost, crate::proofs::SendLaws::number_lost, crate::proofs::SendLaws::message_sent, crate::proofs::SendLaws::number_sent, crate::proofs::SendLaws::message_front, crate::proofs::SendLaws::message_unsent, crate::proofs::SendLaws::message_count))]
    pub fn send_message<O: Outside>(
        &mut self,
        alloc: Global,
        to: Receiver,
        message: &[u8],
        outside: &mut O,
    ) -> Result<u64, NoMemory>
        requires { self.old.me ≤ 32 }
        ensures done { OnOk result (Went (O.told outside.old) (O.told outside.new)
            (map Exchanged (message_calls self.old.me self.old.incarnation self.old.number
            to.node to.network message.now))) }
        ensures count { IfOk result (λ n. n ≡ length (message_calls self.old.me
            self.old.incarnation self.old.number to.node to.network message.now)) }
        ensures number { OnOk result (self.new ≡ record self.old
            { number = number_if (can_cut message.now) self.old.number }) }
        ensures fits { self.old.number < 2 ^ 64 }
        ensures same { self.new.me ≡ self.old.me }
        ensures broke { OnErr result (WentFront (O.told outside.old) (O.told outside.new)
            (map Exchanged (message_calls self.old.me self.old.incarnation self.old.number
            to.node to.network message.now))) }
    {
        let Some(next) = self.number.checked_add(1) else {
            return Err(NoMemory);
        };
        let mut pieces = Vec::new(alloc);
        let number = self.number;
        if !cut(
            alloc,
            &mut pieces,
            self.me,
            self.incarnation,
            number,
            message,
        )? {
            return Ok(0);
        }
        self.number = next;
        send_pieces(outside, to, pieces.as_slice())?;
        Ok(pieces.len() as u64)
    }

    /// Sends a packet as the next message, and answers how many datagrams it sent, as if each went out. One that is too
    /// long to cut is lost, and takes no number. One that has no spelling is never sent: it and a number past the last one
    /// count as want of memory.
    #[tactic(auto, using(hags_io::proofs::FrontLaws::none_went, hags_io::proofs::DeedLaws::did_none, crate::proofs::SendLaws::packet_went, crate::proofs::SendLaws::packet_number, crate::proofs::SendLaws::packet_front, crate::proofs::SendLaws::packet_count, crate::proofs::SendLaws::is_spelled, crate::proofs::SendLaws::unsent, crate::proofs::SendLaws::spelled_first))]
    pub fn send_packet<O: Outside>(
        &mut self,
        alloc: Global,
        packet: &Packet,
        outside: &mut O,
    ) -> Result<u64, NoMemory>
        requires { self.old.me ≤ 32 }
        ensures done { OnOk result (Went (O.told outside.old) (O.told outside.new)
            (map Exchanged (packet_calls self.old.me self.old.incarnation self.old.number
            packet.now))) }
        ensures count { IfOk result (λ n. n ≡ length (packet_calls self.old.me
            self.old.incarnation self.old.number packet.now)) }
        ensures number { OnOk result (self.new ≡ record self.old
            { number = number_past self.old.number packet.now }) }
        ensures spelled { OnOk result (IsSpelled (numbered self.old.me self.old.incarnation
            self.old.number packet.now)) }
        ensures same { self.new.me ≡ self.old.me }
        ensures broke { OnErr result (WentFront (O.told outside.old) (O.told outside.new)
            (map Exchanged (packet_calls self.old.me self.old.incarnation self.old.number
            packet.now))) }
        ensures tested { OnErr result (Did (O.told outside.old) (O.told outside.new) []
            ⊎ IsSpelled (numbered self.old.me self.old.incarnation self.old.number packet.now)) }
    {
        let datagram = Datagram::of(alloc, packet)?;
        let to = Receiver {
            node: packet.to,
            network: packet.network,
        };
        self.send_message(alloc, to, datagram.bytes(), outside)
    }

    /// The same of a packet, but that one to a node that no network joins with this one is lost, and takes no number: so a stranger's packet that asks for an answer to a node which the settings lack has none.
    #[tactic(auto, using(crate::proofs::SendLaws::nowhere_made, crate::proofs::SendLaws::nowhere_number, crate::proofs::SendLaws::packet_made, crate::proofs::SendLaws::packet_made_front, crate::proofs::SendLaws::carried_number, crate::proofs::SendLaws::nowhere_count, crate::proofs::SendLaws::carried_count))]
    fn send_carried<O: Outside>(
        &mut self,
        alloc: Global,
        packet: &Packet,
        outside: &mut O,
    ) -> Result<u64, NoMemory>
        requires { self.old.me ≤ 32 }
        ensures count { IfOk result (λ n. n ≡ length (carried self.old.me
            self.old.incarnation self.old.number packet.now)) }
        ensures done { OnOk result (Made (O.told outside.old) (O.told outside.new)
            (map Exchanges (carried self.old.me self.old.incarnation self.old.number packet.now))) }
        ensures number { OnOk result (self.new ≡ record self.old
            { number = number_over self.old.number packet.now }) }
        ensures same { self.new.me ≡ self.old.me }
        ensures broke { OnErr result (MadeFront (O.told outside.old) (O.told outside.new)
            (map Exchanges (carried self.old.me self.old.incarnation self.old.number packet.now))) }
    {
        if packet.network == 0 {
            return Ok(0);
        }
        self.send_packet(alloc, packet, outside)
    }

    /// Sends packets, in this order, each as the next message; each of which a piece is sent has a spelling. Answers how
    /// many datagrams it sent, as if each went out, up to 18,446,744,073,709,551,615.
    #[tactic(auto, using(crate::proofs::SendLaws::packets_begin, crate::proofs::SendLaws::packets_next, crate::proofs::SendLaws::packets_front, crate::proofs::SendLaws::packets_done, crate::proofs::SendLaws::packets_number, crate::proofs::SendLaws::count_begins, crate::proofs::SendLaws::count_next, crate::proofs::SendLaws::count_done))]
    pub fn send_packets<O: Outside>(
        &mut self,
        alloc: Global,
        packets: &[Packet],
        outside: &mut O,
    ) -> Result<u64, NoMemory>
        requires { self.old.me ≤ 32 }
        ensures count { IfOk result (λ n. n ≡ sent_more 0 (sent_calls self.old.me
            self.old.incarnation self.old.number packets.now)) }
        ensures done { OnOk result (Made (O.told outside.old) (O.told outside.new)
            (map Exchanges (sent_calls self.old.me self.old.incarnation self.old.number
            packets.now))) }
        ensures number { OnOk result (self.new ≡ record self.old
            { number = number_after self.old.number packets.now }) }
        ensures same { self.new.me ≡ self.old.me }
        ensures broke { OnErr result (MadeFront (O.told outside.old) (O.told outside.new)
            (map Exchanges (sent_calls self.old.me self.old.incarnation self.old.number
            packets.now))) }
    {
        let mut sent = 0u64;
        for packet in packets {
            let count = self.send_carried(alloc, packet, outside)?;
            sent = sent.saturating_add(count);
        }
        Ok(sent)
    }
}
