//! A question to a daemon.
ghost use Rattle.std.specs.Prelude.{◌≡◌, ◌≤◌, ◌+◌, ◌∷◌, [], IfOk, IfErr, OnOk, Err};
ghost use Rattle.hags_io.specs.Deeds.{Exchanged};
ghost use Rattle.hags_io.specs.Edges.{Rose};
ghost use Rattle.hags_io.specs.Fronts.{Went};
ghost use Rattle.daemon_model.specs.Settings.{OverLink, OverLinkIf};
ghost use Rattle.link_use.specs.Receiving.{nothing_received};
ghost use Rattle.link_use.specs.Stops.{StopsQuestion};
ghost use Rattle.status_client.specs.Question.{question_call};
ghost use Rattle.status_client.specs.Asked.{IsUnwritten, Answered, Unanswered, Failing, Asked};

use crate::question::{Asking, Question, Subject, query_packet};
use crate::waiting::Waiting;
use hags_io::Outside;
use link_use::{Outbox, Receiver, Receiving, Stop, buffer, open_link};
use node_sending::shared_network;
use node_state::Config;
use rsct_packet::NoMemory;
use self_questions::{SelfQuestion, put_question};
use std::alloc::Global;

/// Sends the question of this number. One that the link fails to send is lost.
#[tactic(auto, using(crate::proofs::AskLaws::query_went, crate::proofs::AskLaws::self_question_went, crate::proofs::UnwrittenLaws::sent_unwritten, crate::proofs::UnwrittenLaws::all_sent_unwritten, crate::proofs::UnwrittenLaws::still_unwritten))]
fn send_question<O: Outside>(
    alloc: Global,
    config: &Config,
    asking: Asking,
    number: u32,
    outside: &mut O,
) -> Result<(), NoMemory>
    ensures done { OnOk result (Went (O.told outside.old) (O.told outside.new)
        (Exchanged (question_call config.now asking number) ∷ [])) }
    ensures unwritten { IsUnwritten (O.told outside.old) (O.told outside.new) }
{
    let mut outbox = Outbox {
        me: 0,
        incarnation: 0,
        number: 1,
    };
    match asking.subject {
        Subject::Node(what) => {
            let packet = query_packet(config, asking.node, what, number);
            outbox.send_packet(alloc, &packet, outside)?;
        }
        Subject::Daemon(what) => {
            let mut message = Vec::new(alloc);
            let asked = SelfQuestion {
                what,
                question: number,
            };
            put_question(&mut message, asked)?;
            let to = Receiver {
                node: asking.node,
                network: shared_network(config, asking.node, asking.node),
            };
            outbox.send_message(alloc, to, message.as_slice(), outside)?;
        }
    }
    Ok(())
}

/// Asks over a link that is open.
#[tactic(auto, using(crate::proofs::AskLaws::asked_answered, crate::proofs::AskLaws::asked_unanswered, crate::proofs::AskLaws::asked_failing, crate::proofs::UnwrittenLaws::read_unwritten, crate::proofs::UnwrittenLaws::unwritten_on))]
fn converse<O: Outside>(
    alloc: Global,
    config: &Config,
    asking: Asking,
    outside: &mut O,
) -> Result<Vec<u8>, Stop>
    ensures answered { IfOk result (λ text. Asked config.now asking (O.told outside.old)
        (λ question sent. Answered question asking.turns nothing_received text.items sent
        (O.told outside.new))) }
    ensures unanswered { result ≡ Err Stop.NoReply → Asked config.now asking
        (O.told outside.old) (λ question sent. Unanswered question asking.turns nothing_received
        sent (O.told outside.new)) }
    ensures failing { result ≡ Err Stop.LinkFault → Asked config.now asking
        (O.told outside.old) (λ question sent. Failing question asking.turns nothing_received
        sent (O.told outside.new)) }
    ensures unwritten { IsUnwritten (O.told outside.old) (O.told outside.new) }
    ensures stops { IfErr result StopsQuestion }
{
    let moment = outside.now();
    let question = Question {
        subject: asking.subject,
        number: (moment % 4_294_967_296) as u32,
    };
    let mut room = buffer(alloc)?;
    send_question(alloc, config, asking, question.number, outside)?;
    let mut waiting = Waiting {
        question,
        receiving: Receiving::new(),
    };
    waiting.receive(alloc, asking.turns, room.as_mut_slice(), outside)
}

/// Asks a daemon, about what its node knows or about itself, and answers the text of the first reply to the question. It
/// tells the link where all adapters of the settings are, opens it at a port that is free, reads the clock, sends the node
/// one question, whose number is the low 32 bits of that moment, and receives. A question that the link fails to send is
/// lost.
///
/// `NoReply` where none of the receives that it may do brought a reply to this question; `LinkFault` where the link
/// could not be opened, or 16 receives in a row failed before one; `NoMemory` where memory has run out. It ends in no
/// other way (`stops`).
#[tactic(auto, using(link_use::proofs::OpenLaws::over_link, link_use::proofs::OpenLaws::not_opened, link_use::proofs::OpenLaws::ran, link_use::proofs::OpenLaws::rose_closed, crate::proofs::AskLaws::rose_failing, crate::proofs::UnwrittenLaws::opening_unwritten, crate::proofs::UnwrittenLaws::unwritten_on))]
pub fn ask<O: Outside>(
    alloc: Global,
    config: &Config,
    asking: Asking,
    outside: &mut O,
) -> Result<Vec<u8>, Stop>
    requires { config.now.port + 32 ≤ 65535 }
    ensures answered { IfOk result (λ text. OverLink config.now 0 (O.told outside.old)
        (λ opened. Asked config.now asking opened (λ question sent. Answered question asking.turns
        nothing_received text.items sent (O.told outside.new)))) }
    ensures unanswered { result ≡ Err Stop.NoReply → OverLink config.now 0
        (O.told outside.old) (λ opened. Asked config.now asking opened (λ question sent. Unanswered
        question asking.turns nothing_received sent (O.told outside.new))) }
    ensures failing { result ≡ Err Stop.LinkFault → OverLinkIf config.now 0
        (O.told outside.old) (O.told outside.new) (λ opened. Asked config.now asking opened
        (λ question sent. Failing question asking.turns nothing_received sent
        (O.told outside.new))) }
    ensures failed { result ≡ Err Stop.LinkFault
        → Rose (O.told outside.old).link_faults (O.told outside.new).link_faults }
    ensures unwritten { IsUnwritten (O.told outside.old) (O.told outside.new) }
    ensures stops { IfErr result StopsQuestion }
{
    if !open_link(outside, config, 0) {
        return Err(Stop::LinkFault);
    }
    converse(alloc, config, asking, outside)
}
