//! The question of a status client, and what answers it.
ghost use Rattle.std.specs.Prelude.{◌≡◌, option_map};
ghost use Rattle.status_client.specs.Question.{query_packet, node_reply, reply_to};

use node_sending::shared_network;
use node_state::{Body, Config, Packet, What};
use packet_codec::{BodyRef, PacketRef};
use self_questions::{SelfQuestion, SelfWhat, text_in};

/// What a question is about: a part of what the node knows, or what its daemon says of itself.
#[derive(Clone, Copy, Debug, PartialEq, Eq)]
pub enum Subject {
    Node(What),
    Daemon(SelfWhat),
}

/// What is asked: about what, of which node (1 to 32), and how many receives are done at most.
#[derive(Clone, Copy, Debug, PartialEq, Eq)]
pub struct Asking {
    pub subject: Subject,
    pub node: u8,
    pub turns: u32,
}

/// A question by which a reply is known: what it is about, and its number.
#[derive(Clone, Copy, Debug, PartialEq, Eq)]
pub struct Question {
    pub subject: Subject,
    pub number: u32,
}

/// The packet that asks a node about what it knows, under this number.
#[tactic(auto, unfolding(crate::specs::Question::query_packet))]
pub fn query_packet(config: &Config, node: u8, what: What, number: u32) -> Packet
    ensures { result ≡ query_packet config.now node what number }
{
    Packet {
        network: shared_network(config, node, node),
        from: 0,
        to: node,
        inc: 0,
        level: 1,
        domain: 0,
        body: Body::Query {
            question: number,
            what,
        },
    }
}

/// The text of a message that is the reply of a node to the question of this number.
#[tactic(auto, unfolding(crate::specs::Question::node_reply))]
fn node_reply(number: u32, message: &[u8]) -> Option<&[u8]>
    ensures { option_map (λ t. t.now) result ≡ node_reply number message.now }
{
    let packet = PacketRef::read(message)?;
    match &packet.body {
        BodyRef::Reply(reply) => {
            if reply.question() == number {
                Some(reply.text())
            } else {
                None
            }
        }
        _ => None,
    }
}

/// The text of a message that is a reply to the question.
#[tactic(auto, unfolding(crate::specs::Question::reply_to))]
pub fn reply_to(question: Question, message: &[u8]) -> Option<&[u8]>
    ensures { option_map (λ t. t.now) result ≡ reply_to question message.now }
{
    match question.subject {
        Subject::Node(_) => node_reply(question.number, message),
        Subject::Daemon(what) => {
            let asked = SelfQuestion {
                what,
                question: question.number,
            };
            text_in(asked, message)
        }
    }
}
