//! The answer to a status client.
ghost use Rattle.std.specs.Prelude.{◌≡◌, ◌++◌, OnOk, OnErr};
ghost use Rattle.packet_bodies.specs.Body.{IsWhole, IsOnlyWhole};
ghost use Rattle.packet_bodies.specs.Group.{ReplyIn, IsReply, reply_at, reply_text};

use rsct_packet::{NoMemory, known, put_u32, read_u32};
use std::marker::Model;

/// The body of a REPLY: the number of the question, and text up to the end. The text is a part of the datagram.
#[derive(Drop)]
pub struct Reply<'a> {
    question: u32,
    text: &'a [u8],
}

impl<'a> Model for Reply<'a> {
    ghost use Rattle.packet_bodies.specs.Group.{ReplyIn};

    ghost Value = { ReplyIn };

    ghost view = { λ r. record { question = r.question; text = r.text.now } };
}

impl<'a> Reply<'a> {
    pub fn question(&self) -> u32
        ensures { result ≡ self.now.question }
    {
        self.question
    }

    pub fn text(&self) -> &'a [u8]
        ensures { result.now ≡ self.now.text }
    {
        self.text
    }
}

#[tactic(auto, unfolding(crate::specs::Group::reply_at))]
fn read_reply_alone(bytes: &[u8]) -> Option<Reply>
    ensures { result ≡ reply_at bytes.now }
{
    let (question, text) = read_u32(bytes)?;
    Some(Reply { question, text })
}

/// A REPLY.
#[tactic(auto, using(crate::proofs::BodyLaws::reply_found, crate::proofs::BodyLaws::reply_only))]
pub fn read_reply(bytes: &[u8]) -> Option<Reply>
    ensures value { result ≡ reply_at bytes.now }
    ensures found { IsWhole reply_text IsReply result bytes.now }
    ensures only { IsOnlyWhole reply_text IsReply result bytes.now }
{
    read_reply_alone(known(bytes))
}

/// A REPLY.
#[tactic(auto, unfolding(crate::specs::Group::reply_text))]
pub fn put_reply(out: &mut Vec<u8>, question: u32, text: &[u8]) -> Result<(), NoMemory>
    ensures ok { OnOk result (out.new.items ≡ out.old.items
        ++ reply_text (record { question = question; text = text.now })) }
    ensures err { OnErr result (out.new.items ≡ out.old.items) }
{
    let before = out.len();
    put_u32(out, question)?;
    if let Err(e) = out.extend_from_slice(text) {
        out.truncate(before);
        return Err(NoMemory::from(e));
    }
    Ok(())
}
