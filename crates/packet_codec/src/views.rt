//! The bodies of views.
ghost use Rattle.std.specs.Prelude.{◌≡◌, Option, option_map};
ghost use Rattle.node_state.specs.Bodies.{body_at};
ghost use Rattle.packet_codec.specs.InPlace.{body_in};

use crate::packet::{Answered, BodyRef};
use packet_bodies::{read_prepare, read_refuse, read_view_body};
use rsct_packet::read_view;
use view_exchange::{AnswerRef, InstallRef};

#[tactic(auto, unfolding(node_state::specs::Bodies::body_at), using(crate::proofs::WholeLaws::whole_made))]
pub fn prepare_body(bytes: &[u8]) -> Option<BodyRef<'_>>
    ensures { option_map body_in result ≡ body_at 9 bytes.now }
{
    Some(BodyRef::Prepare(read_prepare(bytes)?))
}

#[tactic(auto, unfolding(node_state::specs::Bodies::body_at), using(crate::proofs::WholeLaws::whole_made))]
pub fn answer_body(bytes: &[u8]) -> Option<BodyRef<'_>>
    ensures { option_map body_in result ≡ body_at 10 bytes.now }
{
    let (view, bytes) = read_view(bytes)?;
    let answer = AnswerRef::read(bytes)?;
    Some(BodyRef::Answer(Answered { view, answer }))
}

#[tactic(auto, unfolding(node_state::specs::Bodies::body_at), using(crate::proofs::WholeLaws::whole_made))]
pub fn refuse_body(bytes: &[u8]) -> Option<BodyRef<'_>>
    ensures { option_map body_in result ≡ body_at 11 bytes.now }
{
    Some(BodyRef::Refuse(read_refuse(bytes)?))
}

#[tactic(auto, unfolding(node_state::specs::Bodies::body_at), using(crate::proofs::WholeLaws::whole_made, crate::proofs::WholeLaws::whole_same))]
pub fn install_body(bytes: &[u8]) -> Option<BodyRef<'_>>
    ensures { option_map body_in result ≡ body_at 12 bytes.now }
{
    Some(BodyRef::Install(InstallRef::read(bytes)?))
}

#[tactic(auto, unfolding(node_state::specs::Bodies::body_at), using(crate::proofs::WholeLaws::whole_made))]
pub fn taken_body(bytes: &[u8]) -> Option<BodyRef<'_>>
    ensures { option_map body_in result ≡ body_at 13 bytes.now }
{
    Some(BodyRef::Taken(read_view_body(bytes)?))
}
