//! Answers that are added to a gathering.
ghost use Rattle.std.specs.Prelude.{◌≡◌, ◌≤◌, length, IfOk, OnOk};
ghost use Rattle.std.specs.List.{position};
ghost use Rattle.rsct_packet.specs.Format.{EachFits};
ghost use Rattle.rsct_packet.specs.Search.{front_len};
ghost use Rattle.view_state.specs.Answers.{may_answer, is_member_above, with_member, with_answer, add_answer};
ghost use Rattle.view_state.specs.Tails.{IsTail, KeepsTails};
ghost use Rattle.view_exchange.specs.InPlace.{answer_in};

use crate::answer::AnswerRef;
use crate::sides::take_answer;
use rsct_packet::{List, Member, Members, NoMemory};
use std::alloc::Global;
use view_state::Exchange;

fn first_member_after(members: &[Member], node: u8) -> Option<usize>
    ensures { result ≡ position (is_member_above node) members.now }
{
    members.iter().position(|x| node < x.node)
}

/// Where a node comes in.
#[tactic(auto, using(rsct_packet::proofs::SearchLaws::front_is_position, rsct_packet::proofs::SearchLaws::front_is_in))]
fn member_front(members: &[Member], node: u8) -> usize
    ensures value { result ≡ front_len (is_member_above node) members.now }
    ensures within { result ≤ length members.now }
{
    first_member_after(members, node).unwrap_or(members.len())
}

#[tactic(auto, using(rsct_packet::proofs::SearchLaws::insert_at_front, std::proofs::lemmas::Grind::common_steps))]
fn with_member(alloc: Global, members: &Members, member: Member) -> Result<Members, NoMemory>
    ensures { IfOk result (λ l. l ≡ with_member members.now member) }
{
    let at = member_front(members.as_slice(), member.node);
    let mut items = Vec::from_slice(alloc, members.as_slice())?;
    items.insert(at, member)?;
    List::of(alloc, items.as_slice())
}

#[tactic(auto, unfolding(view_state::specs::Answers::with_answer))]
fn take(
    exchange: &mut Exchange,
    alloc: Global,
    node: u8,
    inc: u32,
    answer: &AnswerRef,
) -> Result<(), NoMemory>
    ensures { OnOk result
        (exchange.new ≡ with_answer exchange.old (answer_in node inc answer.now)) }
{
    exchange.members = with_member(alloc, &exchange.members, Member { node, inc })?;
    take_answer(&mut exchange.sides, alloc, node, inc, answer)
}

/// Adds the answer of a node in an incarnation to a gathering. False exactly where the node was not asked or has
/// answered; then nothing changes. A list is copied only where it is longer than the one that is kept of its view and
/// group, or as long and of a lesser node. Where memory has run out nothing is said of the gathering.
#[tactic(auto, unfolding(view_state::specs::Answers::add_answer), using(view_state::proofs::TailLaws::answer_keeps))]
pub fn add_answer(
    exchange: &mut Exchange,
    alloc: Global,
    node: u8,
    inc: u32,
    answer: &AnswerRef,
) -> Result<bool, NoMemory>
    ensures counts { IfOk result (λ b. b ≡ may_answer exchange.old node) }
    ensures added { IfOk result
        (λ b. exchange.new ≡ add_answer exchange.old (answer_in node inc answer.now) b) }
    ensures tails { KeepsTails exchange.old → EachFits IsTail answer.now.parts
        → IfOk result (λ _. KeepsTails exchange.new) }
{
    if !exchange.may_answer(node) {
        return Ok(false);
    }
    take(exchange, alloc, node, inc, answer)?;
    Ok(true)
}
