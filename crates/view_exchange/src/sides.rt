//! What an answer brings to the sides of a gathering.
ghost use Rattle.std.specs.Prelude.{◌≡◌, ◌≤◌, ◌<◌, length, map, IfOk, IfSome, OnOk};
ghost use Rattle.std.specs.List.{position};
ghost use Rattle.rsct_packet.specs.Text.{IsName};
ghost use Rattle.rsct_packet.specs.Search.{front_len};
ghost use Rattle.view_state.specs.Answers.{kept_of, is_beaten, better_of, is_kept_of, is_kept_above, with_kept, with_parts, side_with, side_from, is_side_of, is_side_above, with_side};
ghost use Rattle.view_exchange.specs.InPlace.{part_in, answer_in};

use crate::answer::AnswerRef;
use crate::in_place::{PartRef, PartsRef};
use crate::sources_in_place::is_earlier;
use rsct_packet::{Mask, NoMemory, ViewId};
use std::alloc::Global;
use std::mem;
use view_state::{Kept, KeptParts, Side, Sides, is_less};

/// The place of the list of this group.
fn kept_place(kept: &[Kept], name: &[u8]) -> Option<usize>
    ensures value { result ≡ position (is_kept_of name.now) kept.now }
    ensures within { IfSome result (λ i. i < length kept.now) }
{
    kept.iter().position(|x| x.part.name.bytes() == name)
}

fn first_kept_after(kept: &[Kept], name: &[u8]) -> Option<usize>
    ensures { result ≡ position (is_kept_above name.now) kept.now }
{
    kept.iter().position(|x| is_less(name, x.part.name.bytes()))
}

/// Where a group that has none yet comes in.
#[tactic(auto, using(rsct_packet::proofs::SearchLaws::front_is_position, rsct_packet::proofs::SearchLaws::front_is_in))]
fn kept_front(kept: &[Kept], name: &[u8]) -> usize
    ensures value { result ≡ front_len (is_kept_above name.now) kept.now }
    ensures within { result ≤ length kept.now }
{
    first_kept_after(kept, name).unwrap_or(kept.len())
}

/// Is a list of this length longer than the kept one, or as long and of a lesser node?
fn is_beaten(kept: &Kept, node: u8, len: u128) -> bool
    ensures { result ≡ is_beaten kept.now node len }
{
    let own = kept.part.len();
    own < len || (own == len && node < kept.node)
}

/// Takes a copy of another node's list in place of the kept one where that beats it.
fn improve(kept: &mut Kept, alloc: Global, node: u8, part: &PartRef) -> Result<(), NoMemory>
    requires { IsName part.now.name.now }
    ensures { OnOk result (kept.new ≡ better_of (kept_of node (part_in part.now)) kept.old) }
{
    if is_beaten(kept, node, part.len()) {
        *kept = Kept {
            node,
            part: part.own(alloc)?,
        };
    }
    Ok(())
}

/// Keeps a node's list where it is the first of its group, or beats the one that is kept. Nothing else of it is
/// copied.
#[tactic(auto, unfolding(view_state::specs::Answers::with_kept), using(rsct_packet::proofs::SearchLaws::place_is_position, rsct_packet::proofs::SearchLaws::set_is_edit, rsct_packet::proofs::SearchLaws::insert_at_front, std::proofs::lemmas::Grind::common_steps))]
fn keep(kept: &mut Vec<Kept>, alloc: Global, node: u8, part: &PartRef) -> Result<(), NoMemory>
    requires { IsName part.now.name.now }
    ensures { OnOk result (kept.new.items ≡ with_kept kept.old.items
        (kept_of node (part_in part.now))) }
{
    match kept_place(kept.as_slice(), part.name) {
        Some(i) => improve(&mut kept[i], alloc, node, part),
        None => {
            let at = kept_front(kept.as_slice(), part.name);
            let part = part.own(alloc)?;
            kept.insert(at, Kept { node, part })?;
            Ok(())
        }
    }
}

#[tactic(auto, unfolding(view_state::specs::Answers::with_parts))]
fn keep_all(kept: &mut Vec<Kept>, alloc: Global, node: u8, parts: &PartsRef) -> Result<(), NoMemory>
    ensures { OnOk result (kept.new.items ≡ with_parts node kept.old.items parts.now) }
{
    let mut left = parts.copy();
    while let Some(part) = left.take_first() {
        keep(kept, alloc, node, &part)?;
    }
    Ok(())
}

/// The lists of one node.
fn kept_of_one(alloc: Global, node: u8, parts: &PartsRef) -> Result<KeptParts, NoMemory>
    ensures { IfOk result (λ l. l ≡ map (kept_of node) parts.now) }
{
    let mut items = Vec::new(alloc);
    let mut left = parts.copy();
    while let Some(part) = left.take_first() {
        let part = part.own(alloc)?;
        items.push(Kept { node, part })?;
    }
    Ok(KeptParts::of_items(items))
}

/// Takes an answer of its view into a side.
#[tactic(auto, unfolding(view_state::specs::Answers::side_with))]
fn take_into(
    side: &mut Side,
    alloc: Global,
    node: u8,
    inc: u32,
    answer: &AnswerRef,
) -> Result<(), NoMemory>
    ensures { OnOk result (side.new ≡ side_with (answer_in node inc answer.now) side.old) }
{
    let none = KeptParts::of_items(Vec::new(alloc));
    let mut kept = mem::replace(&mut side.parts, none).into_items();
    keep_all(&mut kept, alloc, node, &answer.parts)?;
    side.nodes = side.nodes.with(node);
    side.parts = KeptParts::of_items(kept);
    Ok(())
}

/// The side of one answer.
#[tactic(auto, unfolding(view_state::specs::Answers::side_from))]
fn side_of(alloc: Global, node: u8, inc: u32, answer: &AnswerRef) -> Result<Side, NoMemory>
    ensures { IfOk result (λ s. s ≡ side_from (answer_in node inc answer.now)) }
{
    Ok(Side {
        view: answer.view,
        nodes: Mask::empty().with(node),
        parts: kept_of_one(alloc, node, &answer.parts)?,
    })
}

/// The place of the side of this view.
fn side_place(sides: &[Side], view: ViewId) -> Option<usize>
    ensures value { result ≡ position (is_side_of view) sides.now }
    ensures within { IfSome result (λ i. i < length sides.now) }
{
    sides.iter().position(|x| x.view == view)
}

fn first_side_after(sides: &[Side], view: ViewId) -> Option<usize>
    ensures { result ≡ position (is_side_above view) sides.now }
{
    sides.iter().position(|x| is_earlier(view, x.view))
}

/// Where a view that has none yet comes in.
#[tactic(auto, using(rsct_packet::proofs::SearchLaws::front_is_position, rsct_packet::proofs::SearchLaws::front_is_in))]
fn side_front(sides: &[Side], view: ViewId) -> usize
    ensures value { result ≡ front_len (is_side_above view) sides.now }
    ensures within { result ≤ length sides.now }
{
    first_side_after(sides, view).unwrap_or(sides.len())
}

#[tactic(auto, unfolding(view_state::specs::Answers::with_side), using(rsct_packet::proofs::SearchLaws::place_is_position, rsct_packet::proofs::SearchLaws::set_is_edit, rsct_packet::proofs::SearchLaws::insert_at_front, std::proofs::lemmas::Grind::common_steps))]
fn take_among(
    sides: &mut Vec<Side>,
    alloc: Global,
    node: u8,
    inc: u32,
    answer: &AnswerRef,
) -> Result<(), NoMemory>
    ensures { OnOk result
        (sides.new.items ≡ with_side sides.old.items (answer_in node inc answer.now)) }
{
    match side_place(sides.as_slice(), answer.view) {
        Some(i) => take_into(&mut sides[i], alloc, node, inc, answer),
        None => {
            let at = side_front(sides.as_slice(), answer.view);
            let side = side_of(alloc, node, inc, answer)?;
            sides.insert(at, side)?;
            Ok(())
        }
    }
}

/// Takes an answer into the side of its view. Of its lists those alone are copied that are kept.
pub fn take_answer(
    sides: &mut Sides,
    alloc: Global,
    node: u8,
    inc: u32,
    answer: &AnswerRef,
) -> Result<(), NoMemory>
    ensures { OnOk result (sides.new ≡ with_side sides.old (answer_in node inc answer.now)) }
{
    let none = Sides::new(alloc);
    let mut items = mem::replace(sides, none).into_items();
    take_among(&mut items, alloc, node, inc, answer)?;
    *sides = Sides::of_items(items);
    Ok(())
}
