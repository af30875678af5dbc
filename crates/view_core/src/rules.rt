//! What a node does with an order to ask, and with the packets of views.
ghost use Rattle.std.specs.Prelude.{◌≡◌, ◌==◌, ◌&&◌, true, not, OnOk};
ghost use Rattle.rsct_packet.specs.Ids.{same_view, view_lt};
ghost use Rattle.rsct_packet.specs.Mask.{has_node};
ghost use Rattle.view_exchange.specs.InPlace.{answer_in};
ghost use Rattle.view_state.specs.Views.{ask_others, ask_rule, answered, prepare, prepare_rule, answer_rule, refuse_rule, install_rule, taken_rule};

use crate::lists::OwnLists;
use crate::work::{
    gather_on, may_ask, next_view, nodes_but, own_answer, promise, send, send_prepare,
};
use rsct_packet::{Mask, NoMemory, ViewId};
use std::alloc::Global;
use view_exchange::{AnswerRef, add_answer};
use view_state::{Exchange, Install, MAX_PARTS, ViewPacket, ViewWork, Views};

/// How a node is asked for a view: above its promise; once more, while it has not entered it; or, whoever asks, below
/// its promise.
#[derive(Clone, Copy)]
struct Asked {
    is_higher: bool,
    is_again: bool,
    is_lower: bool,
}

/// Does the view's coordinator ask, and is this node one of those asked?
fn is_asked(views: &Views, from: u8, inc: u32, view: ViewId, mask: Mask) -> bool
    ensures { result ≡ (view.coord == from && view.inc == inc && has_node mask views.now.me) }
{
    view.coord == from && view.inc == inc && mask.has(views.me)
}

fn how_asked(views: &Views, from: u8, inc: u32, view: ViewId, mask: Mask) -> Asked
    ensures higher { result.is_higher ≡ ((view.coord == from && view.inc == inc
        && has_node mask views.now.me) && view_lt views.now.promise view) }
    ensures again { result.is_again ≡ ((view.coord == from && view.inc == inc
        && has_node mask views.now.me) && same_view view views.now.promise
        && not (same_view view views.now.view)) }
    ensures lower { result.is_lower ≡ view_lt view views.now.promise }
{
    let is_asked = is_asked(views, from, inc, view, mask);
    Asked {
        is_higher: is_asked && views.promise < view,
        is_again: is_asked && view == views.promise && view != views.view,
        is_lower: view < views.promise,
    }
}

/// Promises a view and asks the others of these nodes for it. The node's own answer is the first.
#[tactic(auto, unfolding(view_state::specs::Views::ask_others))]
fn ask_others<L: OwnLists>(
    work: &mut ViewWork,
    alloc: Global,
    view: ViewId,
    mask: Mask,
    lists: &L,
) -> Result<(), NoMemory>
    ensures { OnOk result (work.new ≡ ask_others work.old view mask (L.parts_of lists.now) true) }
{
    let to = nodes_but(alloc, work.views.me, mask)?;
    let own = own_answer(&work.views, alloc, lists)?;
    promise(work, view);
    send_prepare(work, to.as_slice(), view, mask)?;
    let g = Exchange::open_with(alloc, view, mask, own)?;
    gather_on(work, alloc, g)
}

/// An order to ask these nodes for a view. The node promises it, and its own answer is the first. An own answer
/// without a spelling leaves the promise, and nobody is asked.
#[tactic(auto, unfolding(view_state::specs::Views::ask_rule, view_state::specs::Views::ask_if, view_state::specs::Views::ask_others, view_state::specs::Views::may_ask))]
pub(crate) fn ask_rule<L: OwnLists>(
    work: &mut ViewWork,
    alloc: Global,
    mask: Mask,
    lists: &L,
) -> Result<(), NoMemory>
    ensures { OnOk result (work.new ≡ ask_rule work.old mask (L.parts_of lists.now)) }
{
    if !may_ask(&work.views, mask) {
        return Ok(());
    }
    let view = next_view(&work.views);
    if lists.count() > MAX_PARTS {
        promise(work, view);
        return Ok(());
    }
    ask_others(work, alloc, view, mask, lists)
}

/// Answers for a view. An answer without a spelling is not sent.
#[tactic(auto, unfolding(view_state::specs::Views::answered))]
fn answer<L: OwnLists>(
    work: &mut ViewWork,
    alloc: Global,
    view: ViewId,
    lists: &L,
) -> Result<(), NoMemory>
    ensures { OnOk result (work.new ≡ answered work.old view (L.parts_of lists.now)) }
{
    if lists.count() > MAX_PARTS {
        return Ok(());
    }
    let parts = lists.parts(alloc)?;
    let old = work.views.view;
    send(work, view.coord, ViewPacket::Answer { view, old, parts })
}

/// What comes above the promise is promised, the promise that is not entered yet is answered again, and what comes
/// below the promise is refused.
#[tactic(auto, unfolding(view_state::specs::Views::prepare))]
fn prepare<L: OwnLists>(
    work: &mut ViewWork,
    alloc: Global,
    view: ViewId,
    asked: Asked,
    lists: &L,
) -> Result<(), NoMemory>
    ensures { OnOk result (work.new ≡ prepare work.old view
        (L.parts_of lists.now) asked.is_higher asked.is_again asked.is_lower) }
{
    if asked.is_higher {
        promise(work, view);
        return answer(work, alloc, view, lists);
    }
    if asked.is_again {
        return answer(work, alloc, view, lists);
    }
    if asked.is_lower {
        let number = work.views.promise.number;
        return send(work, view.coord, ViewPacket::Refuse { view, number });
    }
    Ok(())
}

/// PREPARE, from a node in an incarnation: only the coordinator of the view asks for it, and only the nodes of the
/// set.
#[tactic(auto, unfolding(view_state::specs::Views::prepare_rule))]
pub(crate) fn prepare_rule<L: OwnLists>(
    work: &mut ViewWork,
    alloc: Global,
    from: u8,
    inc: u32,
    view: ViewId,
    mask: Mask,
    lists: &L,
) -> Result<(), NoMemory>
    ensures { OnOk result (work.new ≡ prepare_rule work.old from inc view mask
        (L.parts_of lists.now)) }
{
    let asked = how_asked(&work.views, from, inc, view, mask);
    prepare(work, alloc, view, asked, lists)
}

/// ANSWER: the first of a node that was asked for the view counts.
#[tactic(auto, unfolding(view_state::specs::Views::answer_rule, view_state::specs::Views::answer_to, view_state::specs::Views::gather_on, view_state::specs::Views::gathered, view_state::specs::Views::gathering_set, view_state::specs::Answers::add_answer))]
pub(crate) fn answer_rule(
    work: &mut ViewWork,
    alloc: Global,
    node: u8,
    inc: u32,
    view: ViewId,
    answer: &AnswerRef,
) -> Result<(), NoMemory>
    ensures { OnOk result (work.new ≡ answer_rule work.old view (answer_in node inc answer.now)) }
{
    let Some(mut g) = work.views.gathering.take() else {
        return Ok(());
    };
    if g.view == view && add_answer(&mut g, alloc, node, inc, answer)? {
        return gather_on(work, alloc, g);
    }
    work.views.gathering = Some(g);
    Ok(())
}

/// REFUSE of the view that is gathered for: the gathering is dropped, and a later view has a number above.
#[tactic(auto, unfolding(view_state::specs::Views::refuse_rule, view_state::specs::Views::refuse_to, view_state::specs::Views::refused_by))]
pub(crate) fn refuse_rule(work: &mut ViewWork, view: ViewId, number: u32)
    ensures { work.new ≡ refuse_rule work.old view number }
{
    if let Some(g) = &work.views.gathering {
        if g.view == view {
            work.views.floor = work.views.floor.max(number);
            work.views.gathering = None;
        }
    }
}

/// INSTALL: of the view that the node is in it says TAKEN again; of its promise, where it is a member with its
/// incarnation, it is to be applied.
#[tactic(auto, unfolding(view_state::specs::Views::install_rule, view_state::specs::Views::installed))]
pub(crate) fn install_rule(work: &mut ViewWork, install: Install) -> Result<(), NoMemory>
    ensures { OnOk result (work.new ≡ install_rule work.old install) }
{
    let view = install.view;
    if work.views.view == view {
        return send(work, view.coord, ViewPacket::Taken { view });
    }
    if work.views.promise == view && install.has_member(work.views.me, work.views.inc) {
        work.install = Some(install);
    }
    Ok(())
}

/// TAKEN, also while frozen.
#[tactic(auto, unfolding(view_state::specs::Views::taken_rule))]
pub(crate) fn taken_rule(work: &mut ViewWork, from: u8, view: ViewId)
    ensures { work.new ≡ taken_rule work.old from view }
{
    if work.views.view == view {
        work.views.taken = work.views.taken.with(from);
    }
}
