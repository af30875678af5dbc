//! What a node's tick does for views.
ghost use Rattle.std.specs.Prelude.{◌≡◌, OnOk};
ghost use Rattle.view_state.specs.Views.{prepare_again, may_ask_anew, was_stuck, tick_asks, note_stuck, gathering_ticks};

use crate::lists::OwnLists;
use crate::rules::ask_rule;
use crate::work::send_prepare;
use rsct_packet::{Mask, NoMemory, risen};
use std::alloc::Global;
use view_state::{RingAsk, ViewWork, Views};

/// How many ticks a gathering goes on before the node asks anew.
const PATIENCE: u32 = 4;

/// Is it stuck now, and was it at each of the three ticks before?
#[tactic(auto, unfolding(view_state::specs::Views::was_stuck))]
fn was_stuck(views: &Views) -> bool
    ensures { result ≡ was_stuck views.now }
{
    views.is_stuck() && views.stuck.iter().all(|b| *b)
}

/// Is there no gathering, or one of the age at which a node asks anew, or one of other nodes?
#[tactic(auto, unfolding(view_state::specs::Views::may_ask_anew))]
fn may_ask_anew(views: &Views, mask: Mask) -> bool
    ensures { result ≡ may_ask_anew mask views.now.gathering }
{
    match &views.gathering {
        None => true,
        Some(g) => g.age == PATIENCE || g.asked != mask,
    }
}

#[tactic(auto, unfolding(view_state::specs::Views::tick_asks))]
fn tick_asks(views: &Views, ask: RingAsk) -> bool
    ensures { result ≡ tick_asks views.now ask }
{
    ask.is_least && (ask.is_due || was_stuck(views)) && may_ask_anew(views, ask.mask)
}

/// PREPARE again to those who have not answered; the gathering is a tick older.
#[tactic(auto, unfolding(view_state::specs::Views::prepare_again, view_state::specs::Views::aged, view_state::specs::Views::gathering_set))]
fn prepare_again(work: &mut ViewWork, alloc: Global) -> Result<(), NoMemory>
    ensures { OnOk result (work.new ≡ prepare_again work.old work.old.views.gathering) }
{
    let Some(g) = &mut work.views.gathering else {
        return Ok(());
    };
    let to = g.unanswered(alloc)?;
    let view = g.view;
    let mask = g.asked;
    g.age = risen(g.age);
    send_prepare(work, to.as_slice(), view, mask)
}

#[tactic(auto, unfolding(view_state::specs::Views::note_stuck))]
fn note_stuck(work: &mut ViewWork)
    ensures { work.new ≡ note_stuck work.old }
{
    work.views.note_stuck();
}

/// A tick: with what it says of the rings the node may ask for a view; without rings, and else, PREPARE goes out
/// again.
#[tactic(auto, unfolding(view_state::specs::Views::gathering_ticks, view_state::specs::Views::asks_or_ages))]
pub(crate) fn gathering_ticks<L: OwnLists>(
    work: &mut ViewWork,
    alloc: Global,
    ring_ask: Option<RingAsk>,
    lists: &L,
) -> Result<(), NoMemory>
    ensures { OnOk result (work.new ≡ gathering_ticks work.old ring_ask (L.parts_of lists.now)) }
{
    let Some(ask) = ring_ask else {
        return prepare_again(work, alloc);
    };
    let asks = tick_asks(&work.views, ask);
    note_stuck(work);
    if asks {
        return ask_rule(work, alloc, ask.mask, lists);
    }
    prepare_again(work, alloc)
}
