//! A node's views, event by event.
ghost use Rattle.std.specs.Prelude.{◌≡◌, ◌++◌, [], None, IfOk, OnOk};
ghost use Rattle.view_core.specs.Steps.{view_rule, view_stepped};

use crate::lists::OwnLists;
use crate::rules::{answer_rule, ask_rule, install_rule, prepare_rule, refuse_rule, taken_rule};
use crate::tick::gathering_ticks;
use crate::work::install_again;
use rsct_packet::{List, Mask, NoMemory, ViewId};
use std::alloc::Global;
use std::mem;
use view_exchange::AnswerRef;
use view_state::{Install, RingAsk, ViewSends, ViewWork, Views};

/// What happens to a node's views: an order to ask for a view of these nodes; a tick, with what it says of the
/// rings; the reminder of an install, later in a tick; and the packets of views, from a node in an incarnation where
/// that matters.
#[derive(Drop)]
pub enum ViewEvent<'a> {
    Ask {
        mask: Mask,
    },
    Tick {
        ring_ask: Option<RingAsk>,
    },
    Remind,
    Prepare {
        from: u8,
        inc: u32,
        view: ViewId,
        mask: Mask,
    },
    Answer {
        from: u8,
        inc: u32,
        view: ViewId,
        answer: AnswerRef<'a>,
    },
    Refuse {
        view: ViewId,
        number: u32,
    },
    Install {
        install: Install,
    },
    Taken {
        from: u8,
        view: ViewId,
    },
}

/// What a step gives out: packets in order, and the install that is to be applied, if any.
#[derive(Drop)]
pub struct ViewOut {
    pub sends: ViewSends,
    pub install: Option<Install>,
}

impl ViewOut {
    pub fn new(alloc: Global) -> ViewOut
        ensures { result ≡ record { sends = []; install = None } }
    {
        ViewOut {
            sends: List::new(alloc),
            install: None,
        }
    }
}

/// One event. One that no rule uses is Ok, and leaves all as it was.
#[tactic(auto, unfolding(crate::specs::Steps::view_rule))]
fn view_rule<L: OwnLists>(
    work: &mut ViewWork,
    alloc: Global,
    event: ViewEvent,
    lists: &L,
) -> Result<(), NoMemory>
    ensures { OnOk result (work.new ≡ view_rule work.old event.entry (L.parts_of lists.now)) }
{
    match event {
        ViewEvent::Ask { mask } => ask_rule(work, alloc, mask, lists),
        ViewEvent::Tick { ring_ask } => gathering_ticks(work, alloc, ring_ask, lists),
        ViewEvent::Remind => install_again(work, alloc),
        ViewEvent::Prepare {
            from,
            inc,
            view,
            mask,
        } => prepare_rule(work, alloc, from, inc, view, mask, lists),
        ViewEvent::Answer {
            from,
            inc,
            view,
            answer,
        } => answer_rule(work, alloc, from, inc, view, &answer),
        ViewEvent::Refuse { view, number } => {
            refuse_rule(work, view, number);
            Ok(())
        }
        ViewEvent::Install { install } => install_rule(work, install),
        ViewEvent::Taken { from, view } => {
            taken_rule(work, from, view);
            Ok(())
        }
    }
}

/// The views after one event, with what was sent, and the install that is to be applied.
#[tactic(auto, unfolding(crate::specs::Steps::view_stepped))]
fn after_event<L: OwnLists>(
    views: Views,
    alloc: Global,
    event: ViewEvent,
    lists: &L,
) -> Result<ViewWork, NoMemory>
    ensures { IfOk result (λ w. w ≡ view_stepped views event.entry (L.parts_of lists.now)) }
{
    let mut work = ViewWork {
        views,
        sends: List::new(alloc),
        install: None,
    };
    view_rule(&mut work, alloc, event, lists)?;
    Ok(work)
}

/// Puts the views back, takes what was sent to the end of `out`, and puts the install there.
fn hand_out(work: ViewWork, views: &mut Views, out: &mut ViewOut) -> Result<(), NoMemory>
    ensures views { OnOk result (views.new ≡ work.views) }
    ensures sends { OnOk result (out.new.sends ≡ out.old.sends ++ work.sends) }
    ensures install { OnOk result (out.new.install ≡ work.install) }
{
    let ViewWork {
        views: stepped,
        mut sends,
        install,
    } = work;
    *views = stepped;
    out.install = install;
    out.sends.append(&mut sends)
}

/// One event, with the node's own lists. What is sent is taken to the end of `out`, and the install that is to
/// be applied, if any, is put there. Where memory has run out nothing is said of the views.
pub fn take_event<L: OwnLists>(
    views: &mut Views,
    alloc: Global,
    event: ViewEvent,
    lists: &L,
    out: &mut ViewOut,
) -> Result<(), NoMemory>
    ensures views { OnOk result (views.new ≡ (view_stepped views.old event.entry
        (L.parts_of lists.now)).views) }
    ensures sends { OnOk result (out.new.sends ≡ out.old.sends
        ++ (view_stepped views.old event.entry (L.parts_of lists.now)).sends) }
    ensures install { OnOk result (out.new.install
        ≡ (view_stepped views.old event.entry (L.parts_of lists.now)).install) }
{
    let view = views.view;
    let outside = Views::new(views.me, views.inc, view, List::new(alloc));
    let work = after_event(mem::replace(views, outside), alloc, event, lists)?;
    hand_out(work, views, out)
}
