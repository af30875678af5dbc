//! Views at work: what is sent, promised and installed.
ghost use Rattle.std.specs.Prelude.{◌≡◌, ◌&&◌, ◌++◌, ◌==◌, ◌+◌, ◌<◌, map, filter, max, not, IfOk, OnOk};
ghost use Rattle.rsct_packet.specs.declared.ids.Member.{Member};
ghost use Rattle.rsct_packet.specs.Mask.{has_node, nodes_of};
ghost use Rattle.view_state.specs.Answers.{is_spelled};
ghost use Rattle.view_state.specs.Views.{is_frozen, is_coordinator, others_of, view_sent, view_sent_all, promised, begin_install, gather_on, install_again_of, install_again, next_view, may_ask, own_answer};

use crate::lists::OwnLists;
use rsct_packet::{Mask, Member, NODES, NoMemory, ViewId};
use std::alloc::Global;
use view_state::{Answer, Exchange, Install, ViewPacket, ViewSend, ViewSends, ViewWork, Views};

/// PREPARE to each of these.
fn send_prepare_each(
    sends: &mut ViewSends,
    to: &[u8],
    view: ViewId,
    mask: Mask,
) -> Result<(), NoMemory>
    ensures { OnOk result (sends.new ≡ sends.old
        ++ map (λ n. record { to = n; packet = ViewPacket.Prepare view mask }) to.now) }
{
    for n in to {
        sends.push(ViewSend {
            to: *n,
            packet: ViewPacket::Prepare { view, mask },
        })?;
    }
    Ok(())
}

/// INSTALL to each of these.
fn send_install_each(
    alloc: Global,
    sends: &mut ViewSends,
    to: &[u8],
    install: &Install,
) -> Result<(), NoMemory>
    ensures { OnOk result (sends.new ≡ sends.old
        ++ map (λ n. record { to = n; packet = ViewPacket.Install install.now }) to.now) }
{
    for n in to {
        let install = install.copy(alloc)?;
        sends.push(ViewSend {
            to: *n,
            packet: ViewPacket::Install { install },
        })?;
    }
    Ok(())
}

/// The nodes of members but for one, ascending.
#[tactic(auto, unfolding(view_state::specs::Views::others_of))]
fn others_of(alloc: Global, me: u8, members: &[Member]) -> Result<Vec<u8>, NoMemory>
    ensures { IfOk result (λ v. v.items ≡ others_of me members.now) }
{
    Ok(
        members
            .iter()
            .map(|m| m.node)
            .filter(|n| *n != me)
            .collect(alloc)?,
    )
}

/// The nodes of a set but for one, ascending.
#[tactic(auto, unfolding(rsct_packet::specs::Mask::nodes_of))]
pub(crate) fn nodes_but(alloc: Global, me: u8, mask: Mask) -> Result<Vec<u8>, NoMemory>
    ensures { IfOk result (λ v. v.items ≡ filter (λ n. not (n == me)) (nodes_of mask)) }
{
    Ok(
        NODES
            .iter()
            .copied()
            .filter(|n| mask.has(*n))
            .filter(|n| *n != me)
            .collect(alloc)?,
    )
}

/// Is the node the coordinator of its view, and not frozen?
fn may_remind(views: &Views) -> bool
    ensures { result ≡ (is_coordinator views.now && not (is_frozen views.now)) }
{
    views.is_coordinator() && !views.frozen()
}

/// The other members, ascending, that have not taken the view.
fn untaken(views: &Views, alloc: Global) -> Result<Vec<u8>, NoMemory>
    ensures { IfOk result (λ v. v.items ≡ filter
        (λ n. not (has_node views.now.taken n)) (others_of views.now.me views.now.members)) }
{
    let others = others_of(alloc, views.me, views.members.as_slice())?;
    nodes_without(alloc, views.taken, others.as_slice())
}

/// Is the node one of these, and is a number left for a view of them?
#[tactic(auto, unfolding(view_state::specs::Views::may_ask))]
pub(crate) fn may_ask(views: &Views, mask: Mask) -> bool
    ensures { result ≡ may_ask views.now mask }
{
    mask.has(views.me) && views.promise.number.max(views.floor) < u32::MAX
}

/// A view of the node's own, above what it promised and what was refused to it.
#[tactic(auto, unfolding(view_state::specs::Views::next_view, view_state::specs::Views::may_ask))]
pub(crate) fn next_view(views: &Views) -> ViewId
    requires { max views.now.promise.number views.now.floor < 4294967295 }
    ensures { result ≡ next_view views.now }
{
    ViewId {
        number: views.promise.number.max(views.floor) + 1,
        coord: views.me,
        inc: views.inc,
    }
}

/// The node's own answer.
pub(crate) fn own_answer<L: OwnLists>(
    views: &Views,
    alloc: Global,
    lists: &L,
) -> Result<Answer, NoMemory>
    ensures { IfOk result (λ a. a ≡ own_answer views.now (L.parts_of lists.now)) }
{
    Ok(Answer {
        node: views.me,
        inc: views.inc,
        view: views.view,
        parts: lists.parts(alloc)?,
    })
}

#[tactic(auto, unfolding(view_state::specs::Views::view_sent))]
pub(crate) fn send(work: &mut ViewWork, to: u8, packet: ViewPacket) -> Result<(), NoMemory>
    ensures { OnOk result (work.new ≡ view_sent work.old to packet) }
{
    work.sends.push(ViewSend { to, packet })
}

#[tactic(auto, unfolding(view_state::specs::Views::view_sent_all))]
pub(crate) fn send_prepare(
    work: &mut ViewWork,
    to: &[u8],
    view: ViewId,
    mask: Mask,
) -> Result<(), NoMemory>
    ensures { OnOk result (work.new ≡ view_sent_all work.old to.now
        (ViewPacket.Prepare view mask)) }
{
    send_prepare_each(&mut work.sends, to, view, mask)
}

#[tactic(auto, unfolding(view_state::specs::Views::view_sent_all))]
fn send_install(
    work: &mut ViewWork,
    alloc: Global,
    to: &[u8],
    install: &Install,
) -> Result<(), NoMemory>
    ensures { OnOk result (work.new ≡ view_sent_all work.old to.now
        (ViewPacket.Install install.now)) }
{
    send_install_each(alloc, &mut work.sends, to, install)
}

/// A promise drops a gathering.
#[tactic(auto, unfolding(view_state::specs::Views::promised))]
pub(crate) fn promise(work: &mut ViewWork, view: ViewId)
    ensures { work.new ≡ promised work.old view }
{
    work.views.promise = view;
    work.views.gathering = None;
}

/// Sends an install to the others, ascending, and has it applied here. One without a spelling is dropped.
#[tactic(auto, unfolding(view_state::specs::Views::begin_install))]
fn begin_install(work: &mut ViewWork, alloc: Global, install: Install) -> Result<(), NoMemory>
    ensures { OnOk result (work.new ≡ begin_install work.old install (is_spelled install)) }
{
    if !install.is_spelled() {
        return Ok(());
    }
    let to = others_of(alloc, work.views.me, install.members.as_slice())?;
    send_install(work, alloc, to.as_slice(), &install)?;
    work.install = Some(install);
    Ok(())
}

/// Goes on with a gathering, or installs its view where all have answered.
#[tactic(auto, unfolding(view_state::specs::Views::gather_on, view_state::specs::Views::gathered, view_state::specs::Views::gathering_set))]
pub(crate) fn gather_on(
    work: &mut ViewWork,
    alloc: Global,
    exchange: Exchange,
) -> Result<(), NoMemory>
    ensures { OnOk result (work.new ≡ gather_on work.old exchange) }
{
    if !exchange.all() {
        work.views.gathering = Some(exchange);
        return Ok(());
    }
    work.views.gathering = None;
    let install = exchange.install(alloc)?;
    begin_install(work, alloc, install)
}

#[tactic(auto, unfolding(view_state::specs::Views::install_again_of, view_state::specs::Views::view_sent_all))]
fn install_again_of(work: &mut ViewWork, alloc: Global) -> Result<(), NoMemory>
    ensures { OnOk result (work.new ≡ install_again_of work.old work.old.views.install) }
{
    let to = untaken(&work.views, alloc)?;
    match &work.views.install {
        None => Ok(()),
        Some(install) => send_install_each(alloc, &mut work.sends, to.as_slice(), install),
    }
}

/// INSTALL again to the members that have not taken it, where the node is the view's coordinator and not frozen.
#[tactic(auto, unfolding(view_state::specs::Views::install_again))]
pub(crate) fn install_again(work: &mut ViewWork, alloc: Global) -> Result<(), NoMemory>
    ensures { OnOk result (work.new ≡ install_again work.old) }
{
    if !may_remind(&work.views) {
        return Ok(());
    }
    install_again_of(work, alloc)
}

/// Those that are not in the set.
fn nodes_without(alloc: Global, mask: Mask, nodes: &[u8]) -> Result<Vec<u8>, NoMemory>
    ensures { IfOk result (λ v. v.items ≡ filter (λ n. not (has_node mask n)) nodes.now) }
{
    Ok(
        nodes
            .iter()
            .copied()
            .filter(|n| !mask.has(*n))
            .collect(alloc)?,
    )
}
