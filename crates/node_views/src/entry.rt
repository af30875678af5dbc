//! How the view of an install is entered.
ghost use Rattle.std.specs.Prelude.{◌≡◌, ◌++◌, ◌∷◌, OnOk, IfOk, IsTrue, Some, map};
ghost use Rattle.session_clients.specs.Clients.{KeepsScripts};
ghost use Rattle.rsct_packet.specs.Format.{EachFits};
ghost use Rattle.name_server.specs.Names.{names_differ};
ghost use Rattle.view_state.specs.Bases.{bases_of};
ghost use Rattle.entry_delivery.specs.Doing.{RuleDoes};
ghost use Rattle.node_groups.specs.Keeps.{Keeps};
ghost use Rattle.group_leading.specs.Working.{AtWork};
ghost use Rattle.node_state.specs.State.{InNameOrder, recorded_all};
ghost use Rattle.node_state.specs.Applying.{base_row, base_leader, base_record, view_entered, taken_sent, owed_sent, lead_groups, apply_install};
ghost use Rattle.node_state.specs.declared.happened.Happened.TheVariants as happened;
ghost use Rattle.node_views.specs.Carried.{IsSound};
ghost use Rattle.node_views.specs.Arriving.{base_at, arrived};

use crate::bases::{base_leaders, base_rows, bases_of};
use crate::dissolved::dissolve_sides;
use crate::led_groups::lead_groups;
use crate::missing_entries::fill;
use crate::notes::note_bases;
use client_callbacks::Callbacks;
use name_server::Names;
use node_owed::{send_requests, send_votes_again};
use node_sending::{send, view_level};
use node_state::{Body, Core, Groups, Happened, Records};
use rsct_packet::{List, NoMemory, ViewId};
use std::alloc::Global;
use std::mem;
use view_state::{Base, Install, ViewPacket};

/// The record of a base at a node in a view.
fn base_record(alloc: Global, node: u8, view: ViewId, base: &Base) -> Result<Happened, NoMemory>
    ensures { IfOk result (λ r. r ≡ base_at node view base.now) }
{
    Ok(Happened::Base {
        node,
        view,
        group: base.name.copy(alloc)?,
        old: base.from,
        len: base.len,
        state: base.state.copy(alloc)?,
    })
}

/// Records the bases at a node in a view.
#[tactic(auto, using(std::proofs::lemmas::List::map_more, std::proofs::lemmas::Grind::common_steps))]
fn record_bases(
    alloc: Global,
    records: &mut Records,
    node: u8,
    view: ViewId,
    bases: &[Base],
) -> Result<(), NoMemory>
    ensures { OnOk result (records.new ≡ records.old ++ map (base_at node view) bases.now) }
{
    for base in bases {
        records.push(base_record(alloc, node, view, base)?)?;
    }
    Ok(())
}

/// Records that the node enters its view, and the bases.
#[tactic(auto, unfolding(node_state::specs::State::recorded_all, node_state::specs::Applying::base_record), using(std::proofs::lemmas::Grind::common_steps))]
fn record_entry(core: &mut Core, alloc: Global, bases: &[Base]) -> Result<(), NoMemory>
    ensures { OnOk result (core.new ≡ recorded_all core.old
        (happened.In core.old.views.me core.old.views.view core.old.views.members
        ∷ map (base_record core.old) bases.now)) }
{
    let (node, view) = (core.views.me, core.views.view);
    core.records.push(Happened::In {
        node,
        view,
        members: List::of(alloc, core.views.members.as_slice())?,
    })?;
    record_bases(alloc, &mut core.records, node, view, bases)
}

/// Enters the view: lists, leaders, names and what was led start anew. It gives the rows of the old view.
#[tactic(auto, unfolding(node_state::specs::Applying::view_entered, node_state::specs::Applying::level_set, view_state::specs::Views::views_entered))]
fn start_anew(
    core: &mut Core,
    alloc: Global,
    install: Install,
    bases: &[Base],
) -> Result<Groups, NoMemory>
    requires sound { EachFits IsSound bases.now }
    requires differ { IsTrue (names_differ (map base_leader bases.now)) }
    ensures rows { IfOk result (λ rows. rows ≡ core.old.groups) }
    ensures core { OnOk result (core.new ≡ view_entered core.old install bases.now) }
{
    let groups = base_rows(alloc, bases)?;
    core.names = Names::of_install(alloc, &base_leaders(alloc, bases)?)?;
    core.sessions.level = view_level(&core.config, install.members.as_slice());
    core.views.enter(alloc, install)?;
    let rows = mem::replace(&mut core.groups, groups);
    record_entry(core, alloc, bases)?;
    Ok(rows)
}

/// TAKEN to the coordinator, if it is another node.
#[tactic(auto, unfolding(node_state::specs::Applying::taken_sent), using(node_groups::proofs::KeepLaws::sent_keeps, node_groups::proofs::KeepLaws::keeps_itself))]
fn send_taken(core: &mut Core) -> Result<(), NoMemory>
    ensures rule { OnOk result (core.new ≡ taken_sent core.old) }
    ensures keeps { OnOk result (Keeps core.old core.new) }
{
    let view = core.views.view;
    if view.coord == core.views.me {
        return Ok(());
    }
    let packet = ViewPacket::Taken { view };
    send(core, view.coord, Body::View { packet })
}

/// Outstanding requests and kept ballots are sent.
#[tactic(auto, unfolding(node_state::specs::Applying::owed_sent), using(node_groups::proofs::KeepLaws::keeps_then))]
fn send_owed(core: &mut Core, alloc: Global) -> Result<(), NoMemory>
    ensures rule { OnOk result (core.new ≡ owed_sent core.old) }
    ensures keeps { OnOk result (Keeps core.old core.new) }
{
    send_requests(core, alloc)?;
    send_votes_again(core, alloc)
}

/// Enters the view of an install, tells clients what has become of their groups, and sends what is outstanding.
fn arrive<C: Callbacks>(
    core: &mut Core,
    clients: &mut Vec<C>,
    alloc: Global,
    install: Install,
    bases: &[Base],
) -> Result<(), NoMemory>
    requires work { AtWork core.old clients.old.items }
    requires sound { EachFits IsSound bases.now }
    requires order { InNameOrder (map base_row bases.now) }
    ensures work { OnOk result (AtWork core.new clients.new.items) }
    ensures scripts { OnOk result (KeepsScripts C.script clients.old.items clients.new.items) }
    ensures does { OnOk result (RuleDoes C.script C.stands_for clients.old.items clients.new.items
        core.old core.new (λ f. arrived core.old install bases.now)) }
{
    let old = core.views.view;
    let rows = start_anew(core, alloc, install, bases)?;
    dissolve_sides(core, clients, rows.rows.as_slice(), old, bases)?;
    note_bases(core, clients, alloc, bases)?;
    send_taken(core)?;
    send_owed(core, alloc)
}

/// Enters the view of an install to which the node's lists are filled, and leads its groups there.
fn enter<C: Callbacks>(
    core: &mut Core,
    clients: &mut Vec<C>,
    alloc: Global,
    install: Install,
) -> Result<(), NoMemory>
    requires work { AtWork core.old clients.old.items }
    ensures work { OnOk result (AtWork core.new clients.new.items) }
    ensures scripts { OnOk result (KeepsScripts C.script clients.old.items clients.new.items) }
    ensures does { OnOk result (RuleDoes C.script C.stands_for clients.old.items clients.new.items
        core.old core.new (λ f. lead_groups f (arrived core.old install (bases_of install)))) }
{
    let bases = bases_of(alloc, &install)?;
    arrive(core, clients, alloc, install, bases.as_slice())?;
    lead_groups(core, clients, alloc)
}

/// Applies an install: the node's lists are filled and its view is entered, where each of them goes on to it.
pub(crate) fn apply<C: Callbacks>(
    core: &mut Core,
    clients: &mut Vec<C>,
    alloc: Global,
    install: Install,
) -> Result<(), NoMemory>
    requires work { AtWork core.old clients.old.items }
    ensures work { OnOk result (AtWork core.new clients.new.items) }
    ensures scripts { OnOk result (KeepsScripts C.script clients.old.items clients.new.items) }
    ensures does { OnOk result (RuleDoes C.script C.stands_for clients.old.items clients.new.items
        core.old core.new (λ f. apply_install f core.old (Some install))) }
{
    if !fill(core, clients, alloc, &install)? {
        return Ok(());
    }
    enter(core, clients, alloc, install)
}
