//! What the node's lists lack of those that an install carries of its old view.
ghost use Rattle.std.specs.Prelude.{◌≡◌, OnOk, IfOk, None, map, is_some, option_copied};
ghost use Rattle.session_clients.specs.Clients.{KeepsScripts};
ghost use Rattle.entry_delivery.specs.Doing.{RuleDoes};
ghost use Rattle.group_leading.specs.Working.{AtWork};
ghost use Rattle.view_state.specs.Bases.{source_at};
ghost use Rattle.view_state.specs.Cut.{lacking_of};
ghost use Rattle.node_state.specs.State.{list_of};
ghost use Rattle.node_state.specs.Leading.{put_and_hand};
ghost use Rattle.node_state.specs.Applying.{lacking_in, lacking, fill_lists};
ghost use Rattle.node_views.specs.Filling.{lacking_at, all_lacking, list_filled, filled_if};

use client_callbacks::Callbacks;
use group_leading::put_and_hand;
use node_groups::{fits_at_end, list_of, new_list};
use node_state::Core;
use proposal_core::Entry;
use rsct_packet::{Name, NoMemory, ViewId};
use std::alloc::Global;
use view_bases::lacking_of;
use view_state::{Install, Part, Source};

/// The entries that the list of a group lacks, as they stand in an install.
#[derive(Clone, Copy)]
pub(crate) struct Missing<'a> {
    pub group: &'a Name,
    pub entries: &'a [Entry],
}

/// What the group's list lacks up to the length of a part; none where it does not go on to the part.
#[tactic(auto, unfolding(node_state::specs::State::list_of))]
fn missing_of<'a>(
    core: &Core,
    alloc: Global,
    part: &'a Part,
) -> Result<Option<&'a [Entry]>, NoMemory>
    ensures { IfOk result (λ o. option_copied o ≡ lacking_of core.now.views.view
        (list_of core.now part.now.name) part.now) }
{
    match list_of(core, part.name.bytes()) {
        None => lacking_of(part, alloc, core.views.view, &new_list(alloc)),
        Some(list) => lacking_of(part, alloc, core.views.view, list),
    }
}

/// What the lists lack of these parts; none where one of them does not go on to its part.
#[tactic(auto, using(crate::proofs::FillLaws::missing_begins, crate::proofs::FillLaws::missing_more, crate::proofs::FillLaws::missing_stops, crate::proofs::FillLaws::missing_ends))]
fn missing_in<'a>(
    core: &Core,
    alloc: Global,
    parts: &'a [Part],
) -> Result<Option<Vec<Missing<'a>>>, NoMemory>
    ensures { IfOk result (λ o. all_lacking o ≡ lacking_in core.now parts.now) }
{
    let mut all = Vec::new(alloc);
    for part in parts {
        match missing_of(core, alloc, part)? {
            None => return Ok(None),
            Some(entries) => all.push(Missing {
                group: &part.name,
                entries,
            })?,
        }
    }
    Ok(Some(all))
}

/// What an install carries of an old view.
#[tactic(auto, unfolding(view_state::specs::Bases::source_at))]
fn source_of(sources: &[Source], view: ViewId) -> Option<&Source>
    ensures { option_copied result ≡ source_at sources.now view }
{
    sources.iter().find(|source| source.view == view)
}

/// What the lists lack of those that the install carries of the node's view; none where one does not go on to it.
#[tactic(auto, unfolding(node_state::specs::Applying::lacking, node_state::specs::Applying::lacking_in, view_state::specs::Bases::parts_from))]
fn all_missing<'a>(
    core: &Core,
    alloc: Global,
    install: &'a Install,
) -> Result<Option<Vec<Missing<'a>>>, NoMemory>
    ensures { IfOk result (λ o. all_lacking o ≡ lacking core.now install.now) }
{
    match source_of(install.sources.as_slice(), core.views.view) {
        None => Ok(Some(Vec::new(alloc))),
        Some(source) => missing_in(core, alloc, source.parts.as_slice()),
    }
}

/// Puts an entry and hands it on. It does not fit any more only where an install carries two lists of one group,
/// which none does that was read or gathered; that is refused as if memory had run out.
fn fill_one<C: Callbacks>(
    core: &mut Core,
    clients: &mut Vec<C>,
    alloc: Global,
    group: &Name,
    entry: &Entry,
) -> Result<(), NoMemory>
    requires work { AtWork core.old clients.old.items }
    ensures work { OnOk result (AtWork core.new clients.new.items) }
    ensures scripts { OnOk result (KeepsScripts C.script clients.old.items clients.new.items) }
    ensures does { OnOk result (RuleDoes C.script C.stands_for clients.old.items clients.new.items
        core.old core.new (λ f. put_and_hand f core.old None group.now entry.now)) }
{
    if !fits_at_end(core, alloc, group.bytes(), entry) {
        return Err(NoMemory);
    }
    put_and_hand(core, clients, alloc, None, group, entry)
}

/// Puts these in a group and hands them on.
fn fill_list<C: Callbacks>(
    core: &mut Core,
    clients: &mut Vec<C>,
    alloc: Global,
    group: &Name,
    entries: &[Entry],
) -> Result<(), NoMemory>
    requires work { AtWork core.old clients.old.items }
    ensures work { OnOk result (AtWork core.new clients.new.items) }
    ensures scripts { OnOk result (KeepsScripts C.script clients.old.items clients.new.items) }
    ensures does { OnOk result (RuleDoes C.script C.stands_for clients.old.items clients.new.items
        core.old core.new (λ f. list_filled f group.now core.old entries.now)) }
{
    for e in entries {
        fill_one(core, clients, alloc, group, e)?;
    }
    Ok(())
}

/// Puts what the lists lack, and hands it on.
fn fill_lists<C: Callbacks>(
    core: &mut Core,
    clients: &mut Vec<C>,
    alloc: Global,
    missing: &[Missing<'_>],
) -> Result<(), NoMemory>
    requires work { AtWork core.old clients.old.items }
    ensures work { OnOk result (AtWork core.new clients.new.items) }
    ensures scripts { OnOk result (KeepsScripts C.script clients.old.items clients.new.items) }
    ensures does { OnOk result (RuleDoes C.script C.stands_for clients.old.items clients.new.items
        core.old core.new (λ f. fill_lists f core.old (map lacking_at missing.now))) }
{
    for m in missing {
        fill_list(core, clients, alloc, m.group, m.entries)?;
    }
    Ok(())
}

/// Puts what the lists lack of an install, and hands it on. False, and nothing is done, where one of them does not
/// go on to the install.
pub(crate) fn fill<C: Callbacks>(
    core: &mut Core,
    clients: &mut Vec<C>,
    alloc: Global,
    install: &Install,
) -> Result<bool, NoMemory>
    requires work { AtWork core.old clients.old.items }
    ensures goes { IfOk result (λ b. b ≡ is_some (lacking core.old install.now)) }
    ensures work { OnOk result (AtWork core.new clients.new.items) }
    ensures scripts { OnOk result (KeepsScripts C.script clients.old.items clients.new.items) }
    ensures does { OnOk result (RuleDoes C.script C.stands_for clients.old.items clients.new.items
        core.old core.new (λ f. filled_if f core.old (lacking core.old install.now))) }
{
    match all_missing(core, alloc, install)? {
        None => Ok(false),
        Some(missing) => {
            fill_lists(core, clients, alloc, missing.as_slice())?;
            Ok(true)
        }
    }
}
