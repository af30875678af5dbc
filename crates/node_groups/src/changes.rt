//! What a node changes in its groups.
ghost use Rattle.std.specs.Prelude.{◌≡◌, OnOk, IfOk, IsTrue, Some};
ghost use Rattle.batch_rules.specs.Waiting.{add_failure, drop_join};
ghost use Rattle.proposal_core.specs.Lists.{list_or_new, with_entry};
ghost use Rattle.node_state.specs.declared.happened.Happened.TheVariants as happened;
ghost use Rattle.node_state.specs.State.{InNameOrder, len_of, fits_at_end, recorded, with_row, forget_below, led_of, set_leader, with_led, acked_raised};
ghost use Rattle.node_state.specs.Leading.{put, forget_least, with_waiting, with_tally, tally_set};
ghost use Rattle.node_state.specs.Following.{marked, vote_cast};
ghost use Rattle.node_state.specs.Ticks.{ticked_in};
ghost use Rattle.std.specs.Option.{option_map};
ghost use Rattle.vote_phases.specs.Tally.{tally_fail};
ghost use Rattle.node_state.specs.Deciding.{keep_decision};
ghost use Rattle.node_groups.specs.Keeps.{Keeps};

use crate::places::row_mut;
use crate::reads::{least_acked, len_of};
use crate::row;
use crate::tables::{self, raise_acked};
use client_callbacks::Why;
use node_state::{Core, Decision, Happened};
use proposal_core::{Cause, Entry, Vote};
use rsct_packet::{List, Name, NoMemory, ProviderId, Text};
use std::alloc::Global;
use vote_phases::Tally;

/// The record of an entry that is put at this place.
fn put_record(
    core: &Core,
    alloc: Global,
    group: &Name,
    place: u32,
    entry: &Entry,
) -> Result<Happened, NoMemory>
    ensures { IfOk result (λ r. r ≡ happened.Put core.now.views.me core.now.views.view group.now
        place entry.now) }
{
    Ok(Happened::Put {
        node: core.views.me,
        view: core.views.view,
        group: group.copy(alloc)?,
        place,
        entry: entry.copy(alloc)?,
    })
}

/// Records that an entry was put at this place.
#[tactic(auto, unfolding(node_state::specs::State::recorded))]
fn record_put(
    core: &mut Core,
    alloc: Global,
    group: &Name,
    place: u32,
    entry: &Entry,
) -> Result<(), NoMemory>
    ensures { OnOk result (core.new ≡ recorded core.old
        (happened.Put core.old.views.me core.old.views.view group.now place entry.now)) }
{
    let record = put_record(core, alloc, group, place, entry)?;
    core.records.push(record)
}

/// Puts an entry that fits at the end of the group's list.
#[tactic(auto, unfolding(node_state::specs::State::with_row, node_state::specs::State::fits_at_end, node_state::specs::State::list_of, node_state::specs::State::row_of), using(crate::proofs::RowLaws::row_written, crate::proofs::RowLaws::reached_found, std::proofs::lemmas::Grind::common_steps))]
fn put_entry(core: &mut Core, alloc: Global, group: &Name, entry: &Entry) -> Result<(), NoMemory>
    requires order { InNameOrder core.old.groups }
    requires fits { IsTrue (fits_at_end core.old group.now entry.now) }
    ensures { OnOk result (core.new ≡ with_row core.old group.now
        (λ row. record row {
          list = Some (with_entry
              (list_or_new row.list) core.old.views.view entry.now);
        })) }
{
    let view = core.views.view;
    let row = row_mut(&mut core.groups, alloc, group)?;
    row::put(row, alloc, view, entry.copy(alloc)?)
}

/// Puts an entry that fits at the end of the group's list, and records it.
#[tactic(auto, unfolding(node_state::specs::Leading::put), using(crate::proofs::KeepLaws::row_views, std::proofs::lemmas::Grind::common_steps))]
pub fn put(core: &mut Core, alloc: Global, group: &Name, entry: &Entry) -> Result<(), NoMemory>
    requires order { InNameOrder core.old.groups }
    requires fits { IsTrue (fits_at_end core.old group.now entry.now) }
    ensures rule { OnOk result (core.new ≡ put core.old group.now entry.now) }
    ensures keeps { OnOk result (Keeps core.old core.new) }
{
    let place = len_of(core, group.bytes());
    put_entry(core, alloc, group, entry)?;
    record_put(core, alloc, group, place, entry)
}

/// Lets the entries of a group's list below a place go, where the list has that place.
#[tactic(auto, unfolding(node_state::specs::State::forget_below, node_state::specs::State::with_row), using(crate::proofs::KeepLaws::row_change, crate::proofs::KeepLaws::forgotten_state, std::proofs::lemmas::Grind::common_steps))]
pub fn forget_below(
    core: &mut Core,
    alloc: Global,
    group: &Name,
    place: u32,
) -> Result<(), NoMemory>
    ensures rule { OnOk result (core.new ≡ forget_below core.old group.now place) }
    ensures keeps { OnOk result (Keeps core.old core.new) }
{
    let row = row_mut(&mut core.groups, alloc, group)?;
    row::forget_below(row, place);
    Ok(())
}

/// Forgets what all members acknowledged.
#[tactic(auto, unfolding(node_state::specs::Leading::forget_least))]
pub fn forget_least(core: &mut Core, alloc: Global, group: &Name) -> Result<(), NoMemory>
    ensures rule { OnOk result (core.new ≡ forget_least core.old group.now) }
    ensures keeps { OnOk result (Keeps core.old core.new) }
{
    let least = least_acked(core, group.bytes());
    forget_below(core, alloc, group, least)
}

/// The leader of the group is known.
#[tactic(auto, unfolding(node_state::specs::State::set_leader, node_state::specs::State::with_row), using(crate::proofs::KeepLaws::row_change, std::proofs::lemmas::Grind::common_steps))]
pub fn set_leader(core: &mut Core, alloc: Global, group: &Name, node: u8) -> Result<(), NoMemory>
    ensures rule { OnOk result (core.new ≡ set_leader core.old group.now node) }
    ensures keeps { OnOk result (Keeps core.old core.new) }
{
    let row = row_mut(&mut core.groups, alloc, group)?;
    row.leader = Some(node);
    Ok(())
}

/// The provider waits as a failure of this cause, unless it waits as one already.
#[tactic(auto, unfolding(node_state::specs::Leading::with_waiting, node_state::specs::State::with_led, node_state::specs::State::with_row), using(crate::proofs::KeepLaws::row_change, std::proofs::lemmas::Grind::common_steps))]
pub fn wait_failure(
    core: &mut Core,
    alloc: Global,
    group: &Name,
    provider: ProviderId,
    cause: Cause,
) -> Result<(), NoMemory>
    ensures rule { OnOk result
        (core.new ≡ with_waiting core.old group.now (add_failure provider cause)) }
    ensures keeps { OnOk result (Keeps core.old core.new) }
{
    let row = row_mut(&mut core.groups, alloc, group)?;
    row.led.waiting.add_failure(provider, cause);
    Ok(())
}

/// The provider's join waits no more.
#[tactic(auto, unfolding(node_state::specs::Leading::with_waiting, node_state::specs::State::with_led, node_state::specs::State::with_row), using(crate::proofs::KeepLaws::row_change, std::proofs::lemmas::Grind::common_steps))]
pub fn drop_join(
    core: &mut Core,
    alloc: Global,
    group: &Name,
    provider: ProviderId,
) -> Result<(), NoMemory>
    ensures rule { OnOk result (core.new ≡ with_waiting core.old group.now (drop_join provider)) }
    ensures keeps { OnOk result (Keeps core.old core.new) }
{
    let row = row_mut(&mut core.groups, alloc, group)?;
    row.led.waiting.drop_join(provider);
    Ok(())
}

/// The tally of the phase that runs is this one.
#[tactic(auto, unfolding(node_state::specs::Leading::with_tally, node_state::specs::State::with_led, node_state::specs::State::with_row), using(crate::proofs::KeepLaws::row_change, std::proofs::lemmas::Grind::common_steps))]
pub fn set_tally(
    core: &mut Core,
    alloc: Global,
    group: &Name,
    tally: Option<Tally>,
) -> Result<(), NoMemory>
    ensures rule { OnOk result (core.new ≡ with_tally core.old group.now tally) }
    ensures keeps { OnOk result (Keeps core.old core.new) }
{
    let row = row_mut(&mut core.groups, alloc, group)?;
    row.led.tally = tally;
    Ok(())
}

/// The tally of the phase that runs is this one, and no ballot has been recorded.
#[tactic(auto, unfolding(node_state::specs::Leading::tally_set, node_state::specs::State::with_led, node_state::specs::State::with_row), using(crate::proofs::KeepLaws::row_change, std::proofs::lemmas::Grind::common_steps))]
pub fn open_tally(
    core: &mut Core,
    alloc: Global,
    group: &Name,
    tally: Option<Tally>,
) -> Result<(), NoMemory>
    ensures rule { OnOk result (core.new ≡ tally_set core.old group.now tally) }
    ensures keeps { OnOk result (Keeps core.old core.new) }
{
    let row = row_mut(&mut core.groups, alloc, group)?;
    row.led.tally = tally;
    row.led.given = List::new(alloc);
    Ok(())
}

/// A vote on the tally of the phase that runs, where there is one; what its ballot carries is kept where the vote is
/// recorded.
#[tactic(auto, unfolding(node_state::specs::State::with_led, node_state::specs::State::with_row), using(crate::proofs::KeepLaws::row_change, std::proofs::lemmas::Grind::common_steps))]
pub fn cast_vote(
    core: &mut Core,
    alloc: Global,
    group: &Name,
    provider: ProviderId,
    vote: Vote,
    value: Option<Text>,
    message: Option<Text>,
) -> Result<(), NoMemory>
    ensures rule { OnOk result (core.new ≡ with_led core.old group.now
        (λ l. vote_cast l provider vote value message l.tally)) }
    ensures keeps { OnOk result (Keeps core.old core.new) }
{
    let row = row_mut(&mut core.groups, alloc, group)?;
    row::cast_vote(row, provider, vote, value, message)
}

/// A voter of the phase that runs has failed.
#[tactic(auto, unfolding(node_state::specs::Leading::with_tally, node_state::specs::State::with_led, node_state::specs::State::with_row, node_state::specs::State::led_of, node_state::specs::State::row_of), using(crate::proofs::KeepLaws::row_change, crate::proofs::RowLaws::reached_found, std::proofs::lemmas::Grind::common_steps))]
pub fn fail_voter(
    core: &mut Core,
    alloc: Global,
    group: &Name,
    provider: ProviderId,
) -> Result<(), NoMemory>
    requires { InNameOrder core.old.groups }
    ensures rule { OnOk result (core.new ≡ with_tally core.old group.now
        (option_map (tally_fail provider) (led_of core.old group.now).tally)) }
    ensures keeps { OnOk result (Keeps core.old core.new) }
{
    let row = row_mut(&mut core.groups, alloc, group)?;
    if let Some(tally) = &mut row.led.tally {
        tally.fail(provider);
    }
    Ok(())
}

/// The tally of the phase that runs ticks.
#[tactic(auto, unfolding(node_state::specs::Leading::with_tally, node_state::specs::State::with_led, node_state::specs::State::with_row, node_state::specs::State::led_of, node_state::specs::State::row_of), using(crate::proofs::KeepLaws::row_change, crate::proofs::RowLaws::reached_found, std::proofs::lemmas::Grind::common_steps))]
pub fn tick_tally(core: &mut Core, alloc: Global, group: &Name) -> Result<(), NoMemory>
    requires { InNameOrder core.old.groups }
    ensures rule { OnOk result (core.new ≡ with_tally core.old group.now
        (ticked_in (led_of core.old group.now).tally)) }
    ensures keeps { OnOk result (Keeps core.old core.new) }
{
    let row = row_mut(&mut core.groups, alloc, group)?;
    if let Some(tally) = &mut row.led.tally {
        tally.tick();
    }
    Ok(())
}

/// The node has acknowledged this length, or a greater one.
#[tactic(auto, unfolding(node_state::specs::State::with_led, node_state::specs::State::with_row), using(crate::proofs::KeepLaws::row_change, std::proofs::lemmas::Grind::common_steps))]
pub fn note_acked(
    core: &mut Core,
    alloc: Global,
    group: &Name,
    node: u8,
    len: u32,
) -> Result<(), NoMemory>
    ensures rule { OnOk result (core.new ≡ with_led core.old group.now
        (λ l. record l { acked = acked_raised node len l.acked })) }
    ensures keeps { OnOk result (Keeps core.old core.new) }
{
    let row = row_mut(&mut core.groups, alloc, group)?;
    raise_acked(&mut row.led.acked, node, len)
}

/// The provider is gone.
#[tactic(auto, unfolding(node_state::specs::State::with_led, node_state::specs::State::with_row), using(crate::proofs::KeepLaws::row_change, std::proofs::lemmas::Grind::common_steps))]
pub fn mark_gone(
    core: &mut Core,
    alloc: Global,
    group: &Name,
    provider: ProviderId,
) -> Result<(), NoMemory>
    ensures rule { OnOk result (core.new ≡ with_led core.old group.now
        (λ l. record l { gone = marked l.gone provider })) }
    ensures keeps { OnOk result (Keeps core.old core.new) }
{
    let row = row_mut(&mut core.groups, alloc, group)?;
    row::mark(&mut row.led.gone, provider)
}

/// The last decision on the requester is this one.
#[tactic(auto, unfolding(node_state::specs::Deciding::keep_decision, node_state::specs::State::with_led, node_state::specs::State::with_row), using(crate::proofs::KeepLaws::row_change, std::proofs::lemmas::Grind::common_steps))]
pub fn keep_decision(
    core: &mut Core,
    alloc: Global,
    group: &Name,
    provider: ProviderId,
    request: u32,
    why: Option<Why>,
) -> Result<(), NoMemory>
    ensures rule { OnOk result
        (core.new ≡ keep_decision core.old group.now provider request why) }
    ensures keeps { OnOk result (Keeps core.old core.new) }
{
    let row = row_mut(&mut core.groups, alloc, group)?;
    let decision = Decision {
        provider,
        request,
        why,
    };
    tables::keep_decision(&mut row.led.decided, decision)
}
