//! The row of a group.
ghost use Rattle.std.specs.Prelude.{◌≡◌, IfOk, OnOk, IsTrue, Some, None};
ghost use Rattle.proposal_core.specs.Fold.{joiners_fit};
ghost use Rattle.proposal_core.specs.Lists.{list_or_new, state_in, len_in, entry_fits, with_entry};
ghost use Rattle.node_state.specs.State.{nothing_led, new_row, list_forgotten};
ghost use Rattle.node_state.specs.Following.{marked, given_with, vote_cast};

use batch_rules::Waiting;
use node_state::{Given, GroupRow, Led, Table};
use proposal_core::{Entry, GroupList, GroupState, Vote};
use rsct_packet::{List, Name, NoMemory, ProviderId, Text, ViewId, is_among};
use std::alloc::Global;
use vote_phases::Cast;

/// The provider is marked, once.
#[tactic(auto, unfolding(node_state::specs::Following::marked))]
pub fn mark(list: &mut List<ProviderId>, provider: ProviderId) -> Result<(), NoMemory>
    ensures { OnOk result (list.new ≡ marked list.old provider) }
{
    if is_among(list.as_slice(), provider) {
        return Ok(());
    }
    list.push(provider)
}

/// The list of a group that has none yet.
#[tactic(auto, unfolding(proposal_core::specs::Fold::joiners_fit, proposal_core::specs::Fold::joiners_fit_at))]
pub fn new_list(alloc: Global) -> GroupList
    ensures { result ≡ list_or_new None }
{
    GroupList::new(alloc, GroupState::empty(alloc))
}

/// Does the entry fit at the end of a new list?
#[tactic(auto, unfolding(proposal_core::specs::Lists::entry_fits))]
pub fn fits_in_new(alloc: Global, entry: &Entry) -> bool
    ensures { result ≡ entry_fits (list_or_new None) entry.now }
{
    let list = new_list(alloc);
    list.state().fits(entry) && list.has_room(entry)
}

/// Nothing is led.
fn nothing_led(alloc: Global) -> Led
    ensures { result ≡ nothing_led }
{
    Led {
        acked: Table {
            rows: Vec::new(alloc),
        },
        waiting: Waiting::new(),
        join_attrs: List::new(alloc),
        tally: None,
        given: List::new(alloc),
        gone: List::new(alloc),
        decided: Table {
            rows: Vec::new(alloc),
        },
    }
}

/// The empty row of a group.
pub fn new_row(alloc: Global, name: &Name) -> Result<GroupRow, NoMemory>
    ensures { IfOk result (λ row. row ≡ new_row name.now) }
{
    Ok(GroupRow {
        name: name.copy(alloc)?,
        list: None,
        leader: None,
        led: nothing_led(alloc),
    })
}

/// How many entries the list has.
pub fn len(row: &GroupRow) -> u32
    ensures { result ≡ len_in row.now.list }
{
    match &row.list {
        None => 0,
        Some(list) => list.len(),
    }
}

/// The state at the end of the list.
#[tactic(auto, unfolding(proposal_core::specs::Fold::joiners_fit, proposal_core::specs::Fold::joiners_fit_at))]
pub fn state(row: &GroupRow, alloc: Global) -> Result<GroupState, NoMemory>
    ensures value { IfOk result (λ st. st ≡ state_in row.now.list) }
    ensures joiners { IfOk result (λ st. IsTrue (joiners_fit st)) }
{
    match &row.list {
        None => Ok(GroupState::empty(alloc)),
        Some(list) => list.state().copy(alloc),
    }
}

/// Does the entry fit at the end of the list?
#[tactic(auto, unfolding(proposal_core::specs::Lists::entry_fits))]
pub fn fits_at_end(row: &GroupRow, alloc: Global, entry: &Entry) -> bool
    ensures { result ≡ entry_fits (list_or_new row.now.list) entry.now }
{
    match &row.list {
        None => fits_in_new(alloc, entry),
        Some(list) => list.state().fits(entry) && list.has_room(entry),
    }
}

/// A new list of this entry alone, which fits there.
#[tactic(auto, unfolding(proposal_core::specs::Lists::entry_fits))]
fn list_of_one(alloc: Global, view: ViewId, entry: Entry) -> Result<GroupList, NoMemory>
    requires { IsTrue (entry_fits (list_or_new None) entry) }
    ensures { IfOk result (λ list. list ≡ with_entry (list_or_new None) view entry) }
{
    let mut list = new_list(alloc);
    list.put(alloc, view, entry)?;
    Ok(list)
}

/// Puts an entry that fits at the end of the list.
#[tactic(auto, unfolding(proposal_core::specs::Lists::entry_fits))]
pub fn put(row: &mut GroupRow, alloc: Global, view: ViewId, entry: Entry) -> Result<(), NoMemory>
    requires { IsTrue (entry_fits (list_or_new row.old.list) entry) }
    ensures { OnOk result (row.new ≡ record (row.old) {
      list = Some
          (with_entry (list_or_new row.old.list) view entry);
    }) }
{
    match &mut row.list {
        None => row.list = Some(list_of_one(alloc, view, entry)?),
        Some(list) => {
            list.put(alloc, view, entry)?;
        }
    }
    Ok(())
}

/// Lets the entries below a place go, where the list has that place.
#[tactic(auto, unfolding(proposal_core::specs::Lists::forgotten))]
pub fn forget_below(row: &mut GroupRow, place: u32)
    ensures { row.new ≡ record (row.old) { list = list_forgotten place row.old.list } }
{
    if let Some(list) = &mut row.list {
        if place <= list.len() {
            list.forget_below(place);
        }
    }
}

/// What a ballot carries is kept where its vote was recorded.
#[tactic(auto, unfolding(node_state::specs::Following::given_with))]
fn keep_given(
    given: &mut List<Given>,
    provider: ProviderId,
    value: Option<Text>,
    message: Option<Text>,
    cast: Cast,
) -> Result<(), NoMemory>
    ensures { OnOk result (given.new ≡ given_with given.old provider value message cast) }
{
    match cast {
        Cast::Recorded => given.push(Given {
            provider,
            value,
            message,
        }),
        _ => Ok(()),
    }
}

/// A vote on the tally, where there is one.
#[tactic(auto, unfolding(node_state::specs::Following::vote_cast))]
pub fn cast_vote(
    row: &mut GroupRow,
    provider: ProviderId,
    vote: Vote,
    value: Option<Text>,
    message: Option<Text>,
) -> Result<(), NoMemory>
    ensures { OnOk result (row.new ≡ record (row.old) {
      led = vote_cast row.old.led provider vote
          value message row.old.led.tally;
    }) }
{
    match &mut row.led.tally {
        None => Ok(()),
        Some(tally) => {
            let cast = tally.cast(provider, vote);
            keep_given(&mut row.led.given, provider, value, message, cast)
        }
    }
}
