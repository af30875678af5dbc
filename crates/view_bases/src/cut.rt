//! What a list lacks of a longer one.
ghost use Rattle.std.specs.Prelude.{◌≡◌, IfOk, OnOk, IsTrue, option_copied};
ghost use Rattle.proposal_core.specs.Fold.{fits, joiners_fit};
ghost use Rattle.proposal_core.specs.Lists.{has_room, entry_fits};
ghost use Rattle.view_state.specs.Cut.{all_fit, lacking_of};
ghost use Rattle.view_bases.specs.Fitting.{list_with, end_of, passed};

use proposal_core::{Entry, GroupList, GroupState};
use rsct_packet::{NoMemory, ViewId};
use std::alloc::Global;
use view_state::Part;

/// The end of a list: how many entries and bytes came before, and the state.
#[derive(Drop)]
struct ListEnd {
    len: u32,
    bytes: u32,
    state: GroupState,
}

impl ListEnd {
    fn of(alloc: Global, list: &GroupList) -> Result<ListEnd, NoMemory>
        ensures value { IfOk result (λ s. s ≡ end_of list.now) }
        ensures joiners { IfOk result (λ s. IsTrue (joiners_fit s.state)) }
    {
        Ok(ListEnd {
            len: list.len(),
            bytes: list.bytes(),
            state: list.state().copy(alloc)?,
        })
    }

    /// Do the counts stay within their types with this entry?
    #[tactic(auto, unfolding(proposal_core::specs::Lists::has_room))]
    fn has_room(&self, entry: &Entry) -> bool
        ensures { result ≡ has_room (list_with self.now) entry.now }
    {
        match entry.len() {
            None => false,
            Some(n) => self.len < u32::MAX && n <= u32::MAX - self.bytes,
        }
    }

    #[tactic(auto, unfolding(proposal_core::specs::Lists::entry_fits))]
    fn fits(&self, entry: &Entry) -> bool
        ensures { result ≡ entry_fits (list_with self.now) entry.now }
    {
        self.state.fits(entry) && self.has_room(entry)
    }

    /// Goes past an entry that fits.
    #[tactic(auto, unfolding(crate::specs::Fitting::passed, proposal_core::specs::Lists::has_room), using(proposal_core::proofs::ListLaws::after_fits, std::proofs::lemmas::Grind::common_steps))]
    fn pass(&mut self, alloc: Global, view: ViewId, entry: &Entry) -> Result<(), NoMemory>
        requires fits { IsTrue (fits self.old.state entry.now) }
        requires room { IsTrue (has_room (list_with self.old) entry.now) }
        requires joiners { IsTrue (joiners_fit self.old.state) }
        ensures passed { OnOk result (self.new ≡ passed self.old view entry.now) }
        ensures joiners { OnOk result (IsTrue (joiners_fit self.new.state)) }
    {
        let bytes = self.bytes + entry.len().unwrap();
        self.state.apply(alloc, view, self.len, entry)?;
        self.len += 1;
        self.bytes = bytes;
        Ok(())
    }

    /// Do these fit there, one after another? It goes past those before the first that does not.
    #[tactic(auto, unfolding(proposal_core::specs::Lists::entry_fits), using(crate::proofs::CutLaws::fit_goes_on, crate::proofs::CutLaws::fit_stops, crate::proofs::CutLaws::fit_ends, std::proofs::lemmas::Grind::common_steps))]
    fn pass_all(&mut self, alloc: Global, view: ViewId, entries: &[Entry]) -> Result<bool, NoMemory>
        requires { IsTrue (joiners_fit self.old.state) }
        ensures { IfOk result (λ b. b ≡ all_fit view (list_with self.old) entries.now) }
    {
        for e in entries {
            if !self.fits(e) {
                return Ok(false);
            }
            self.pass(alloc, view, e)?;
        }
        Ok(true)
    }
}

/// Do these fit at the end of a list of the view, one after another?
#[tactic(auto, using(crate::proofs::CutLaws::fit_begins))]
fn do_all_fit(
    alloc: Global,
    view: ViewId,
    list: &GroupList,
    entries: &[Entry],
) -> Result<bool, NoMemory>
    ensures { IfOk result (λ b. b ≡ all_fit view list.now entries.now) }
{
    let mut end = ListEnd::of(alloc, list)?;
    end.pass_all(alloc, view, entries)
}

/// What a list of the view lacks up to this one's length. `Ok(None)` exactly where an entry is missing here or
/// does not fit there. Of the list its state alone is copied.
#[tactic(auto, unfolding(view_state::specs::Cut::lacking_of, view_state::specs::Cut::lacking_if))]
pub fn lacking_of<'a>(
    part: &'a Part,
    alloc: Global,
    view: ViewId,
    list: &GroupList,
) -> Result<Option<&'a [Entry]>, NoMemory>
    ensures { IfOk result (λ o. option_copied o ≡ lacking_of view list.now part.now) }
{
    let len = list.len();
    if part.len() <= len as u128 {
        return Ok(Some(&[]));
    }
    if len < part.start {
        return Ok(None);
    }
    let lacking = &part.entries.as_slice()[(len - part.start) as usize..];
    if !do_all_fit(alloc, view, list, lacking)? {
        return Ok(None);
    }
    Ok(Some(lacking))
}
