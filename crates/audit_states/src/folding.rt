//! A list, folded.
ghost use Rattle.std.specs.Prelude.{◌≡◌, ◌≤◌, ◌^◌, length, take, OnOk};
ghost use Rattle.run_audit.specs.Past.{fold_from};

use proposal_core::Entry;
use rsct_packet::{NoMemory, ViewId};
use run_audit::State;
use std::alloc::Global;

/// The first entries, as many as the count or all.
pub fn front(entries: &[Entry], count: usize) -> &[Entry]
    ensures items { result.now ≡ take count entries.now }
    ensures len { length result.now ≤ count }
{
    &entries[..entries.len().min(count)]
}

/// Takes these entries of a list of the view, from its first on.
pub fn fold(
    alloc: Global,
    view: ViewId,
    state: &mut State,
    entries: &[Entry],
) -> Result<(), NoMemory>
    requires { length entries.now ≤ 2 ^ 32 }
    ensures { OnOk result (state.new ≡ fold_from view state.old 0 entries.now) }
{
    for (place, entry) in entries.iter().enumerate() {
        state.take(alloc, view, place as u32, entry)?;
    }
    Ok(())
}
