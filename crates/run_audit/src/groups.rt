//! Groups, by nodes' stays in views.
ghost use Rattle.std.specs.Prelude.{◌≡◌, [], false, OnOk};
ghost use Rattle.std.specs.Map.{lookup};
ghost use Rattle.run_audit.specs.declared.keys.StayKey.{StayKey};
ghost use Rattle.run_audit.specs.Based.{groups_in, with_group};
ghost use Rattle.run_audit.specs.Keys.{same_stay_key};

use crate::keys::StayKey;
use indexmap::IndexMap;
use rsct_packet::{List, Name, NoMemory};
use std::alloc::Global;
use std::marker::Model;

/// The groups that are kept, or none.
#[tactic(auto, unfolding(crate::specs::Based::groups_in))]
fn groups_in(alloc: Global, kept: Option<List<Name>>) -> List<Name>
    ensures { result ≡ groups_in kept }
{
    match kept {
        None => List::new(alloc),
        Some(groups) => groups,
    }
}

/// A list of groups for each node's stay in a view.
#[derive(Drop)]
pub struct GroupLists {
    by_stay: IndexMap<StayKey, List<Name>>,
}

impl Model for GroupLists {
    ghost use Rattle.std.specs.Prelude.{ℕ, List};
    ghost use Rattle.run_audit.specs.declared.keys.StayKey.{StayKey};

    ghost Value = { List (StayKey × List (List ℕ)) };

    ghost view = { λ s. s.by_stay.entries };
}

impl GroupLists {
    /// Of no stay.
    pub fn new(alloc: Global) -> GroupLists
        ensures { result ≡ [] }
    {
        GroupLists {
            by_stay: IndexMap::new(alloc),
        }
    }

    /// The groups of the stay.
    #[tactic(auto, unfolding(crate::specs::Based::groups_in))]
    pub fn groups(&self, key: StayKey) -> &[Name]
        ensures { result.now ≡ groups_in (lookup (same_stay_key key) self.now) }
    {
        match self.by_stay.get(&key) {
            None => &[],
            Some(groups) => groups.as_slice(),
        }
    }

    /// Takes out the groups of the stay.
    fn take(&mut self, alloc: Global, key: StayKey) -> List<Name>
        ensures groups { result ≡ groups_in (lookup (same_stay_key key) self.old) }
        ensures others { (q : StayKey) → same_stay_key key q ≡ false
            → lookup (same_stay_key q) self.new ≡ lookup (same_stay_key q) self.old }
    {
        let kept = self.by_stay.swap_remove(&key);
        groups_in(alloc, kept)
    }

    /// Takes one more group to the end of the stay's.
    pub fn push(&mut self, alloc: Global, key: StayKey, group: &Name) -> Result<(), NoMemory>
        ensures { OnOk result ((q : StayKey) → groups_in (lookup (same_stay_key q) self.new)
            ≡ with_group (same_stay_key key q) group.now
            (groups_in (lookup (same_stay_key q) self.old))) }
    {
        let mut groups = self.take(alloc, key);
        let name = group.copy(alloc)?;
        groups.push(name)?;
        self.by_stay.insert(key, groups)?;
        Ok(())
    }
}
