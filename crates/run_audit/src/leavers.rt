//! Who passed from one view into another.
ghost use Rattle.std.specs.Prelude.{◌≡◌, ◌+◌, ◌∷◌, [], List, Some, None, false, length, OnOk};
ghost use Rattle.std.specs.Map.{lookup};
ghost use Rattle.rsct_packet.specs.declared.ids.Member.{Member};
ghost use Rattle.record_lines.specs.declared.line.Line.{Line};
ghost use Rattle.record_lines.specs.declared.line.Line.TheVariants as line;
ghost use Rattle.run_audit.specs.declared.keys.PassKey.{PassKey};
ghost use Rattle.run_audit.specs.Keys.{same_pass_key};
ghost use Rattle.run_audit.specs.Leavers.{AreLeavers, entrants_in, with_entrant};
ghost use Rattle.run_audit.specs.Past.{view_of};

use crate::keys::{PassKey, pass_key};
use indexmap::IndexMap;
use rsct_packet::{List, NoMemory, ViewId};
use std::alloc::Global;
use std::marker::Model;

/// A node that entered a view, and the number of its line.
#[derive(Clone, Copy, Debug, PartialEq, Eq)]
pub struct Entrant {
    pub node: u8,
    pub number: u32,
}

/// Who is kept, or nobody.
#[tactic(auto, unfolding(crate::specs::Leavers::entrants_in))]
fn entrants_in(alloc: Global, kept: Option<List<Entrant>>) -> List<Entrant>
    ensures { result ≡ entrants_in kept }
{
    match kept {
        None => List::new(alloc),
        Some(entrants) => entrants,
    }
}

/// Who passed from one view into another, in the order of the lines.
#[derive(Drop)]
pub struct Leavers {
    by_pass: IndexMap<PassKey, List<Entrant>>,
}

impl Model for Leavers {
    ghost use Rattle.std.specs.Prelude.{List};
    ghost use Rattle.run_audit.specs.declared.keys.PassKey.{PassKey};
    ghost use Rattle.run_audit.specs.declared.leavers.Entrant.{Entrant};

    ghost Value = { List (PassKey × List Entrant) };

    ghost view = { λ s. s.by_pass.entries };
}

impl Leavers {
    /// Of no lines.
    pub fn new(alloc: Global) -> Leavers
        ensures { AreLeavers [] result }
    {
        Leavers {
            by_pass: IndexMap::new(alloc),
        }
    }

    /// Who passed this way.
    #[tactic(auto, unfolding(crate::specs::Leavers::entrants_in))]
    pub fn entrants(&self, key: PassKey) -> &[Entrant]
        ensures { result.now ≡ entrants_in (lookup (same_pass_key key) self.now) }
    {
        match self.by_pass.get(&key) {
            None => &[],
            Some(entrants) => entrants.as_slice(),
        }
    }

    /// Takes out who passed this way.
    fn take(&mut self, alloc: Global, key: PassKey) -> List<Entrant>
        ensures entrants { result ≡ entrants_in (lookup (same_pass_key key) self.old) }
        ensures others { (q : PassKey) → same_pass_key key q ≡ false
            → lookup (same_pass_key q) self.new ≡ lookup (same_pass_key q) self.old }
    {
        let kept = self.by_pass.swap_remove(&key);
        entrants_in(alloc, kept)
    }

    /// Takes one more to the end of those who passed this way.
    fn push(&mut self, alloc: Global, key: PassKey, entrant: Entrant) -> Result<(), NoMemory>
        ensures { OnOk result ((q : PassKey) → entrants_in (lookup (same_pass_key q) self.new)
            ≡ with_entrant (same_pass_key key q) entrant
            (entrants_in (lookup (same_pass_key q) self.old))) }
    {
        let mut entrants = self.take(alloc, key);
        entrants.push(entrant)?;
        self.by_pass.insert(key, entrants)?;
        Ok(())
    }

    /// In the line of this number the node, which was in this view, enters another one.
    pub fn note(
        &mut self,
        alloc: Global,
        node: u8,
        old: Option<ViewId>,
        view: ViewId,
        number: u32,
    ) -> Result<(), NoMemory>
        ensures { OnOk result ((ls : List Line) (ms : List Member) → AreLeavers ls self.old
            → old ≡ view_of node ls → number ≡ length ls + 1
            → AreLeavers (line.In node view ms ∷ ls) self.new) }
    {
        match old {
            None => Ok(()),
            Some(old) => {
                self.push(alloc, pass_key(view, old), Entrant { node, number })?;
                Ok(())
            }
        }
    }
}
