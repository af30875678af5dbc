//! The rule on casts: who heard that a phase opened.
ghost use Rattle.std.specs.Prelude.{◌≡◌, ◌∷◌, ◌&&◌, [], List, Option, ℕ, is_none, is_some, true, OnOk};
ghost use Rattle.std.specs.Map.{lookup};
ghost use Rattle.rsct_packet.specs.declared.ids.ProviderId.{ProviderId};
ghost use Rattle.rsct_packet.specs.declared.ids.ViewId.{ViewId};
ghost use Rattle.proposal_core.specs.declared.entry.Vote.{Vote};
ghost use Rattle.record_lines.specs.declared.line.Line.{Line};
ghost use Rattle.record_lines.specs.declared.line.Line.TheVariants as line;
ghost use Rattle.record_lines.specs.declared.line.What.{What};
ghost use Rattle.run_audit.specs.declared.broken.Rule.TheVariants as rule;
ghost use Rattle.run_audit.specs.declared.lists.RowKey.{RowKey};
ghost use Rattle.run_audit.specs.declared.openings.OpenPut.{OpenPut};
ghost use Rattle.run_audit.specs.Casts.{AreCasts};
ghost use Rattle.run_audit.specs.Keys.{cast_key, same_cast_key};
ghost use Rattle.run_audit.specs.Kept.{Keep, fault_of};
ghost use Rattle.run_audit.specs.Lists.{is_row_key};
ghost use Rattle.run_audit.specs.Openings.{AreHeardOpen, AreOpenings, opened_at};
ghost use Rattle.run_audit.specs.Table.{holds};

use crate::broken::{Fault, Rule};
use crate::casts::Casts;
use crate::keys::{CastKey, cast_key, phase_key};
use crate::openings::Opening;
use indexmap::IndexMap;
use rsct_packet::{NoMemory, ProtoId, ProviderId};
use std::alloc::Global;
use std::marker::Model;

/// May a provider cast, which heard the phase open or not, and cast there first in this line?
fn may_cast(heard: bool, first: Option<u32>) -> bool
    ensures { result ≡ (heard && is_none first) }
{
    heard && first.is_none()
}

/// The phases that providers heard open, each with the number of a line.
#[derive(Drop)]
pub struct HeardOpen {
    by_key: IndexMap<CastKey, u32>,
}

impl Model for HeardOpen {
    ghost use Rattle.std.specs.Prelude.{ℕ, List};
    ghost use Rattle.run_audit.specs.declared.keys.CastKey.{CastKey};

    ghost Value = { List (CastKey × ℕ) };

    ghost view = { λ s. s.by_key.entries };
}

impl HeardOpen {
    /// Of no lines.
    pub fn new(alloc: Global) -> HeardOpen
        ensures { AreHeardOpen [] result }
    {
        HeardOpen {
            by_key: IndexMap::new(alloc),
        }
    }

    fn has(&self, key: CastKey) -> bool
        ensures { result ≡ is_some (lookup (same_cast_key key) self.now) }
    {
        self.by_key.contains_key(&key)
    }

    /// In the line of this number the provider hears of a put that opens this phase, or none.
    pub fn note(
        &mut self,
        provider: ProviderId,
        opening: Option<Opening>,
        number: u32,
    ) -> Result<(), NoMemory>
        ensures { OnOk result ((ls : List Line) (v : ViewId) (g : List ℕ) (i : ℕ) (w : What)
            (ms : List ProviderId) (value : List ℕ) (es : List (RowKey × OpenPut))
            → AreHeardOpen ls self.old → AreOpenings ls es
            → opening ≡ opened_at i (lookup
            (is_row_key (record { node = provider.node; view = v; group = g })) es)
            → Keep rule.Place ls
            → holds rule.Heard (line.Heard provider v g i w ms value) ls ≡ true
            → AreHeardOpen (line.Heard provider v g i w ms value ∷ ls) self.new) }
    {
        match opening {
            None => Ok(()),
            Some(opening) => {
                let key = phase_key(provider, opening.proto, opening.phase);
                self.by_key.insert(key, number)?;
                Ok(())
            }
        }
    }
}

/// What the table says of the rule on casts: nothing where the line keeps it.
pub fn cast_fault(
    heard: &HeardOpen,
    casts: &Casts,
    provider: ProviderId,
    proto: ProtoId,
    phase: u16,
) -> Option<Fault>
    ensures { (ls : List Line) (v : Vote) (x : Option (List ℕ)) → AreHeardOpen ls heard.now
        → AreCasts ls casts.now
        → result ≡ fault_of rule.Cast (line.Cast provider proto phase v x) ls }
{
    let first = casts.first_line(provider, proto, phase);
    if may_cast(heard.has(cast_key(provider, proto, phase)), first) {
        None
    } else {
        Some(Fault {
            rule: Rule::Cast,
            with_line: first,
        })
    }
}
