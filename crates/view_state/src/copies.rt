//! Copies of what lists hold.
ghost use Rattle.std.specs.Prelude.{◌≡◌, IfOk};

use crate::install::{Install, Part, Source};
use proposal_core::Entry;
use rsct_packet::{List, NoMemory};
use std::alloc::Global;

/// What can be copied where there is memory.
trait Copied: Drop + Sized {
    fn copied(&self, alloc: Global) -> Result<Self, NoMemory>
        ensures { IfOk result (λ x. x ≡ self.now) };
}

/// A list of copies.
fn copy_all<T: Copied>(alloc: Global, items: &[T]) -> Result<List<T>, NoMemory>
    ensures { IfOk result (λ l. l ≡ items.now) }
{
    let mut out = List::new(alloc);
    for x in items {
        out.push(x.copied(alloc)?)?;
    }
    Ok(out)
}

impl Copied for Entry {
    fn copied(&self, alloc: Global) -> Result<Entry, NoMemory> {
        self.copy(alloc)
    }
}

impl Copied for Part {
    fn copied(&self, alloc: Global) -> Result<Part, NoMemory> {
        Ok(Part {
            name: self.name.copy(alloc)?,
            start: self.start,
            entries: copy_all(alloc, self.entries.as_slice())?,
            state: self.state.copy(alloc)?,
        })
    }
}

impl Copied for Source {
    fn copied(&self, alloc: Global) -> Result<Source, NoMemory> {
        Ok(Source {
            view: self.view,
            nodes: self.nodes,
            parts: copy_all(alloc, self.parts.as_slice())?,
        })
    }
}

impl Install {
    /// An equal install.
    pub fn copy(&self, alloc: Global) -> Result<Install, NoMemory>
        ensures { IfOk result (λ i. i ≡ self.now) }
    {
        Ok(Install {
            view: self.view,
            members: List::of(alloc, self.members.as_slice())?,
            sources: copy_all(alloc, self.sources.as_slice())?,
        })
    }
}
