//! The sides of a gathering: what the nodes that come from one old view brought of it.
ghost use Rattle.std.specs.Prelude.{◌≡◌, [], ◌∷◌, map, IfOk};
ghost use Rattle.view_state.specs.Answers.{kept_of, side_from, source_of};

use crate::answer::Answer;
use crate::install::{Part, Parts, Source, Sources};
use rsct_packet::{List, Mask, NoMemory, ViewId};
use std::alloc::Global;
use std::marker::Model;

/// A list of a group, and the node that it is of.
#[derive(Drop)]
pub struct Kept {
    pub node: u8,
    pub part: Part,
}

/// Kept lists in name order, whose names differ.
#[derive(Drop)]
pub struct KeptParts {
    items: Vec<Kept>,
}

impl Model for KeptParts {
    ghost use Rattle.std.specs.Prelude.{List};
    ghost use Rattle.view_state.specs.declared.sides.Kept.{Kept};

    ghost Value = { List Kept };

    ghost view = { λ l. l.items.items };
}

/// The nodes that come from one old view, and of each group the longest list among theirs, of equal ones that of
/// the least node.
#[derive(Drop)]
pub struct Side {
    pub view: ViewId,
    pub nodes: Mask,
    pub parts: KeptParts,
}

/// Sides ascending by view.
#[derive(Drop)]
pub struct Sides {
    items: Vec<Side>,
}

impl Model for Sides {
    ghost use Rattle.std.specs.Prelude.{List};
    ghost use Rattle.view_state.specs.declared.sides.Side.{Side};

    ghost Value = { List Side };

    ghost view = { λ l. l.items.items };
}

impl KeptParts {
    /// These, in their order.
    pub fn of_items(items: Vec<Kept>) -> KeptParts
        ensures { result ≡ items.items }
    {
        KeptParts { items }
    }

    /// The items, without a copy.
    pub fn into_items(self) -> Vec<Kept>
        ensures { result.items ≡ self }
    {
        let KeptParts { items } = self;
        items
    }

    fn of_parts(alloc: Global, node: u8, parts: Parts) -> Result<KeptParts, NoMemory>
        ensures { IfOk result (λ l. l ≡ map (kept_of node) parts) }
    {
        let mut items = Vec::new(alloc);
        for part in parts.into_items() {
            items.push(Kept { node, part })?;
        }
        Ok(KeptParts { items })
    }

    fn into_parts(self, alloc: Global) -> Result<Parts, NoMemory>
        ensures { IfOk result (λ l. l ≡ map (λ k. k.part) self) }
    {
        let KeptParts { items } = self;
        let mut out = List::new(alloc);
        for kept in items {
            out.push(kept.part)?;
        }
        Ok(out)
    }
}

impl Side {
    #[tactic(auto, unfolding(crate::specs::Answers::side_from))]
    fn of_answer(alloc: Global, answer: Answer) -> Result<Side, NoMemory>
        ensures { IfOk result (λ s. s ≡ side_from answer) }
    {
        Ok(Side {
            view: answer.view,
            nodes: Mask::empty().with(answer.node),
            parts: KeptParts::of_parts(alloc, answer.node, answer.parts)?,
        })
    }

    fn into_source(self, alloc: Global) -> Result<Source, NoMemory>
        ensures { IfOk result (λ s. s ≡ source_of self) }
    {
        Ok(Source {
            view: self.view,
            nodes: self.nodes,
            parts: self.parts.into_parts(alloc)?,
        })
    }
}

impl Sides {
    pub fn new(alloc: Global) -> Sides
        ensures { result ≡ [] }
    {
        Sides {
            items: Vec::new(alloc),
        }
    }

    /// The side of one answer.
    pub fn one(alloc: Global, answer: Answer) -> Result<Sides, NoMemory>
        ensures { IfOk result (λ l. l ≡ side_from answer ∷ []) }
    {
        let mut items = Vec::new(alloc);
        items.push(Side::of_answer(alloc, answer)?)?;
        Ok(Sides { items })
    }

    /// These, in their order.
    pub fn of_items(items: Vec<Side>) -> Sides
        ensures { result ≡ items.items }
    {
        Sides { items }
    }

    /// The items, without a copy.
    pub fn into_items(self) -> Vec<Side>
        ensures { result.items ≡ self }
    {
        let Sides { items } = self;
        items
    }

    /// The sources of an install.
    pub fn into_sources(self, alloc: Global) -> Result<Sources, NoMemory>
        ensures { IfOk result (λ l. l ≡ map source_of self) }
    {
        let Sides { items } = self;
        let mut out = List::new(alloc);
        for side in items {
            out.push(side.into_source(alloc)?)?;
        }
        Ok(out)
    }
}
