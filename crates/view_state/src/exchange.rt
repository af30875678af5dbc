//! A gathering of answers.
ghost use Rattle.std.specs.Prelude.{◌≡◌, filter, not, IfOk};
ghost use Rattle.rsct_packet.specs.Mask.{nodes_of};
ghost use Rattle.view_state.specs.Answers.{opened, has_answered, may_answer, with_answer, all_answered, install_of};
ghost use Rattle.rsct_packet.specs.Format.{EachFits};
ghost use Rattle.view_state.specs.Tails.{IsTail, HasTails, KeepsTails};

use crate::answer::Answer;
use crate::install::Install;
use crate::sides::Sides;
use rsct_packet::{List, Mask, Member, Members, NODES, NoMemory, ViewId};
use std::alloc::Global;

/// A gathering: the view that is to be, the nodes asked for it, those who have answered with their incarnations,
/// the longest lists that they brought, and the ticks since it began.
pub struct Exchange {
    pub view: ViewId,
    pub asked: Mask,
    pub members: Members,
    pub sides: Sides,
    pub age: u32,
}

// Written out: a drop is one call then, whose proof is made once.
impl Drop for Exchange {
    fn drop(self) {
        let Exchange {
            view: _,
            asked: _,
            members: _members,
            sides: _sides,
            age: _,
        } = self;
    }
}

impl Exchange {
    /// A gathering for a view, of which nobody has answered yet.
    #[tactic(auto, unfolding(crate::specs::Answers::opened), using(crate::proofs::TailLaws::opened_keeps))]
    pub fn open(alloc: Global, view: ViewId, asked: Mask) -> Exchange
        ensures value { result ≡ opened view asked }
        ensures tails { KeepsTails result }
    {
        Exchange {
            view,
            asked,
            members: List::new(alloc),
            sides: Sides::new(alloc),
            age: 0,
        }
    }

    #[tactic(auto, unfolding(crate::specs::Answers::opened, crate::specs::Answers::with_answer, crate::specs::Answers::with_side))]
    fn open_alone(
        alloc: Global,
        view: ViewId,
        asked: Mask,
        own: Answer,
    ) -> Result<Exchange, NoMemory>
        ensures { IfOk result (λ x. x ≡ with_answer (opened view asked) own) }
    {
        let member = Member {
            node: own.node,
            inc: own.inc,
        };
        Ok(Exchange {
            view,
            asked,
            members: List::of(alloc, &[member])?,
            sides: Sides::one(alloc, own)?,
            age: 0,
        })
    }

    /// A gathering that begins with the own answer. Of its lists nothing is copied.
    pub fn open_with(
        alloc: Global,
        view: ViewId,
        asked: Mask,
        own: Answer,
    ) -> Result<Exchange, NoMemory>
        ensures value { IfOk result (λ x. x ≡ with_answer (opened view asked) own) }
        ensures tails { EachFits IsTail own.parts → IfOk result KeepsTails }
    {
        Exchange::open_alone(alloc, view, asked, own)
    }

    #[tactic(auto, unfolding(crate::specs::Answers::has_answered))]
    pub fn has_answered(&self, node: u8) -> bool
        ensures { result ≡ has_answered self.now node }
    {
        self.members.as_slice().iter().any(|m| m.node == node)
    }

    /// Those who were asked and have not answered, ascending.
    #[tactic(auto, unfolding(rsct_packet::specs::Mask::nodes_of))]
    pub fn unanswered(&self, alloc: Global) -> Result<Vec<u8>, NoMemory>
        ensures { IfOk result (λ v. v.items ≡ filter
            (λ n. not (has_answered self.now n)) (nodes_of self.now.asked)) }
    {
        Ok(
            NODES
                .iter()
                .copied()
                .filter(|n| self.asked.has(*n))
                .filter(|n| !self.has_answered(*n))
                .collect(alloc)?,
        )
    }

    /// Was it asked, and has it not answered?
    #[tactic(auto, unfolding(crate::specs::Answers::may_answer))]
    pub fn may_answer(&self, node: u8) -> bool
        ensures { result ≡ may_answer self.now node }
    {
        self.asked.has(node) && !self.has_answered(node)
    }

    /// Have all answered who were asked?
    #[tactic(auto, unfolding(crate::specs::Answers::all_answered, rsct_packet::specs::Mask::nodes_of))]
    pub fn all(&self) -> bool
        ensures { result ≡ all_answered self.now }
    {
        NODES
            .iter()
            .copied()
            .filter(|n| self.asked.has(*n))
            .all(|n| self.has_answered(n))
    }

    /// The install of the view: its members are those who answered, and for each old view and group it carries the
    /// longest list of the answers, of equal ones that of the least node.
    #[tactic(auto, unfolding(crate::specs::Answers::install_of), using(crate::proofs::TailLaws::install_has_tails))]
    pub fn install(self, alloc: Global) -> Result<Install, NoMemory>
        ensures value { IfOk result (λ i. i ≡ install_of self) }
        ensures tails { KeepsTails self → IfOk result HasTails }
    {
        let Exchange {
            view,
            asked: _,
            members,
            sides,
            age: _,
        } = self;
        Ok(Install {
            view,
            sources: sides.into_sources(alloc)?,
            members,
        })
    }
}
