//! Where nodes came from into views.
ghost use Rattle.std.specs.Prelude.{◌≡◌, ◌∷◌, ◌++◌, [], List, false, OnOk};
ghost use Rattle.std.specs.Map.{lookup};
ghost use Rattle.rsct_packet.specs.declared.ids.Member.{Member};
ghost use Rattle.record_lines.specs.declared.line.Line.{Line};
ghost use Rattle.record_lines.specs.declared.line.Line.TheVariants as line;
ghost use Rattle.audit_states.specs.Comings.{AreComings, came_from, last_below, same_inc_key, views_in, with_view};
ghost use Rattle.run_audit.specs.Past.{inc_in};

use indexmap::IndexMap;
use rsct_packet::{List, Member, NoMemory, ViewId};
use run_audit::is_less;
use std::alloc::Global;
use std::marker::Model;

/// A node in an incarnation.
#[derive(Clone, Copy, Debug, PartialEq, Eq, Hash)]
pub struct IncKey {
    pub node: u8,
    pub inc: u32,
}

/// The incarnation in which the node is a member.
#[tactic(auto, unfolding(run_audit::specs::Past::inc_in))]
fn inc_in(node: u8, members: &[Member]) -> u32
    ensures { result ≡ inc_in node members.now }
{
    match members {
        [] => 0,
        [first, rest @ ..] => {
            if first.node == node {
                first.inc
            } else {
                inc_in(node, rest)
            }
        }
    }
}

/// The last of these views that is less.
#[tactic(auto, unfolding(crate::specs::Comings::last_below))]
fn last_below(view: ViewId, views: &[ViewId]) -> Option<ViewId>
    ensures { result ≡ last_below view views.now }
{
    views
        .iter()
        .rev()
        .copied()
        .find(|other| is_less(*other, view))
}

/// The views that are kept, or none.
#[tactic(auto, unfolding(crate::specs::Comings::views_in))]
fn views_in(alloc: Global, kept: Option<List<ViewId>>) -> List<ViewId>
    ensures { result ≡ views_in kept }
{
    match kept {
        None => List::new(alloc),
        Some(views) => views,
    }
}

/// The views that each node entered in each incarnation, in order.
#[derive(Drop)]
pub struct Comings {
    by_key: IndexMap<IncKey, List<ViewId>>,
}

impl Model for Comings {
    ghost use Rattle.std.specs.Prelude.{List};
    ghost use Rattle.rsct_packet.specs.declared.ids.ViewId.{ViewId};
    ghost use Rattle.audit_states.specs.declared.comings.IncKey.{IncKey};

    ghost Value = { List (IncKey × List ViewId) };

    ghost view = { λ s. s.by_key.entries };
}

impl Comings {
    /// Of no lines.
    pub fn new(alloc: Global) -> Comings
        ensures { AreComings [] result }
    {
        Comings {
            by_key: IndexMap::new(alloc),
        }
    }

    /// The views under the key.
    #[tactic(auto, unfolding(crate::specs::Comings::views_in))]
    fn views(&self, key: IncKey) -> &[ViewId]
        ensures { result.now ≡ views_in (lookup (same_inc_key key) self.now) }
    {
        match self.by_key.get(&key) {
            None => &[],
            Some(views) => views.as_slice(),
        }
    }

    /// Where the node came from into the view, in this incarnation.
    #[tactic(auto, unfolding(crate::specs::Comings::came_from))]
    pub fn from(&self, node: u8, inc: u32, view: ViewId) -> Option<ViewId>
        ensures { result ≡ came_from self.now node inc view }
    {
        last_below(view, self.views(IncKey { node, inc }))
    }

    /// Takes out the views under the key.
    fn take(&mut self, alloc: Global, key: IncKey) -> List<ViewId>
        ensures views { result ≡ views_in (lookup (same_inc_key key) self.old) }
        ensures others { (q : IncKey) → same_inc_key key q ≡ false
            → lookup (same_inc_key q) self.new ≡ lookup (same_inc_key q) self.old }
    {
        let kept = self.by_key.swap_remove(&key);
        views_in(alloc, kept)
    }

    /// Takes one more view to the end of those under the key.
    fn push(&mut self, alloc: Global, key: IncKey, view: ViewId) -> Result<(), NoMemory>
        ensures { OnOk result ((q : IncKey) → views_in (lookup (same_inc_key q) self.new)
            ≡ with_view (same_inc_key key q) view
            (views_in (lookup (same_inc_key q) self.old))) }
    {
        let mut views = self.take(alloc, key);
        views.push(view)?;
        self.by_key.insert(key, views)?;
        Ok(())
    }

    /// The node enters the view with these members.
    pub fn note(
        &mut self,
        alloc: Global,
        node: u8,
        view: ViewId,
        members: &[Member],
    ) -> Result<(), NoMemory>
        ensures { OnOk result ((ls : List Line) → AreComings ls self.old
            → AreComings (line.In node view members.now ∷ ls) self.new) }
    {
        let inc = inc_in(node, members);
        self.push(alloc, IncKey { node, inc }, view)?;
        Ok(())
    }
}
