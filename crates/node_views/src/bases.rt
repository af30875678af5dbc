//! What the groups begin with in the view of an install.
ghost use Rattle.std.specs.Prelude.{◌≡◌, ◌++◌, ◌∷◌, [], OnOk, IfOk, IsTrue, map};
ghost use Rattle.std.specs.List.{list_all};
ghost use Rattle.rsct_packet.specs.Format.{EachFits};
ghost use Rattle.view_state.specs.Tails.{HasTails};
ghost use Rattle.view_state.specs.Bases.{bases_for, bases_of};
ghost use Rattle.node_state.specs.Applying.{base_row, base_leader};
ghost use Rattle.node_views.specs.Carried.{is_tail, are_tails, IsSound};

use name_server::{Leader, Leaders};
use node_groups::new_row;
use node_state::{GroupRow, Groups, Table};
use proposal_core::GroupList;
use rsct_packet::{List, NoMemory};
use std::alloc::Global;
use view_bases::name_after;
use view_state::{Base, Install, Part, Source};

/// Can it be the end of a list?
fn is_tail(part: &Part) -> bool
    ensures { result ≡ is_tail part.now }
{
    part.len() <= u128::from(u32::MAX) && part.state.do_joiners_fit()
}

fn are_tails(source: &Source) -> bool
    ensures { result ≡ are_tails source.now }
{
    source.parts.as_slice().iter().all(|part| is_tail(part))
}

fn are_all_tails(sources: &[Source]) -> bool
    ensures { result ≡ list_all are_tails sources.now }
{
    sources.iter().all(|source| are_tails(source))
}

/// Can its parts be the ends of lists?
#[tactic(auto, using(crate::proofs::BaseLaws::tails_are_had))]
fn has_tails(install: &Install) -> bool
    ensures { IsTrue result → HasTails install.now }
{
    are_all_tails(install.sources.as_slice())
}

/// Adds the base of a group, where somebody brings anything of it.
#[tactic(auto, unfolding(view_state::specs::Bases::bases_for))]
fn push_base(
    alloc: Global,
    bases: &mut List<Base>,
    install: &Install,
    group: &[u8],
) -> Result<(), NoMemory>
    requires { HasTails install.now }
    ensures { OnOk result (bases.new ≡ bases.old ++ bases_for install.now (group.now ∷ [])) }
{
    if let Some(base) = view_bases::base_of(install, alloc, group)? {
        bases.push(base)?;
    }
    Ok(())
}

/// The bases of an install whose parts are ends of lists.
#[tactic(auto, using(crate::proofs::BaseLaws::bases_begin, crate::proofs::BaseLaws::bases_more, crate::proofs::BaseLaws::bases_end, std::proofs::lemmas::Grind::common_steps))]
fn bases_in(alloc: Global, install: &Install) -> Result<List<Base>, NoMemory>
    requires { HasTails install.now }
    ensures { IfOk result (λ l. l ≡ bases_of install.now) }
{
    let mut bases = List::new(alloc);
    let mut last: Option<&[u8]> = None;
    for k in 0..usize::MAX {
        let Some(group) = name_after(install, last) else {
            return Ok(bases);
        };
        push_base(alloc, &mut bases, install, group)?;
        last = Some(group);
    }
    Err(NoMemory)
}

/// What the groups begin with, in name order. Where a part cannot be the end of a list, which no part is that was
/// read or gathered, the types of a base have no room for it: that is refused as if memory had run out.
#[tactic(auto, using(crate::proofs::BaseLaws::bases_are_sound))]
pub(crate) fn bases_of(alloc: Global, install: &Install) -> Result<List<Base>, NoMemory>
    ensures value { IfOk result (λ l. l ≡ bases_of install.now) }
    ensures sound { IfOk result (λ l. EachFits IsSound l) }
{
    if !has_tails(install) {
        return Err(NoMemory);
    }
    bases_in(alloc, install)
}

/// The row of a group that begins from its base.
#[tactic(auto, unfolding(node_state::specs::Applying::base_row))]
fn base_row(alloc: Global, base: &Base) -> Result<GroupRow, NoMemory>
    requires { IsSound base.now }
    ensures { IfOk result (λ row. row ≡ base_row base.now) }
{
    let mut row = new_row(alloc, &base.name)?;
    row.list = Some(GroupList::new(alloc, base.state.copy(alloc)?));
    row.leader = Some(base.leader);
    Ok(row)
}

/// The rows of the groups, in name order.
#[tactic(auto, using(crate::proofs::BaseLaws::sound_at, std::proofs::lemmas::List::map_more, std::proofs::lemmas::Grind::common_steps))]
pub(crate) fn base_rows(alloc: Global, bases: &[Base]) -> Result<Groups, NoMemory>
    requires { EachFits IsSound bases.now }
    ensures { IfOk result (λ l. l ≡ map base_row bases.now) }
{
    let mut rows = Vec::new(alloc);
    for base in bases {
        rows.push(base_row(alloc, base)?)?;
    }
    Ok(Table { rows })
}

#[tactic(auto, unfolding(node_state::specs::Applying::base_leader))]
fn base_leader(alloc: Global, base: &Base) -> Result<Leader, NoMemory>
    ensures { IfOk result (λ leader. leader ≡ base_leader base.now) }
{
    Ok(Leader {
        group: base.name.copy(alloc)?,
        node: base.leader,
    })
}

/// Who leads the groups.
#[tactic(auto, using(std::proofs::lemmas::List::map_more, std::proofs::lemmas::Grind::common_steps))]
pub(crate) fn base_leaders(alloc: Global, bases: &[Base]) -> Result<Leaders, NoMemory>
    ensures { IfOk result (λ l. l ≡ map base_leader bases.now) }
{
    let mut leaders = List::new(alloc);
    for base in bases {
        leaders.push(base_leader(alloc, base)?)?;
    }
    Ok(leaders)
}
