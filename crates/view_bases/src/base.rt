//! What a group begins with in the view of an install.
ghost use Rattle.std.specs.Prelude.{◌≡◌, ◌≤◌, not, filter, find, length, IfOk, IfSome, IsTrue};
ghost use Rattle.std.specs.Option.{option_map};
ghost use Rattle.rsct_packet.specs.Providers.{among, AreProviders};
ghost use Rattle.proposal_core.specs.Fold.{joiners_fit, present};
ghost use Rattle.view_state.specs.Tails.{IsTail, HasTails};
ghost use Rattle.view_state.specs.Bases.{is_live_from, is_candidate, candidates, beats, live_count, leader_from, base_from, base_of, BaseIs};
ghost use Rattle.rsct_packet.specs.Lists.{best_of};
ghost use Rattle.view_state.specs.Codec.{views_ascend};
ghost use Rattle.view_bases.specs.Best.{best_step, best_after, winner_in, found_in};

use proposal_core::GroupState;
use rsct_packet::{NoMemory, ProviderId, Providers, is_among};
use std::alloc::Global;
use view_state::{Base, Install, Part, Source};

/// An old view's list of a group, and how many of its providers are live.
#[derive(Drop)]
struct Winner<'a> {
    live: usize,
    source: &'a Source,
    part: &'a Part,
}

/// The members, then the running joiners.
#[tactic(auto, using(crate::proofs::Failing::present_are_providers))]
fn present(alloc: Global, state: &GroupState) -> Result<Vec<ProviderId>, NoMemory>
    requires { IsTrue (joiners_fit state.now) }
    ensures value { IfOk result (λ v. v.items ≡ present state.now) }
    ensures providers { IfOk result (λ _. AreProviders (present state.now)) }
{
    let mut out = Vec::from_slice(alloc, state.members.as_slice())?;
    out.extend_from_slice(state.joiners())?;
    Ok(out)
}

/// Has it members, or a running protocol, and is it of this group?
#[tactic(auto, unfolding(view_state::specs::Bases::is_candidate))]
fn is_candidate(group: &[u8], part: &Part) -> bool
    ensures { result ≡ is_candidate group.now part.now }
{
    part.name.bytes() == group && (part.state.members.len() > 0 || part.state.running.is_some())
}

/// Of the best so far and a later one, which has at least as many live providers, or else less.
fn better<'a>(best: Option<Winner<'a>>, new: Winner<'a>) -> Winner<'a>
    ensures { Some (winner_in result) ≡ best_step (option_map winner_in best.entry)
        (winner_in new.entry) }
{
    match best {
        Some(best) if new.live < best.live => best,
        _ => new,
    }
}

/// Did the provider's node, which is a member with the provider's incarnation, come from that view?
#[tactic(auto, unfolding(view_state::specs::Bases::is_live_from))]
fn is_live_from(install: &Install, source: &Source, provider: ProviderId) -> bool
    ensures { result ≡ is_live_from install.now source.now provider }
{
    install.has_member(provider.node, provider.inc) && source.nodes.has(provider.node)
}

#[tactic(auto, using(crate::proofs::Winning::count_is_length, crate::proofs::Failing::filter_no_more))]
fn count_live(install: &Install, source: &Source, providers: &[ProviderId]) -> usize
    ensures value { result ≡ length (filter (is_live_from install.now source.now) providers.now) }
    ensures few { result ≤ length providers.now }
{
    providers
        .iter()
        .filter(|p| is_live_from(install, source, **p))
        .count()
}

/// How many of those present in the part's state are live.
#[tactic(auto, using(crate::proofs::Winning::live_both, std::proofs::lemmas::Grind::common_steps))]
fn live(install: &Install, source: &Source, part: &Part) -> usize
    ensures { result ≡ live_count install.now source.now part.now }
{
    let members = count_live(install, source, part.state.members.as_slice());
    members + count_live(install, source, part.state.joiners())
}

/// The best of a source's lists of the group, and of the best so far.
#[tactic(auto, unfolding(view_state::specs::Bases::candidate_of), using(crate::proofs::Winning::found_taken, crate::proofs::Winning::found_left, std::proofs::lemmas::Grind::common_steps))]
fn best_in<'a>(
    install: &Install,
    group: &[u8],
    source: &'a Source,
    best: Option<Winner<'a>>,
) -> Option<Winner<'a>>
    ensures { option_map winner_in result ≡ best_after (option_map winner_in best.entry)
        (found_in install.now group.now source.now source.now.parts) }
{
    let mut best = best;
    for part in source.parts.as_slice() {
        if is_candidate(group, part) {
            let live = live(install, source, part);
            best = Some(better(best, Winner { live, source, part }));
        }
    }
    best
}

#[tactic(auto, using(crate::proofs::Winning::candidates_taken, crate::proofs::Winning::none_yet, crate::proofs::Winning::best_is, std::proofs::lemmas::Grind::common_steps))]
fn best_alone<'a>(install: &'a Install, group: &[u8]) -> Option<Winner<'a>>
    ensures { option_map winner_in result
        ≡ best_of beats (candidates install.now group.now install.now.sources) }
{
    let mut best = None;
    for source in install.sources.as_slice() {
        best = best_in(install, group, source, best);
    }
    best
}

/// The list of the group with the most live providers, of equal ones that of the greatest view.
#[tactic(auto, using(crate::proofs::Bases::winner_is_named))]
fn best<'a>(install: &'a Install, group: &[u8]) -> Option<Winner<'a>>
    ensures value { option_map winner_in result ≡ best_of beats
        (candidates install.now group.now install.now.sources) }
    ensures tail { HasTails install.now → IfSome result (λ w. IsTail w.part.now) }
    ensures named { IfSome result (λ w. w.part.now.name ≡ group.now) }
{
    best_alone(install, group)
}

fn lost(
    install: &Install,
    alloc: Global,
    source: &Source,
    providers: &[ProviderId],
) -> Result<Vec<ProviderId>, NoMemory>
    ensures { IfOk result (λ v. v.items ≡ filter
        (λ p. not (is_live_from install.now source.now p)) providers.now) }
{
    Ok(
        providers
            .iter()
            .copied()
            .filter(|p| !is_live_from(install, source, *p))
            .collect(alloc)?,
    )
}

/// The members, then the running joiners, that are not live.
#[tactic(auto, using(crate::proofs::Failing::filter_are_providers, std::proofs::lemmas::Grind::common_steps))]
fn failed(
    install: &Install,
    alloc: Global,
    source: &Source,
    state: &GroupState,
) -> Result<Providers, NoMemory>
    requires { IsTrue (joiners_fit state.now) }
    ensures { IfOk result (λ v. v ≡ filter (λ p. not (is_live_from install.now source.now p))
        (present state.now)) }
{
    let present = present(alloc, state)?;
    let lost = lost(install, alloc, source, present.as_slice())?;
    Providers::of(alloc, lost.as_slice())
}

#[tactic(auto, unfolding(view_state::specs::Bases::base_from))]
fn base_from(install: &Install, alloc: Global, winner: &Winner) -> Result<Base, NoMemory>
    requires { IsTail winner.now.part.now }
    ensures { IfOk result
        (λ b. b ≡ base_from install.now winner.now.part.now.name (winner_in winner.now)) }
{
    let failed = failed(install, alloc, winner.source, &winner.part.state)?;
    let leader = first_not_in(
        &failed,
        winner.part.state.members.as_slice(),
        install.view.coord,
    );
    let name = winner.part.name.copy(alloc)?;
    let mut state = winner.part.state.copy(alloc)?;
    state.failed = failed;
    Ok(Base {
        name,
        state,
        from: winner.source.view,
        len: winner.part.len() as u32,
        leader,
    })
}

#[tactic(auto, unfolding(view_state::specs::Bases::base_of))]
fn base_alone(install: &Install, alloc: Global, group: &[u8]) -> Result<Option<Base>, NoMemory>
    requires { HasTails install.now }
    ensures { IfOk result (λ o. o ≡ base_of install.now group.now) }
{
    match best(install, group) {
        None => Ok(None),
        Some(w) => Ok(Some(base_from(install, alloc, &w)?)),
    }
}

/// What a group begins with in the view of this install, which carries parts of lists. `Ok(None)` exactly where
/// nobody brings anything of it.
pub fn base_of(install: &Install, alloc: Global, group: &[u8]) -> Result<Option<Base>, NoMemory>
    requires { HasTails install.now }
    ensures value { IfOk result (λ o. o ≡ base_of install.now group.now) }
    ensures wins { IsTrue (views_ascend install.now.sources)
        → IfOk result (BaseIs install.now group.now) }
{
    base_alone(install, alloc, group)
}

/// The first of these that is not in the list.
fn find_not_in(failed: &Providers, providers: &[ProviderId]) -> Option<ProviderId>
    ensures { result ≡ find (λ p. not (among failed.now p)) providers.now }
{
    providers
        .iter()
        .copied()
        .find(|p| !is_among(failed.as_slice(), *p))
}

/// The node of the first of these that is not in the list, or else the other node.
#[tactic(auto, using(crate::proofs::Bases::leader_found, crate::proofs::Bases::leader_none))]
fn first_not_in(failed: &Providers, providers: &[ProviderId], other: u8) -> u8
    ensures { result ≡ leader_from other failed.now providers.now }
{
    match find_not_in(failed, providers) {
        Some(p) => p.node,
        None => other,
    }
}
