//! The tally of a phase.
ghost use Rattle.std.specs.Prelude.{◌≡◌, IfOk, IsTrue};
ghost use Rattle.std.specs.List.{fold};
ghost use Rattle.proposal_core.specs.Fold.{joiners_fit};
ghost use Rattle.node_state.specs.Leading.{limit_for, limit_of, fails_if, tally_for};

use group_attr::Attrs;
use proposal_core::{GroupState, Proposal, Running};
use rsct_packet::{NoMemory, ProviderId, is_among};
use std::alloc::Global;
use vote_phases::Tally;

/// The time limit of a proposal's phases, in ticks; 0 for none.
#[tactic(auto, unfolding(node_state::specs::Leading::limit_for))]
fn limit_for(attrs: &Attrs, proposal: &Proposal) -> u16
    ensures { result ≡ limit_for attrs.now proposal.now }
{
    match proposal {
        Proposal::Reflect { .. } => attrs.source_limit,
        _ => attrs.limit,
    }
}

/// The time limit of what runs.
#[tactic(auto, unfolding(node_state::specs::Leading::limit_of))]
fn limit_of(attrs: &Attrs, running: &Option<Running>) -> u16
    ensures { result ≡ limit_of attrs.now running.now }
{
    match running {
        None => 0,
        Some(run) => limit_for(attrs, &run.proposal),
    }
}

/// A voter that failed or is gone fails at once.
#[tactic(auto, unfolding(node_state::specs::Leading::fails_if))]
fn fail_if(tally: &mut Tally, failed: &[ProviderId], gone: &[ProviderId], provider: ProviderId)
    ensures { tally.new ≡ fails_if failed.now gone.now tally.old provider }
{
    if is_among(failed, provider) || is_among(gone, provider) {
        tally.fail(provider);
    }
}

/// Those of the voters that failed or are gone fail.
#[tactic(auto, using(std::proofs::lemmas::List::Sums::fold_more))]
fn fail_all(tally: &mut Tally, failed: &[ProviderId], gone: &[ProviderId], voters: &[ProviderId])
    ensures { tally.new ≡ fold (fails_if failed.now gone.now) tally.old voters.now }
{
    for p in voters {
        fail_if(tally, failed, gone, *p);
    }
}

/// The tally of the phase that runs, in which failed and gone voters have failed.
#[tactic(auto, unfolding(node_state::specs::Leading::tally_for))]
pub fn tally_for(alloc: Global, state: &GroupState, gone: &[ProviderId]) -> Result<Tally, NoMemory>
    requires { IsTrue (joiners_fit state.now) }
    ensures { IfOk result (λ t. t ≡ tally_for state.now gone.now) }
{
    let voters = state.voters(alloc)?;
    let limit = limit_of(&state.attrs, &state.running);
    let mut tally = Tally::new(voters.as_slice(), state.attrs.default_vote, limit);
    fail_all(&mut tally, state.failed.as_slice(), gone, voters.as_slice());
    Ok(tally)
}
