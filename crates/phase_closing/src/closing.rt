//! The entry that closes a phase.
ghost use Rattle.std.specs.Prelude.{◌≡◌, IfOk, Some, find, nat_le, option_copied};
ghost use Rattle.rsct_packet.specs.Providers.{same_provider};
ghost use Rattle.proposal_core.specs.Fold.{max_phases};
ghost use Rattle.vote_phases.specs.Tally.{row_in, rows_of};
ghost use Rattle.node_state.specs.declared.group.Given.{Given};
ghost use Rattle.node_state.specs.Leading.{carried_in, first_carried, value_of, closed_by, closing, closing_entry, is_phase};
ghost use Rattle.phase_closing.specs.Parts.{part_of};

use node_state::{Given, Led};
use proposal_core::{Closed, Entry, MAX_PHASES, Row, Rows, Running, Vote};
use rsct_packet::{List, NoMemory, ProviderId, Text};
use std::alloc::Global;
use vote_phases::{Tally, Voter};

/// A part of a ballot.
#[derive(Clone, Copy)]
enum Part {
    Value,
    Message,
}

/// The row of a voter; none while it has none.
fn row_of(voter: &Voter) -> Option<Row>
    ensures { result ≡ row_in (Some voter.now) }
{
    match voter.vote {
        None => None,
        Some(vote) => Some(Row {
            provider: voter.provider,
            vote,
        }),
    }
}

/// The rows of those voters that have one, in their order.
#[tactic(auto, using(crate::proofs::ClosingLaws::row_here, crate::proofs::ClosingLaws::row_none, std::proofs::lemmas::Grind::common_steps))]
fn rows_of(alloc: Global, voters: &[Voter]) -> Result<Rows, NoMemory>
    ensures { IfOk result (λ rows. rows ≡ rows_of voters.now) }
{
    let mut rows = List::new(alloc);
    for voter in voters {
        if let Some(row) = row_of(voter) {
            rows.push(row)?;
        }
    }
    Ok(rows)
}

/// The ballot of a provider.
fn ballot_of(given: &[Given], provider: ProviderId) -> Option<&Given>
    ensures { option_copied result
        ≡ find (λ (y : Given). same_provider y.provider provider) given.now }
{
    given.iter().find(|x| x.provider == provider)
}

/// What a ballot carries as this part.
fn part_of(ballot: &Given, part: Part) -> Option<&Text>
    ensures { option_copied result ≡ part_of part ballot.now }
{
    match part {
        Part::Value => ballot.value.as_ref(),
        Part::Message => ballot.message.as_ref(),
    }
}

/// What the ballot of a provider carries.
fn carried_by(given: &[Given], provider: ProviderId, part: Part) -> Option<&Text>
    ensures { option_copied result ≡ carried_in (part_of part)
        (find (λ (y : Given). same_provider y.provider provider) given.now) }
{
    match ballot_of(given, provider) {
        None => None,
        Some(x) => part_of(x, part),
    }
}

/// What the earliest ballot carries, in voters' order, that carries this part.
fn first_carried<'a>(given: &'a [Given], voters: &[Voter], part: Part) -> Option<&'a Text>
    ensures { option_copied result ≡ first_carried (part_of part) given.now voters.now }
{
    for voter in voters {
        if let Some(text) = carried_by(given, voter.provider, part) {
            return Some(text);
        }
    }
    None
}

/// A copy of a text, or none.
fn copied(alloc: Global, text: Option<&Text>) -> Result<Option<Text>, NoMemory>
    ensures { IfOk result (λ t. t ≡ option_copied text.entry) }
{
    match text {
        None => Ok(None),
        Some(text) => Ok(Some(text.copy(alloc)?)),
    }
}

/// What closes the phase, with this value.
#[tactic(auto, unfolding(node_state::specs::Leading::closed_by))]
fn closed_by(
    alloc: Global,
    led: &Led,
    tally: &Tally,
    run: &Running,
    value: Option<&Text>,
) -> Result<Closed, NoMemory>
    ensures { IfOk result (λ c. c ≡ closed_by led.now tally.now run.now
        (option_copied value.entry)) }
{
    let message = first_carried(led.given.as_slice(), tally.voters(), Part::Message);
    Ok(Closed {
        proto: run.proto,
        phase: run.phase,
        rows: rows_of(alloc, tally.voters())?,
        value: copied(alloc, value)?,
        message: copied(alloc, message)?,
    })
}

/// The value that the closing entry carries.
#[tactic(auto, unfolding(node_state::specs::Leading::value_of))]
fn value_of<'a>(led: &'a Led, tally: &Tally) -> Option<&'a Text>
    ensures { option_copied result ≡ value_of led.now tally.now }
{
    first_carried(led.given.as_slice(), tally.voters(), Part::Value)
}

/// The entry that closes the phase with this vote. CONTINUE rejects in the last phase.
#[tactic(auto, unfolding(node_state::specs::Leading::closing))]
fn closing(
    alloc: Global,
    led: &Led,
    tally: &Tally,
    run: &Running,
    vote: Vote,
) -> Result<Entry, NoMemory>
    ensures { IfOk result (λ e. e ≡ closing led.now tally.now run.now vote
        (nat_le max_phases run.now.phase)) }
{
    match vote {
        Vote::Approve => Ok(Entry::Approve(closed_by(
            alloc,
            led,
            tally,
            run,
            value_of(led, tally),
        )?)),
        Vote::Reject => Ok(Entry::Reject(closed_by(alloc, led, tally, run, None)?)),
        Vote::Continue => {
            if run.phase >= MAX_PHASES {
                Ok(Entry::Reject(closed_by(alloc, led, tally, run, None)?))
            } else {
                Ok(Entry::Phase(closed_by(alloc, led, tally, run, value_of(led, tally))?))
            }
        }
    }
}

/// The entry that closes the phase that runs, where its tally has an outcome.
#[tactic(auto, unfolding(node_state::specs::Leading::closing_entry, node_state::specs::Leading::closing_of))]
pub fn closing_entry(
    alloc: Global,
    led: &Led,
    running: &Option<Running>,
) -> Result<Option<Entry>, NoMemory>
    ensures { IfOk result (λ e. e ≡ closing_entry led.now led.now.tally running.now) }
{
    let Some(tally) = &led.tally else {
        return Ok(None);
    };
    let Some(run) = running else {
        return Ok(None);
    };
    match tally.outcome() {
        None => Ok(None),
        Some(vote) => Ok(Some(closing(alloc, led, tally, run, vote)?)),
    }
}

/// Does the entry open a next phase?
#[tactic(auto, unfolding(node_state::specs::Leading::is_phase))]
pub fn is_phase(entry: &Entry) -> bool
    ensures { result ≡ is_phase entry.now }
{
    match entry {
        Entry::Phase(_) => true,
        _ => false,
    }
}
