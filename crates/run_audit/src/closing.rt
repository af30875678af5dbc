//! The rules on what an entry meets in the state of its list: that it fits, and that it closes a phase as its rows say.
ghost use Rattle.std.specs.Prelude.{◌≡◌, ◌&&◌, List, ℕ, map, IfOk};
ghost use Rattle.rsct_packet.specs.declared.ids.ViewId.{ViewId};
ghost use Rattle.rsct_packet.specs.Providers.{same_provider};
ghost use Rattle.proposal_core.specs.declared.entry.Row.{Row};
ghost use Rattle.vote_phases.specs.Tally.{any_stands, is_continue, is_reject, tally_of, vote_of_row as vote_of_row_of};
ghost use Rattle.record_lines.specs.declared.line.Line.{Line};
ghost use Rattle.record_lines.specs.declared.line.Line.TheVariants as line;
ghost use Rattle.run_audit.specs.declared.broken.Rule.TheVariants as rule;
ghost use Rattle.run_audit.specs.Kept.{fault_of};
ghost use Rattle.run_audit.specs.Past.{last_no, state_of};
ghost use Rattle.run_audit.specs.Table.{all_same, is_put_of, is_tallied, opening_no, tally_holds};

use crate::broken::{Fault, Rule};
use crate::casts::closed_in;
use crate::states::State;
use proposal_core::{Closed, Entry, MAX_PHASES, Row, Vote};
use rsct_packet::{NoMemory, ProviderId};
use std::alloc::Global;
use vote_phases::vote_of_row;

pub fn is_same_provider(one: ProviderId, other: ProviderId) -> bool
    ensures { result ≡ same_provider one other }
{
    one == other
}

fn rejects(row: Row) -> bool
    ensures { result ≡ is_reject (vote_of_row_of row.vote) }
{
    matches!(vote_of_row(row.vote), Vote::Reject)
}

fn continues(row: Row) -> bool
    ensures { result ≡ is_continue (vote_of_row_of row.vote) }
{
    matches!(vote_of_row(row.vote), Vote::Continue)
}

fn one_rejects(rows: &[Row]) -> bool
    ensures { result ≡ any_stands is_reject rows.now }
{
    rows.iter().any(|row| rejects(*row))
}

fn one_continues(rows: &[Row]) -> bool
    ensures { result ≡ any_stands is_continue rows.now }
{
    rows.iter().any(|row| continues(*row))
}

/// How these rows come out.
fn tally_of(rows: &[Row]) -> Vote
    ensures { result ≡ tally_of rows.now }
{
    if one_rejects(rows) {
        Vote::Reject
    } else if one_continues(rows) {
        Vote::Continue
    } else {
        Vote::Approve
    }
}

/// Is the entry what comes of this vote?
#[tactic(auto, unfolding(crate::specs::Table::is_tallied))]
fn is_tallied(entry: &Entry, vote: Vote) -> bool
    ensures { result ≡ is_tallied entry.now vote }
{
    match entry {
        Entry::Approve(_) => matches!(vote, Vote::Approve),
        Entry::Phase(closed) => matches!(vote, Vote::Continue) && closed.phase < MAX_PHASES,
        Entry::Reject(closed) => match vote {
            Vote::Reject => true,
            Vote::Continue => closed.phase == MAX_PHASES,
            Vote::Approve => false,
        },
        _ => false,
    }
}

/// Are these the rows of these voters, in their order?
#[tactic(auto, unfolding(crate::specs::Table::all_same))]
fn are_of(rows: &[Row], voters: &[ProviderId]) -> bool
    ensures { result
        ≡ all_same same_provider (map (λ (r : Row). r.provider) rows.now) voters.now }
{
    match rows {
        [] => match voters {
            [] => true,
            [_, ..] => false,
        },
        [row, rows @ ..] => match voters {
            [] => false,
            [voter, voters @ ..] => {
                is_same_provider(row.provider, *voter) && are_of(rows, voters)
            }
        },
    }
}

/// Does the entry close its phase as the state and its rows say?
#[tactic(auto, unfolding(crate::specs::Table::tally_holds))]
fn is_right(alloc: Global, state: &State, entry: &Entry, closed: &Closed) -> Result<bool, NoMemory>
    ensures { IfOk result (λ b. b ≡ tally_holds state.now entry.now closed.now) }
{
    let voters = state.voters(alloc)?;
    let rows = closed.rows.as_slice();
    Ok(are_of(rows, voters.as_slice()) && is_tallied(entry, tally_of(rows)))
}

/// What the table says of the rule on entries that fit: nothing where a put of the entry keeps it. The state is the node's,
/// and the line that of its last put into the list.
#[tactic(auto, using(crate::proofs::CloseLaws::entry_fits, crate::proofs::CloseLaws::entry_unfit))]
pub fn fits_fault(state: &State, entry: &Entry, with_line: Option<u32>) -> Option<Fault>
    ensures { (ls : List Line) (n : ℕ) (v : ViewId) (g : List ℕ) (i : ℕ)
        → state.now ≡ state_of n v g ls → with_line ≡ last_no (is_put_of n v g) ls
        → result ≡ fault_of rule.Fits (line.Put n v g i entry.now) ls }
{
    if state.fits(entry) {
        None
    } else {
        Some(Fault {
            rule: Rule::Fits,
            with_line,
        })
    }
}

/// What the table says of the rule on how phases come out: nothing where a put of the entry keeps it. The state is the
/// node's, and the line that by which the phase runs that the entry closes.
#[tactic(auto, using(crate::proofs::CloseLaws::closes_none, crate::proofs::CloseLaws::closes_well, crate::proofs::CloseLaws::closes_ill))]
pub fn tally_fault(
    alloc: Global,
    state: &State,
    entry: &Entry,
    with_line: Option<u32>,
) -> Result<Option<Fault>, NoMemory>
    ensures { IfOk result (λ x. (ls : List Line) (n : ℕ) (v : ViewId) (g : List ℕ) (i : ℕ)
        → state.now ≡ state_of n v g ls → with_line ≡ opening_no n v g ls
        → x ≡ fault_of rule.Tally (line.Put n v g i entry.now) ls) }
{
    match closed_in(entry) {
        None => Ok(None),
        Some(closed) => {
            if is_right(alloc, state, entry, closed)? {
                Ok(None)
            } else {
                Ok(Some(Fault {
                    rule: Rule::Tally,
                    with_line,
                }))
            }
        }
    }
}
