//! What a leader keeps of the members and of the requesters of a group, in the order in which they came.
ghost use Rattle.std.specs.Prelude.{◌≡◌, OnOk, find, option_copied};
ghost use Rattle.std.specs.List.{position};
ghost use Rattle.node_state.specs.declared.group.Acked.{Acked};
ghost use Rattle.node_state.specs.declared.group.Decision.{Decision};
ghost use Rattle.node_state.specs.State.{acked_from, acked_raised, decisions_with};
ghost use Rattle.node_groups.specs.Places.{is_acked_by, is_decision_on};

use node_state::{Acked, Decision, Table};
use rsct_packet::{NoMemory, ProviderId};

fn acked_of(rows: &[Acked], node: u8) -> Option<&Acked>
    ensures { option_copied result ≡ find (is_acked_by node) rows.now }
{
    rows.iter().find(|a| a.node == node)
}

fn acked_place(rows: &[Acked], node: u8) -> Option<usize>
    ensures { result ≡ position (is_acked_by node) rows.now }
{
    rows.iter().position(|a| a.node == node)
}

fn decision_place(rows: &[Decision], provider: ProviderId) -> Option<usize>
    ensures { result ≡ position (is_decision_on provider) rows.now }
{
    rows.iter().position(|d| d.provider == provider)
}

/// The length that a member has acknowledged; 0 where none is noted.
#[tactic(auto, using(crate::proofs::TableLaws::acked_found, std::proofs::lemmas::Grind::common_steps))]
pub fn acked_len(table: &Table<Acked>, node: u8) -> u32
    ensures { result ≡ acked_from node table.now }
{
    match acked_of(table.rows.as_slice(), node) {
        None => 0,
        Some(a) => a.len,
    }
}

/// Raises the length that a member has acknowledged.
#[tactic(auto, using(rsct_packet::proofs::SearchLaws::place_is_position, crate::proofs::TableLaws::acked_set, crate::proofs::TableLaws::acked_added, rsct_packet::proofs::SearchLaws::place_is_in, std::proofs::lemmas::Grind::common_steps))]
pub fn raise_acked(table: &mut Table<Acked>, node: u8, len: u32) -> Result<(), NoMemory>
    ensures { OnOk result (table.new ≡ acked_raised node len table.old) }
{
    match acked_place(table.rows.as_slice(), node) {
        None => table.rows.push(Acked { node, len })?,
        Some(i) => {
            let old = table.rows[i].len;
            table.rows[i] = Acked {
                node,
                len: old.max(len),
            };
        }
    }
    Ok(())
}

/// The last decision on a requester.
pub fn decision_on(table: &Table<Decision>, provider: ProviderId) -> Option<&Decision>
    ensures { option_copied result ≡ find (is_decision_on provider) table.now }
{
    table.rows.iter().find(|d| d.provider == provider)
}

/// Keeps a decision in place of the last one on its requester.
#[tactic(auto, using(rsct_packet::proofs::SearchLaws::place_is_position, crate::proofs::TableLaws::decision_set, crate::proofs::TableLaws::decision_added, rsct_packet::proofs::SearchLaws::place_is_in, std::proofs::lemmas::Grind::common_steps))]
pub fn keep_decision(table: &mut Table<Decision>, decision: Decision) -> Result<(), NoMemory>
    ensures { OnOk result (table.new ≡ decisions_with decision table.old) }
{
    match decision_place(table.rows.as_slice(), decision.provider) {
        None => table.rows.push(decision)?,
        Some(i) => table.rows[i] = decision,
    }
    Ok(())
}
