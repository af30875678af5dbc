//! The lines that a status has, as a reply carries them and as they are recorded.
ghost use Rattle.std.specs.Prelude.{◌≡◌, ◌++◌, ◌∷◌, [], IfOk, OnOk, codes, filter, flat_map, is_some, map};
ghost use Rattle.proposal_core.specs.Lists.{state_in};
ghost use Rattle.node_state.specs.declared.happened.Happened.TheVariants as happened;
ghost use Rattle.node_state.specs.State.{held_rows};
ghost use Rattle.node_state.specs.Status.{ring_line, view_line, group_line, vote_lines, status_of, status_text};

use crate::lines;
use adapter_ring::Ring;
use node_state::{Core, GroupRow, Happened, Records, What};
use rsct_packet::{List, NoMemory};
use std::alloc::Global;
use value_words::put_text;

/// A line for each ring.
#[tactic(auto, using(std::proofs::lemmas::List::map_more, std::proofs::lemmas::Grind::common_steps))]
fn ring_lines(alloc: Global, rings: &[Ring]) -> Result<List<List<u8>>, NoMemory>
    ensures { IfOk result (λ ls. ls ≡ map ring_line rings.now) }
{
    let mut out = List::new(alloc);
    for ring in rings {
        out.push(lines::ring_line(alloc, ring)?)?;
    }
    Ok(out)
}

/// The one line of the view.
fn view_lines(core: &Core, alloc: Global) -> Result<List<List<u8>>, NoMemory>
    ensures { IfOk result (λ ls. ls ≡ view_line core.now ∷ []) }
{
    let mut out = List::new(alloc);
    out.push(lines::view_line(core, alloc)?)?;
    Ok(out)
}

/// A line for each group whose list the node holds.
#[tactic(auto, unfolding(node_state::specs::State::held_rows), using(std::proofs::lemmas::List::map_more, std::proofs::lemmas::List::Elements::filter_more, std::proofs::lemmas::Grind::common_steps))]
fn group_lines(core: &Core, alloc: Global) -> Result<List<List<u8>>, NoMemory>
    ensures { IfOk result (λ ls. ls ≡ map (group_line core.now) (held_rows core.now)) }
{
    let mut out = List::new(alloc);
    for row in &core.groups.rows {
        if let Some(list) = &row.list {
            out.push(lines::group_line(core, alloc, row, list)?)?;
        }
    }
    Ok(out)
}

/// The line of the protocol that runs in the group of a row, if one does, and the node holds its list.
#[tactic(auto, unfolding(node_state::specs::Status::vote_lines))]
fn push_vote_line(
    core: &Core,
    alloc: Global,
    row: &GroupRow,
    out: &mut List<List<u8>>,
) -> Result<(), NoMemory>
    ensures { OnOk result (out.new ≡ out.old ++ flat_map
        (λ row. vote_lines core.now row (state_in row.list).running)
        (filter (λ row. is_some row.list) (row.now ∷ []))) }
{
    match &row.list {
        None => Ok(()),
        Some(list) => match &list.state().running {
            None => Ok(()),
            Some(run) => out.push(lines::vote_line(core, alloc, row, run)?),
        },
    }
}

/// A line for each protocol that runs in the group of one of these rows, where the node holds its list.
fn vote_lines(core: &Core, alloc: Global, rows: &[GroupRow]) -> Result<List<List<u8>>, NoMemory>
    ensures { IfOk result (λ ls. ls ≡ flat_map (λ row. vote_lines core.now row
        (state_in row.list).running) (filter (λ row. is_some row.list) rows.now)) }
{
    let mut out = List::new(alloc);
    for row in rows {
        push_vote_line(core, alloc, row, &mut out)?;
    }
    Ok(out)
}

/// The lines of a status.
#[tactic(auto, unfolding(node_state::specs::Status::status_of, node_state::specs::State::held_rows))]
fn status_of(core: &Core, alloc: Global, what: What) -> Result<List<List<u8>>, NoMemory>
    ensures { IfOk result (λ ls. ls ≡ status_of core.now what) }
{
    match what {
        What::Hats => ring_lines(alloc, core.rings.as_slice()),
        What::Hagsns => view_lines(core, alloc),
        What::Hagsgr => group_lines(core, alloc),
        What::Hagsvote => vote_lines(core, alloc, core.groups.rows.as_slice()),
    }
}

/// The lines, each with a line feed behind it.
#[tactic(auto, using(std::proofs::lemmas::Grind::common_steps))]
fn text_of(alloc: Global, ls: &[List<u8>]) -> Result<Vec<u8>, NoMemory>
    ensures { IfOk result (λ v. v.items ≡ flat_map (λ line. line ++ codes "\n") ls.now) }
{
    let mut out = Vec::new(alloc);
    for line in ls {
        put_text(&mut out, line.as_slice())?;
        put_text(&mut out, b"\n")?;
    }
    Ok(out)
}

/// The text of a status, as a reply carries it.
#[tactic(auto, unfolding(node_state::specs::Status::status_text))]
pub fn status_text(core: &Core, alloc: Global, what: What) -> Result<List<u8>, NoMemory>
    ensures { IfOk result (λ t. t ≡ status_text core.now what) }
{
    let ls = status_of(core, alloc, what)?;
    let text = text_of(alloc, ls.as_slice())?;
    List::of(alloc, text.as_slice())
}

/// A record for each line.
#[tactic(auto, using(std::proofs::lemmas::List::map_more, std::proofs::lemmas::Grind::common_steps))]
fn record_lines(node: u8, ls: List<List<u8>>, out: &mut Records) -> Result<(), NoMemory>
    ensures { OnOk result (out.new ≡ out.old ++ map (happened.Shown node) ls) }
{
    for line in ls.into_items() {
        out.push(Happened::Shown { node, line })?;
    }
    Ok(())
}

/// A record for each line of a status.
pub fn record_status(
    core: &Core,
    alloc: Global,
    what: What,
    out: &mut Records,
) -> Result<(), NoMemory>
    ensures { OnOk result (out.new ≡ out.old ++ map (happened.Shown core.now.views.me)
        (status_of core.now what)) }
{
    let ls = status_of(core, alloc, what)?;
    record_lines(core.views.me, ls, out)
}
