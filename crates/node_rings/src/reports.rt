//! The rows of nodes: they are taken, and sent to all nodes of the rings.
ghost use Rattle.std.specs.Prelude.{◌≡◌, ◌++◌, ◌==◌, IfOk, OnOk, filter, flat_map, fold, not};
ghost use Rattle.rsct_packet.specs.Mask.{nodes_of};
ghost use Rattle.node_reach.specs.Reach.{row_of};
ghost use Rattle.node_groups.specs.Keeps.{Keeps};
ghost use Rattle.node_state.specs.declared.packet.Body.TheVariants as body;
ghost use Rattle.node_state.specs.Sending.{send_all};
ghost use Rattle.node_state.specs.Ticks.{report_of, take_report, send_report, row_listed, row_reported};

use node_reach::{Reach, ReachRow};
use node_sending::send;
use node_state::{Body, Core, Report, ReportRow};
use rsct_packet::{List, Mask, NODES, NoMemory};
use std::alloc::Global;

/// Takes each row.
#[tactic(auto, unfolding(node_state::specs::Ticks::row_reported), using(std::proofs::lemmas::List::Sums::fold_more))]
fn take_rows(reach: &mut Reach, rows: &[ReportRow])
    ensures { reach.new ≡ fold row_reported reach.old rows.now }
{
    for row in rows {
        let _ = reach.report(row.node, row.inc, row.seq, row.mask);
    }
}

/// REPORT: each row is taken.
#[tactic(auto, unfolding(node_state::specs::Ticks::take_report))]
pub fn take_report(core: &mut Core, rows: &[ReportRow])
    ensures rule { core.new ≡ take_report core.old rows.now }
    ensures keeps { Keeps core.old core.new }
{
    take_rows(&mut core.reach, rows);
}

/// Puts the kept row of a node, where there is one, at the end.
#[tactic(auto, unfolding(node_state::specs::Ticks::row_listed))]
fn push_row(rows: &mut Report, node: u8, row: Option<ReachRow>) -> Result<(), NoMemory>
    ensures { OnOk result (rows.new ≡ rows.old ++ row_listed node row) }
{
    match row {
        None => Ok(()),
        Some(row) => rows.push(ReportRow {
            node,
            inc: row.inc,
            seq: row.seq,
            mask: row.mask,
        }),
    }
}

/// The kept rows of these nodes.
#[tactic(auto, using(std::proofs::lemmas::Grind::common_steps))]
fn rows_of(alloc: Global, reach: &Reach, nodes: &[u8]) -> Result<Report, NoMemory>
    ensures { IfOk result (λ l. l ≡ flat_map (λ n. row_listed n (row_of reach.now n)) nodes.now) }
{
    let mut rows = List::new(alloc);
    for n in nodes {
        push_row(&mut rows, *n, reach.row(*n))?;
    }
    Ok(rows)
}

/// All kept rows, nodes ascending.
#[tactic(auto, unfolding(node_state::specs::Ticks::report_of))]
fn report_of(alloc: Global, reach: &Reach) -> Result<Report, NoMemory>
    ensures { IfOk result (λ l. l ≡ report_of reach.now) }
{
    rows_of(alloc, reach, &NODES)
}

/// The nodes of a set but for one, ascending.
#[tactic(auto, unfolding(rsct_packet::specs::Mask::nodes_of))]
fn others_in(alloc: Global, me: u8, mask: Mask) -> Result<Vec<u8>, NoMemory>
    ensures { IfOk result (λ v. v.items ≡ filter (λ n. not (n == me)) (nodes_of mask)) }
{
    Ok(
        NODES
            .iter()
            .copied()
            .filter(|n| mask.has(*n))
            .filter(|n| *n != me)
            .collect(alloc)?,
    )
}

/// Sends these rows to each of these nodes.
#[tactic(auto, unfolding(node_state::specs::Sending::send_all), using(std::proofs::lemmas::List::Sums::fold_more))]
fn send_rows(
    core: &mut Core,
    alloc: Global,
    nodes: &[u8],
    rows: &[ReportRow],
) -> Result<(), NoMemory>
    ensures { OnOk result (core.new ≡ send_all core.old nodes.now (body.Report rows.now)) }
{
    for n in nodes {
        let rows = List::of(alloc, rows)?;
        send(core, *n, Body::Report { rows })?;
    }
    Ok(())
}

/// The own row becomes these nodes, and all rows go to the others of them.
#[tactic(auto, unfolding(node_state::specs::Ticks::send_report))]
pub fn send_report(core: &mut Core, alloc: Global, mask: Mask) -> Result<(), NoMemory>
    ensures rule { OnOk result (core.new ≡ send_report core.old mask) }
    ensures keeps { OnOk result (Keeps core.old core.new) }
{
    core.reach.set_own(mask);
    let rows = report_of(alloc, &core.reach)?;
    let nodes = others_in(alloc, core.views.me, mask)?;
    send_rows(core, alloc, nodes.as_slice(), rows.as_slice())
}
