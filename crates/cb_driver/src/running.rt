//! A run: the nodes are started, a script is played, and the nodes are finished and reported.
ghost use Rattle.std.specs.Prelude.{◌≡◌, ◌⊎◌, ◌≤◌, ◌++◌, ℕ, List, [], true, false, length, IfOk, IfErr, OnOk, IsOkUnless};
ghost use Rattle.std.specs.Io.KnownBytes.{Appends};
ghost use Rattle.std.specs.List.{AllZip};
ghost use Rattle.cb_control.specs.declared.ending.Halt.TheVariants.{Memory, WriteFailed};
ghost use Rattle.cb_control.specs.Ending.{HasCause};
ghost use Rattle.cb_driver.specs.declared.report.NodeReport.{NodeReport};
ghost use Rattle.cb_control.specs.Outcomes.{LacksOrFails, status_of};
ghost use Rattle.cb_driver.specs.Summary.{AreOfAll, AreReported, RunsKnown, TellsReport, not_started_text, reports_text, tally_reported};

use crate::auditing::audit_end;
use crate::nodes::{Nodes, RunSizes};
use crate::playing::{Played, play};
use crate::report::{NodeReport, print_reports, tally_reported};
use crate::stats::print_stats;
use cb_base::{Seed, Sink, Source};
use cb_control::{Halt, Host, Status, Tally, write_all};
use cb_node::{NodeEnd, NodeFault};
use std::alloc::Global;
use std::sync::Wait;

/// What a run is asked for.
#[derive(Clone, Copy, PartialEq, Eq)]
pub struct RunOrders {
    /// How many nodes and threads it has.
    pub sizes: RunSizes,
    /// Whether it also prints what each connection moved.
    pub stats: bool,
}

/// Runs nodes over loopback sockets by a script, one line after another, and prints at the end how
/// each node stands. Returns the exit status: 0; 2 if a node refused something; 3 if a line can't
/// be read, or a slot, a socket, a wait or an audit failed. The nodes' tables have this seed, which
/// changes no result.
///
/// Fails if memory runs out, a read or a write fails, or there are too many lines.
pub fn run_nodes<N: Host, R: Source, W: Sink>(
    rt: N,
    alloc: Global,
    seed: Seed,
    orders: RunOrders,
    reader: &mut R,
    writer: &mut W,
) -> Result<u8, Halt>
    requires nodes { (1 ≤ orders.sizes.nodes) × (orders.sizes.nodes ≤ 8) }
    requires handlers { (1 ≤ orders.sizes.handlers) × (orders.sizes.handlers ≤ 16) }
    // For a reader and a writer whose bytes are known: the status, and what is printed for the
    // whole input.
    ensures runs { IfOk result (RunsKnown (AreReported N) orders.sizes.nodes orders.stats
        (R.remaining reader.old) (W.contents writer.old) (W.contents writer.new)) }
    // For every reader and writer: the status, and why a run ends early.
    ensures status { IfOk result (λ status. (status ≡ 0) ⊎ ((status ≡ 2) ⊎ (status ≡ 3))) }
    ensures halts { IfErr result
        (HasCause (R.remaining reader.old) (R.has_failed reader.new) (W.has_failed writer.new)) }
{
    let mut nodes = match Nodes::start(rt, alloc, orders.sizes, seed) {
        Ok(nodes) => nodes,
        Err(NodeFault::Memory) => return Err(Halt::Memory),
        Err(_) => return refuse(writer),
    };
    let played = play(alloc, &mut nodes, orders.sizes.nodes, reader, writer);
    let ends = nodes.finish();
    match played? {
        Played::Whole(tally) => {
            conclude(&rt, alloc, ends.as_slice(), orders.stats, tally, writer)
        }
        Played::Unreadable => Ok(Status::RunFailed.code()),
    }
}

/// Prints that the nodes couldn't be started. Returns the exit status.
fn refuse<W: Sink>(writer: &mut W) -> Result<u8, Halt>
    ensures text { OnOk result
        (Appends (W.contents writer.old) (W.contents writer.new) not_started_text) }
    ensures status { IfOk result (λ status. status ≡ 3) }
    ensures err { IfErr result
        (λ halt. (halt ≡ WriteFailed) × (W.has_failed writer.new ≡ true)) }
{
    write_all(writer, b"0 io\n")?;
    Ok(Status::RunFailed.code())
}

/// Prints how each node stands. Returns the exit status.
fn conclude<N: Wait + Drop, W: Sink>(
    rt: &N,
    alloc: Global,
    ends: &[NodeEnd<N>],
    stats: bool,
    tally: Tally,
    writer: &mut W,
) -> Result<u8, Halt>
    requires few { length ends.now ≤ 8 }
    ensures printed { IfOk result (λ status. (reports : List NodeReport) × (rest : List ℕ)
        × AreOfAll (length ends.now) reports
        × AllZip (λ end report. TellsReport end.desks.items report) ends.now reports
        × (stats ≡ false → rest ≡ [])
        × Appends (W.contents writer.old) (W.contents writer.new) (reports_text reports ++ rest)
        × (status ≡ status_of (tally_reported tally reports))) }
    ensures err { IfErr result (LacksOrFails (W.has_failed writer.new)) }
{
    let reports = reports_of(rt, alloc, ends)?;
    tell_reports(alloc, reports.as_slice(), writer)?;
    if stats {
        print_stats(alloc, ends, writer)?;
    }
    Ok(tally_reported(tally, reports.as_slice()).status())
}

/// Prints the lines of all nodes.
fn tell_reports<W: Sink>(alloc: Global, reports: &[NodeReport], writer: &mut W) -> Result<(), Halt>
    ensures text { OnOk result
        (Appends (W.contents writer.old) (W.contents writer.new) (reports_text reports.now)) }
    ensures err { IfErr result (LacksOrFails (W.has_failed writer.new)) }
{
    let mut text = String::new(alloc);
    print_reports(alloc, reports, &mut text).map_err(Halt::of_memory)?;
    write_all(writer, text.as_bytes())
}

/// How all nodes stand at their end, in their order. Fails only with `Halt::Memory`.
fn reports_of<N: Wait + Drop>(
    rt: &N,
    alloc: Global,
    ends: &[NodeEnd<N>],
) -> Result<Vec<NodeReport>, Halt>
    requires few { length ends.now ≤ 8 }
    ensures all { IfOk result (λ reports. AreOfAll (length ends.now) reports.items) }
    ensures told { IfOk result (λ reports.
        AllZip (λ end report. TellsReport end.desks.items report) ends.now reports.items) }
    ensures memory { IsOkUnless result Memory }
{
    let mut reports = Vec::new(alloc);
    for node in 0..ends.len() {
        let report = report_of(rt, alloc, node as u16, &ends[node])?;
        reports.push(report)?;
    }
    Ok(reports)
}

/// How a node stands at its end. Fails only with `Halt::Memory`.
fn report_of<N: Wait + Drop>(
    rt: &N,
    alloc: Global,
    node: u16,
    end: &NodeEnd<N>,
) -> Result<NodeReport, Halt>
    ensures node { IfOk result (λ report. report.node ≡ node) }
    ensures told { IfOk result (λ report. TellsReport end.now.desks.items report) }
    ensures memory { IsOkUnless result Memory }
{
    let (look, verdict) = audit_end(rt, alloc, end);
    let agrees = verdict.agrees()?;
    Ok(NodeReport { node, look, agrees })
}
