//! What each connection of a run moved.
ghost use Rattle.std.specs.Prelude.{◌≡◌, ℕ, List, Err, IfErr, OnOk, IsOkUnless};
ghost use Rattle.std.specs.Io.KnownBytes.{Appends};
ghost use Rattle.cb_base.specs.declared.fault.Fault.TheVariants as faults;
ghost use Rattle.cb_control.specs.declared.ending.Halt.TheVariants.{Memory};
ghost use Rattle.cb_control.specs.Outcomes.{LacksOrFails};

use crate::moving::moved_of;
use cb_base::{Fault, Sink};
use cb_control::{Halt, write_all};
use cb_crew::Desk;
use cb_node::{NodeEnd, NodeWork};
use cb_peer_state::{CloseReason, State};
use std::alloc::Global;
use std::sync::Wait;

/// Prints a line for each connection of all nodes that carried anything.
pub fn print_stats<N: Wait + Drop, W: Sink>(
    alloc: Global,
    ends: &[NodeEnd<N>],
    writer: &mut W,
) -> Result<(), Halt>
    ensures more { OnOk result ((rest : List ℕ)
        × Appends (W.contents writer.old) (W.contents writer.new) rest) }
    ensures err { IfErr result (LacksOrFails (W.has_failed writer.new)) }
    // The text is made before anything is written.
    ensures starved { result ≡ Err Memory → writer.new ≡ writer.old }
{
    let mut text = String::new(alloc);
    print_nodes(ends, &mut text).map_err(Halt::of_memory)?;
    write_all(writer, text.as_bytes())
}

/// Appends the lines of all nodes' connections. Fails only with `Fault::Memory`.
fn print_nodes<N: Wait + Drop>(ends: &[NodeEnd<N>], out: &mut String) -> Result<(), Fault>
    ensures { IsOkUnless result faults.Memory }
{
    for node in 0..ends.len() {
        for desk in ends[node].desks.as_slice() {
            print_desk(node, desk, out)?;
        }
    }
    Ok(())
}

/// Appends the lines of the connections of a node's slot. Fails only with `Fault::Memory`.
fn print_desk<N: Wait + Drop>(
    node: usize,
    desk: &Desk<NodeWork<N>>,
    out: &mut String,
) -> Result<(), Fault>
    ensures { IsOkUnless result faults.Memory }
{
    for work in desk.past() {
        print_work(node, work, out)?;
    }
    print_work(node, desk.work(), out)
}

/// Appends the line of a connection, unless it was never used: why it was closed, and what it
/// moved. Fails only with `Fault::Memory`.
fn print_work<N: Wait + Drop>(
    node: usize,
    work: &NodeWork<N>,
    out: &mut String,
) -> Result<(), Fault>
    ensures { IsOkUnless result faults.Memory }
{
    let totals = work.flags().status().totals();
    let state = work.trace().state();
    if totals.messages == 0 && totals.written == 0 && state == State::Closed(CloseReason::Bye) {
        return Ok(());
    }
    let reason = match state {
        State::Closed(reason) => reason.name(),
        State::Start | State::Greeted | State::Ready => "open",
    };
    let connection = work.connection();
    let (slot, generation) = (connection.peer, connection.generation);
    write!(
        out,
        "node {node} slot {slot} connection {generation} closed {reason} "
    )?;
    moved_of(&totals).print(out)?;
    out.push('\n')?;
    Ok(())
}
