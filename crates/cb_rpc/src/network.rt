//! What the node tells of itself and of all connections.
ghost use Rattle.std.specs.Prelude.{codes};
ghost use Rattle.cb_rpc_call.specs.Fields.{signed_field};
ghost use Rattle.cb_rpc.specs.Networks.{count_fields, cycle_fields, end_fields, moved_fields, network_tokens, services_fields, switch_fields, target_field, target_fields, totals_tokens, version_fields};
ghost use Rattle.cb_rpc_call.specs.Writing.{Adds};

use crate::told::{NetworkReport, TotalsReport};
use cb_rpc_call::{put_amount, put_empty, put_number, put_signed, put_switch, put_text};
use json::Writer;
use std::alloc::{AllocError, Global};

/// Writes what the node tells of itself.
pub fn put_network(
    alloc: Global,
    writer: &mut Writer,
    report: &NetworkReport,
) -> Result<(), AllocError>
    ensures { Adds result writer.old writer.new (network_tokens report.now) }
{
    writer.begin_object()?;
    put_version(writer)?;
    put_services(writer)?;
    put_switches(writer, report)?;
    put_counts(writer, report)?;
    put_end(alloc, writer)?;
    writer.end_object()
}

/// Writes which node this is.
#[tactic(auto, unfolding(crate::specs::Networks::version_fields))]
fn put_version(writer: &mut Writer) -> Result<(), AllocError>
    ensures { Adds result writer.old writer.new version_fields }
{
    put_number(writer, "version", 10_000)?;
    put_text(writer, "subversion", "/cbrelay:1/")?;
    put_number(writer, "protocolversion", 70_014)
}

/// Writes which services the node offers: blocks.
#[tactic(auto, unfolding(crate::specs::Networks::services_fields))]
fn put_services(writer: &mut Writer) -> Result<(), AllocError>
    ensures { Adds result writer.old writer.new services_fields }
{
    put_text(writer, "localservices", "0000000000000001")?;
    writer.key("localservicesnames")?;
    writer.begin_array()?;
    writer.string("NETWORK")?;
    writer.end_array()
}

/// Writes whether the node relays transactions and has connections.
#[tactic(auto, unfolding(crate::specs::Networks::switch_fields))]
fn put_switches(writer: &mut Writer, report: &NetworkReport) -> Result<(), AllocError>
    ensures { Adds result writer.old writer.new (switch_fields report.now) }
{
    put_switch(writer, "localrelay", true)?;
    put_number(writer, "timeoffset", 0)?;
    put_switch(writer, "networkactive", report.active)
}

/// Writes how many connections last.
#[tactic(auto, unfolding(crate::specs::Networks::count_fields))]
fn put_counts(writer: &mut Writer, report: &NetworkReport) -> Result<(), AllocError>
    ensures { Adds result writer.old writer.new (count_fields report.now) }
{
    let all = report.inbound.saturating_add(report.outbound);
    put_number(writer, "connections", all)?;
    put_number(writer, "connections_in", report.inbound)?;
    put_number(writer, "connections_out", report.outbound)?;
    Ok(())
}

/// Writes that no fee is asked for, and that there is nothing to warn of.
#[tactic(auto, unfolding(crate::specs::Networks::end_fields))]
fn put_end(alloc: Global, writer: &mut Writer) -> Result<(), AllocError>
    ensures { Adds result writer.old writer.new end_fields }
{
    put_empty(writer, "networks")?;
    put_amount(alloc, writer, "relayfee", 0)?;
    put_amount(alloc, writer, "incrementalfee", 0)?;
    put_empty(writer, "localaddresses")?;
    put_text(writer, "warnings", "")
}

/// Writes what all connections moved.
pub fn put_totals(writer: &mut Writer, report: &TotalsReport) -> Result<(), AllocError>
    ensures { Adds result writer.old writer.new (totals_tokens report.now) }
{
    writer.begin_object()?;
    put_moved(writer, report)?;
    put_target(writer)?;
    writer.end_object()
}

/// Writes how many bytes were moved, and the time.
#[tactic(auto, unfolding(crate::specs::Networks::moved_fields))]
fn put_moved(writer: &mut Writer, report: &TotalsReport) -> Result<(), AllocError>
    ensures { Adds result writer.old writer.new (moved_fields report.now) }
{
    put_number(writer, "totalbytesrecv", report.received)?;
    put_number(writer, "totalbytessent", report.sent)?;
    put_clock(writer, report)
}

/// Writes the time.
fn put_clock(writer: &mut Writer, report: &TotalsReport) -> Result<(), AllocError>
    ensures { Adds result writer.old writer.new
        (signed_field (codes "timemillis") report.now.millis) }
{
    put_signed(writer, "timemillis", report.millis)
}

/// Writes that no target limits what is sent.
#[tactic(auto, unfolding(crate::specs::Networks::target_field))]
fn put_target(writer: &mut Writer) -> Result<(), AllocError>
    ensures { Adds result writer.old writer.new target_field }
{
    writer.key("uploadtarget")?;
    writer.begin_object()?;
    put_no_target(writer)?;
    put_cycle(writer)?;
    writer.end_object()
}

/// Writes a target of nothing.
#[tactic(auto, unfolding(crate::specs::Networks::target_fields))]
fn put_no_target(writer: &mut Writer) -> Result<(), AllocError>
    ensures { Adds result writer.old writer.new target_fields }
{
    put_number(writer, "timeframe", 86_400)?;
    put_number(writer, "target", 0)?;
    put_switch(writer, "target_reached", false)
}

/// Writes a cycle of no target.
#[tactic(auto, unfolding(crate::specs::Networks::cycle_fields))]
fn put_cycle(writer: &mut Writer) -> Result<(), AllocError>
    ensures { Adds result writer.old writer.new cycle_fields }
{
    put_switch(writer, "serve_historical_blocks", true)?;
    put_number(writer, "bytes_left_in_cycle", 0)?;
    put_number(writer, "time_left_in_cycle", 0)
}
