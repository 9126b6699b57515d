//! An unspent output, and whether a transaction would be taken.
ghost use Rattle.std.specs.Prelude.{Err, Ok};
ghost use Rattle.cb_rpc.specs.Mempools.{judged_object, judged_tokens, output_report_tokens, verdict_fields};
ghost use Rattle.cb_rpc_call.specs.Writing.{Adds};

use crate::told::{JudgedReport, OutputReport};
use crate::tx::put_script;
use cb_base::Fault;
use cb_rpc_call::{put_amount, put_hash, put_number, put_switch, put_text, reject_words};
use json::Writer;
use std::alloc::{AllocError, Global};

/// Writes an unspent output.
#[tactic(auto, unfolding(crate::specs::Mempools::output_report_tokens))]
pub fn put_unspent(
    alloc: Global,
    writer: &mut Writer,
    report: &OutputReport,
) -> Result<(), AllocError>
    ensures { Adds result writer.old writer.new (output_report_tokens report.now) }
{
    writer.begin_object()?;
    put_hash(alloc, writer, "bestblock", &report.best)?;
    put_number(writer, "confirmations", report.confirmations)?;
    put_amount(alloc, writer, "value", report.value)?;
    put_script(alloc, writer, "scriptPubKey", &report.script)?;
    put_switch(writer, "coinbase", report.coinbase)?;
    writer.end_object()
}

/// Writes whether the mempool would take a transaction, as a list of one.
pub fn put_judged(
    alloc: Global,
    writer: &mut Writer,
    report: &JudgedReport,
) -> Result<(), AllocError>
    ensures { Adds result writer.old writer.new (judged_tokens report.now) }
{
    writer.begin_array()?;
    put_judged_object(alloc, writer, report)?;
    writer.end_array()
}

/// Writes whether the mempool would take a transaction.
#[tactic(auto, unfolding(crate::specs::Mempools::judged_object))]
fn put_judged_object(
    alloc: Global,
    writer: &mut Writer,
    report: &JudgedReport,
) -> Result<(), AllocError>
    ensures { Adds result writer.old writer.new (judged_object report.now) }
{
    writer.begin_object()?;
    put_hash(alloc, writer, "txid", &report.txid)?;
    put_hash(alloc, writer, "wtxid", &report.txid)?;
    put_verdict(alloc, writer, report.size, report.verdict)?;
    writer.end_object()
}

/// Writes what the mempool says of a transaction of this size.
fn put_verdict(
    alloc: Global,
    writer: &mut Writer,
    size: u64,
    verdict: Result<i64, Fault>,
) -> Result<(), AllocError>
    ensures { Adds result writer.old writer.new (verdict_fields size verdict) }
{
    match verdict {
        Ok(fee) => put_allowed(alloc, writer, size, fee),
        Err(fault) => put_refused(writer, fault),
    }
}

/// Writes that a transaction of this size and with this fee would be taken.
fn put_allowed(alloc: Global, writer: &mut Writer, size: u64, fee: i64) -> Result<(), AllocError>
    ensures { Adds result writer.old writer.new (verdict_fields size (Ok fee)) }
{
    put_switch(writer, "allowed", true)?;
    put_number(writer, "vsize", size)?;
    writer.key("fees")?;
    writer.begin_object()?;
    put_amount(alloc, writer, "base", fee)?;
    writer.end_object()
}

/// Writes why a transaction wouldn't be taken.
fn put_refused(writer: &mut Writer, fault: Fault) -> Result<(), AllocError>
    ensures { Adds result writer.old writer.new (verdict_fields 0 (Err fault)) }
{
    put_switch(writer, "allowed", false)?;
    put_text(writer, "reject-reason", reject_words(fault))?;
    Ok(())
}
