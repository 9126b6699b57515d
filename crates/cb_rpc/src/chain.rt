//! Where the chain stands, and its tips.
ghost use Rattle.std.specs.Prelude.{◌≡◌};
ghost use Rattle.cb_rpc.specs.Chains.{chain_tokens, disk_fields, progress_fields, status_name, tip_fields};
ghost use Rattle.cb_rpc_call.specs.Writing.{Adds};

use crate::header::{put_difficulty, put_work};
use crate::told::{ChainReport, TipReport, TipStatus};
use cb_rpc_call::{ListItem, put_hash, put_number, put_switch, put_text};
use json::Writer;
use std::alloc::{AllocError, Global};

/// Writes where the chain stands.
pub fn put_chain(alloc: Global, writer: &mut Writer, report: &ChainReport) -> Result<(), AllocError>
    ensures { Adds result writer.old writer.new (chain_tokens report.now) }
{
    writer.begin_object()?;
    put_tip(alloc, writer, report)?;
    put_difficulty(writer)?;
    put_progress(writer, report)?;
    put_work(alloc, writer, report.height)?;
    put_disk(writer)?;
    writer.end_object()
}

/// Writes the chain's name, its heights and its tip.
#[tactic(auto, unfolding(crate::specs::Chains::tip_fields))]
fn put_tip(alloc: Global, writer: &mut Writer, report: &ChainReport) -> Result<(), AllocError>
    ensures { Adds result writer.old writer.new (tip_fields report.now) }
{
    put_text(writer, "chain", "regtest")?;
    put_number(writer, "blocks", u64::from(report.height))?;
    put_number(writer, "headers", u64::from(report.headers))?;
    put_hash(alloc, writer, "bestblockhash", &report.hash)
}

/// Writes the tip's times, and that all is verified.
#[tactic(auto, unfolding(crate::specs::Chains::progress_fields))]
fn put_progress(writer: &mut Writer, report: &ChainReport) -> Result<(), AllocError>
    ensures { Adds result writer.old writer.new (progress_fields report.now) }
{
    put_number(writer, "time", u64::from(report.header.time))?;
    put_number(writer, "mediantime", u64::from(report.median_time))?;
    put_number(writer, "verificationprogress", 1)?;
    put_switch(writer, "initialblockdownload", false)?;
    Ok(())
}

/// Writes that nothing is on a disk.
#[tactic(auto, unfolding(crate::specs::Chains::disk_fields))]
fn put_disk(writer: &mut Writer) -> Result<(), AllocError>
    ensures { Adds result writer.old writer.new disk_fields }
{
    put_number(writer, "size_on_disk", 0)?;
    put_switch(writer, "pruned", false)?;
    put_text(writer, "warnings", "")
}

/// The name of how far a branch's tip is.
fn status_name(status: TipStatus) -> &'static str
    ensures { result.now ≡ status_name status }
{
    match status {
        TipStatus::Active => "active",
        TipStatus::ValidFork => "valid-fork",
        TipStatus::HeadersOnly => "headers-only",
        TipStatus::Invalid => "invalid",
    }
}

impl ListItem for TipReport {
    ghost use Rattle.cb_rpc.specs.Chains.{tip_tokens};

    ghost item_tokens = { tip_tokens };

    #[tactic(auto, unfolding(crate::specs::Chains::tip_tokens))]
    fn put(&self, alloc: Global, writer: &mut Writer) -> Result<(), AllocError> {
        writer.begin_object()?;
        put_number(writer, "height", u64::from(self.height))?;
        put_hash(alloc, writer, "hash", &self.hash)?;
        put_number(writer, "branchlen", u64::from(self.branch))?;
        put_text(writer, "status", status_name(self.status))?;
        writer.end_object()
    }
}
