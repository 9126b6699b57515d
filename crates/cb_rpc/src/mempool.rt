//! The mempool, its entries, and what it says of a transaction.
ghost use Rattle.std.specs.Prelude.{[], ◌∷◌};
ghost use Rattle.json.specs.Token.{key};
ghost use Rattle.cb_rpc_call.specs.Fields.{hash_text};
ghost use Rattle.cb_rpc.specs.Mempools.{entries_tokens, entry_sizes, entry_tokens, family_fields, fees_field, flag_fields, mempool_tokens, rate_fields, use_fields};
ghost use Rattle.cb_rpc_call.specs.Writing.{Adds};

use crate::told::{EntryReport, MempoolReport};
use cb_base::Hash256;
use cb_rpc_call::{
    ListItem, put_amount, put_hash, put_items, put_list_member, put_number, put_switch,
};
use json::Writer;
use std::alloc::{AllocError, Global};

/// Writes the mempool's size.
pub fn put_mempool(
    alloc: Global,
    writer: &mut Writer,
    report: &MempoolReport,
) -> Result<(), AllocError>
    ensures { Adds result writer.old writer.new (mempool_tokens report.now) }
{
    writer.begin_object()?;
    put_use(alloc, writer, report)?;
    put_rates(alloc, writer)?;
    put_number(writer, "unbroadcastcount", 0)?;
    put_switch(writer, "fullrbf", false)?;
    writer.end_object()
}

/// Writes what is in the mempool.
#[tactic(auto, unfolding(crate::specs::Mempools::use_fields))]
fn put_use(alloc: Global, writer: &mut Writer, report: &MempoolReport) -> Result<(), AllocError>
    ensures { Adds result writer.old writer.new (use_fields report.now) }
{
    put_switch(writer, "loaded", true)?;
    put_number(writer, "size", report.size)?;
    put_number(writer, "bytes", report.bytes)?;
    put_number(writer, "usage", report.bytes)?;
    put_amount(alloc, writer, "total_fee", report.fees)
}

/// Writes that no fee is asked for.
#[tactic(auto, unfolding(crate::specs::Mempools::rate_fields))]
fn put_rates(alloc: Global, writer: &mut Writer) -> Result<(), AllocError>
    ensures { Adds result writer.old writer.new rate_fields }
{
    put_amount(alloc, writer, "mempoolminfee", 0)?;
    put_amount(alloc, writer, "minrelaytxfee", 0)?;
    put_amount(alloc, writer, "incrementalrelayfee", 0)
}

/// Writes an entry as an object.
#[tactic(auto, unfolding(crate::specs::Mempools::entry_tokens))]
pub fn put_entry(alloc: Global, writer: &mut Writer, report: &EntryReport) -> Result<(), AllocError>
    ensures { Adds result writer.old writer.new (entry_tokens report.now) }
{
    writer.begin_object()?;
    put_entry_sizes(alloc, writer, report)?;
    put_fees(alloc, writer, report.fee)?;
    put_family(alloc, writer, report)?;
    put_flags(writer)?;
    writer.end_object()
}

/// Writes an entry's sizes and its second name.
#[tactic(auto, unfolding(crate::specs::Mempools::entry_sizes))]
fn put_entry_sizes(
    alloc: Global,
    writer: &mut Writer,
    report: &EntryReport,
) -> Result<(), AllocError>
    ensures { Adds result writer.old writer.new (entry_sizes report.now) }
{
    put_number(writer, "vsize", report.size)?;
    put_number(writer, "weight", report.size.saturating_mul(4))?;
    put_hash(alloc, writer, "wtxid", &report.txid)
}

/// Writes an entry's fees.
#[tactic(auto, unfolding(crate::specs::Mempools::fees_field))]
fn put_fees(alloc: Global, writer: &mut Writer, fee: i64) -> Result<(), AllocError>
    ensures { Adds result writer.old writer.new (fees_field fee) }
{
    writer.key("fees")?;
    writer.begin_object()?;
    put_amount(alloc, writer, "base", fee)?;
    put_amount(alloc, writer, "modified", fee)?;
    writer.end_object()
}

/// Writes which entries an entry spends, and which spend it.
#[tactic(auto, unfolding(crate::specs::Mempools::family_fields))]
fn put_family(alloc: Global, writer: &mut Writer, report: &EntryReport) -> Result<(), AllocError>
    ensures { Adds result writer.old writer.new (family_fields report.now) }
{
    put_list_member::<Hash256>(alloc, writer, "depends", report.depends.as_slice())?;
    put_list_member::<Hash256>(alloc, writer, "spentby", report.spent_by.as_slice())
}

/// Writes that an entry is never replaced, and that peers were told of it.
#[tactic(auto, unfolding(crate::specs::Mempools::flag_fields))]
fn put_flags(writer: &mut Writer) -> Result<(), AllocError>
    ensures { Adds result writer.old writer.new flag_fields }
{
    put_switch(writer, "bip125-replaceable", false)?;
    put_switch(writer, "unbroadcast", false)
}

/// An entry under its txid.
impl ListItem for EntryReport {
    ghost use Rattle.cb_rpc.specs.Mempools.{entry_member};

    ghost item_tokens = { entry_member };

    #[tactic(auto, unfolding(crate::specs::Mempools::entry_member))]
    fn put(&self, alloc: Global, writer: &mut Writer) -> Result<(), AllocError> {
        put_hash_key(alloc, writer, &self.txid)?;
        put_entry(alloc, writer, self)
    }
}

/// Writes a hash as the name of a member.
fn put_hash_key(alloc: Global, writer: &mut Writer, hash: &Hash256) -> Result<(), AllocError>
    ensures { Adds result writer.old writer.new (key (hash_text hash.now) ∷ []) }
{
    let mut bytes = hash.0;
    bytes.reverse();
    let text = hex::encode(alloc, bytes.as_slice())?;
    writer.key(text.as_str())
}

/// Writes entries as an object, each under its txid.
pub fn put_entries(
    alloc: Global,
    writer: &mut Writer,
    entries: &[EntryReport],
) -> Result<(), AllocError>
    ensures { Adds result writer.old writer.new (entries_tokens entries.now) }
{
    writer.begin_object()?;
    put_items(alloc, writer, entries)?;
    writer.end_object()
}
