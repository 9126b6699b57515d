//! A transaction as fields.
ghost use Rattle.std.specs.Prelude.{◌≡◌, codes, IfOk};
ghost use Rattle.std.specs.List.{flat_map};
ghost use Rattle.cb_block.specs.TxText.{tx_text};
ghost use Rattle.cb_rpc_call.specs.Fields.{hex_field};
ghost use Rattle.cb_rpc.specs.Telling.{hex_tokens};
ghost use Rattle.cb_rpc.specs.Transactions.{active_field, block_fields, block_times, bytes_field, input_tokens, inputs_field, is_coinbase, name_fields, named_fields, output_tokens, outputs_field, outputs_from, script_field, size_fields, source_fields, tx_fields, tx_tokens};
ghost use Rattle.cb_rpc_call.specs.Writing.{Adds};

use crate::told::{TxPlace, TxReport};
use cb_base::Hash256;
use cb_block::{Script, Tx, TxIn, TxOut, write_tx};
use cb_rpc_call::{put_amount, put_bytes, put_hash, put_hex, put_number, put_switch};
use json::Writer;
use std::alloc::{AllocError, Global};

/// Writes a transaction as an object, with the block that was named.
pub fn put_tx(alloc: Global, writer: &mut Writer, report: &TxReport) -> Result<(), AllocError>
    ensures { Adds result writer.old writer.new (tx_tokens report.now) }
{
    writer.begin_object()?;
    put_active(writer, report.place)?;
    put_tx_members(alloc, writer, &report.txid, &report.tx)?;
    put_if_hex(alloc, writer, report.hex, &report.tx)?;
    put_named(alloc, writer, report.place)?;
    writer.end_object()
}

/// Writes the members that every transaction has.
#[tactic(auto, unfolding(crate::specs::Transactions::tx_fields))]
pub fn put_tx_members(
    alloc: Global,
    writer: &mut Writer,
    txid: &Hash256,
    tx: &Tx,
) -> Result<(), AllocError>
    ensures { Adds result writer.old writer.new (tx_fields txid.now tx.now) }
{
    put_names(alloc, writer, txid, tx)?;
    put_sizes(writer, tx)?;
    put_vin(alloc, writer, tx)?;
    put_vout(alloc, writer, tx.outputs.as_slice())
}

/// Writes a transaction's names and version.
#[tactic(auto, unfolding(crate::specs::Transactions::name_fields))]
fn put_names(alloc: Global, writer: &mut Writer, txid: &Hash256, tx: &Tx) -> Result<(), AllocError>
    ensures { Adds result writer.old writer.new (name_fields txid.now tx.now) }
{
    put_hash(alloc, writer, "txid", txid)?;
    put_hash(alloc, writer, "hash", txid)?;
    put_number(writer, "version", u64::from(tx.version.cast_unsigned()))
}

/// Writes a transaction's sizes and lock time.
#[tactic(auto, unfolding(crate::specs::Transactions::size_fields))]
fn put_sizes(writer: &mut Writer, tx: &Tx) -> Result<(), AllocError>
    ensures { Adds result writer.old writer.new (size_fields tx.now) }
{
    let size = tx.size();
    put_number(writer, "size", size)?;
    put_number(writer, "vsize", size)?;
    put_number(writer, "weight", size.saturating_mul(4))?;
    put_number(writer, "locktime", u64::from(tx.lock_time))
}

/// Writes a transaction's inputs.
#[tactic(auto, unfolding(crate::specs::Transactions::inputs_field))]
fn put_vin(alloc: Global, writer: &mut Writer, tx: &Tx) -> Result<(), AllocError>
    ensures { Adds result writer.old writer.new (inputs_field tx.now.inputs) }
{
    writer.key("vin")?;
    writer.begin_array()?;
    put_inputs(alloc, writer, is_coinbase(tx), tx.inputs.as_slice())?;
    writer.end_array()
}

/// Whether a transaction is a coinbase.
fn is_coinbase(tx: &Tx) -> bool
    ensures { result ≡ is_coinbase tx.now.inputs }
{
    tx.is_coinbase()
}

/// Writes inputs, of a coinbase or of another transaction.
fn put_inputs(
    alloc: Global,
    writer: &mut Writer,
    coinbase: bool,
    inputs: &[TxIn],
) -> Result<(), AllocError>
    ensures { Adds result writer.old writer.new (flat_map (input_tokens coinbase) inputs.now) }
{
    for input in inputs {
        put_input(alloc, writer, coinbase, input)?;
    }
    Ok(())
}

/// Writes an input, of a coinbase or of another transaction.
#[tactic(auto, unfolding(crate::specs::Transactions::input_tokens))]
fn put_input(
    alloc: Global,
    writer: &mut Writer,
    coinbase: bool,
    input: &TxIn,
) -> Result<(), AllocError>
    ensures { Adds result writer.old writer.new (input_tokens coinbase input.now) }
{
    writer.begin_object()?;
    put_source(alloc, writer, coinbase, input)?;
    put_number(writer, "sequence", u64::from(input.sequence))?;
    writer.end_object()
}

/// Writes what an input spends, and its script.
#[tactic(auto, unfolding(crate::specs::Transactions::source_fields))]
fn put_source(
    alloc: Global,
    writer: &mut Writer,
    coinbase: bool,
    input: &TxIn,
) -> Result<(), AllocError>
    ensures { Adds result writer.old writer.new (source_fields coinbase input.now) }
{
    if coinbase {
        return put_hex(alloc, writer, "coinbase", input.script.as_slice());
    }
    put_hash(alloc, writer, "txid", &input.prev.txid)?;
    put_number(writer, "vout", u64::from(input.prev.index))?;
    put_script(alloc, writer, "scriptSig", &input.script)
}

/// Writes a member that is a script in hex.
#[tactic(auto, unfolding(crate::specs::Transactions::script_field))]
pub fn put_script(
    alloc: Global,
    writer: &mut Writer,
    name: &str,
    script: &Script,
) -> Result<(), AllocError>
    ensures { Adds result writer.old writer.new (script_field name.now script.now) }
{
    writer.key(name)?;
    writer.begin_object()?;
    put_hex(alloc, writer, "hex", script.as_slice())?;
    writer.end_object()
}

/// Writes a transaction's outputs.
#[tactic(auto, unfolding(crate::specs::Transactions::outputs_field))]
fn put_vout(alloc: Global, writer: &mut Writer, outputs: &[TxOut]) -> Result<(), AllocError>
    ensures { Adds result writer.old writer.new (outputs_field outputs.now) }
{
    writer.key("vout")?;
    writer.begin_array()?;
    put_outputs(alloc, writer, outputs)?;
    writer.end_array()
}

/// Writes outputs, each with its place.
fn put_outputs(alloc: Global, writer: &mut Writer, outputs: &[TxOut]) -> Result<(), AllocError>
    ensures { Adds result writer.old writer.new (outputs_from 0 outputs.now) }
{
    for (place, output) in outputs.iter().enumerate() {
        put_output(alloc, writer, place as u64, output)?;
    }
    Ok(())
}

/// Writes an output with its place.
#[tactic(auto, unfolding(crate::specs::Transactions::output_tokens))]
fn put_output(
    alloc: Global,
    writer: &mut Writer,
    place: u64,
    output: &TxOut,
) -> Result<(), AllocError>
    ensures { Adds result writer.old writer.new (output_tokens place output.now) }
{
    writer.begin_object()?;
    put_amount(alloc, writer, "value", output.value)?;
    put_number(writer, "n", place)?;
    put_script(alloc, writer, "scriptPubKey", &output.script)?;
    writer.end_object()
}

/// Writes whether the block that was named is on the best chain.
fn put_active(writer: &mut Writer, place: Option<TxPlace>) -> Result<(), AllocError>
    ensures { Adds result writer.old writer.new (active_field place) }
{
    match place {
        Some(place) => put_switch(writer, "in_active_chain", place.active),
        None => Ok(()),
    }
}

/// A transaction's bytes.
fn bytes_of(alloc: Global, tx: &Tx) -> Result<Vec<u8>, AllocError>
    ensures { IfOk result (λ bytes. bytes.items ≡ tx_text tx.now) }
{
    let mut bytes = Vec::new(alloc);
    match write_tx(&mut bytes, tx) {
        Ok(()) => Ok(bytes),
        Err(_) => Err(AllocError),
    }
}

/// Writes a transaction in hex.
pub fn put_tx_bytes(alloc: Global, writer: &mut Writer, tx: &Tx) -> Result<(), AllocError>
    ensures { Adds result writer.old writer.new (hex_tokens (tx_text tx.now)) }
{
    let bytes = bytes_of(alloc, tx)?;
    put_bytes(alloc, writer, bytes.as_slice())
}

/// Writes a member that is a transaction in hex.
#[tactic(auto, unfolding(cb_rpc_call::specs::Fields::hex_field))]
pub fn put_tx_hex(alloc: Global, writer: &mut Writer, tx: &Tx) -> Result<(), AllocError>
    ensures { Adds result writer.old writer.new (hex_field (codes "hex") (tx_text tx.now)) }
{
    writer.key("hex")?;
    put_tx_bytes(alloc, writer, tx)
}

/// Writes a member that is a transaction in hex, if it is asked for.
fn put_if_hex(alloc: Global, writer: &mut Writer, hex: bool, tx: &Tx) -> Result<(), AllocError>
    ensures { Adds result writer.old writer.new (bytes_field hex tx.now) }
{
    if hex {
        return put_tx_hex(alloc, writer, tx);
    }
    Ok(())
}

/// Writes the block that was named, if one was.
fn put_named(alloc: Global, writer: &mut Writer, place: Option<TxPlace>) -> Result<(), AllocError>
    ensures { Adds result writer.old writer.new (named_fields place) }
{
    match place {
        Some(place) => put_block_named(alloc, writer, &place),
        None => Ok(()),
    }
}

/// Writes the block that was named.
#[tactic(auto, unfolding(crate::specs::Transactions::block_fields))]
fn put_block_named(alloc: Global, writer: &mut Writer, place: &TxPlace) -> Result<(), AllocError>
    ensures { Adds result writer.old writer.new (block_fields place.now) }
{
    put_hash(alloc, writer, "blockhash", &place.block)?;
    put_number(writer, "confirmations", place.confirmations)?;
    put_block_times(writer, place)
}

/// Writes the times of a block on the best chain.
#[tactic(auto, unfolding(crate::specs::Transactions::block_times))]
fn put_block_times(writer: &mut Writer, place: &TxPlace) -> Result<(), AllocError>
    ensures { Adds result writer.old writer.new (block_times place.now) }
{
    if !place.active {
        return Ok(());
    }
    put_number(writer, "time", u64::from(place.time))?;
    put_number(writer, "blocktime", u64::from(place.time))
}
