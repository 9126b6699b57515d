//! A block as fields, or in hex.
ghost use Rattle.std.specs.Prelude.{◌≡◌, codes};
ghost use Rattle.std.specs.List.{flat_map};
ghost use Rattle.cb_base.specs.DoubleHash.{double_hash};
ghost use Rattle.cb_block.specs.Blocks.{texts};
ghost use Rattle.cb_block.specs.Soundness.{names};
ghost use Rattle.cb_block.specs.BlockText.{block_text};
ghost use Rattle.cb_block.specs.TxText.{tx_text};
ghost use Rattle.cb_rpc.specs.Blocks.{block_sizes, sizes_fields, member_tokens, txids_tokens, txs_tokens};
ghost use Rattle.cb_rpc_call.specs.Fields.{list_field};
ghost use Rattle.cb_rpc.specs.Telling.{hex_tokens};
ghost use Rattle.cb_rpc_call.specs.Writing.{Adds};

use crate::header::put_header_members;
use crate::told::HeaderReport;
use crate::tx::{put_tx_hex, put_tx_members};
use cb_base::{Hash256, Shared};
use cb_block::{Block, SoundBlock, Tx, write_block};
use cb_rpc_call::{put_bytes, put_list_member, put_number};
use json::Writer;
use std::alloc::{AllocError, Global};

/// Writes a block in hex.
pub fn put_block_bytes(alloc: Global, writer: &mut Writer, block: &Block) -> Result<(), AllocError>
    ensures { Adds result writer.old writer.new (hex_tokens (block_text block.now)) }
{
    let mut bytes = Vec::new(alloc);
    match write_block(&mut bytes, block) {
        Ok(()) => put_bytes(alloc, writer, bytes.as_slice()),
        Err(_) => Err(AllocError),
    }
}

/// Writes a block as an object, with the txids of its transactions.
#[tactic(auto, unfolding(crate::specs::Blocks::txids_tokens))]
pub fn put_block_txids(
    alloc: Global,
    writer: &mut Writer,
    report: &HeaderReport,
    block: &SoundBlock,
) -> Result<(), AllocError>
    ensures { Adds result writer.old writer.new (txids_tokens report.now block.now) }
{
    writer.begin_object()?;
    put_header_members(alloc, writer, report)?;
    put_block_sizes(writer, block.block())?;
    put_list_member(alloc, writer, "tx", block.txids())?;
    writer.end_object()
}

/// Writes a block as an object, with its transactions as objects.
#[tactic(auto, unfolding(crate::specs::Blocks::txs_tokens))]
pub fn put_block_txs(
    alloc: Global,
    writer: &mut Writer,
    report: &HeaderReport,
    block: &SoundBlock,
) -> Result<(), AllocError>
    ensures { Adds result writer.old writer.new (txs_tokens report.now block.now) }
{
    writer.begin_object()?;
    put_header_members(alloc, writer, report)?;
    put_block_sizes(writer, block.block())?;
    put_members(alloc, writer, block)?;
    writer.end_object()
}

/// Writes a block's sizes.
fn put_block_sizes(writer: &mut Writer, block: &Block) -> Result<(), AllocError>
    ensures { Adds result writer.old writer.new (block_sizes block.now) }
{
    put_sizes(writer, block.size())
}

/// Writes the sizes of a block of so many bytes.
#[tactic(auto, unfolding(crate::specs::Blocks::sizes_fields))]
fn put_sizes(writer: &mut Writer, size: u64) -> Result<(), AllocError>
    ensures { Adds result writer.old writer.new (sizes_fields size) }
{
    put_number(writer, "strippedsize", size)?;
    put_number(writer, "size", size)?;
    put_number(writer, "weight", size.saturating_mul(4))?;
    Ok(())
}

/// Writes the member that is the list of a block's transactions.
#[tactic(auto, unfolding(cb_rpc_call::specs::Fields::list_field, cb_rpc_call::specs::Fields::list_tokens))]
fn put_members(alloc: Global, writer: &mut Writer, block: &SoundBlock) -> Result<(), AllocError>
    ensures { Adds result writer.old writer.new
        (list_field (codes "tx") member_tokens block.now.txs) }
{
    writer.key("tx")?;
    writer.begin_array()?;
    put_txs(alloc, writer, block.txids(), block.block().txs.as_slice())?;
    writer.end_array()
}

/// Writes transactions, whose txids are known.
fn put_txs(
    alloc: Global,
    writer: &mut Writer,
    txids: &[Hash256],
    txs: &[Shared<Tx>],
) -> Result<(), AllocError>
    requires { txids.now ≡ names (texts txs.now) }
    ensures { Adds result writer.old writer.new (flat_map member_tokens txs.now) }
{
    for (place, tx) in txs.iter().enumerate() {
        put_member(alloc, writer, &txids[place], tx)?;
    }
    Ok(())
}

/// Writes a transaction of a block, whose txid is known.
#[tactic(auto, unfolding(crate::specs::Blocks::member_tokens))]
fn put_member(alloc: Global, writer: &mut Writer, txid: &Hash256, tx: &Tx) -> Result<(), AllocError>
    requires { txid.now ≡ double_hash (tx_text tx.now) }
    ensures { Adds result writer.old writer.new (member_tokens tx.now) }
{
    writer.begin_object()?;
    put_tx_members(alloc, writer, txid, tx)?;
    put_tx_hex(alloc, writer, tx)?;
    writer.end_object()
}
