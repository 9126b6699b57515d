//! A header as fields.
ghost use Rattle.std.specs.Prelude.{◌≡◌};
ghost use Rattle.cb_rpc.specs.Headers.{chain_work, content_fields, difficulty_field, header_fields, header_tokens, link_fields, next_field, place_fields, previous_field, time_fields, work_field};
ghost use Rattle.cb_rpc_call.specs.Writing.{Adds};

use crate::told::HeaderReport;
use cb_base::Hash256;
use cb_block::Header;
use cb_rpc_call::{put_exact, put_hash, put_hex, put_number, put_signed};
use json::Writer;
use std::alloc::{AllocError, Global};

/// Writes a header as an object.
pub fn put_header(
    alloc: Global,
    writer: &mut Writer,
    report: &HeaderReport,
) -> Result<(), AllocError>
    ensures { Adds result writer.old writer.new (header_tokens report.now) }
{
    writer.begin_object()?;
    put_header_members(alloc, writer, report)?;
    writer.end_object()
}

/// Writes the members of a header's object.
#[tactic(auto, unfolding(crate::specs::Headers::header_fields))]
pub fn put_header_members(
    alloc: Global,
    writer: &mut Writer,
    report: &HeaderReport,
) -> Result<(), AllocError>
    ensures { Adds result writer.old writer.new (header_fields report.now) }
{
    put_place(alloc, writer, report)?;
    put_content(alloc, writer, &report.header)?;
    put_times(alloc, writer, report)?;
    put_difficulty(writer)?;
    put_work(alloc, writer, report.height)?;
    put_links(alloc, writer, report)
}

/// Writes where a header stands.
#[tactic(auto, unfolding(crate::specs::Headers::place_fields))]
fn put_place(alloc: Global, writer: &mut Writer, report: &HeaderReport) -> Result<(), AllocError>
    ensures { Adds result writer.old writer.new (place_fields report.now) }
{
    put_hash(alloc, writer, "hash", &report.hash)?;
    put_signed(writer, "confirmations", report.confirmations)?;
    put_number(writer, "height", u64::from(report.height))
}

/// Writes a header's version and Merkle root.
#[tactic(auto, unfolding(crate::specs::Headers::content_fields))]
fn put_content(alloc: Global, writer: &mut Writer, header: &Header) -> Result<(), AllocError>
    ensures { Adds result writer.old writer.new (content_fields header.now) }
{
    put_signed(writer, "version", i64::from(header.version))?;
    put_hex(alloc, writer, "versionHex", &header.version.to_be_bytes())?;
    put_hash(alloc, writer, "merkleroot", &header.root)
}

/// Writes a header's times, nonce and bits.
#[tactic(auto, unfolding(crate::specs::Headers::time_fields))]
fn put_times(alloc: Global, writer: &mut Writer, report: &HeaderReport) -> Result<(), AllocError>
    ensures { Adds result writer.old writer.new (time_fields report.now) }
{
    put_number(writer, "time", u64::from(report.header.time))?;
    put_number(writer, "mediantime", u64::from(report.median_time))?;
    put_number(writer, "nonce", u64::from(report.header.nonce))?;
    put_hex(alloc, writer, "bits", &report.header.bits.to_be_bytes())
}

/// Writes the difficulty, which is that of regtest's bits for every header.
#[tactic(auto, unfolding(crate::specs::Headers::difficulty_field))]
pub fn put_difficulty(writer: &mut Writer) -> Result<(), AllocError>
    ensures { Adds result writer.old writer.new difficulty_field }
{
    put_exact(writer, "difficulty", "4.656542373906925e-10")
}

/// The work of the headers up to a height, as a number of 32 bytes, the greatest byte first.
fn chain_work(height: u32) -> [u8; 32]
    ensures { result ≡ chain_work height }
{
    let hashes = 2 * (u64::from(height) + 1);
    let mut work = [0u8; 32];
    work[24..].copy_from_slice(&hashes.to_be_bytes());
    work
}

/// Writes the work of the headers up to a height.
#[tactic(auto, unfolding(crate::specs::Headers::work_field))]
pub fn put_work(alloc: Global, writer: &mut Writer, height: u32) -> Result<(), AllocError>
    ensures { Adds result writer.old writer.new (work_field height) }
{
    put_hex(alloc, writer, "chainwork", &chain_work(height))
}

/// Writes how many transactions a header's block has, and the hashes of its neighbours.
#[tactic(auto, unfolding(crate::specs::Headers::link_fields))]
fn put_links(alloc: Global, writer: &mut Writer, report: &HeaderReport) -> Result<(), AllocError>
    ensures { Adds result writer.old writer.new (link_fields report.now) }
{
    put_number(writer, "nTx", report.txs)?;
    put_previous(alloc, writer, report.height, &report.header.prev)?;
    put_next(alloc, writer, report.next)
}

/// Writes the hash of a header's parent, unless it is the genesis block's header.
#[tactic(auto, unfolding(crate::specs::Headers::previous_field))]
fn put_previous(
    alloc: Global,
    writer: &mut Writer,
    height: u32,
    hash: &Hash256,
) -> Result<(), AllocError>
    ensures { Adds result writer.old writer.new (previous_field height hash.now) }
{
    if height == 0 {
        return Ok(());
    }
    put_hash(alloc, writer, "previousblockhash", hash)
}

/// Writes the hash of the block on top, if there is one.
fn put_next(alloc: Global, writer: &mut Writer, next: Option<Hash256>) -> Result<(), AllocError>
    ensures { Adds result writer.old writer.new (next_field next) }
{
    match next {
        Some(hash) => put_hash(alloc, writer, "nextblockhash", &hash),
        None => Ok(()),
    }
}
