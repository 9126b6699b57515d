//! What is told, as JSON.
ghost use Rattle.std.specs.Prelude.{◌≡◌, ◌++◌, OnOk};
ghost use Rattle.cb_rpc.specs.Telling.{level_name, told_tokens};

use crate::block::{put_block_bytes, put_block_txids, put_block_txs};
use crate::chain::put_chain;
use crate::header::put_header;
use crate::mempool::{put_entries, put_entry, put_mempool};
use crate::network::{put_network, put_totals};
use crate::peer::put_peers;
use crate::spending::{put_judged, put_unspent};
use crate::told::CallResult;
use crate::tx::{put_tx, put_tx_bytes};
use cb_rpc_call::{block_words, put_bytes, put_hash_text, put_list};
use json::Writer;
use log::LevelFilter;
use std::alloc::{AllocError, Global};

/// Writes what is told: the result of a method under the names and in the forms of Bitcoin Core's
/// daemon. Numbers are exact, amounts are in bitcoins with eight decimals, times in seconds since
/// 1970 where nothing else is said.
pub fn put_told(alloc: Global, writer: &mut Writer, told: &CallResult) -> Result<(), AllocError>
    ensures tokens { OnOk result (writer.new.tokens ≡ writer.old.tokens ++ told_tokens told.now) }
    ensures before { writer.new.before ≡ writer.old.before }
{
    match told {
        CallResult::Nothing => writer.null(),
        CallResult::Number(number) => writer.u64(*number),
        CallResult::Switch(is_so) => writer.boolean(*is_so),
        CallResult::Words(text) => writer.string(*text),
        CallResult::Refusal(fault) => writer.string(block_words(*fault)),
        CallResult::Level(level) => writer.string(level_name(*level)),
        CallResult::Hash(hash) => put_hash_text(alloc, writer, hash),
        CallResult::Hashes(hashes) => put_list(alloc, writer, hashes.as_slice()),
        CallResult::HeaderHex(header) => put_bytes(alloc, writer, &header.text()),
        CallResult::Header(report) => put_header(alloc, writer, report),
        CallResult::BlockHex(block) => put_block_bytes(alloc, writer, block.block()),
        CallResult::BlockTxids(report, block) => put_block_txids(alloc, writer, report, block),
        CallResult::BlockTxs(report, block) => put_block_txs(alloc, writer, report, block),
        CallResult::Chain(report) => put_chain(alloc, writer, report),
        CallResult::Tips(tips) => put_list(alloc, writer, tips.as_slice()),
        CallResult::Mempool(report) => put_mempool(alloc, writer, report),
        CallResult::Entry(report) => put_entry(alloc, writer, report),
        CallResult::Entries(entries) => put_entries(alloc, writer, entries.as_slice()),
        CallResult::TxHex(tx) => put_tx_bytes(alloc, writer, tx),
        CallResult::Tx(report) => put_tx(alloc, writer, report),
        CallResult::Output(report) => put_unspent(alloc, writer, report),
        CallResult::Judged(report) => put_judged(alloc, writer, report),
        CallResult::Network(report) => put_network(alloc, writer, report),
        CallResult::Totals(report) => put_totals(writer, report),
        CallResult::Peers(peers) => put_peers(alloc, writer, peers.as_slice()),
    }
}

/// The name of a level.
fn level_name(level: LevelFilter) -> &'static str
    ensures { result.now ≡ level_name level }
{
    match level {
        LevelFilter::Off => "off",
        LevelFilter::Error => "error",
        LevelFilter::Warn => "warn",
        LevelFilter::Info => "info",
        LevelFilter::Debug => "debug",
        LevelFilter::Trace => "trace",
    }
}
