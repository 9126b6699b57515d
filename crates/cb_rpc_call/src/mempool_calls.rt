//! Calls about the mempool and the UTXO set.
ghost use Rattle.std.specs.Prelude.{◌≡◌, ◌^◌, None, codes, false};
ghost use Rattle.json.specs.Value.{value_view};
ghost use Rattle.cb_rpc_call.specs.Arguments.{argument, if_given, needed, number_of};
ghost use Rattle.cb_rpc_call.specs.MempoolCalls.{block_of, decode_call, mempool_entry_call, only_tx_of, raw_mempool_call, raw_transaction_call, send_call, some_hash_of, submit_block_call, test_accept_call, tx_of, tx_out_call, verbose_of};
ghost use Rattle.cb_rpc_call.specs.ChainCalls.{verbosity};
ghost use Rattle.cb_rpc_call.specs.Starving.{InMemory};
ghost use Rattle.cb_rpc_call.specs.declared.method.Method.TheVariants as methods;

use crate::arguments::{argument, hash_of, needed_hash, number_of, switch_or};
use crate::call::{Call, ReadCall};
use crate::chain_calls::{verbosity, word_in};
use crate::fault::RpcFault;
use crate::method::Method;
use cb_base::{Hash256, Shared};
use cb_block::{Block, OutPoint, Tx};
use cb_control::{read_block, read_tx};
use json::Value;
use std::alloc::Global;

/// `getrawmempool`.
pub(crate) fn raw_mempool(request: &Value<'_>) -> Result<Call, RpcFault>
    ensures { result ≡ raw_mempool_call (value_view request.now) }
{
    Ok(Call::Read(ReadCall::RawMempool(switch_or(false, request, 0, "verbose")?)))
}

/// `getmempoolentry`.
pub(crate) fn mempool_entry(request: &Value<'_>) -> Result<Call, RpcFault>
    ensures { result ≡ mempool_entry_call (value_view request.now) }
{
    let txid = needed_hash(Method::GetMempoolEntry, request, 0, "txid")?;
    Ok(Call::Read(ReadCall::MempoolEntry(txid)))
}

/// `getrawtransaction`.
pub(crate) fn raw_transaction(request: &Value<'_>) -> Result<Call, RpcFault>
    ensures { result ≡ raw_transaction_call (value_view request.now) }
{
    let txid = needed_hash(Method::GetRawTransaction, request, 0, "txid")?;
    let verbose = verbose(request)?;
    let block = block_hash(request)?;
    Ok(Call::Read(ReadCall::RawTransaction(txid, verbose, block)))
}

/// Whether a transaction is told as fields.
fn verbose(request: &Value<'_>) -> Result<bool, RpcFault>
    ensures { result ≡ if_given false verbose_of (verbosity (value_view request.now)) }
{
    match verbosity(request) {
        Some(value) => verbose_of(value),
        None => Ok(false),
    }
}

/// Whether a transaction is told as fields: true, or a number that isn't 0.
fn verbose_of(value: &Value<'_>) -> Result<bool, RpcFault>
    ensures { result ≡ verbose_of (value_view value.now) }
{
    match value.as_bool() {
        Some(verbose) => Ok(verbose),
        None => Ok(number_of(value)? != 0),
    }
}

/// The hash of a block, if one is named.
fn block_hash(request: &Value<'_>) -> Result<Option<Hash256>, RpcFault>
    ensures { result
        ≡ if_given None some_hash_of (argument 2 (codes "blockhash") (value_view request.now)) }
{
    match argument(request, 2, "blockhash") {
        Some(value) => Ok(Some(hash_of(value)?)),
        None => Ok(None),
    }
}

/// `gettxout`.
pub(crate) fn tx_out(request: &Value<'_>) -> Result<Call, RpcFault>
    ensures { result ≡ tx_out_call (value_view request.now) }
{
    let txid = needed_hash(Method::GetTxOut, request, 0, "txid")?;
    let index = index(request)?;
    let with_mempool = switch_or(true, request, 2, "include_mempool")?;
    Ok(Call::Read(ReadCall::TxOut(OutPoint { txid, index }, with_mempool)))
}

/// The number of an output.
fn index(request: &Value<'_>) -> Result<u32, RpcFault>
    ensures { result
        ≡ needed methods.GetTxOut (number_of (2 ^ 32))
        (argument 1 (codes "n") (value_view request.now)) }
{
    match argument(request, 1, "n") {
        Some(value) => index_of(value),
        None => Err(RpcFault::Usage(Method::GetTxOut)),
    }
}

/// A decimal number below 2^32, in digits alone.
fn index_of(value: &Value<'_>) -> Result<u32, RpcFault>
    ensures { result ≡ number_of (2 ^ 32) (value_view value.now) }
{
    let digits = value.as_number().ok_or(RpcFault::WrongType)?;
    word_in(digits).ok_or(RpcFault::OutOfRange)
}

/// `decoderawtransaction`.
pub(crate) fn decode(alloc: Global, request: &Value<'_>) -> Result<Call, RpcFault>
    ensures { InMemory (decode_call (value_view request.now)) result }
{
    let Some(value) = argument(request, 0, "hexstring") else {
        return Err(RpcFault::Usage(Method::DecodeRawTransaction));
    };
    Ok(Call::Read(ReadCall::DecodeTransaction(tx_of(alloc, value)?)))
}

/// `sendrawtransaction`.
pub(crate) fn send(alloc: Global, request: &Value<'_>) -> Result<Call, RpcFault>
    ensures { InMemory (send_call (value_view request.now)) result }
{
    let Some(value) = argument(request, 0, "hexstring") else {
        return Err(RpcFault::Usage(Method::SendRawTransaction));
    };
    Ok(Call::SendTransaction(tx_of(alloc, value)?))
}

/// `testmempoolaccept`.
pub(crate) fn test_accept(alloc: Global, request: &Value<'_>) -> Result<Call, RpcFault>
    ensures { InMemory (test_accept_call (value_view request.now)) result }
{
    let Some(value) = argument(request, 0, "rawtxs") else {
        return Err(RpcFault::Usage(Method::TestMempoolAccept));
    };
    Ok(Call::Read(ReadCall::TestAccept(only_tx_of(alloc, value)?)))
}

/// `submitblock`.
pub(crate) fn submit_block(alloc: Global, request: &Value<'_>) -> Result<Call, RpcFault>
    ensures { InMemory (submit_block_call (value_view request.now)) result }
{
    let Some(value) = argument(request, 0, "hexdata") else {
        return Err(RpcFault::Usage(Method::SubmitBlock));
    };
    Ok(Call::SubmitBlock(block_of(alloc, value)?))
}

/// The one transaction in hex of a list.
fn only_tx_of(alloc: Global, value: &Value<'_>) -> Result<Shared<Tx>, RpcFault>
    ensures { InMemory (only_tx_of (value_view value.now)) result }
{
    let Value::Array(_) = value else {
        return Err(RpcFault::WrongType);
    };
    match (value.at(0), value.at(1)) {
        (Some(only), None) => tx_of(alloc, only),
        _ => Err(RpcFault::NotOne),
    }
}

/// A transaction in hex.
fn tx_of(alloc: Global, value: &Value<'_>) -> Result<Shared<Tx>, RpcFault>
    ensures { InMemory (tx_of (value_view value.now)) result }
{
    let text = value.as_str().ok_or(RpcFault::WrongType)?;
    match read_tx(alloc, text) {
        Ok(Some(tx)) => Ok(tx),
        Ok(None) => Err(RpcFault::BadTransaction),
        Err(_) => Err(RpcFault::Memory),
    }
}

/// A block in hex.
fn block_of(alloc: Global, value: &Value<'_>) -> Result<Shared<Block>, RpcFault>
    ensures { InMemory (block_of (value_view value.now)) result }
{
    let text = value.as_str().ok_or(RpcFault::WrongType)?;
    match read_block(alloc, text) {
        Ok(Some(block)) => Ok(block),
        Ok(None) => Err(RpcFault::BadBlock),
        Err(_) => Err(RpcFault::Memory),
    }
}
