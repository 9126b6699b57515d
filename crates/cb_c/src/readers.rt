ghost use Rattle.std.specs.Prelude.{◌≡◌, ◌⊎◌, ℕ, List, map, if◌then◌else◌, IfErr, IfOk, Ok, Err};
ghost use Rattle.std.specs.Int.{w64};
ghost use Rattle.cb_base.specs.Reading.{number_at};
ghost use Rattle.cb_base.specs.declared.fault.Fault.{Fault};
ghost use Rattle.cb_block.specs.BlockReading.{listed_header_at};
ghost use Rattle.cb_relay.specs.Shapes.{hash_of, header_of};
ghost use Rattle.cb_c.specs.Answers.{IsWhy};
ghost use Rattle.cb_c.specs.CompactFields.{AreCompactFields};
ghost use Rattle.cb_c.specs.Giving.{AreGiven, Gives, IsGiven};
ghost use Rattle.cb_c.specs.Status.{Answers, status_of};
ghost use Rattle.cb_wire.specs.BlockTransactions.{BlockTxsTakesMemory, TxsRequestTakesMemory, block_txs_at, txs_request_at};
ghost use Rattle.cb_wire.specs.CompactBlocks.{CompactBlockTakesMemory, compact_block_at};
ghost use Rattle.cb_wire.specs.Lists.{CountsSome, entry_at, listed_at};
ghost use Rattle.cb_wire.specs.Requests.{TakesMemory, compact_relay_at, request_at};
ghost use Rattle.cb_wire.specs.Version.{version_at};
ghost use Rattle.cb_wire.specs.declared.block_transactions.BlockTransactions.{BlockTransactions};
ghost use Rattle.cb_wire.specs.declared.compact_block.HeaderAndShortIds.{HeaderAndShortIds};
ghost use Rattle.cb_wire.specs.declared.requests.CompactRelay.{CompactRelay};
ghost use Rattle.cb_wire.specs.declared.version.Version.{Version};
ghost use Rattle.cb_relay.specs.Fields.{entry_of, fields_of};
ghost use Rattle.cb_relay.specs.MessageSpans.{AreCompactParts, prefilled_in, spans_in};
ghost use Rattle.cb_relay.specs.WholeMessages.{all_of};

use crate::giving::{give, give_both};
use crate::status::status;
use cb_base::Fault;
use cb_relay::{
    CbCompact, CbEntry, CbHash, CbHeader, CbPrefilled, CbSpan, CbVersionFields, CompactParts,
    LocatorParts, RequestParts, TxsParts, blocktxn_read, cmpctblock_read, getblocktxn_read,
    getheaders_read, headers_read, inventory_read, nonce_read, sendcmpct_read, version_read,
};
use std::alloc::Global;

/// Reads the payload of a `version`. After a fault `fields` is unchanged.
#[unsafe(no_mangle)]
pub extern "C" fn cbrelay_version_read(payload: &[u8], fields: &mut CbVersionFields) -> u32
    ensures { Answers result
        ((version : Version) × (version_at payload.now ≡ Ok version)
        × (fields.new ≡ fields_of version))
        (λ fault. (version_at payload.now ≡ Err fault) × (fields.new ≡ fields.old)) }
{
    match version_read(payload) {
        Ok(read) => {
            *fields = read;
            0
        }
        Err(fault) => status(fault),
    }
}

/// Reads the nonce of a `ping` or a `pong` (BIP 31). After a fault `nonce` is unchanged.
#[unsafe(no_mangle)]
pub extern "C" fn cbrelay_nonce_read(payload: &[u8], nonce: &mut u64) -> u32
    ensures { Answers result
        (all_of (number_at w64 payload.now) ≡ Ok nonce.new)
        (λ fault. (all_of (number_at w64 payload.now) ≡ Err fault) × (nonce.new ≡ nonce.old)) }
{
    match nonce_read(payload) {
        Ok(read) => {
            *nonce = read;
            0
        }
        Err(fault) => status(fault),
    }
}

/// Reads a `sendcmpct` (BIP 152). After a fault nothing has changed.
#[unsafe(no_mangle)]
pub extern "C" fn cbrelay_sendcmpct_read(
    payload: &[u8],
    high_bandwidth: &mut u32,
    version: &mut u64,
) -> u32
    ensures { Answers result
        ((relay : CompactRelay) × (all_of (compact_relay_at payload.now) ≡ Ok relay)
        × (high_bandwidth.new ≡ (if relay.high_bandwidth then 1 else 0))
        × (version.new ≡ relay.version))
        (λ fault. (all_of (compact_relay_at payload.now) ≡ Err fault)
        × (high_bandwidth.new ≡ high_bandwidth.old) × (version.new ≡ version.old)) }
{
    match sendcmpct_read(payload) {
        Ok(relay) => {
            *high_bandwidth = if relay.high_bandwidth { 1 } else { 0 };
            *version = relay.version;
            0
        }
        Err(fault) => status(fault),
    }
}

/// The entries of an `inv`, `getdata` or `notfound`.
fn entry_parts(alloc: Global, payload: &[u8]) -> Result<Vec<CbEntry>, Fault>
    ensures fine { IfOk result
        (λ list. all_of (listed_at 50000 36 entry_at payload.now) ≡ Ok (map entry_of list.items)) }
    ensures refused { IfErr result
        (IsWhy (all_of (listed_at 50000 36 entry_at payload.now))
        (CountsSome 50000 36 payload.now)) }
{
    inventory_read(alloc, payload)
}

/// Reads the entries of an `inv`, `getdata` or `notfound`.
#[unsafe(no_mangle)]
pub extern "C" fn cbrelay_inventory_read(
    alloc: Global,
    payload: &[u8],
    entries: &mut [CbEntry],
    count: &mut usize,
) -> u32
    ensures { Gives
        (λ list. all_of (listed_at 50000 36 entry_at payload.now) ≡ Ok (map entry_of list))
        (IsWhy (all_of (listed_at 50000 36 entry_at payload.now)) (CountsSome 50000 36 payload.now))
        entries.old entries.new count.old count.new result }
{
    match entry_parts(alloc, payload) {
        Ok(list) => give(list.as_slice(), entries, count),
        Err(fault) => status(fault),
    }
}

/// The headers of a `headers`.
fn listed_headers(alloc: Global, payload: &[u8]) -> Result<Vec<CbHeader>, Fault>
    ensures fine { IfOk result
        (λ list. all_of (listed_at 2000 81 listed_header_at payload.now)
        ≡ Ok (map header_of list.items)) }
    ensures refused { IfErr result
        (IsWhy (all_of (listed_at 2000 81 listed_header_at payload.now))
        (CountsSome 2000 81 payload.now)) }
{
    headers_read(alloc, payload)
}

/// Reads the headers of a `headers`.
#[unsafe(no_mangle)]
pub extern "C" fn cbrelay_headers_read(
    alloc: Global,
    payload: &[u8],
    headers: &mut [CbHeader],
    count: &mut usize,
) -> u32
    ensures { Gives
        (λ list. all_of (listed_at 2000 81 listed_header_at payload.now) ≡ Ok (map header_of list))
        (IsWhy (all_of (listed_at 2000 81 listed_header_at payload.now))
        (CountsSome 2000 81 payload.now))
        headers.old headers.new count.old count.new result }
{
    match listed_headers(alloc, payload) {
        Ok(list) => give(list.as_slice(), headers, count),
        Err(fault) => status(fault),
    }
}

/// The parts of a `getheaders`.
fn locator_parts(alloc: Global, payload: &[u8]) -> Result<LocatorParts, Fault>
    ensures fine { IfOk result
        (λ told. all_of (request_at payload.now)
        ≡ Ok
        (record {
          version = told.version;
          locator = map hash_of told.locator.items;
          stop = hash_of told.stop;
        })) }
    ensures refused { IfErr result
        (IsWhy (all_of (request_at payload.now)) (TakesMemory payload.now)) }
{
    getheaders_read(alloc, payload)
}

/// Reads a `getheaders`. After a fault nothing has changed.
#[unsafe(no_mangle)]
pub extern "C" fn cbrelay_getheaders_read(
    alloc: Global,
    payload: &[u8],
    locator: &mut [CbHash],
    count: &mut usize,
    version: &mut u32,
    stop: &mut CbHash,
) -> u32
    ensures { ((list : List CbHash)
        × (all_of (request_at payload.now)
        ≡ Ok
        (record {
          version = version.new;
          locator = map hash_of list;
          stop = hash_of stop.new;
        }))
        × IsGiven list locator.old locator.new count.new result)
        ⊎ ((fault : Fault) × (result ≡ status_of fault)
        × IsWhy (all_of (request_at payload.now)) (TakesMemory payload.now) fault
        × (locator.new ≡ locator.old) × (count.new ≡ count.old)
        × (version.new ≡ version.old) × (stop.new ≡ stop.old)) }
{
    match locator_parts(alloc, payload) {
        Ok(read) => {
            *version = read.version;
            *stop = read.stop;
            give(read.locator.as_slice(), locator, count)
        }
        Err(fault) => status(fault),
    }
}

/// The parts of a `getblocktxn`.
fn request_parts(alloc: Global, payload: &[u8]) -> Result<RequestParts, Fault>
    ensures fine { IfOk result
        (λ told. all_of (txs_request_at payload.now)
        ≡ Ok (record { block = hash_of told.block; differences = told.differences.items })) }
    ensures refused { IfErr result
        (IsWhy (all_of (txs_request_at payload.now)) (TxsRequestTakesMemory payload.now)) }
{
    getblocktxn_read(alloc, payload)
}

/// Reads a `getblocktxn` (BIP 152). After a fault nothing has changed.
#[unsafe(no_mangle)]
pub extern "C" fn cbrelay_getblocktxn_read(
    alloc: Global,
    payload: &[u8],
    differences: &mut [u64],
    count: &mut usize,
    block: &mut CbHash,
) -> u32
    ensures { ((list : List ℕ)
        × (all_of (txs_request_at payload.now)
        ≡ Ok (record { block = hash_of block.new; differences = list }))
        × IsGiven list differences.old differences.new count.new result)
        ⊎ ((fault : Fault) × (result ≡ status_of fault)
        × IsWhy (all_of (txs_request_at payload.now)) (TxsRequestTakesMemory payload.now) fault
        × (differences.new ≡ differences.old) × (count.new ≡ count.old)
        × (block.new ≡ block.old)) }
{
    match request_parts(alloc, payload) {
        Ok(read) => {
            *block = read.block;
            give(read.differences.as_slice(), differences, count)
        }
        Err(fault) => status(fault),
    }
}

/// The parts of a `blocktxn`.
fn txs_parts(alloc: Global, payload: &[u8]) -> Result<TxsParts, Fault>
    ensures fine { IfOk result
        (λ told. (part : BlockTransactions) × (all_of (block_txs_at payload.now) ≡ Ok part)
        × (hash_of told.block ≡ part.block) × (told.spans.items ≡ spans_in part)) }
    ensures refused { IfErr result
        (IsWhy (all_of (block_txs_at payload.now)) (BlockTxsTakesMemory payload.now)) }
{
    blocktxn_read(alloc, payload)
}

/// Reads a `blocktxn` (BIP 152). After a fault nothing has changed.
#[unsafe(no_mangle)]
pub extern "C" fn cbrelay_blocktxn_read(
    alloc: Global,
    payload: &[u8],
    spans: &mut [CbSpan],
    count: &mut usize,
    block: &mut CbHash,
) -> u32
    ensures { ((part : BlockTransactions) × (all_of (block_txs_at payload.now) ≡ Ok part)
        × (hash_of block.new ≡ part.block)
        × IsGiven (spans_in part) spans.old spans.new count.new result)
        ⊎ ((fault : Fault) × (result ≡ status_of fault)
        × IsWhy (all_of (block_txs_at payload.now)) (BlockTxsTakesMemory payload.now) fault
        × (spans.new ≡ spans.old) × (count.new ≡ count.old) × (block.new ≡ block.old)) }
{
    match txs_parts(alloc, payload) {
        Ok(read) => {
            *block = read.block;
            give(read.spans.as_slice(), spans, count)
        }
        Err(fault) => status(fault),
    }
}

/// The parts of a `cmpctblock`.
fn compact_parts(alloc: Global, payload: &[u8]) -> Result<CompactParts, Fault>
    ensures fine { IfOk result
        (λ parts. (form : HeaderAndShortIds) × (all_of (compact_block_at payload.now) ≡ Ok form)
        × AreCompactParts form parts) }
    ensures refused { IfErr result
        (IsWhy (all_of (compact_block_at payload.now)) (CompactBlockTakesMemory payload.now)) }
{
    cmpctblock_read(alloc, payload)
}

/// Reads a `cmpctblock` (BIP 152). `fields` has the counts. The short ids and the prefilled
/// transactions are given if both have room, and none otherwise. After a fault nothing has changed.
#[unsafe(no_mangle)]
pub extern "C" fn cbrelay_cmpctblock_read(
    alloc: Global,
    payload: &[u8],
    ids: &mut [u64],
    prefilled: &mut [CbPrefilled],
    fields: &mut CbCompact,
) -> u32
    ensures { ((form : HeaderAndShortIds) × (all_of (compact_block_at payload.now) ≡ Ok form)
        × AreCompactFields form fields.new
        × AreGiven form.txs.ids ids.old ids.new (prefilled_in form) prefilled.old prefilled.new
        result)
        ⊎ ((fault : Fault) × (result ≡ status_of fault)
        × IsWhy (all_of (compact_block_at payload.now)) (CompactBlockTakesMemory payload.now) fault
        × (fields.new ≡ fields.old) × (ids.new ≡ ids.old) × (prefilled.new ≡ prefilled.old)) }
{
    match compact_parts(alloc, payload) {
        Ok(parts) => {
            *fields = parts.fields;
            give_both(
                parts.ids.as_slice(),
                ids,
                parts.prefilled.as_slice(),
                prefilled,
            )
        }
        Err(fault) => status(fault),
    }
}
