//! Reading messages with a list of entries, headers or hashes into their fields.
ghost use Rattle.std.specs.Prelude.{◌≡◌, ◌⊎◌, length, map, IfOk, IsOk, IsOkUnless, MatchResult, Ok, Err};
ghost use Rattle.cb_base.specs.declared.fault.Fault.{Fault};
ghost use Rattle.cb_base.specs.declared.fault.Fault.TheVariants.{Memory};
ghost use Rattle.cb_block.specs.BlockReading.{listed_header_at};
ghost use Rattle.cb_relay.specs.Shapes.{hash_of, header_of};
ghost use Rattle.cb_wire.specs.BlockTransactions.{TxsRequestTakesMemory, txs_request_at, txs_request_count_at};
ghost use Rattle.cb_wire.specs.Lists.{CountsSome, entry_at, limited_at, listed_at};
ghost use Rattle.cb_wire.specs.Requests.{TakesMemory, request_at, request_count_at};
ghost use Rattle.cb_relay.specs.Fields.{entry_of};
ghost use Rattle.cb_relay.specs.WholeMessages.{all_of};

use crate::headers::header_fields;
use crate::message_shapes::CbEntry;
use crate::shapes::{CbHash, CbHeader};
use crate::whole::{whole, whole_request};
use cb_base::{Cursor, Fault, Hash256};
use cb_block::Header;
use cb_wire::{Entries, HeaderList, Inventory, read_list, read_request};
use std::alloc::Global;

/// A `getheaders`: the protocol version, the block locator, and the hash to stop at.
#[derive(Drop)]
pub struct LocatorParts {
    pub version: u32,
    pub locator: Vec<CbHash>,
    pub stop: CbHash,
}

/// A `getblocktxn` (BIP 152): the block's hash, and the indexes as differences.
#[derive(Drop)]
pub struct RequestParts {
    pub block: CbHash,
    pub differences: Vec<u64>,
}

pub(crate) fn hash_shape(hash: &Hash256) -> CbHash
    ensures { hash_of result ≡ hash.now }
{
    let bytes = hash.0;
    CbHash { bytes }
}

fn entry_shape(entry: &Inventory) -> CbEntry
    ensures { entry_of result ≡ entry.now }
{
    CbEntry {
        kind: entry.kind(),
        hash: hash_shape(&entry.hash()),
    }
}

/// The entries as C has them. No entries allocate nothing.
fn entry_shapes(alloc: Global, entries: &[Inventory]) -> Result<Vec<CbEntry>, Fault>
    ensures same { IfOk result (λ list. map entry_of list.items ≡ entries.now) }
    ensures memory { IsOkUnless result Memory }
    ensures unpaid { length entries.now ≡ 0 → IsOk result }
{
    let mut list = Vec::with_capacity(alloc, entries.len())?;
    for entry in entries {
        list.push(entry_shape(entry))?;
    }
    Ok(list)
}

/// The headers as C has them. No headers allocate nothing.
fn header_shapes(alloc: Global, headers: &[Header]) -> Result<Vec<CbHeader>, Fault>
    ensures same { IfOk result (λ list. map header_of list.items ≡ headers.now) }
    ensures memory { IsOkUnless result Memory }
    ensures unpaid { length headers.now ≡ 0 → IsOk result }
{
    let mut list = Vec::with_capacity(alloc, headers.len())?;
    for header in headers {
        list.push(header_fields(header))?;
    }
    Ok(list)
}

/// The hashes as C has them. No hashes allocate nothing.
pub(crate) fn hash_shapes(alloc: Global, hashes: &[Hash256]) -> Result<Vec<CbHash>, Fault>
    ensures same { IfOk result (λ list. map hash_of list.items ≡ hashes.now) }
    ensures memory { IsOkUnless result Memory }
    ensures unpaid { length hashes.now ≡ 0 → IsOk result }
{
    let mut list = Vec::with_capacity(alloc, hashes.len())?;
    for hash in hashes {
        list.push(hash_shape(hash))?;
    }
    Ok(list)
}

/// Reads the entries of an `inv`, `getdata` or `notfound`.
///
/// Fails with `NotShortest`, `TooMany` above 50,000, `Truncated` and last `Trailing`; with `Memory`
/// only for a count above 0.
pub fn inventory_read(alloc: Global, payload: &[u8]) -> Result<Vec<CbEntry>, Fault>
    ensures exact { MatchResult result
        (λ list. all_of (listed_at 50000 36 entry_at payload.now) ≡ Ok (map entry_of list.items))
        (λ fault. (fault ≡ Memory)
        ⊎ (all_of (listed_at 50000 36 entry_at payload.now) ≡ Err fault)) }
    ensures unpaid { (fault : Fault) → limited_at 50000 36 payload.now ≡ Err fault →
        result ≡ Err fault }
    ensures paid { result ≡ Err Memory → CountsSome 50000 36 payload.now }
{
    let mut cursor = Cursor::new(payload);
    let read: Entries = read_list(alloc, &mut cursor)?;
    let entries = whole(read, &cursor)?;
    entry_shapes(alloc, entries.as_slice())
}

/// Reads the headers of a `headers`.
///
/// Fails with `NotShortest`, `TooMany` above 2,000, `Truncated`, `BadBool` if a header counts
/// transactions, and last `Trailing`; with `Memory` only for a count above 0.
pub fn headers_read(alloc: Global, payload: &[u8]) -> Result<Vec<CbHeader>, Fault>
    ensures exact { MatchResult result
        (λ list. all_of (listed_at 2000 81 listed_header_at payload.now)
        ≡ Ok (map header_of list.items))
        (λ fault. (fault ≡ Memory)
        ⊎ (all_of (listed_at 2000 81 listed_header_at payload.now) ≡ Err fault)) }
    ensures unpaid { (fault : Fault) → limited_at 2000 81 payload.now ≡ Err fault →
        result ≡ Err fault }
    ensures paid { result ≡ Err Memory → CountsSome 2000 81 payload.now }
{
    let mut cursor = Cursor::new(payload);
    let read: HeaderList = read_list(alloc, &mut cursor)?;
    let headers = whole(read, &cursor)?;
    header_shapes(alloc, headers.as_slice())
}

/// Reads a `getheaders`.
///
/// Fails with `Truncated`, `NotShortest`, `TooMany` above 101 hashes, and last `Trailing`; with
/// `Memory` only for a count above 0.
pub fn getheaders_read(alloc: Global, payload: &[u8]) -> Result<LocatorParts, Fault>
    ensures exact { MatchResult result
        (λ told. all_of (request_at payload.now)
        ≡ Ok
        (record {
          version = told.version;
          locator = map hash_of told.locator.items;
          stop = hash_of told.stop;
        }))
        (λ fault. (fault ≡ Memory) ⊎ (all_of (request_at payload.now) ≡ Err fault)) }
    ensures unpaid { (fault : Fault) → request_count_at payload.now ≡ Err fault →
        result ≡ Err fault }
    ensures paid { result ≡ Err Memory → TakesMemory payload.now }
{
    let mut cursor = Cursor::new(payload);
    let request = whole(read_request(alloc, &mut cursor)?, &cursor)?;
    let locator = hash_shapes(alloc, request.locator.as_slice())?;
    Ok(LocatorParts {
        version: request.version,
        locator,
        stop: hash_shape(&request.stop),
    })
}

/// Reads a `getblocktxn` (BIP 152).
///
/// Fails with `Truncated`, `NotShortest`, `TooMany` above 16,666 indexes, and last `Trailing`; with
/// `Memory` only for a count above 0.
pub fn getblocktxn_read(alloc: Global, payload: &[u8]) -> Result<RequestParts, Fault>
    ensures exact { MatchResult result
        (λ told. all_of (txs_request_at payload.now)
        ≡ Ok (record { block = hash_of told.block; differences = told.differences.items }))
        (λ fault. (fault ≡ Memory) ⊎ (all_of (txs_request_at payload.now) ≡ Err fault)) }
    ensures unpaid { (fault : Fault) → txs_request_count_at payload.now ≡ Err fault →
        result ≡ Err fault }
    ensures paid { result ≡ Err Memory → TxsRequestTakesMemory payload.now }
{
    let request = whole_request(alloc, payload)?;
    Ok(RequestParts {
        block: hash_shape(&request.block),
        differences: request.differences.into_vec(),
    })
}
