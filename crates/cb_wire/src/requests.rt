//! The payloads of `sendcmpct` (BIP 152) and `getheaders`.
ghost use Rattle.std.specs.Prelude.{◌≡◌, ◌^◌, ◌<◌, ◌≤◌, ◌++◌, length, IfOk, IsOk, IsOkUnless, OnErr, OnOk, Ok, Err};
ghost use Rattle.cb_base.specs.CompactSize.{Gives};
ghost use Rattle.cb_base.specs.declared.fault.Fault.{Fault};
ghost use Rattle.cb_base.specs.declared.fault.Fault.TheVariants.{Memory};
ghost use Rattle.cb_block.specs.TxReading.{GivesInMemory};
ghost use Rattle.cb_wire.specs.Requests.{IsRequest, TakesMemory, compact_relay_at, compact_relay_text, flag_at, request_at, request_count_at, request_text};
ghost use Rattle.cb_block.specs.TxWriting.{Extends};

use crate::inventory::Locator;
use crate::lists::{locator_size, read_list};
use cb_base::{Cursor, Fault, Hash256};
use cb_block::{put_items, read_hash};
use std::alloc::Global;

/// The payload of `sendcmpct` (BIP 152): how a peer wants new blocks to be announced.
#[derive(Clone, Copy, PartialEq, Eq)]
pub struct CompactRelay {
    /// Whether the peer asks for high-bandwidth mode: a `cmpctblock` at once, without an
    /// announcement first.
    pub high_bandwidth: bool,
    /// The version of compact block relay that the peer proposes.
    pub version: u64,
}

/// The payload of `getheaders`: a request for block headers.
#[derive(Drop)]
pub struct HeadersRequest {
    /// The protocol version of the sender.
    pub version: u32,
    /// The block locator: hashes of the sender's chain, the newest first.
    pub locator: Locator,
    /// The hash of the last header that is wanted. 32 zero bytes ask for as many headers as
    /// possible.
    pub stop: Hash256,
}

/// Reads a flag of one byte, 0 or 1. Any other byte is `Fault::BadBool`.
#[tactic(auto, unfolding(crate::specs::Requests::flag_at))]
fn read_flag(cursor: &mut Cursor) -> Result<bool, Fault>
    ensures { Gives (flag_at cursor.old) result cursor.new }
{
    let byte = cursor.u8()?;
    if byte == 0 {
        Ok(false)
    } else if byte == 1 {
        Ok(true)
    } else {
        Err(Fault::BadBool)
    }
}

/// Reads the payload of a `sendcmpct` (BIP 152): a flag of one byte and a version of 8 bytes. It
/// allocates nothing.
///
/// Fails with `Fault::BadBool` if the flag is neither 0 nor 1, and with `Fault::Truncated` if bytes
/// are missing. After an error the cursor may stand anywhere.
#[tactic(auto, unfolding(crate::specs::Requests::compact_relay_at))]
pub fn read_compact_relay(cursor: &mut Cursor) -> Result<CompactRelay, Fault>
    ensures { Gives (compact_relay_at cursor.old) result cursor.new }
{
    let high_bandwidth = read_flag(cursor)?;
    let version = cursor.u64()?;
    Ok(CompactRelay {
        high_bandwidth,
        version,
    })
}

/// Appends the payload of a `sendcmpct` to `out`. Fails only with `Fault::Memory`; `out` may then
/// end with a part of the payload, behind what it had.
#[tactic(auto, unfolding(crate::specs::Requests::compact_relay_text), using(cb_block::proofs::Appends::appends))]
pub fn put_compact_relay(out: &mut Vec<u8>, relay: &CompactRelay) -> Result<(), Fault>
    ensures ok { OnOk result (out.new.items ≡ out.old.items ++ compact_relay_text relay.now) }
    ensures err { OnErr result (Extends out.old.items out.new.items) }
    ensures memory { IsOkUnless result Memory }
    ensures kept { OnOk result (relay.now.version < 2 ^ 64) }
{
    out.push(if relay.high_bandwidth { 1 } else { 0 })?;
    out.extend_from_slice(&relay.version.to_le_bytes())?;
    Ok(())
}

/// Reads the payload of a `getheaders`: a version of 4 bytes, a count and at most 101 hashes, then
/// the hash to stop at.
///
/// Fails with `Fault::Truncated` if bytes are missing, and with the faults of `read_list` for the
/// locator. After an error the cursor may stand anywhere.
#[tactic(auto, unfolding(crate::specs::Requests::request_at, crate::specs::Requests::request_count_at))]
pub fn read_request(alloc: Global, cursor: &mut Cursor) -> Result<HeadersRequest, Fault>
    ensures exact { GivesInMemory (request_at cursor.old) result cursor.new }
    // No memory is allocated before the count has been read.
    ensures unpaid { (fault : Fault) → request_count_at cursor.old ≡ Err fault →
        result ≡ Err fault }
    // A count of 0 allocates nothing.
    ensures paid { result ≡ Err Memory → TakesMemory cursor.old }
{
    let version = cursor.u32()?;
    let locator = read_list(alloc, cursor)?;
    let stop = read_hash(cursor)?;
    Ok(HeadersRequest {
        version,
        locator,
        stop,
    })
}

/// Appends the payload of a `getheaders` to `out`. Fails only with `Fault::Memory`; `out` may then
/// end with a part of the payload, behind what it had.
#[tactic(auto, unfolding(crate::specs::Requests::request_text), using(cb_block::proofs::Appends::appends))]
pub fn put_request(out: &mut Vec<u8>, request: &HeadersRequest) -> Result<(), Fault>
    ensures ok { OnOk result (out.new.items ≡ out.old.items ++ request_text request.now) }
    ensures err { OnErr result (Extends out.old.items out.new.items) }
    ensures memory { IsOkUnless result Memory }
    ensures kept { OnOk result (IsRequest request.now) }
{
    out.extend_from_slice(&request.version.to_le_bytes())?;
    put_items(out, request.locator.as_slice())?;
    out.extend_from_slice(request.stop.bytes())?;
    Ok(())
}

impl CompactRelay {
    /// The length of the payload in bytes.
    #[tactic(auto, unfolding(crate::specs::Requests::compact_relay_text))]
    pub fn size(&self) -> u64
        ensures size { result ≡ length (compact_relay_text self.now) }
        ensures limit { result ≤ 9 }
    {
        9
    }
}

impl HeadersRequest {
    /// The length of the payload in bytes.
    #[tactic(auto, unfolding(crate::specs::Requests::request_text))]
    pub fn size(&self) -> u64
        ensures size { result ≡ length (request_text self.now) }
        ensures limit { result ≤ 4000 }
    {
        locator_size(&self.locator) + self.stop.bytes().len() as u64 + 4
    }

    /// An equal request. Fails only with `Fault::Memory`; a request with an empty locator allocates
    /// nothing.
    pub fn copy(&self, alloc: Global) -> Result<HeadersRequest, Fault>
        ensures equal { IfOk result (λ copy. copy ≡ self.now) }
        ensures memory { IsOkUnless result Memory }
        ensures unpaid { length self.now.locator ≡ 0 → IsOk result }
    {
        Ok(HeadersRequest {
            version: self.version,
            locator: self.locator.copy(alloc)?,
            stop: self.stop,
        })
    }
}
