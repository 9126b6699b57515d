//! The payload of `cmpctblock` (BIP 152).
ghost use Rattle.std.specs.Prelude.{◌≡◌, ◌-◌, ◌^◌, ◌<◌, ◌++◌, length, min, IfOk, IsOkUnless, OnErr, OnOk, Ok, Err};
ghost use Rattle.cb_base.specs.declared.fault.Fault.{Fault};
ghost use Rattle.cb_base.specs.declared.fault.Fault.TheVariants.{Memory};
ghost use Rattle.cb_block.specs.TxReading.{GivesInMemory};
ghost use Rattle.cb_wire.specs.CompactBlocks.{CompactBlockTakesMemory, IsCompactBlock, compact_block_at, compact_block_count_at, compact_block_text};
ghost use Rattle.cb_block.specs.TxWriting.{Extends};

use crate::short_form::{CompactTxs, put_short_form, read_short_form};
use cb_base::{Cursor, Fault};
use cb_block::{Header, read_header};
use std::alloc::Global;

/// The payload of `cmpctblock` (BIP 152, HeaderAndShortIDs): a compact block. Nothing is checked
/// yet: the transactions may not belong to the header, and the indexes may lie outside the block.
#[derive(Drop)]
pub struct HeaderAndShortIds {
    /// The block's header.
    pub header: Header,
    /// The sender's nonce. With the header it makes the key of the short ids (BIP 152), so that
    /// they differ from sender to sender.
    pub nonce: u64,
    /// The short ids and the prefilled transactions.
    pub txs: CompactTxs,
}

/// Reads the payload of a `cmpctblock` (BIP 152): a block header, a nonce of 8 bytes, a count and
/// that many short ids, then a count and that many prefilled transactions.
///
/// The first field from the left that can't be read gives the error: `Fault::Truncated` if bytes
/// are missing, `Fault::NotShortest` if a count, a difference or a length isn't in its shortest
/// form, `Fault::Empty` if both counts are 0, `Fault::TooMany` if they add up to more than 16,666.
/// A count of short ids is `Fault::Truncated` at once if the ids don't fit in the remaining bytes,
/// at 6 bytes each. The sum of the counts is checked when the second count has been read. After
/// that, it is `Fault::Truncated` if the prefilled transactions don't fit in the remaining bytes,
/// at 11 bytes each. `Fault::Memory` if an allocation fails. After an error the cursor may stand
/// anywhere.
#[tactic(auto, unfolding(crate::specs::CompactBlocks::compact_block_at, crate::specs::CompactBlocks::compact_block_count_at))]
pub fn read_compact_block(alloc: Global, cursor: &mut Cursor) -> Result<HeaderAndShortIds, Fault>
    ensures exact { GivesInMemory (compact_block_at cursor.old) result cursor.new }
    // No memory is allocated before the count of short ids has been read.
    ensures unpaid { (fault : Fault) → compact_block_count_at cursor.old ≡ Err fault →
        result ≡ Err fault }
    // Without short ids, none is allocated before the count of prefilled transactions has been read
    // and accepted.
    ensures paid { result ≡ Err Memory → CompactBlockTakesMemory cursor.old }
{
    let header = read_header(cursor)?;
    let nonce = cursor.u64()?;
    let txs = read_short_form(alloc, cursor)?;
    Ok(HeaderAndShortIds { header, nonce, txs })
}

/// Appends the payload of a `cmpctblock` to `out`. Fails only with `Fault::Memory`; `out` may then
/// end with a part of the payload, behind what it had.
#[tactic(auto, unfolding(crate::specs::CompactBlocks::compact_block_text), using(cb_block::proofs::Appends::appends))]
pub fn put_compact_block(out: &mut Vec<u8>, block: &HeaderAndShortIds) -> Result<(), Fault>
    ensures ok { OnOk result (out.new.items ≡ out.old.items ++ compact_block_text block.now) }
    ensures err { OnErr result (Extends out.old.items out.new.items) }
    ensures memory { IsOkUnless result Memory }
    // Each number is in the range of its field, each hash has 32 bytes, and the compact block has 1
    // to 16,666 transactions.
    ensures kept { OnOk result (IsCompactBlock block.now) }
{
    out.extend_from_slice(&block.header.text())?;
    out.extend_from_slice(&block.nonce.to_le_bytes())?;
    put_short_form(out, &block.txs)
}

impl HeaderAndShortIds {
    /// The length of the payload in bytes, or 2^64 - 1 if it is longer.
    #[tactic(auto, unfolding(crate::specs::CompactBlocks::compact_block_text))]
    pub fn size(&self) -> u64
        ensures { result ≡ min (length (compact_block_text self.now)) (2 ^ 64 - 1) }
    {
        let header = self.header.text().as_slice().len() as u64;
        self.txs.size().saturating_add(8).saturating_add(header)
    }

    /// An equal compact block that shares the transactions. Only the lists are allocated. Fails
    /// only with `Fault::Memory`: an allocation failed, or a transaction has 2^63 owners.
    pub fn copy(&self, alloc: Global) -> Result<HeaderAndShortIds, Fault>
        ensures equal { IfOk result (λ copy. copy ≡ self.now) }
        ensures memory { IsOkUnless result Memory }
    {
        Ok(HeaderAndShortIds {
            header: self.header,
            nonce: self.nonce,
            txs: self.txs.copy(alloc)?,
        })
    }
}
