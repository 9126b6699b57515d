ghost use Rattle.std.specs.Prelude.{◌≡◌, ℕ, ◌+◌, ◌-◌, ◌^◌, ◌<◌, ◌≤◌, ◌⊎◌, List, [], ◌++◌, length, min, slice_index, IfOk, IsOk, IsOkUnless, MatchResult, OnOk, OnErr, Ok, Err, vec_capacity, vec_len};
ghost use Rattle.cb_base.specs.Reading.{ReadsInMemory};
ghost use Rattle.cb_base.specs.declared.fault.Fault.{Fault};
ghost use Rattle.cb_base.specs.declared.fault.Fault.TheVariants.{Memory};
ghost use Rattle.cb_block.specs.TxReading.{GivesInMemory};
ghost use Rattle.cb_block.specs.TxWriting.{Extends};
ghost use Rattle.cb_block.specs.BlockReading.{TakesMemory, block_at, first_count_at};
ghost use Rattle.cb_block.specs.BlockText.{IsBlock, block_text};
ghost use Rattle.cb_block.specs.declared.block.Block.{Block};

use crate::block::{Block, Txs};
use crate::header::read_header;
use crate::lists::{items_size, put_items, read_items};
use cb_base::{Cursor, Fault};
use std::alloc::Global;

/// Reads a block. After an error the cursor may have advanced.
#[tactic(auto, unfolding(crate::specs::BlockReading::block_at, crate::specs::BlockReading::first_count_at))]
fn block_or_fault(alloc: Global, cursor: &mut Cursor) -> Result<Block, Fault>
    ensures exact { GivesInMemory (block_at cursor.old) result cursor.new }
    ensures unpaid { (fault : Fault) → first_count_at cursor.old ≡ Err fault → result ≡ Err fault }
    ensures paid { result ≡ Err Memory → TakesMemory cursor.old }
{
    let header = read_header(cursor)?;
    let txs = read_items(alloc, cursor)?;
    Ok(Block {
        header,
        txs: Txs::new(txs),
    })
}

/// Decodes the block at the front. Returns it with a cursor at the bytes after it.
fn block_of(alloc: Global, bytes: &[u8]) -> Result<(Block, Cursor<'_>), Fault>
    ensures exact { MatchResult result (λ read. block_at bytes.now ≡ Ok (read.0, read.1))
        (λ fault. (fault ≡ Memory) ⊎ (block_at bytes.now ≡ Err fault)) }
    ensures unpaid { (fault : Fault) → first_count_at bytes.now ≡ Err fault → result ≡ Err fault }
    ensures paid { result ≡ Err Memory → TakesMemory bytes.now }
    ensures bytes { (i : ℕ) → slice_index bytes.now i < 256 }
{
    let mut cursor = Cursor::new(bytes);
    let block = block_or_fault(alloc, &mut cursor)?;
    Ok((block, cursor))
}

/// Reads a block: its header, the count of its transactions, and the transactions (without the
/// witnesses of BIP 141).
///
/// Fails as `read_tx` does, at the first field from the left that can't be read. A count of
/// transactions that can't fit in the bytes left, at 10 bytes each, fails with `Fault::Truncated`
/// before memory is allocated for it. `Fault::Memory` is possible only after a count above 0. A
/// failed read leaves the cursor where it was.
pub fn read_block<'a>(alloc: Global, cursor: &mut Cursor<'a>) -> Result<Block, Fault>
    ensures exact { ReadsInMemory (block_at cursor.old) cursor.old result cursor.new }
    // On success, the bytes began with the block's serialisation.
    ensures found { IfOk result
        (λ block. IsBlock block × (cursor.old ≡ block_text block ++ cursor.new)) }
    // The serialisation of any block is read, whatever bytes follow it, unless memory runs out.
    ensures only { (block : Block) (rest : List ℕ) → IsBlock block →
        cursor.old ≡ block_text block ++ rest
        → (result ≡ Err Memory) ⊎ ((result ≡ Ok block) × (cursor.new ≡ rest)) }
    // Nothing is allocated before the count of transactions is read.
    ensures unpaid { (fault : Fault) → first_count_at cursor.old ≡ Err fault → result ≡ Err fault }
    // Nothing is allocated for a count of 0.
    ensures paid { result ≡ Err Memory → TakesMemory cursor.old }
{
    let left = cursor.left();
    let bytes = cursor.take(left)?;
    match block_of(alloc, bytes) {
        Ok((block, rest)) => {
            *cursor = rest;
            Ok(block)
        }
        Err(fault) => {
            *cursor = Cursor::new(bytes);
            Err(fault)
        }
    }
}

#[tactic(auto, unfolding(crate::specs::BlockText::block_text), using(crate::proofs::Appends::appends))]
fn put_block(out: &mut Vec<u8>, block: &Block) -> Result<(), Fault>
    ensures ok { OnOk result (out.new.items ≡ out.old.items ++ block_text block.now) }
    ensures err { OnErr result (Extends out.old.items out.new.items) }
    ensures memory { IsOkUnless result Memory }
    ensures full { OnErr result
        (vec_capacity out.old < vec_len out.old + length (block_text block.now)) }
    ensures capacity { vec_capacity out.old ≤ vec_capacity out.new }
    ensures fits { OnOk result (IsBlock block.now) }
{
    out.extend_from_slice(&block.header.text())?;
    put_items(out, block.txs.as_slice())
}

/// Appends the block's serialisation to `out`.
///
/// Fails only with `Fault::Memory`. `out` then has the bytes it had.
pub fn write_block(out: &mut Vec<u8>, block: &Block) -> Result<(), Fault>
    ensures ok { OnOk result (out.new.items ≡ out.old.items ++ block_text block.now) }
    ensures err { OnErr result (out.new.items ≡ out.old.items) }
    ensures memory { IsOkUnless result Memory }
    // It fails only if the free capacity is smaller than the serialisation.
    ensures full { OnErr result
        (vec_capacity out.old < vec_len out.old + length (block_text block.now)) }
    ensures capacity { vec_capacity out.old ≤ vec_capacity out.new }
    // On success, each number fits its field and each hash has 32 bytes.
    ensures fits { OnOk result (IsBlock block.now) }
{
    // With room for the whole serialisation, no append after this can fail.
    out.reserve(block.size() as usize)?;
    put_block(out, block)
}

impl Block {
    /// The length of its serialisation in bytes, or 2^64 - 1 if it is longer than that.
    #[tactic(auto, unfolding(crate::specs::BlockText::block_text))]
    pub fn size(&self) -> u64
        ensures { result ≡ min (length (block_text self.now)) (2 ^ 64 - 1) }
    {
        let header = self.header.text().as_slice().len() as u64;
        items_size(self.txs.as_slice()).saturating_add(header)
    }

    /// Returns an equal block. It shares the transactions: only their list is allocated.
    ///
    /// Fails only with `Fault::Memory`. A block without transactions never fails.
    pub fn copy(&self, alloc: Global) -> Result<Block, Fault>
        ensures same { IfOk result (λ block. block ≡ self.now) }
        ensures memory { IsOkUnless result Memory }
        ensures unpaid { self.now.txs ≡ [] → IsOk result }
    {
        let mut txs = Vec::with_capacity(alloc, self.txs.as_slice().len())?;
        for tx in self.txs.as_slice() {
            txs.push(tx.clone()?)?;
        }
        Ok(Block {
            header: self.header,
            txs: Txs::new(txs),
        })
    }
}
