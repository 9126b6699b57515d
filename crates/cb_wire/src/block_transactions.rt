//! The payloads of `getblocktxn` and `blocktxn` (BIP 152).
ghost use Rattle.std.specs.Prelude.{◌≡◌, ◌-◌, ◌^◌, ◌<◌, ◌≤◌, [], ◌++◌, length, min, IfOk, IsOk, IsOkUnless, OnErr, OnOk, Ok, Err};
ghost use Rattle.cb_base.specs.CompactSize.{compact_text};
ghost use Rattle.cb_base.specs.declared.fault.Fault.{Fault};
ghost use Rattle.cb_base.specs.declared.fault.Fault.TheVariants.{Memory};
ghost use Rattle.cb_block.specs.TxReading.{GivesInMemory};
ghost use Rattle.cb_block.specs.TxText.{list_text};
ghost use Rattle.cb_wire.specs.BlockTransactions.{BlockTxsTakesMemory, IsBlockTxs, IsTxsRequest, TxsRequestTakesMemory, block_txs_at, block_txs_count_at, block_txs_text, txs_request_at, txs_request_count_at, txs_request_text};
ghost use Rattle.cb_block.specs.TxWriting.{Extends};

use crate::listed::Listed;
use crate::lists::read_list;
use crate::short_form::MOST_BLOCK_TXS;
use crate::tx_lists::share_tx_items;
use cb_base::{Cursor, Fault, Hash256};
use cb_block::{Txs, items_size, put_items, read_hash, read_items};
use std::alloc::Global;

/// Indexes of a block's transactions, differentially encoded as in BIP 152. The first is the index
/// itself. Each further one is the number of places between it and the one before.
pub type Differences = Listed<u64, MOST_BLOCK_TXS>;

/// The payload of `getblocktxn` (BIP 152, BlockTransactionsRequest): a request for some of a
/// block's transactions.
#[derive(Drop)]
pub struct BlockTransactionsRequest {
    /// The block's hash.
    pub block: Hash256,
    /// The indexes of the requested transactions.
    pub differences: Differences,
}

/// The payload of `blocktxn` (BIP 152, BlockTransactions): some of a block's transactions. Each
/// transaction may be shared with other owners.
#[derive(Drop)]
pub struct BlockTransactions {
    /// The block's hash.
    pub block: Hash256,
    /// The requested transactions, in the order of the request.
    pub txs: Txs,
}

/// Reads the payload of a `getblocktxn` (BIP 152): the block's hash, then a count and at most
/// 16,666 differences.
///
/// Fails with `Fault::Truncated` if bytes of the hash are missing, and with the faults of
/// `read_list`. After an error the cursor may stand anywhere.
#[tactic(auto, unfolding(crate::specs::BlockTransactions::txs_request_at, crate::specs::BlockTransactions::txs_request_count_at))]
pub fn read_txs_request(
    alloc: Global,
    cursor: &mut Cursor,
) -> Result<BlockTransactionsRequest, Fault>
    ensures exact { GivesInMemory (txs_request_at cursor.old) result cursor.new }
    // No memory is allocated before the count has been read.
    ensures unpaid { (fault : Fault) → txs_request_count_at cursor.old ≡ Err fault →
        result ≡ Err fault }
    // A count of 0 allocates nothing.
    ensures paid { result ≡ Err Memory → TxsRequestTakesMemory cursor.old }
{
    let block = read_hash(cursor)?;
    let differences = read_list(alloc, cursor)?;
    Ok(BlockTransactionsRequest { block, differences })
}

/// Appends the payload of a `getblocktxn` to `out`. Fails only with `Fault::Memory`; `out` may then
/// end with a part of the payload, behind what it had.
#[tactic(auto, unfolding(crate::specs::BlockTransactions::txs_request_text), using(cb_block::proofs::Appends::appends))]
pub fn put_txs_request(out: &mut Vec<u8>, request: &BlockTransactionsRequest) -> Result<(), Fault>
    ensures ok { OnOk result (out.new.items ≡ out.old.items ++ txs_request_text request.now) }
    ensures err { OnErr result (Extends out.old.items out.new.items) }
    ensures memory { IsOkUnless result Memory }
    ensures kept { OnOk result (IsTxsRequest request.now) }
{
    out.extend_from_slice(request.block.bytes())?;
    put_items(out, request.differences.as_slice())
}

/// Reads the payload of a `blocktxn` (BIP 152): the block's hash, then a count and that many
/// transactions.
///
/// The first field from the left that can't be read gives the error: `Fault::Truncated` if bytes
/// are missing, `Fault::NotShortest` if a count or a length isn't in its shortest form. A count is
/// `Fault::Truncated` at once, before anything is allocated, if its transactions don't fit in the
/// remaining bytes at 10 bytes each. `Fault::Memory` is possible only if the count isn't 0. After
/// an error the cursor may stand anywhere.
#[tactic(auto, unfolding(crate::specs::BlockTransactions::block_txs_at, crate::specs::BlockTransactions::block_txs_count_at))]
pub fn read_block_txs(alloc: Global, cursor: &mut Cursor) -> Result<BlockTransactions, Fault>
    ensures exact { GivesInMemory (block_txs_at cursor.old) result cursor.new }
    // No memory is allocated before the count has been read.
    ensures unpaid { (fault : Fault) → block_txs_count_at cursor.old ≡ Err fault →
        result ≡ Err fault }
    // A count of 0 allocates nothing.
    ensures paid { result ≡ Err Memory → BlockTxsTakesMemory cursor.old }
{
    let block = read_hash(cursor)?;
    let txs = read_items(alloc, cursor)?;
    Ok(BlockTransactions {
        block,
        txs: Txs::new(txs),
    })
}

/// Appends the payload of a `blocktxn` to `out`. Fails only with `Fault::Memory`; `out` may then
/// end with a part of the payload, behind what it had.
#[tactic(auto, unfolding(crate::specs::BlockTransactions::block_txs_text), using(cb_block::proofs::Appends::appends))]
pub fn put_block_txs(out: &mut Vec<u8>, txs: &BlockTransactions) -> Result<(), Fault>
    ensures ok { OnOk result (out.new.items ≡ out.old.items ++ block_txs_text txs.now) }
    ensures err { OnErr result (Extends out.old.items out.new.items) }
    ensures memory { IsOkUnless result Memory }
    ensures kept { OnOk result (IsBlockTxs txs.now) }
{
    out.extend_from_slice(txs.block.bytes())?;
    put_items(out, txs.txs.as_slice())
}

impl BlockTransactionsRequest {
    /// The length of the payload in bytes, at most 150,035.
    #[tactic(auto, unfolding(crate::specs::BlockTransactions::txs_request_text))]
    pub fn size(&self) -> u64
        ensures size { result ≡ length (txs_request_text self.now) }
        ensures limit { result ≤ 150035 }
    {
        differences_size(&self.differences) + self.block.bytes().len() as u64
    }

    /// An equal request. Fails only with `Fault::Memory`; a request without differences allocates
    /// nothing.
    pub fn copy(&self, alloc: Global) -> Result<BlockTransactionsRequest, Fault>
        ensures equal { IfOk result (λ copy. copy ≡ self.now) }
        ensures memory { IsOkUnless result Memory }
        ensures unpaid { length self.now.differences ≡ 0 → IsOk result }
    {
        Ok(BlockTransactionsRequest {
            block: self.block,
            differences: self.differences.copy(alloc)?,
        })
    }
}

/// The length of the count and the differences in bytes, at most 150,003.
fn differences_size(differences: &Differences) -> u64
    ensures size { result ≡ length (list_text compact_text differences.now) }
    ensures limit { result ≤ 150003 }
{
    items_size(differences.as_slice())
}

impl BlockTransactions {
    /// The length of the payload in bytes, or 2^64 - 1 if it is longer.
    #[tactic(auto, unfolding(crate::specs::BlockTransactions::block_txs_text))]
    pub fn size(&self) -> u64
        ensures { result ≡ min (length (block_txs_text self.now)) (2 ^ 64 - 1) }
    {
        let block = self.block.bytes().len() as u64;
        items_size(self.txs.as_slice()).saturating_add(block)
    }

    /// An equal list that shares the transactions. Only the list itself is allocated.
    ///
    /// Fails only with `Fault::Memory`: an allocation failed, or a transaction has 2^63 owners. An
    /// empty list can't fail.
    pub fn copy(&self, alloc: Global) -> Result<BlockTransactions, Fault>
        ensures equal { IfOk result (λ copy. copy ≡ self.now) }
        ensures memory { IsOkUnless result Memory }
        ensures unpaid { self.now.txs ≡ [] → IsOk result }
    {
        Ok(BlockTransactions {
            block: self.block,
            txs: Txs::new(share_tx_items(alloc, self.txs.as_slice())?),
        })
    }
}
