//! Reading values that are all of some bytes.
ghost use Rattle.std.specs.Prelude.{◌≡◌, ◌<◌, ◌⊎◌, true, length, IfOk, MatchResult, Ok, Err};
ghost use Rattle.cb_base.specs.declared.fault.Fault.{Fault};
ghost use Rattle.cb_base.specs.declared.fault.Fault.TheVariants.{Memory};
ghost use Rattle.cb_block.specs.BlockReading as blocks;
ghost use Rattle.cb_wire.specs.BlockTransactions.{BlockTxsTakesMemory, TxsRequestTakesMemory, block_txs_at, block_txs_count_at, txs_request_at, txs_request_count_at};
ghost use Rattle.cb_wire.specs.CompactBlocks.{CompactBlockTakesMemory, compact_block_at, compact_block_count_at};
ghost use Rattle.cb_wire.specs.RoundTrip.{Gives};
ghost use Rattle.cb_compact.specs.Places.{has_places};
ghost use Rattle.cb_relay.specs.WholeMessages.{all_of, form_in, txs_in};
ghost use Rattle.cb_block.specs.TxReading.{CountsSome, count_at};
ghost use Rattle.cb_wire.specs.Grammar.{whole};

use cb_base::{Cursor, Fault, Shared};
use cb_block::{Block, Tx, read_block, read_items};
use cb_compact::check_places;
use cb_wire::{
    BlockTransactions, BlockTransactionsRequest, HeaderAndShortIds, read_block_txs,
    read_compact_block, read_txs_request,
};
use std::alloc::Global;

/// The value, if all bytes have been read. Fails with `Fault::Trailing` if some are left.
pub(crate) fn whole<T: Drop>(value: T, cursor: &Cursor) -> Result<T, Fault>
    ensures { result ≡ whole (value, cursor.now) }
{
    if cursor.left() > 0 {
        return Err(Fault::Trailing);
    }
    Ok(value)
}

/// Reads the block that is all of these bytes.
pub(crate) fn whole_block(alloc: Global, bytes: &[u8]) -> Result<Block, Fault>
    ensures exact { Gives (all_of (blocks.block_at bytes.now)) result }
    ensures unpaid { (fault : Fault) → blocks.first_count_at bytes.now ≡ Err fault →
        result ≡ Err fault }
    ensures paid { result ≡ Err Memory → blocks.TakesMemory bytes.now }
{
    let mut cursor = Cursor::new(bytes);
    whole(read_block(alloc, &mut cursor)?, &cursor)
}

/// Reads the transactions that are all of these bytes: their count, then each.
pub(crate) fn whole_txs(alloc: Global, bytes: &[u8]) -> Result<Vec<Shared<Tx>>, Fault>
    ensures exact { MatchResult result (λ txs. txs_in bytes.now ≡ Ok txs.items)
        (λ fault. (fault ≡ Memory) ⊎ (txs_in bytes.now ≡ Err fault)) }
{
    let mut cursor = Cursor::new(bytes);
    let txs = read_items(alloc, &mut cursor)?;
    if cursor.left() > 0 {
        return Err(Fault::Trailing);
    }
    Ok(txs)
}

/// Reads the compact block (BIP 152, HeaderAndShortIDs) that is all of these bytes.
pub(crate) fn whole_compact(alloc: Global, bytes: &[u8]) -> Result<HeaderAndShortIds, Fault>
    ensures exact { Gives (all_of (compact_block_at bytes.now)) result }
    ensures unpaid { (fault : Fault) → compact_block_count_at bytes.now ≡ Err fault →
        result ≡ Err fault }
    ensures paid { result ≡ Err Memory → CompactBlockTakesMemory bytes.now }
    // It has a transaction, so memory was asked for.
    ensures some { IfOk result (λ _. CompactBlockTakesMemory bytes.now) }
{
    let mut cursor = Cursor::new(bytes);
    let form = read_compact_block(alloc, &mut cursor)?;
    whole(form, &cursor)
}

/// Reads the compact block that is all of these bytes, and checks that its prefilled transactions
/// have places in it.
#[tactic(auto, unfolding(crate::specs::WholeMessages::form_in))]
pub(crate) fn whole_form(alloc: Global, bytes: &[u8]) -> Result<HeaderAndShortIds, Fault>
    ensures exact { Gives (form_in bytes.now) result }
    ensures places { IfOk result (λ form. has_places form.txs ≡ true) }
    ensures unpaid { (fault : Fault) → compact_block_count_at bytes.now ≡ Err fault →
        result ≡ Err fault }
    ensures paid { result ≡ Err Memory → CompactBlockTakesMemory bytes.now }
    ensures some { IfOk result (λ _. CompactBlockTakesMemory bytes.now) }
{
    let form = whole_compact(alloc, bytes)?;
    check_places(&form.txs)?;
    Ok(form)
}

/// Reads the request for transactions (BIP 152, BlockTransactionsRequest) that is all of these
/// bytes.
pub(crate) fn whole_request(alloc: Global, bytes: &[u8]) -> Result<BlockTransactionsRequest, Fault>
    ensures exact { Gives (all_of (txs_request_at bytes.now)) result }
    ensures unpaid { (fault : Fault) → txs_request_count_at bytes.now ≡ Err fault →
        result ≡ Err fault }
    ensures paid { result ≡ Err Memory → TxsRequestTakesMemory bytes.now }
{
    let mut cursor = Cursor::new(bytes);
    whole(read_txs_request(alloc, &mut cursor)?, &cursor)
}

/// Reads the transactions of a block (BIP 152, BlockTransactions) that are all of these bytes.
pub(crate) fn whole_block_txs(alloc: Global, bytes: &[u8]) -> Result<BlockTransactions, Fault>
    ensures exact { Gives (all_of (block_txs_at bytes.now)) result }
    ensures unpaid { (fault : Fault) → block_txs_count_at bytes.now ≡ Err fault →
        result ≡ Err fault }
    ensures paid { result ≡ Err Memory → BlockTxsTakesMemory bytes.now }
{
    let mut cursor = Cursor::new(bytes);
    whole(read_block_txs(alloc, &mut cursor)?, &cursor)
}
