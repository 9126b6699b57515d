//! Answering a request for some of a block's transactions.
ghost use Rattle.std.specs.Prelude.{◌≡◌, ◌⊎◌, length, slice_get, IfOk, IsOkUnless, MatchResult, Ok, Err};
ghost use Rattle.cb_base.specs.declared.fault.Fault.{Fault};
ghost use Rattle.cb_base.specs.declared.fault.Fault.TheVariants.{Memory};
ghost use Rattle.cb_block.specs.BlockReading.{first_count_at};
ghost use Rattle.cb_relay.specs.Serving.{ServingTakesMemory, served_in, served_of, txs_at};

use crate::whole::{whole_block, whole_request};
use cb_base::{Fault, Shared};
use cb_block::{Tx, Txs};
use cb_compact::undiffer;
use cb_wire::{BlockTransactions, BlockTransactionsRequest, put_block_txs};
use std::alloc::Global;

/// The transaction at a place, if there is one. Fails only with `Fault::Memory`.
fn tx_at(txs: &[Shared<Tx>], place: u64) -> Result<Option<Shared<Tx>>, Fault>
    ensures same { IfOk result (λ tx. tx ≡ slice_get txs.now place) }
    ensures memory { IsOkUnless result Memory }
{
    match txs.get(place as usize) {
        Some(tx) => Ok(Some(tx.clone()?)),
        None => Ok(None),
    }
}

/// The transactions at these places, in order. A place outside the list is skipped. Fails only with
/// `Fault::Memory`.
fn txs_at(alloc: Global, txs: &[Shared<Tx>], places: &[u64]) -> Result<Vec<Shared<Tx>>, Fault>
    ensures exact { IfOk result (λ list. list.items ≡ txs_at txs.now places.now) }
    ensures memory { IsOkUnless result Memory }
{
    let mut list = Vec::with_capacity(alloc, places.len())?;
    for place in places {
        if let Some(tx) = tx_at(txs, *place)? {
            list.push(tx)?;
        }
    }
    Ok(list)
}

/// The payload of the `blocktxn` with the transactions that are asked for.
fn served_of(
    alloc: Global,
    txs: &[Shared<Tx>],
    asked: &BlockTransactionsRequest,
) -> Result<Vec<u8>, Fault>
    ensures exact { MatchResult result (λ text. served_of txs.now asked.now ≡ Ok text.items)
        (λ fault. (fault ≡ Memory) ⊎ (served_of txs.now asked.now ≡ Err fault)) }
{
    let places = undiffer(alloc, asked.differences.as_slice(), txs.len() as u64)?;
    let list = txs_at(alloc, txs, places.as_slice())?;
    let part = BlockTransactions {
        block: asked.block,
        txs: Txs::new(list),
    };
    let mut text = Vec::new(alloc);
    put_block_txs(&mut text, &part)?;
    Ok(text)
}

/// The payload of the `blocktxn` (BIP 152, BlockTransactions) that answers a `getblocktxn` from its
/// block. It has the hash that the request names; whether that is the block's isn't compared, nor
/// whether the block is sound.
///
/// Fails with the fault of the block, then that of the request (`TooMany` above 16,666 indexes),
/// then `BadIndex` if the block has no transaction at a place that is asked for. `Memory` is
/// possible only if the block counts transactions, or behind the block.
#[tactic(auto, unfolding(crate::specs::Serving::served_in))]
pub fn block_transactions(alloc: Global, block: &[u8], request: &[u8]) -> Result<Vec<u8>, Fault>
    ensures exact { MatchResult result (λ text. served_in block.now request.now ≡ Ok text.items)
        (λ fault. (fault ≡ Memory) ⊎ (served_in block.now request.now ≡ Err fault)) }
    // Nothing is allocated before the block's count of transactions is read.
    ensures unpaid { (fault : Fault) → first_count_at block.now ≡ Err fault → result ≡ Err fault }
    ensures paid { result ≡ Err Memory → ServingTakesMemory block.now }
{
    let read = whole_block(alloc, block)?;
    let asked = whole_request(alloc, request)?;
    served_of(alloc, read.txs.as_slice(), &asked)
}
