ghost use Rattle.std.specs.Prelude.{◌≡◌, ℕ, ◌^◌, ◌<◌, ◌≤◌, length, map, All, IfOk, IsOkUnless};
ghost use Rattle.cb_base.specs.declared.fault.Fault.TheVariants.{Memory};
ghost use Rattle.cb_block.specs.Blocks.{MeetsBlockRules};
ghost use Rattle.cb_compact.specs.ShortIds.{short_id_of};
ghost use Rattle.cb_wire.specs.CompactBlocks.{compact_block_text};
ghost use Rattle.cb_compact.specs.Sizes.{SpendsByHash};
ghost use Rattle.cb_compact.specs.Shortening.{behind_first, shortened_of, whole_first};

use crate::short_ids::{key, short_id};
use cb_base::{Fault, Hash256, Shared};
use cb_block::{SoundBlock, Tx};
use cb_wire::{CompactTxs, HeaderAndShortIds, PrefilledTransaction};
use std::alloc::Global;

/// The short ids of all txids but the first, in order. Fails only with `Fault::Memory`.
fn ids_behind(alloc: Global, key: (u64, u64), txids: &[Hash256]) -> Result<Vec<u64>, Fault>
    ensures same { IfOk result
        (λ ids. ids.items ≡ map (short_id_of key) (behind_first txids.now)) }
    ensures low { IfOk result (λ ids. All (λ id. id < 2 ^ 48) ids.items) }
    ensures memory { IsOkUnless result Memory }
{
    let Some((_first, others)) = txids.split_first() else {
        return Ok(Vec::new(alloc));
    };
    let mut ids = Vec::with_capacity(alloc, others.len())?;
    for txid in others {
        ids.push(short_id(key, txid))?;
    }
    Ok(ids)
}

/// The first transaction, prefilled. Fails only with `Fault::Memory`.
fn first_whole(alloc: Global, txs: &[Shared<Tx>]) -> Result<Vec<PrefilledTransaction>, Fault>
    ensures same { IfOk result (λ prefilled. prefilled.items ≡ whole_first txs.now) }
    ensures memory { IsOkUnless result Memory }
{
    let Some((first, _others)) = txs.split_first() else {
        return Ok(Vec::new(alloc));
    };
    let tx = first.clone()?;
    let mut prefilled = Vec::with_capacity(alloc, 1)?;
    prefilled.push(PrefilledTransaction { difference: 0, tx })?;
    Ok(prefilled)
}

/// Reads the hash of a transaction's first input, so that the prover knows that it has 32 bytes.
fn see_hash(tx: &Tx)
    ensures { SpendsByHash tx.now }
{
    let inputs = tx.inputs.as_slice();
    if !inputs.is_empty() {
        let _bytes = inputs[0].prev.txid.bytes();
    }
}

/// The same for each transaction. So each has at least 60 bytes, and a block at most 16,666 of
/// them.
fn see_hashes(txs: &[Shared<Tx>])
    ensures { All SpendsByHash txs.now }
{
    for tx in txs {
        see_hash(tx);
    }
}

/// Makes the `cmpctblock` of a block (BIP 152): its first transaction is prefilled, and all others
/// are short ids under the nonce. No transaction is hashed or copied. It fits in a message: at most
/// 4,000,000 bytes.
///
/// Fails only with `Fault::Memory`.
#[tactic(auto, unfolding(crate::specs::Shortening::shortened_of))]
pub fn shortened(alloc: Global, block: &SoundBlock, nonce: u64) -> Result<HeaderAndShortIds, Fault>
    requires { MeetsBlockRules block.now }
    ensures same { IfOk result (λ form. form ≡ shortened_of block.now nonce) }
    ensures fits { IfOk result (λ form. length (compact_block_text form) ≤ 4000000) }
    ensures memory { IsOkUnless result Memory }
{
    let txs = block.block().txs.as_slice();
    see_hashes(txs);
    let header = block.block().header;
    let ids = ids_behind(alloc, key(&header, nonce), block.txids())?;
    let prefilled = first_whole(alloc, txs)?;
    Ok(HeaderAndShortIds {
        header,
        nonce,
        txs: CompactTxs::from_few(ids, prefilled),
    })
}
