ghost use Rattle.std.specs.Prelude.{◌≡◌, ◌<◌, ◌≤◌, ◌^◌, ℕ, false, length, All, IsTrue};
ghost use Rattle.std.specs.FinMap as map;
ghost use Rattle.cb_block.specs.declared.tx.OutPoint.{OutPoint};
ghost use Rattle.cb_ledger.specs.Touched.{IsNamed};
ghost use Rattle.cb_ledger.specs.Undo.{changed, changes_of};
ghost use Rattle.cb_ledger.specs.Unspent.{Unspent};
ghost use Rattle.cb_pool.specs.Leaving.{IsChanged};
ghost use Rattle.cb_block.specs.Txid.{txid_of};
ghost use Rattle.cb_pool.specs.Touching.{AreApart, IsTouchedBy};
ghost use Rattle.cb_pool.specs.Listing.{txs_of};

use crate::pool::Pool;
use cb_base::{Hash256, Seed};
use cb_block::{OutPoint, SoundBlock, Tx, TxIn, TxOut};
use std::collections::HashMap;

/// Whether `coins` has no output that one of these inputs spends.
fn keep_inputs(coins: &HashMap<OutPoint, Option<i64>, Seed>, inputs: &[TxIn]) -> bool
    ensures kept { IsTrue result → (u : Unspent) (point : OutPoint) → IsNamed inputs.now point
        → map.get (changed u (changes_of coins.now.entries)) point ≡ map.get u point }
    ensures seen { result ≡ false →
        (point : OutPoint) × IsNamed inputs.now point × IsChanged coins.now.entries point }
{
    for input in inputs {
        if coins.contains_key(&input.prev) {
            return false;
        }
    }
    true
}

/// Whether `coins` has no output that a transaction with this txid and these outputs makes. An
/// output whose index is above 4,294,967,295 counts as one that `coins` has.
fn keep_outputs(
    coins: &HashMap<OutPoint, Option<i64>, Seed>,
    txid: Hash256,
    outputs: &[TxOut],
) -> bool
    ensures kept { IsTrue result → (u : Unspent) (place : ℕ) → place < length outputs.now
        → map.get (changed u (changes_of coins.now.entries)) (record { txid = txid; index = place })
        ≡ map.get u (record { txid = txid; index = place }) }
    ensures seen { length outputs.now ≤ 2 ^ 32 → result ≡ false
        → (place : ℕ) × (place < length outputs.now)
        × IsChanged coins.now.entries (record { txid = txid; index = place }) }
{
    for place in 0..outputs.len() {
        let Ok(index) = u32::try_from(place) else {
            return false;
        };
        if coins.contains_key(&OutPoint { txid, index }) {
            return false;
        }
    }
    true
}

/// Whether `coins` has no output that the transaction spends or makes.
pub(crate) fn keeps(coins: &HashMap<OutPoint, Option<i64>, Seed>, txid: Hash256, tx: &Tx) -> bool
    requires name { txid ≡ txid_of tx.now }
    ensures kept { IsTrue result → (u : Unspent) (point : OutPoint) → IsTouchedBy tx.now point
        → map.get (changed u (changes_of coins.now.entries)) point ≡ map.get u point }
    ensures seen { length tx.now.outputs ≤ 2 ^ 32 → result ≡ false
        → (point : OutPoint) × IsTouchedBy tx.now point × IsChanged coins.now.entries point }
{
    keep_inputs(coins, tx.inputs.as_slice()) && keep_outputs(coins, txid, tx.outputs.as_slice())
}

impl Pool {
    /// Whether the block and the pool have no output in common: the block's transactions spend or
    /// make no output that a transaction of the pool spends or makes. If so, the pool stays as it
    /// is when the block is connected to the UTXO set for which the pool is valid
    /// (`stays_behind_others`).
    ///
    /// If a transaction of the block has more than 4,294,967,296 outputs, the answer may be false
    /// even though nothing is in common.
    ///
    /// Each input and output of the block is looked up once. The search ends at the first one in
    /// common. Nothing is allocated.
    pub fn is_apart_from(&self, block: &SoundBlock) -> bool
        ensures apart { IsTrue result → AreApart (txs_of self.now.list) block.now.txs }
        ensures seen { AreApart (txs_of self.now.list) block.now.txs →
            All (λ tx. length tx.outputs ≤ 2 ^ 32) block.now.txs → IsTrue result }
    {
        for place in 0..block.block().txs.as_slice().len() {
            let (txid, tx) = (block.txids()[place], &block.block().txs.as_slice()[place]);
            if !self.members.is_apart_from(txid, tx) {
                return false;
            }
        }
        true
    }
}
