// All functions of this file but the last do nothing: their contracts are theorems.

ghost use Rattle.std.specs.Prelude.{◌≡◌, ◌≢◌, ◌<◌, ◌^◌, ◌⊎◌, ◌↔◌, ◌++◌, ◌+ℤ◌, ◌≤ℤ◌, length, List, All, IsOk, IsTrue, MatchResult, Ok, Err, None};
ghost use Rattle.std.specs.FinMap as map;
ghost use Rattle.cb_base.specs.declared.fault.Fault.TheVariants.{Memory};
ghost use Rattle.cb_block.specs.TxRules.{IsCoinbase, MeetsRules};
ghost use Rattle.cb_block.specs.declared.tx.OutPoint.{OutPoint};
ghost use Rattle.cb_block.specs.declared.tx.Tx.{Tx};
ghost use Rattle.cb_ledger.specs.Spend.{coinbase_value, is_coinbase, spend};
ghost use Rattle.cb_ledger.specs.Touched.{IsMade, IsSpent};
ghost use Rattle.cb_ledger.specs.Unspent.{Unspent, total};

use crate::ledger::Ledger;
use cb_base::Fault;
use cb_block::SoundBlock;

/// What the definition takes for a coinbase is what `Tx::is_coinbase` tells.
pub fn coinbases()
    ensures { (tx : Tx) → IsTrue (is_coinbase tx.inputs) ↔ IsCoinbase tx }
{}

/// Two lists of transactions can be applied one after the other, or as one joined list, with the
/// same result. So the blocks of a chain can be connected one by one.
pub fn one_after_the_other()
    ensures { (before between : Unspent) (txs others : List Tx) → spend before txs ≡ Ok between
        → spend before (txs ++ others) ≡ spend between others }
{}

/// Only coinbases create value. After transactions, the UTXO set is worth at most what it was worth
/// before plus what the coinbases among them create.
pub fn no_value_made()
    ensures { (before after : Unspent) (txs : List Tx) → spend before txs ≡ Ok after
        → total after ≤ℤ (total before +ℤ coinbase_value txs) }
{}

/// What applied transactions do to an outpoint that none of them creates. If none spends it, it is
/// as before. If one spends it, it was unspent before, and no longer is.
pub fn spent_once()
    ensures kept { (before after : Unspent) (txs : List Tx) (point : OutPoint) →
        spend before txs ≡ Ok after
        → ¬ IsSpent txs point → ¬ IsMade txs point → map.get after point ≡ map.get before point }
    ensures spent { (before after : Unspent) (txs : List Tx) (point : OutPoint) →
        spend before txs ≡ Ok after
        → IsSpent txs point → ¬ IsMade txs point →
        (map.get before point ≢ None) × (map.get after point ≡ None) }
{}

/// A transaction that meets its rules has fewer than 2^32 outputs, as `connect` requires.
pub fn few_outputs()
    ensures { (txs : List Tx) → All MeetsRules txs → All (λ tx. length tx.outputs < 2 ^ 32) txs }
{}

/// Connects a block and disconnects it at once. The UTXO set is then as before, whether this
/// succeeds or fails. It succeeds or fails as `connect` would. This is proved from the contracts of
/// the two calls alone.
pub fn there_and_back(ledger: &mut Ledger, block: &SoundBlock) -> Result<(), Fault>
    requires { All (λ tx. length tx.outputs < 2 ^ 32) block.now.txs }
    ensures told { MatchResult result
        (λ _. IsOk (spend ledger.old.unspent block.now.txs))
        (λ fault. (fault ≡ Memory) ⊎ (spend ledger.old.unspent block.now.txs ≡ Err fault)) }
    ensures same { ledger.new.unspent ≡ ledger.old.unspent }
{
    let undo = ledger.connect(block)?;
    match ledger.disconnect(block, undo) {
        Ok(()) => Ok(()),
        Err((_, fault)) => Err(fault),
    }
}
