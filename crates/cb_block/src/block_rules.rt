ghost use Rattle.std.specs.Prelude.{◌≡◌, ◌≤◌, ◌⊎◌, ◌↔◌, length, All, IsTrue, MatchResult, Err};
ghost use Rattle.cb_base.specs.declared.fault.Fault.TheVariants.{BadTx, Memory};
ghost use Rattle.cb_base.specs.declared.fault.TxRule.{TxRule};
ghost use Rattle.cb_block.specs.TxRules.{MeetsRules};
ghost use Rattle.cb_block.specs.Blocks.{AsksMemory, BreaksFirst, HasOneCoinbase, IsRefused, MeetsBlockRules};
ghost use Rattle.cb_block.specs.BlockText.{block_text};

use crate::soundness::SoundBlock;
use crate::tx::Tx;
use crate::tx_rules::check_tx;
use cb_base::{Fault, Shared};
use std::alloc::Global;

/// Whether the first transaction is a coinbase, and no other is.
fn has_one_coinbase(txs: &[Shared<Tx>]) -> bool
    ensures { IsTrue result ↔ HasOneCoinbase txs.now }
{
    match txs {
        [] => false,
        [first, others @ ..] => first.is_coinbase() && !others.iter().any(|tx| tx.is_coinbase()),
    }
}

/// Checks the rules of each transaction. Fails with the first fault of the first transaction that
/// breaks one.
fn check_txs(alloc: Global, txs: &[Shared<Tx>]) -> Result<(), Fault>
    ensures exact { MatchResult result (λ _. All MeetsRules txs.now)
        (λ fault. (fault ≡ Memory)
        ⊎ ((rule : TxRule) × (fault ≡ BadTx rule) × BreaksFirst txs.now rule)) }
    ensures paid { result ≡ Err Memory → AsksMemory txs.now }
{
    for tx in txs {
        check_tx(alloc, tx)?;
    }
    Ok(())
}

/// Checks the rules that a block must meet by itself, without the UTXO set.
///
/// Fails with the first that is broken: `Fault::Oversize` if the block has more than 1,000,000
/// bytes, `Fault::BadCoinbase` if the first transaction isn't a coinbase or a later one is, then
/// the fault of the first transaction that `check_tx` refuses. Only that call can fail with
/// `Fault::Memory`.
pub fn check_block(alloc: Global, block: &SoundBlock) -> Result<(), Fault>
    ensures exact { MatchResult result (λ _. MeetsBlockRules block.now)
        (λ fault. (fault ≡ Memory) ⊎ IsRefused block.now fault) }
    // Size and coinbase are checked without allocating.
    ensures unpaid { result ≡ Err Memory →
        (length (block_text block.now) ≤ 1000000) × HasOneCoinbase block.now.txs }
    // Only a transaction with two inputs or more allocates. It is checked only if all transactions
    // before it meet their rules.
    ensures paid { result ≡ Err Memory → AsksMemory block.now.txs }
{
    let block = block.block();
    if block.size() > 1_000_000 {
        return Err(Fault::Oversize);
    }
    if !has_one_coinbase(block.txs.as_slice()) {
        return Err(Fault::BadCoinbase);
    }
    check_txs(alloc, block.txs.as_slice())
}
