ghost use Rattle.std.specs.Prelude.{◌≡◌, ◌⊎◌, ◌<◌, length, slice_get, Err, IfOk, IsOkUnless, MatchResult, Some};
ghost use Rattle.cb_base.specs.declared.fault.Fault.TheVariants.{Memory};
ghost use Rattle.cb_block.specs.Blocks.{MeetsBlockRules};
ghost use Rattle.cb_pool.specs.Leaving.{touched_by};
ghost use Rattle.cb_pool.specs.Rules.{IsUntold, RefusesAlone, StandsAlone};
ghost use Rattle.cb_block.specs.Txid.{txid_of};

use cb_base::{Fault, Hash256, Shared};
use cb_block::{SoundBlock, Tx, check_tx};
use cb_compact::NamedTx;
use std::alloc::{AllocError, Global};
use std::marker::Model;

/// A shared transaction with its txid that passed every check that needs no UTXO set: it breaks no
/// transaction rule, is no coinbase, and its size isn't 64 bytes. Contracts see it as the
/// transaction.
#[derive(Drop)]
pub struct Candidate {
    txid: Hash256,
    tx: Shared<Tx>,
}

impl Model for Candidate {
    ghost use Rattle.std.specs.Prelude.{◌≡◌};
    ghost use Rattle.cb_block.specs.declared.tx.Tx.{Tx};

    ghost Value = { Tx };

    ghost use Rattle.cb_pool.specs.Rules.{StandsAlone};
    ghost use Rattle.cb_block.specs.Txid.{txid_of};

    ghost view = { λ candidate. candidate.tx };

    ghost invariant = { λ candidate. (candidate.txid ≡ txid_of candidate.tx)
        × StandsAlone candidate.tx };
}

impl Candidate {
    /// Checks a transaction on its own and computes its txid, which is never computed again.
    ///
    /// Fails with the first of these:
    /// - `Fault::BadTx` with the first transaction rule that is broken.
    /// - `Fault::BadCoinbase` if it is a coinbase.
    /// - `Fault::Size64` if its size is 64 bytes, as that of two joined hashes of a Merkle tree
    ///   (CVE-2017-12842).
    ///
    /// `Fault::Memory` is returned only if the checks that need no memory pass: the first five
    /// rules, the coinbase check and, with fewer than two inputs, the size check.
    pub fn new(alloc: Global, tx: Shared<Tx>) -> Result<Candidate, Fault>
        ensures same { IfOk result (λ candidate. candidate ≡ tx) }
        ensures exact { MatchResult result (λ _. StandsAlone tx)
            (λ fault. (fault ≡ Memory) ⊎ RefusesAlone tx fault) }
        // Errors that are found without memory come before `Fault::Memory`.
        ensures unpaid { result ≡ Err Memory → IsUntold tx }
    {
        check_tx(alloc, &tx)?;
        if tx.is_coinbase() {
            return Err(Fault::BadCoinbase);
        }
        if tx.size() == 64 {
            return Err(Fault::Size64);
        }
        let txid = tx.txid(alloc)?;
        Ok(Candidate { txid, tx })
    }

    /// The transaction at a place of a block that meets the block rules. The place must not be that
    /// of the coinbase. The transaction and its txid are shared with the block: nothing is checked,
    /// hashed or allocated.
    ///
    /// Fails only with `Fault::Memory`, if the transaction's reference count is full.
    pub fn of_block(block: &SoundBlock, place: usize) -> Result<Candidate, Fault>
        requires rules { MeetsBlockRules block.now }
        requires place { 0 < place }
        requires within { place < length block.now.txs }
        ensures same { IfOk result (λ candidate. slice_get block.now.txs place ≡ Some candidate) }
        ensures memory { IsOkUnless result Memory }
    {
        let txid = block.txids()[place];
        let tx = block.block().txs.as_slice()[place].clone()?;
        Ok(Candidate { txid, tx })
    }

    /// The transaction.
    pub fn tx(&self) -> &Shared<Tx>
        ensures same { result.now ≡ self.now }
        ensures alone { StandsAlone self.now }
    {
        &self.tx
    }

    /// The transaction with its txid, shared. Nothing is allocated. Fails only with
    /// `Fault::Memory`, if the transaction's reference count is full.
    pub(crate) fn named(&self) -> Result<NamedTx, Fault>
        ensures same { IfOk result (λ named. named ≡ self.now) }
        ensures memory { IsOkUnless result Memory }
    {
        let tx = self.tx.clone()?;
        Ok(NamedTx::known(self.txid, tx))
    }

    /// How many outputs the transaction spends or makes: its inputs and outputs together.
    pub(crate) fn touched(&self) -> usize
        ensures { result ≡ touched_by self.now }
    {
        self.tx.inputs.as_slice().len() + self.tx.outputs.as_slice().len()
    }

    /// The transaction's txid.
    pub fn txid(&self) -> Hash256
        ensures { result ≡ txid_of self.now }
    {
        self.txid
    }
}

impl Clone for Candidate {
    ghost is_clone = { λ candidate clone. clone ≡ candidate };

    /// Shares the same transaction. Nothing is allocated.
    fn clone(&self) -> Result<Candidate, AllocError>
        ensures { IfOk result (λ clone. clone ≡ self.now) }
    {
        let tx = self.tx.clone()?;
        Ok(Candidate {
            txid: self.txid,
            tx,
        })
    }
}
