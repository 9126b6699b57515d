ghost use Rattle.std.specs.Prelude.{◌≡◌, ◌⊎◌, ◌==◌, ◌≤◌, [], length, slice_get, Err, IfOk, IsOk, IsOkUnless, IsTrue, MatchOption, MatchResult, None, Some};
ghost use Rattle.cb_base.specs.declared.fault.Fault.TheVariants.{Memory};
ghost use Rattle.cb_ledger.specs.Spend.{spend};
ghost use Rattle.cb_pool.specs.Listing.{since_of, txs_of, with_last};
ghost use Rattle.cb_compact.specs.Matching.{pairs_of};
ghost use Rattle.cb_pool.specs.Rules.{Applies, IsUntold, Refuses, is_named_in, named_in};
ghost use Rattle.cb_pool.specs.Values.{IsValueAfter};

use crate::candidate::Candidate;
use crate::members::Members;
use cb_base::{Fault, Hash256, Seed, Shared};
use cb_block::{OutPoint, Tx};
use cb_compact::{NamedTx, Pairs, ShortIds};
use cb_ledger::Ledger;
use std::alloc::Global;
use std::marker::Model;

/// The mempool: transactions that wait for a block, each with its arrival number. Over the UTXO set
/// that it is used with, each of them can be spent after those before it. A new transaction comes
/// last; refolding may put others first. Contracts see it as the list of them and the number that
/// the next one gets.
///
/// The transactions are shared and never copied, and each is hashed once.
pub struct Pool {
    pub(crate) alloc: Global,
    pub(crate) members: Members,
    pub(crate) next: u64,
    // All transactions with their txids: built by the first call of `pairs` and kept until the pool
    // changes.
    pub(crate) named: Option<Shared<Vec<NamedTx>>>,
}

impl Model for Pool {
    ghost use Rattle.std.specs.Prelude.{◌≡◌, IfSome};
    ghost use Rattle.cb_pool.specs.Listing.{Listing};

    ghost Value = { Listing };

    ghost use Rattle.cb_pool.specs.Listing.{AreNumbered, txs_of};

    ghost view = { λ pool. record { list = pool.members.list; next = pool.next } };

    ghost invariant = { λ pool. AreNumbered pool.members.list pool.next
        × IfSome pool.named (λ named. named.items ≡ txs_of pool.members.list) };
}

impl Drop for Pool {
    fn drop(self) {
        let Pool {
            alloc: _,
            members: _,
            next: _,
            named: _,
        } = self;
    }
}

impl Pool {
    /// An empty pool. The first transaction gets the number 0. Its tables have this seed, which
    /// changes no result.
    pub fn with_seed(alloc: Global, seed: Seed) -> Pool
        ensures list { result.list ≡ [] }
        ensures next { result.next ≡ 0 }
    {
        Pool {
            alloc,
            members: Members::new(alloc, seed),
            next: 0,
            named: None,
        }
    }

    /// Appends a transaction and returns its arrival number. The pool's transactions must be
    /// spendable in order over `ledger`.
    ///
    /// Fails with the first of these; the pool is then unchanged:
    /// - `Fault::BadTx` with the first transaction rule that is broken.
    /// - `Fault::BadCoinbase` if it is a coinbase.
    /// - `Fault::Size64` if its size is 64 bytes (CVE-2017-12842).
    /// - `Fault::Known` if the pool has a transaction with the same txid.
    /// - `Fault::NoInput` if an input's output isn't unspent after the pool's transactions.
    /// - `Fault::Overspent` if its outputs are worth more than its inputs.
    /// - `Fault::Remade` if one of its outputs is already unspent.
    /// - `Fault::PoolFull` if the pool has 10,000 transactions.
    ///
    /// `Fault::Memory` leaves the pool unchanged, too. It comes only if the checks that need no
    /// memory pass, as in `Candidate::new`.
    ///
    /// The numbers count up by one. After 18,446,744,073,709,551,615 the same number comes again.
    pub fn insert(&mut self, ledger: &Ledger, tx: Shared<Tx>) -> Result<u64, Fault>
        requires { IsOk (spend ledger.now.unspent (txs_of self.old.list)) }
        ensures exact { MatchResult result
            (λ number. Applies ledger.now.unspent (txs_of self.old.list) tx
            × (number ≡ self.old.next) × (self.new ≡ with_last self.old tx))
            (λ fault. ((fault ≡ Memory)
            ⊎ Refuses ledger.now.unspent (txs_of self.old.list) tx fault) × (self.new ≡ self.old)) }
        ensures applies { IsOk (spend ledger.now.unspent (txs_of self.new.list)) }
        // Errors that are found without memory come before `Fault::Memory`.
        ensures unpaid { result ≡ Err Memory → IsUntold tx }
    {
        let candidate = Candidate::new(self.alloc, tx)?;
        self.insert_candidate(ledger, candidate)
    }

    /// Appends a transaction that was already checked on its own, and returns its number. It works
    /// as `insert`, from `Fault::Known` on: the transaction is neither checked on its own nor
    /// hashed again. A failure leaves the pool unchanged.
    ///
    /// `Fault::Memory` is returned only if nothing else speaks against the transaction.
    pub fn insert_candidate(&mut self, ledger: &Ledger, candidate: Candidate) -> Result<u64, Fault>
        requires { IsOk (spend ledger.now.unspent (txs_of self.old.list)) }
        ensures exact { MatchResult result
            (λ number. Applies ledger.now.unspent (txs_of self.old.list) candidate
            × (number ≡ self.old.next) × (self.new ≡ with_last self.old candidate))
            (λ fault. ((fault ≡ Memory)
            ⊎ Refuses ledger.now.unspent (txs_of self.old.list) candidate fault)
            × (self.new ≡ self.old)) }
        ensures applies { IsOk (spend ledger.now.unspent (txs_of self.new.list)) }
        ensures unpaid { result ≡ Err Memory →
            Applies ledger.now.unspent (txs_of self.old.list) candidate }
    {
        if let Some(fault) = self.members.fault_of(ledger, &candidate) {
            return Err(fault);
        }
        self.members.reserve(1, candidate.touched())?;
        let number = self.next;
        self.members.push(candidate, number);
        self.next = number.saturating_add(1);
        self.named = None;
        Ok(number)
    }

    /// Why `insert_candidate` would refuse a transaction that was checked on its own; `None` if it
    /// would append it, or lack memory for it. Nothing is allocated.
    pub fn refusal(&self, ledger: &Ledger, candidate: &Candidate) -> Option<Fault>
        requires { IsOk (spend ledger.now.unspent (txs_of self.now.list)) }
        ensures { MatchOption result
            (Applies ledger.now.unspent (txs_of self.now.list) candidate.now)
            (λ fault. Refuses ledger.now.unspent (txs_of self.now.list) candidate.now fault) }
    {
        self.members.fault_of(ledger, candidate)
    }

    /// The value in satoshis of an output that is unspent after the pool's transactions; `None` if
    /// it isn't. They must be spendable in order over `ledger`.
    pub fn value(&self, ledger: &Ledger, point: &OutPoint) -> Option<i64>
        requires { IsOk (spend ledger.now.unspent (txs_of self.now.list)) }
        ensures { IsValueAfter ledger.now.unspent (txs_of self.now.list) point.now result }
    {
        self.members.value(ledger, point)
    }

    /// The transaction with this txid.
    pub fn get(&self, txid: &Hash256) -> Option<&Candidate>
        ensures { MatchOption result (named_in (txs_of self.now.list) txid.now ≡ None)
            (λ tx. named_in (txs_of self.now.list) txid.now ≡ Some tx.now) }
    {
        self.members.get(txid)
    }

    /// Whether the pool has a transaction with this txid.
    pub fn contains(&self, txid: &Hash256) -> bool
        ensures { result ≡ is_named_in (txs_of self.now.list) txid.now }
    {
        self.members.get(txid).is_some()
    }

    /// The transaction at a place of the list, counted from 0.
    pub fn at(&self, place: usize) -> Option<&Candidate>
        ensures { MatchOption result (slice_get (txs_of self.now.list) place ≡ None)
            (λ tx. slice_get (txs_of self.now.list) place ≡ Some tx.now) }
    {
        self.members.at(place)
    }

    /// The number of transactions, at most 10,000.
    pub fn len(&self) -> usize
        ensures len { result ≡ length self.now.list }
        ensures few { result ≤ 10000 }
    {
        self.members.len()
    }

    /// Whether the pool has no transactions.
    pub fn is_empty(&self) -> bool
        ensures { result ≡ (length self.now.list == 0) }
    {
        self.len() == 0
    }

    /// The arrival number that the next transaction gets.
    pub fn next_number(&self) -> u64
        ensures { result ≡ self.now.next }
    {
        self.next
    }

    /// Whether the next number alone shows that each transaction's number is below `number`. A
    /// caller that has seen them all can then ask again and again without a walk over the pool.
    fn is_before(&self, number: u64) -> bool
        ensures { IsTrue result → since_of self.now.list number ≡ [] }
    {
        self.next < u64::MAX && self.next <= number
    }

    /// The txids of the transactions whose number is at least `number`, in the pool's order. Fails
    /// only with `Fault::Memory`, and never if there are no such transactions.
    pub fn since(&self, number: u64) -> Result<Vec<Hash256>, Fault>
        ensures exact { IfOk result (λ txids. txids.items ≡ since_of self.now.list number) }
        ensures none { since_of self.now.list number ≡ [] → IsOk result }
        ensures memory { IsOkUnless result Memory }
    {
        let mut txids = Vec::new(self.alloc);
        if self.is_before(number) {
            return Ok(txids);
        }
        for pooled in self.members.entries.values() {
            if number <= pooled.number {
                txids.push(pooled.tx.txid())?;
            }
        }
        Ok(txids)
    }

    /// The transactions whose short ids under `key` are among `ids` (BIP 152), in the pool's order,
    /// each with its short id, as the pool is now. No transaction is hashed or copied. The matching
    /// itself is done by `Pairs::list`.
    ///
    /// The first call after a change builds a list of all transactions, which the pool keeps until
    /// it changes. Further calls allocate nothing. Fails only with `Fault::Memory`. The call never
    /// changes what contracts see of the pool.
    pub fn pairs(&mut self, key: (u64, u64), ids: &Shared<ShortIds>) -> Result<Pairs, Fault>
        ensures exact { IfOk result (λ pairs. pairs ≡ pairs_of key ids.now (txs_of self.old.list)) }
        ensures same { self.new ≡ self.old }
        ensures memory { IsOkUnless result Memory }
    {
        let txs = self.shared_list()?;
        Ok(Pairs::new(txs, key, ids.clone()?))
    }

    /// The shared list of all transactions with their txids. It is built if the pool has none.
    fn shared_list(&mut self) -> Result<Shared<Vec<NamedTx>>, Fault>
        ensures exact { IfOk result (λ txs. txs.items ≡ txs_of self.old.list) }
        ensures same { self.new ≡ self.old }
        ensures memory { IsOkUnless result Memory }
    {
        if let Some(named) = &self.named {
            return Ok(named.clone()?);
        }
        let named = self.members.named(self.alloc)?;
        let txs = Shared::new(self.alloc, named)?;
        self.named = Some(txs.clone()?);
        Ok(txs)
    }

    /// An equal pool that shares the transactions. Fails only with `Fault::Memory`, and never if
    /// the pool is empty.
    pub fn copy(&self) -> Result<Pool, Fault>
        ensures same { IfOk result (λ copy. copy ≡ self.now) }
        ensures none { self.now.list ≡ [] → IsOk result }
        ensures memory { IsOkUnless result Memory }
    {
        Ok(Pool {
            alloc: self.alloc,
            members: self.members.copy(self.alloc)?,
            next: self.next,
            named: None,
        })
    }
}
