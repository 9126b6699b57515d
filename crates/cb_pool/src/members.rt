ghost use Rattle.std.specs.Prelude.{◌≡◌, ◌+◌, ◌<◌, ◌≤◌, ◌^◌, ◌++◌, ◌∷◌, [], false, length, slice_get, All, Err, IfOk, IsOk, IsOkUnless, IsTrue, MatchOption, None, OnOk, Some};
ghost use Rattle.cb_base.specs.declared.fault.Fault.TheVariants.{Memory};
ghost use Rattle.cb_ledger.specs.Spend.{spend};
ghost use Rattle.cb_pool.specs.Leaving.{touched_by};
ghost use Rattle.cb_pool.specs.Listing.{NamesDiffer, txs_of};
ghost use Rattle.cb_pool.specs.Rules.{Applies, Refuses, StandsAlone, is_named_in, named_in};
ghost use Rattle.cb_block.specs.Txid.{txid_of};
ghost use Rattle.cb_pool.specs.Touching.{AreApart};
ghost use Rattle.cb_pool.specs.Values.{IsValueAfter};

use crate::apart::keeps;
use crate::candidate::Candidate;
use crate::checking::fault_over;
use crate::coins::{make_outputs, spend_outputs, value_of};
use cb_base::{Fault, Hash256, Seed};
use cb_block::{OutPoint, Tx};
use cb_compact::NamedTx;
use cb_ledger::Ledger;
use indexmap::IndexMap;
use indexmap::map::IntoValues;
use std::alloc::{AllocError, Global};
use std::collections::HashMap;
use std::marker::Model;

/// The largest number of transactions in a pool.
pub const MOST_TXS: usize = 10_000;

/// A transaction of a pool with its arrival number.
#[derive(Drop)]
pub struct Pooled {
    pub(crate) tx: Candidate,
    pub(crate) number: u64,
}

impl Clone for Pooled {
    ghost is_clone = { λ pooled clone. clone ≡ pooled };

    fn clone(&self) -> Result<Pooled, AllocError>
        ensures { IfOk result (λ clone. clone ≡ self.now) }
    {
        Ok(Pooled {
            tx: self.tx.clone()?,
            number: self.number,
        })
    }
}

/// The transactions of a pool by their txids, in order. `coins` has each output that they spend or
/// make: its value after all of them, or `None` if it is spent. Contracts see the list of the
/// transactions, and how many more entries there is room for.
pub(crate) struct Members {
    pub(crate) entries: IndexMap<Hash256, Pooled, Seed>,
    pub(crate) coins: HashMap<OutPoint, Option<i64>, Seed>,
}

impl Model for Members {
    ghost use Rattle.std.specs.HashMap.{spare};
    ghost use Rattle.indexmap.specs.IndexMap as index;
    ghost use Rattle.cb_pool.specs.Listing.{Roomy};

    ghost Value = { Roomy };

    ghost use Rattle.cb_pool.specs.Leaving.{AreMembers};

    ghost view = { λ members.
        record {
          list = index.values members.entries;
          places = index.spare members.entries;
          coins = spare members.coins;
        } };

    ghost invariant = { λ members. AreMembers members.entries.entries (index.values members.entries)
        members.coins.entries };
}

impl Drop for Members {
    fn drop(self) {
        let Members {
            entries: _,
            coins: _,
        } = self;
    }
}

impl Members {
    /// No transactions. The tables have this seed.
    pub(crate) fn new(alloc: Global, seed: Seed) -> Members
        ensures { result.list ≡ [] }
    {
        Members {
            entries: IndexMap::with_hasher(alloc, seed),
            coins: HashMap::with_hasher(alloc, seed),
        }
    }

    /// The seed of the tables.
    pub(crate) fn seed(&self) -> Seed {
        *self.entries.hasher()
    }

    /// Reserves room for `places` more transactions and `coins` more outputs that they spend or
    /// make. Fails only with `Fault::Memory`, and never if there is that much room already. The
    /// list stays the same in every case.
    pub(crate) fn reserve(&mut self, places: usize, coins: usize) -> Result<(), Fault>
        ensures same { self.new.list ≡ self.old.list }
        ensures places { OnOk result (places ≤ self.new.places) }
        ensures coins { OnOk result (coins ≤ self.new.coins) }
        ensures enough { places ≤ self.old.places → coins ≤ self.old.coins → IsOk result }
        ensures memory { IsOkUnless result Memory }
    {
        self.entries.reserve(places)?;
        self.coins.reserve(coins)?;
        Ok(())
    }

    /// The first reason why the transaction can't be appended: `Fault::Known`, `Fault::NoInput`,
    /// `Fault::Overspent`, `Fault::Remade` or `Fault::PoolFull`. `None` if it can. The list must be
    /// spendable in order over the ledger. Nothing is allocated.
    pub(crate) fn fault_of(&self, ledger: &Ledger, candidate: &Candidate) -> Option<Fault>
        requires { IsOk (spend ledger.now.unspent (txs_of self.now.list)) }
        ensures { MatchOption result
            (Applies ledger.now.unspent (txs_of self.now.list) candidate.now)
            (λ fault. Refuses ledger.now.unspent (txs_of self.now.list) candidate.now fault) }
    {
        let (txid, tx) = (candidate.txid(), candidate.tx());
        if self.entries.contains_key(&txid) {
            return Some(Fault::Known);
        }
        if let Some(fault) = fault_over(&self.coins, ledger, txid, tx) {
            return Some(fault);
        }
        if self.entries.len() >= MOST_TXS {
            return Some(Fault::PoolFull);
        }
        None
    }

    /// The value of an output that is unspent after the list, or `None`. The list must be spendable
    /// in order over the ledger.
    pub(crate) fn value(&self, ledger: &Ledger, point: &OutPoint) -> Option<i64>
        requires { IsOk (spend ledger.now.unspent (txs_of self.now.list)) }
        ensures { IsValueAfter ledger.now.unspent (txs_of self.now.list) point.now result }
    {
        value_of(&self.coins, ledger, point)
    }

    /// Appends a transaction whose txid is new. There must be room for it.
    pub(crate) fn push(&mut self, candidate: Candidate, number: u64)
        requires fresh { is_named_in (txs_of self.old.list) (txid_of candidate) ≡ false }
        requires fits { length self.old.list < 10000 }
        requires places { 0 < self.old.places }
        requires coins { touched_by candidate ≤ self.old.coins }
        ensures list { self.new.list
            ≡ self.old.list ++ record { tx = candidate; number = number } ∷ [] }
        ensures places { self.old.places ≤ self.new.places + 1 }
        ensures coins { self.old.coins ≤ self.new.coins + touched_by candidate }
    {
        let txid = candidate.txid();
        spend_outputs(&mut self.coins, candidate.tx().inputs.as_slice());
        make_outputs(&mut self.coins, txid, candidate.tx().outputs.as_slice());
        let tx = Pooled {
            tx: candidate,
            number,
        };
        let had: Result<_, _> = self.entries.insert(txid, tx);
        had.unwrap();
    }

    /// Whether the transaction spends or makes no output that one of the list spends or makes. With
    /// more than 4,294,967,296 outputs the answer may be false although nothing is in common.
    pub(crate) fn is_apart_from(&self, txid: Hash256, tx: &Tx) -> bool
        requires name { txid ≡ txid_of tx.now }
        ensures apart { IsTrue result → AreApart (txs_of self.now.list) (tx.now ∷ []) }
        ensures seen { AreApart (txs_of self.now.list) (tx.now ∷ []) →
            length tx.now.outputs ≤ 2 ^ 32 → IsTrue result }
    {
        keeps(&self.coins, txid, tx)
    }

    /// The transaction with this txid.
    pub(crate) fn get(&self, txid: &Hash256) -> Option<&Candidate>
        ensures { MatchOption result (named_in (txs_of self.now.list) txid.now ≡ None)
            (λ tx. named_in (txs_of self.now.list) txid.now ≡ Some tx.now) }
    {
        match self.entries.get(txid) {
            Some(pooled) => Some(&pooled.tx),
            None => None,
        }
    }

    /// The transaction at a place, counted from 0.
    pub(crate) fn at(&self, place: usize) -> Option<&Candidate>
        ensures { MatchOption result (slice_get (txs_of self.now.list) place ≡ None)
            (λ tx. slice_get (txs_of self.now.list) place ≡ Some tx.now) }
    {
        match self.entries.get_index(place) {
            Some((_, pooled)) => Some(&pooled.tx),
            None => None,
        }
    }

    /// Gives out the transactions with their numbers, in order.
    pub(crate) fn into_list(self) -> IntoValues<Hash256, Pooled>
        ensures { result ≡ self.list }
    {
        let Members { entries, coins: _ } = self;
        entries.into_values()
    }

    /// The number of transactions, at most 10,000.
    pub(crate) fn len(&self) -> usize
        ensures len { result ≡ length self.now.list }
        ensures few { result ≤ 10000 }
        ensures alone { All StandsAlone (txs_of self.now.list) }
        ensures names { NamesDiffer (txs_of self.now.list) }
    {
        self.entries.len()
    }

    /// The transactions with their txids, in order. Fails only with `Fault::Memory`.
    pub(crate) fn named(&self, alloc: Global) -> Result<Vec<NamedTx>, Fault>
        ensures exact { IfOk result (λ named. named.items ≡ txs_of self.now.list) }
        ensures memory { IsOkUnless result Memory }
    {
        let mut named = Vec::with_capacity(alloc, self.entries.len())?;
        for pooled in self.entries.values() {
            named.push(pooled.tx.named()?)?;
        }
        Ok(named)
    }

    /// A copy that shares the transactions. Fails only with `Fault::Memory`, and never if there are
    /// no transactions.
    pub(crate) fn copy(&self, alloc: Global) -> Result<Members, Fault>
        ensures same { IfOk result (λ copy. copy.list ≡ self.now.list) }
        ensures none { self.now.list ≡ [] → IsOk result }
        ensures memory { IsOkUnless result Memory }
    {
        if self.entries.is_empty() {
            return Ok(Members::new(alloc, self.seed()));
        }
        Ok(Members {
            entries: self.entries.clone()?,
            coins: self.coins.clone()?,
        })
    }
}
