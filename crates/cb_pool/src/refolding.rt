ghost use Rattle.std.specs.Prelude.{◌≡◌, ◌+◌, ◌≤◌, ◌++◌, [], length, map, List, IfOk, IsOk, IsOkUnless, OnErr, OnOk};
ghost use Rattle.cb_base.specs.declared.fault.Fault.TheVariants.{Memory};
ghost use Rattle.cb_ledger.specs.Spend.{spend};
ghost use Rattle.cb_pool.specs.Folding.{HasRoom, Refolds, Took, new_offer, old_offer};
ghost use Rattle.cb_pool.specs.Leaving.{touched_by_all};
ghost use Rattle.cb_pool.specs.Listing.{AreNumbered, txs_of};

use crate::candidate::Candidate;
use crate::members::{Members, Pooled};
use crate::pool::Pool;
use cb_base::Fault;
use cb_ledger::Ledger;
use std::alloc::Global;
use std::marker::Model;
use std::mem;

/// A plan for refolding: rebuilding the pool over another UTXO set, as Bitcoin Core does in
/// `MaybeUpdateMempoolForReorg`. It has the transactions that are offered first, such as those of
/// disconnected blocks, and room for all. Contracts see it as these transactions and the room.
#[derive(Drop)]
pub struct Refolding {
    first: Vec<Candidate>,
    members: Members,
}

impl Model for Refolding {
    ghost use Rattle.std.specs.Prelude.{◌≡◌, []};
    ghost use Rattle.cb_pool.specs.Listing.{Plan};

    ghost Value = { Plan };

    ghost view = { λ plan.
        record {
          first = plan.first.items;
          places = plan.members.places;
          coins = plan.members.coins;
        } };

    ghost invariant = { λ plan. plan.members.list ≡ [] };
}

/// The number of outputs that these transactions spend or make. Fails with `Fault::Memory` if it
/// exceeds `usize`.
fn touched_by_first(first: &[Candidate]) -> Result<usize, Fault>
    ensures sum { IfOk result (λ sum. sum ≡ touched_by_all first.now) }
    ensures none { first.now ≡ [] → IsOk result }
    ensures memory { IsOkUnless result Memory }
{
    let mut sum = 0usize;
    for candidate in first {
        let Some(more) = sum.checked_add(candidate.touched()) else {
            return Err(Fault::Memory);
        };
        sum = more;
    }
    Ok(sum)
}

/// `more`, plus the number of outputs that a pool's transactions spend or make. Fails with
/// `Fault::Memory` if the sum exceeds `usize`.
fn touched_by_members(members: &Members, more: usize) -> Result<usize, Fault>
    ensures sum { IfOk result (λ sum. sum ≡ more + touched_by_all (txs_of members.now.list)) }
    ensures none { members.now.list ≡ [] → IsOk result }
    ensures memory { IsOkUnless result Memory }
{
    let mut sum = more;
    for pooled in members.entries.values() {
        let Some(next) = sum.checked_add(pooled.tx.touched()) else {
            return Err(Fault::Memory);
        };
        sum = next;
    }
    Ok(sum)
}

/// Appends those that can be taken after the members, each with the next number. Returns the number
/// after the last one's. There must be room for all.
fn take_new(members: &mut Members, ledger: &Ledger, first: Vec<Candidate>, next: u64) -> u64
    requires applies { IsOk (spend ledger.now.unspent (txs_of members.old.list)) }
    requires places { length first.items ≤ members.old.places }
    requires coins { touched_by_all first.items ≤ members.old.coins }
    ensures took { Took ledger.now.unspent
        (map new_offer first.items) [] next members.old.list members.new.list result }
    ensures applies { IsOk (spend ledger.now.unspent (txs_of members.new.list)) }
    ensures numbers { (others : List Pooled) → AreNumbered (members.old.list ++ others) next →
        AreNumbered (members.new.list ++ others) result }
    ensures places { members.old.places ≤ members.new.places + length first.items }
    ensures coins { members.old.coins ≤ members.new.coins + touched_by_all first.items }
{
    let mut next = next;
    for candidate in first {
        if members.fault_of(ledger, &candidate).is_none() {
            members.push(candidate, next);
            next = next.saturating_add(1);
        }
    }
    next
}

/// Appends those of an old pool that can be taken after the members. Each keeps its number. There
/// must be room for all.
fn take_old(members: &mut Members, ledger: &Ledger, old: Members, next: u64)
    requires applies { IsOk (spend ledger.now.unspent (txs_of members.old.list)) }
    requires places { length old.list ≤ members.old.places }
    requires coins { touched_by_all (txs_of old.list) ≤ members.old.coins }
    requires numbers { AreNumbered (members.old.list ++ old.list) next }
    ensures took { Took ledger.now.unspent
        (map old_offer old.list) [] next members.old.list members.new.list next }
    ensures applies { IsOk (spend ledger.now.unspent (txs_of members.new.list)) }
    ensures numbers { AreNumbered members.new.list next }
{
    for pooled in old.into_list() {
        let Pooled { tx, number } = pooled;
        if members.fault_of(ledger, &tx).is_none() {
            members.push(tx, number);
        }
    }
}

impl Pool {
    /// Makes a plan for rebuilding the pool over another UTXO set. The transactions `first` are
    /// offered before the pool's own. All memory is allocated here, so `refold_with` can't fail,
    /// and the ledger and the pool can change together or not at all. The pool doesn't change yet.
    ///
    /// Fails only with `Fault::Memory`, and never if `first` and the pool are both empty.
    pub fn refolding(&self, first: Vec<Candidate>) -> Result<Refolding, Fault>
        ensures first { IfOk result (λ plan. plan.first ≡ first.items) }
        ensures room { IfOk result (λ plan. HasRoom plan self.now.list) }
        ensures none { first.items ≡ [] → self.now.list ≡ [] → IsOk result }
        ensures memory { IsOkUnless result Memory }
    {
        let coins = touched_by_first(first.as_slice())?;
        let coins = touched_by_members(&self.members, coins)?;
        let mut members = Members::new(self.alloc, self.members.seed());
        members.reserve(first.len() + self.members.len(), coins)?;
        Ok(Refolding { first, members })
    }

    /// Rebuilds the pool by a plan that has room for it. The plan's first transactions and then the
    /// pool's own are offered in order. Each is taken if it can be spent over the ledger after
    /// those taken before it, no taken one has its txid, and fewer than 10,000 are taken. The
    /// pool's own transactions keep their numbers, and the others get the next ones, although they
    /// come first.
    ///
    /// No transaction is hashed or copied, and each input and output is looked up once.
    pub fn refold_with(&mut self, ledger: &Ledger, plan: Refolding)
        requires { HasRoom plan self.old.list }
        ensures folds { Refolds ledger.now.unspent plan.first self.old self.new }
        ensures applies { IsOk (spend ledger.now.unspent (txs_of self.new.list)) }
    {
        let Refolding { first, members } = plan;
        let mut members = members;
        let next = take_new(&mut members, ledger, first, self.next);
        let none = Members::new(self.alloc, members.seed());
        let old = mem::replace(&mut self.members, none);
        take_old(&mut members, ledger, old, next);
        self.members = members;
        self.next = next;
        self.named = None;
    }

    /// Rebuilds the pool over another UTXO set, with the transactions `first` before its own:
    /// `refolding` and `refold_with` in one call.
    ///
    /// Fails only with `Fault::Memory`, and never if `first` and the pool are both empty; the pool
    /// is then unchanged.
    pub fn refold(&mut self, ledger: &Ledger, first: Vec<Candidate>) -> Result<(), Fault>
        ensures folds { OnOk result (Refolds ledger.now.unspent first.items self.old self.new) }
        ensures applies { OnOk result (IsOk (spend ledger.now.unspent (txs_of self.new.list))) }
        ensures err { OnErr result (self.new ≡ self.old) }
        ensures none { first.items ≡ [] → self.old.list ≡ [] → IsOk result }
        ensures memory { IsOkUnless result Memory }
    {
        let plan = self.refolding(first)?;
        self.refold_with(ledger, plan);
        Ok(())
    }
}
