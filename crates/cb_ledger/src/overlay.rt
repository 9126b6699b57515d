ghost use Rattle.std.specs.Prelude.{◌≡◌, ◌<◌, ◌≤◌, ◌^◌, [], length, unwrap_or, All, Err, IfOk, IsOk, IsOkUnless, OnOk, OnErr};
ghost use Rattle.std.specs.FinMap as map;
ghost use Rattle.std.specs.HashMap.{spare};
ghost use Rattle.cb_base.specs.declared.fault.Fault.TheVariants.{Memory};
ghost use Rattle.cb_ledger.specs.Spend.{spend, Tells};
ghost use Rattle.cb_ledger.specs.Touched.{Touches};
ghost use Rattle.cb_ledger.specs.Undo.{LeadsBack, changed, changes_of, set_at};
ghost use Rattle.cb_ledger.specs.Unspent.{Unspent};

use crate::base::Base;
use crate::checking::changes_over;
use crate::ledger::Ledger;
use crate::undo::{CoinChange, Undo};
use cb_base::{Fault, Seed};
use cb_block::{OutPoint, SoundBlock};
use std::alloc::Global;
use std::collections::HashMap;
use std::marker::Model;

/// What blocks change over a ledger that stays as it is (compare Bitcoin Core's `CCoinsViewCache`).
/// It has each outpoint that the blocks touch, with its value after them, or none if it is spent.
/// Contracts see the list of these changes.
pub struct Overlay {
    touched: HashMap<OutPoint, Option<i64>, Seed>,
}

impl Model for Overlay {
    ghost use Rattle.std.specs.Prelude.{List};
    ghost use Rattle.cb_ledger.specs.Undo.{changes_of};
    ghost use Rattle.cb_ledger.specs.declared.undo.CoinChange.{CoinChange};

    ghost Value = { List CoinChange };

    ghost view = { λ overlay. changes_of overlay.touched.entries };
}

impl Drop for Overlay {
    fn drop(self) {
        let Overlay { touched: _ } = self;
    }
}

/// Adds later changes on top: at an outpoint that both have, theirs wins. There must be room for
/// each of them.
fn put_over(touched: &mut HashMap<OutPoint, Option<i64>, Seed>, changes: &[CoinChange])
    requires { length changes.now ≤ spare touched.old }
    ensures { (u : Unspent) →
        changed u (changes_of touched.new.entries)
        ≡ changed (changed u (changes_of touched.old.entries)) changes.now }
{
    let mut left = changes.len();
    while left > 0 {
        left -= 1;
        let change = changes[left];
        let had: Result<_, _> = touched.insert(change.point, change.value);
        had.unwrap();
    }
}

/// Adds earlier changes below: at an outpoint that both have, the one that is there already wins.
/// There must be room for each of them.
fn put_under(touched: &mut HashMap<OutPoint, Option<i64>, Seed>, changes: &[CoinChange])
    requires { length changes.now ≤ spare touched.old }
    ensures { (u : Unspent) →
        changed u (changes_of touched.new.entries)
        ≡ changed (changed u changes.now) (changes_of touched.old.entries) }
{
    for change in changes {
        if !touched.contains_key(&change.point) {
            let had: Result<_, _> = touched.insert(change.point, change.value);
            had.unwrap();
        }
    }
}

impl Overlay {
    /// An overlay that changes nothing. Its table has this seed, which changes no result.
    pub fn with_seed(alloc: Global, seed: Seed) -> Overlay
        ensures { result ≡ [] }
    {
        Overlay {
            touched: HashMap::with_hasher(alloc, seed),
        }
    }

    /// What the outpoint has after the changes: a value, or none if it is spent. None at the
    /// outside if the changes don't touch it.
    pub(crate) fn change(&self, point: &OutPoint) -> Option<Option<i64>>
        ensures { (u : Unspent) →
            map.get (changed u self.now) point.now ≡ unwrap_or result (map.get u point.now) }
    {
        if self.touched.is_empty() {
            return None;
        }
        self.touched.get(point).copied()
    }

    /// The value of the outpoint after the changes, over a base. None if it isn't unspent.
    pub(crate) fn value(&self, base: &Base<'_>, point: &OutPoint) -> Option<i64>
        ensures { result ≡ map.get (changed base.now self.now) point.now }
    {
        match self.change(point) {
            Some(value) => value,
            None => base.value(point),
        }
    }

    /// Adds a change.
    pub(crate) fn note(&mut self, point: OutPoint, value: Option<i64>) -> Result<(), Fault>
        ensures ok { OnOk result
            ((u : Unspent) → changed u self.new ≡ set_at (changed u self.old) point value) }
        ensures memory { IsOkUnless result Memory }
    {
        self.touched.insert(point, value)?;
        Ok(())
    }

    /// Connects a block over the ledger and the changes so far, as `Ledger::connect` does over a
    /// ledger alone and with the same errors. The ledger stays as it is. After an error the changes
    /// have the same effect as before.
    ///
    /// Returns the undo record for `take_back`.
    pub fn connect(&mut self, ledger: &Ledger, block: &SoundBlock) -> Result<Undo, Fault>
        requires { All (λ tx. length tx.outputs < 2 ^ 32) block.now.txs }
        ensures exact { Tells (spend (changed ledger.now.unspent self.old) block.now.txs)
            (λ _. changed ledger.now.unspent self.new) result }
        ensures err { OnErr result ((u : Unspent) → changed u self.new ≡ changed u self.old) }
        ensures undo { IfOk result
            (λ undo. LeadsBack undo block.now.txs (changed ledger.now.unspent self.old)
            (changed ledger.now.unspent self.new)) }
        // Nothing is allocated before the block spends or creates an output.
        ensures unpaid { result ≡ Err Memory →
            Touches (changed ledger.now.unspent self.old) block.now.txs }
    {
        let base = Base::new(ledger, self);
        let changes = changes_over(ledger.alloc, &base, block)?;
        let undo = base.values(ledger.alloc, &changes)?;
        self.take_back(&changes)?;
        Ok(undo)
    }

    /// Disconnects a block, given its undo record: puts the changes of the record on top of its
    /// own.
    ///
    /// Fails only with `Fault::Memory`, and never for an empty record. The effect is then as
    /// before.
    pub fn take_back(&mut self, undo: &Undo) -> Result<(), Fault>
        ensures ok { OnOk result
            ((u : Unspent) → changed u self.new ≡ changed (changed u self.old) undo.now) }
        ensures err { OnErr result ((u : Unspent) → changed u self.new ≡ changed u self.old) }
        ensures none { undo.now ≡ [] → IsOk result }
        ensures memory { IsOkUnless result Memory }
    {
        let changes = undo.changes.as_slice();
        self.touched.reserve(changes.len())?;
        put_over(&mut self.touched, changes);
        Ok(())
    }

    /// Adapts to a ledger that has changed: puts the changes of `undo`, which lead from the new
    /// ledger back to the old one, below its own.
    ///
    /// Fails only with `Fault::Memory`, and never for an empty record. The effect is then as
    /// before.
    pub fn rest_on(&mut self, undo: &Undo) -> Result<(), Fault>
        ensures ok { OnOk result
            ((u : Unspent) → changed u self.new ≡ changed (changed u undo.now) self.old) }
        ensures err { OnErr result ((u : Unspent) → changed u self.new ≡ changed u self.old) }
        ensures none { undo.now ≡ [] → IsOk result }
        ensures memory { IsOkUnless result Memory }
    {
        let changes = undo.changes.as_slice();
        self.touched.reserve(changes.len())?;
        put_under(&mut self.touched, changes);
        Ok(())
    }

    /// The changes, as a record for `Ledger::exchange`. Fails only with `Fault::Memory`, and never
    /// if there are no changes.
    pub fn into_undo(self, alloc: Global) -> Result<Undo, Fault>
        ensures same { IfOk result (λ undo. undo ≡ self) }
        ensures none { self ≡ [] → IsOk result }
        ensures memory { IsOkUnless result Memory }
    {
        let mut changes = Vec::with_capacity(alloc, self.touched.len())?;
        let Overlay { touched } = self;
        for (point, value) in touched {
            changes.push(CoinChange { point, value })?;
        }
        Ok(Undo { changes })
    }
}
