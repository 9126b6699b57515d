ghost use Rattle.std.specs.Prelude.{◌≡◌, ◌+◌, ◌<◌, ◌≤◌, IfOk, IsOk, IsOkUnless, OnOk, OnErr, IsTrue, Some};
ghost use Rattle.std.specs.FinMap as map;
ghost use Rattle.cb_base.specs.declared.fault.Fault.TheVariants.{Memory};
ghost use Rattle.cb_ledger.specs.Undo.{set_at};

use cb_base::{Fault, Seed};
use cb_block::OutPoint;
use std::alloc::Global;
use std::collections::HashMap;
use std::marker::Model;

/// The UTXO set. Contracts see a finite map from outpoints to values in satoshis, and the room that
/// is reserved: for how many more outputs it can take without allocating.
pub struct Ledger {
    pub(crate) alloc: Global,
    outputs: HashMap<OutPoint, i64, Seed>,
}

impl Model for Ledger {
    ghost use Rattle.std.specs.FinMap as map;
    ghost use Rattle.std.specs.HashMap.{spare};
    ghost use Rattle.cb_ledger.specs.Unspent.{Held, coded_held};

    ghost Value = { Held };

    ghost coded = { coded_held };

    ghost view = { λ ledger.
        record { unspent = map.from_entries ledger.outputs.entries; room = spare ledger.outputs } };
}

impl Drop for Ledger {
    fn drop(self) {
        let Ledger {
            alloc: _,
            outputs: _,
        } = self;
    }
}

impl Ledger {
    /// An empty ledger: nothing is unspent. Its table has this seed, and so have the tables of all
    /// changes over it. The seed changes no result.
    pub fn with_seed(alloc: Global, seed: Seed) -> Ledger
        ensures { result.unspent ≡ map.empty }
    {
        Ledger {
            alloc,
            outputs: HashMap::with_hasher(alloc, seed),
        }
    }

    /// The seed of the ledger's table.
    pub fn seed(&self) -> Seed {
        *self.outputs.hasher()
    }

    /// The value of an unspent output in satoshis. None if it isn't unspent.
    pub fn value(&self, point: &OutPoint) -> Option<i64>
        ensures { result ≡ map.get self.now.unspent point.now }
    {
        self.outputs.get(point).copied()
    }

    /// Whether the output is unspent.
    pub fn has(&self, point: &OutPoint) -> bool
        ensures { result ≡ map.contains_key self.now.unspent point.now }
    {
        self.outputs.contains_key(point)
    }

    /// Reserves room for `places` more unspent outputs. Fails only with `Fault::Memory`, and never
    /// if there is that much room already. The UTXO set is unchanged in any case.
    pub fn reserve(&mut self, places: usize) -> Result<(), Fault>
        ensures same { self.new.unspent ≡ self.old.unspent }
        ensures ok { OnOk result (places ≤ self.new.room) }
        ensures enough { places ≤ self.old.room → IsOk result }
        ensures room { self.old.room ≤ self.new.room }
        ensures memory { IsOkUnless result Memory }
    {
        self.outputs.reserve(places)?;
        Ok(())
    }

    /// Sets an outpoint to a value, or removes it. Returns what it had. There must be room for one
    /// output.
    pub(crate) fn set(&mut self, point: OutPoint, value: Option<i64>) -> Option<i64>
        requires { 0 < self.old.room }
        ensures before { result ≡ map.get self.old.unspent point }
        ensures after { self.new.unspent ≡ set_at self.old.unspent point value }
        ensures room { self.old.room ≤ self.new.room + 1 }
    {
        match value {
            Some(value) => {
                let had: Result<_, _> = self.outputs.insert(point, value);
                had.unwrap()
            }
            None => self.outputs.remove(&point),
        }
    }

    /// Returns an equal ledger. Fails only with `Fault::Memory`. An empty ledger never fails.
    pub fn copy(&self) -> Result<Ledger, Fault>
        ensures same { IfOk result (λ copy. copy.unspent ≡ self.now.unspent) }
        ensures none { self.now.unspent ≡ map.empty → IsOk result }
        ensures memory { IsOkUnless result Memory }
    {
        if self.outputs.is_empty() {
            return Ok(Ledger::with_seed(self.alloc, self.seed()));
        }
        let outputs = self.outputs.clone()?;
        Ok(Ledger {
            alloc: self.alloc,
            outputs,
        })
    }
}
