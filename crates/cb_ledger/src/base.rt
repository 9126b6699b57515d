ghost use Rattle.std.specs.Prelude.{◌≡◌, [], IfOk, IsOk, IsOkUnless};
ghost use Rattle.std.specs.FinMap as map;
ghost use Rattle.cb_base.specs.declared.fault.Fault.TheVariants.{Memory};
ghost use Rattle.cb_ledger.specs.Undo.{changed, values_of};

use crate::ledger::Ledger;
use crate::overlay::Overlay;
use crate::undo::{CoinChange, Undo};
use cb_base::{Fault, Seed};
use cb_block::OutPoint;
use std::alloc::Global;
use std::marker::Model;

/// What an overlay lies on: a ledger, and changes that were already made over it. Contracts see the
/// unspent outputs after these changes.
#[derive(Drop)]
pub(crate) struct Base<'a> {
    ledger: &'a Ledger,
    changes: &'a Overlay,
}

impl<'a> Model for Base<'a> {
    ghost use Rattle.std.specs.FinMap as map;
    ghost use Rattle.cb_ledger.specs.Unspent.{Unspent, coded_unspent};

    ghost Value = { Unspent };

    ghost coded = { coded_unspent };

    ghost use Rattle.cb_ledger.specs.Undo.{changed};

    ghost view = { λ base. changed base.ledger.now.unspent base.changes.now };
}

impl<'a> Base<'a> {
    pub(crate) fn new(ledger: &'a Ledger, changes: &'a Overlay) -> Base<'a>
        ensures { result ≡ changed ledger.entry.now.unspent changes.entry.now }
    {
        Base { ledger, changes }
    }

    /// The seed of the ledger's table.
    pub(crate) fn seed(&self) -> Seed {
        self.ledger.seed()
    }

    /// The value of an unspent output in satoshis. None if it isn't unspent.
    pub(crate) fn value(&self, point: &OutPoint) -> Option<i64>
        ensures { result ≡ map.get self.now point.now }
    {
        match self.changes.change(point) {
            Some(value) => value,
            None => self.ledger.value(point),
        }
    }

    /// What the outpoints of these changes have here: the undo record of the changes.
    pub(crate) fn values(&self, alloc: Global, changes: &Undo) -> Result<Undo, Fault>
        ensures same { IfOk result (λ values. values ≡ values_of self.now changes.now) }
        ensures none { changes.now ≡ [] → IsOk result }
        ensures memory { IsOkUnless result Memory }
    {
        let all = changes.changes.as_slice();
        let mut values = Vec::with_capacity(alloc, all.len())?;
        for change in all {
            let point = change.point;
            let value = self.value(&point);
            values.push(CoinChange { point, value })?;
        }
        Ok(Undo { changes: values })
    }
}
